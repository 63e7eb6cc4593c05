// `$` names that move.
ghost use Rattle.std.specs.Prelude.{◌≡◌, ◌≤◌, ◌<◌, ◌+◌, ◌^◌, ℕ, false, length, map, Some};
ghost use Rattle.sv_value.specs.View.{view_of};
ghost use Rattle.sv_numbered.specs.Numbered.{at as found, altered};
ghost use Rattle.sv_store.specs.Kept.{subscriber_of};
ghost use Rattle.sv_store.specs.Stores.{is_subscribed};
ghost use Rattle.sv_states.specs.Moving.{IsThere, name_in, store_in, follower_in, leaves, comes};
ghost use Rattle.sv_states.specs.Moves.{moves_seen, AreReady, AreReadyTo};
ghost use Rattle.sv_states.specs.Assignment.{placed_at, looked, followed, all_followed};
ghost use Rattle.sv_states.specs.Board.{seen_as, IsReady, IsKept};

use crate::board::Board;
use crate::moves::Moves;
use sv_store::Sub;
use sv_value::Value;

impl Board {
    // The `$` names of the variables of a way move, those at its end first.
    pub(crate) fn follow_all(&mut self, cells: &[Sub], moves: &mut Option<Moves>)
        requires kept { IsKept self.old }
        requires made { IsThere (length self.old.stores) (moves_seen moves.old).store }
        requires enough { AreReady self.old.stores (length cells.now) moves.old }
        requires time { self.old.clock + length cells.now < 2 ^ 64 }
        ensures states { seen_as self.new ≡ all_followed (map subscriber_of cells.now) (moves_seen moves.old) (seen_as self.old) }
        ensures kept { IsKept self.new }
        ensures clock { self.new.clock ≤ self.old.clock + length cells.now }
        ensures goal { moves_seen moves.new ≡ moves_seen moves.old }
        ensures left { (n : ℕ) → AreReady self.old.stores (length cells.now + n) moves.old → AreReady self.new.stores n moves.new }
    {
        if let [first, behind @ ..] = cells {
            self.follow_all(behind, moves);
            self.follow(*first, moves);
        }
    }

    // The `$` name of a variable moves, where it has one.
    fn follow(&mut self, at: Sub, moves: &mut Option<Moves>)
        requires kept { IsKept self.old }
        requires made { IsThere (length self.old.stores) (moves_seen moves.old).store }
        requires enough { AreReady self.old.stores 1 moves.old }
        requires time { self.old.clock + 1 < 2 ^ 64 }
        ensures states { seen_as self.new ≡ followed (subscriber_of at) (moves_seen moves.old) (seen_as self.old) }
        ensures kept { IsKept self.new }
        ensures clock { self.new.clock ≤ self.old.clock + 1 }
        ensures goal { moves_seen moves.new ≡ moves_seen moves.old }
        ensures left { (n : ℕ) → AreReady self.old.stores (1 + n) moves.old → AreReady self.new.stores n moves.new }
    {
        if let Some(cell) = self.follower(at) {
            let name = Sub {
                inst: at.inst,
                cell,
            };
            self.leave(name);
            match moves {
                Some(moves) => self.come(name, moves),
                None => self.look(name, None, Value::Undefined),
            }
        }
    }

    // The `$` name of a variable.
    fn follower(&self, at: Sub) -> Option<u8>
        ensures { result ≡ follower_in (found self.now.lives at.inst.number) at.cell }
    {
        self.lives.get(at.inst)?.subscriptions.follower(at.cell)
    }

    // The store that a `$` name looks at.
    fn store_of(&self, name: Sub) -> Option<u32>
        ensures { result ≡ store_in (name_in (found self.now.lives name.inst.number) name.cell) }
    {
        let instance = self.lives.get(name.inst)?;
        instance.subscriptions.find(name.cell)?.store
    }

    // A `$` name leaves the store that it looks at.
    fn leave(&mut self, name: Sub)
        requires { IsKept self.old }
        ensures board { self.new ≡ record self.old { stores = leaves (store_in (name_in (found self.old.lives name.inst.number) name.cell)) (subscriber_of name) self.old.stores } }
        ensures free { is_subscribed self.new.stores (subscriber_of name) ≡ false }
    {
        if let Some(id) = self.store_of(name) {
            self.stores.unsubscribe(id, name);
        }
    }

    // It comes to a store, and has its value.
    fn come(&mut self, name: Sub, moves: &mut Moves)
        requires ready { IsReady self.old }
        requires free { is_subscribed self.old.stores (subscriber_of name) ≡ false }
        requires enough { AreReadyTo self.old.stores 1 moves.old }
        requires time { self.old.clock + 1 < 2 ^ 64 }
        ensures states { seen_as self.new ≡ looked (subscriber_of name) (Some moves.old.store) moves.old.values.value (record (seen_as self.old) { stores = comes (Some moves.old.store) (subscriber_of name) self.old.stores }) }
        ensures ready { IsReady self.new }
        ensures clock { self.new.clock ≡ self.old.clock + 1 }
        ensures goal { moves_seen (Some moves.new) ≡ moves_seen (Some moves.old) }
        ensures left { (n : ℕ) → AreReadyTo self.old.stores (1 + n) moves.old → AreReadyTo (comes (Some moves.old.store) (subscriber_of name) self.old.stores) n moves.new }
    {
        let Some(seat) = moves.seats.pop() else {
            unreachable!()
        };
        self.stores.take_seat(moves.store, name, seat);
        self.look(name, Some(moves.store), moves.values.take());
    }

    // It looks at a store or at none, and takes a value.
    fn look(&mut self, name: Sub, store: Option<u32>, value: Value)
        requires ready { IsReady self.old }
        requires time { self.old.clock + 1 < 2 ^ 64 }
        ensures states { seen_as self.new ≡ looked (subscriber_of name) store (view_of value) (seen_as self.old) }
        ensures ready { IsReady self.new }
        ensures clock { self.new.clock ≡ self.old.clock + 1 }
    {
        self.place(name, store);
        self.take(name, value);
    }

    fn place(&mut self, name: Sub, store: Option<u32>)
        ensures { self.new ≡ record self.old { lives = altered (placed_at name.cell store) self.old.lives name.inst.number } }
    {
        if let Some(instance) = self.lives.get_mut(name.inst) {
            instance.subscriptions.move_to(name.cell, store);
        }
    }
}
