// A page that follows a stream and is printed at each turn.
ghost use Rattle.std.specs.Prelude.{◌≡◌, ◌<◌, ◌≤◌, ◌+◌, ◌^◌, ◌∷◌, [], Err, length, IfOk, OnOk, OnErr};
ghost use Rattle.sv_io.specs.Faults.{Rose};
ghost use Rattle.sv_io.specs.Sink.{with_bytes, AppendsFront};
ghost use Rattle.sv_mirror.specs.Printed as spec;
ghost use Rattle.sv_mirror.specs.Screen.{printed_on, left, Prints};
ghost use Rattle.sv_watch.specs.Mirror.{blank, page_html};
ghost use Rattle.sv_wire.specs.Stream.{Told, behind};

use crate::fault::StreamFault;
use std::alloc::Global;
use sv_base::NoMemory;
use sv_heads::turn_line;
use sv_io::{Sink, SinkError, write_all};
use sv_wire::{FollowError, Follower, Item, Placed};

/// The page that the changes so far made, and how many turns were printed.
#[derive(Drop)]
pub struct Screen {
    pub alloc: Global,
    pub page: Follower,
    pub turns: u64,
}

impl Screen {
    /// The page with nothing on it, and no turn.
    pub fn new(alloc: Global) -> Result<Screen, NoMemory>
        ensures page { IfOk result (λ screen. screen.page ≡ blank) }
        ensures turns { IfOk result (λ screen. screen.turns ≡ 0) }
    {
        let page = Follower::new(alloc)?;
        Ok(Screen {
            alloc,
            page,
            turns: 0,
        })
    }

    /// Brings the changes among items to the page, and prints it at each turn. Answers the fault of the first change that doesn't
    /// fit; no item behind that one is looked at.
    pub fn print_items<K: Sink>(
        &mut self,
        items: &[Placed],
        out: &mut K,
    ) -> Result<Option<StreamFault>, SinkError>
        requires { self.old.turns + length items.now < 2 ^ 64 }
        ensures shown { IfOk result (λ fault. (told : Told) → Prints (K.written out.old) (K.written out.new)
            (printed_on self.old (behind items.now told)) (left fault (printed_on self.new told))) }
        ensures front { OnErr result ((told : Told) → AppendsFront (K.written out.old) (K.written out.new)
            (printed_on self.old (behind items.now told)).turns) }
        ensures few { OnOk result (self.new.turns ≤ self.old.turns + length items.now) }
        ensures later { K.faults out.old ≤ K.faults out.new }
        ensures failed { result ≡ Err SinkError.Failed → Rose (K.faults out.old) (K.faults out.new) }
    {
        for placed in items {
            if let Some(fault) = self.print_item(placed, out)? {
                return Ok(Some(fault));
            }
        }
        Ok(None)
    }

    // The same of one item.
    fn print_item<K: Sink>(
        &mut self,
        placed: &Placed,
        out: &mut K,
    ) -> Result<Option<StreamFault>, SinkError>
        requires { self.old.turns + 1 < 2 ^ 64 }
        ensures shown { IfOk result (λ fault. (told : Told) → Prints (K.written out.old) (K.written out.new)
            (printed_on self.old (behind (placed.now ∷ []) told)) (left fault (printed_on self.new told))) }
        ensures front { OnErr result ((told : Told) → AppendsFront (K.written out.old) (K.written out.new)
            (printed_on self.old (behind (placed.now ∷ []) told)).turns) }
        ensures few { OnOk result (self.new.turns ≤ self.old.turns + 1) }
        ensures later { K.faults out.old ≤ K.faults out.new }
        ensures failed { result ≡ Err SinkError.Failed → Rose (K.faults out.old) (K.faults out.new) }
    {
        match &placed.item {
            Item::Change(change) => match self.page.apply(change) {
                Ok(()) => Ok(None),
                Err(FollowError::Unfit) => Ok(Some(StreamFault::Unfit { at: placed.at })),
                Err(FollowError::NoMemory) => Err(SinkError::NoMemory),
            },
            Item::Turn { target } => {
                self.print_turn(*target, out)?;
                Ok(None)
            }
            Item::End => Ok(None),
        }
    }

    // Prints the page as the next turn.
    fn print_turn<K: Sink>(&mut self, target: bool, out: &mut K) -> Result<(), SinkError>
        requires { self.old.turns + 1 < 2 ^ 64 }
        ensures page { self.new.page ≡ self.old.page }
        ensures turns { OnOk result (self.new.turns ≡ self.old.turns + 1) }
        ensures all { OnOk result (K.written out.new ≡ with_bytes (K.written out.old)
            (spec.turn_text self.old.turns target (page_html self.old.page.tokens))) }
        ensures front { OnErr result (AppendsFront (K.written out.old) (K.written out.new)
            (spec.turn_text self.old.turns target (page_html self.old.page.tokens))) }
        ensures later { K.faults out.old ≤ K.faults out.new }
        ensures failed { result ≡ Err SinkError.Failed → Rose (K.faults out.old) (K.faults out.new) }
    {
        let text = self.turn_text(target)?;
        write_all(out, &text)?;
        self.turns += 1;
        Ok(())
    }

    // The line of the next turn, and the page.
    fn turn_text(&self, target: bool) -> Result<Vec<u8>, NoMemory>
        ensures { IfOk result (λ text. text.items ≡ spec.turn_text self.now.turns target (page_html self.now.page.tokens)) }
    {
        let line = turn_line(self.alloc, self.turns, target)?;
        let page = self.page.html()?;
        let mut text = line.into_bytes();
        text.extend_from_slice(&page)?;
        text.push(b'\n')?;
        Ok(text)
    }
}
