// Laws of bound props, on functions that do nothing.
ghost use Rattle.std.specs.Prelude.{◌≡◌, ◌<◌, ℕ, None};
ghost use Rattle.sv_bound.specs.Up.{HaveAll, Has, IsPlain, IsDeclared, AreSame};
ghost use Rattle.sv_instance.specs.Bound.{Bound};
ghost use Rattle.sv_states.specs.Assignment.{way_of, assigned, handed_down, bound_up};
ghost use Rattle.sv_states.specs.States.{States, live, depth_of};
ghost use Rattle.sv_store.specs.Stores.{Subscriber};
ghost use Rattle.sv_value.specs.Value.{Val};

/// Behind an assignment each cell of its way has the value: the prop that is assigned, the variable that it is bound to, and so on, even where a cell
/// stands on the way twice. Once a binding callback ran, the prop and the variable that it is bound to have the same value. And a prop has what its owner
/// hands down.
pub fn bound_values_go_up()
    ensures assigned { (s : States) (n c : ℕ) (v : Val) → HaveAll (assigned s n c v) v (way_of s n c v).cells }
    ensures bound { (s : States) (n : ℕ) (b : Bound) → IsPlain s n b.cell → IsPlain s b.owner b.target → IsDeclared s n b.cell → IsDeclared s b.owner b.target → 0 < depth_of (live s b.owner) → AreSame (bound_up s n b) n b }
    ensures handed { (s : States) (p : Subscriber) (v : Val) → IsPlain s p.inst p.cell → IsDeclared s p.inst p.cell → Has (handed_down s p v) v p }
{}
