// What waits in a flush.
ghost use Rattle.std.specs.Prelude.{◌≡◌};
ghost use Rattle.sv_flush.specs.Rounds.{instance_of};
ghost use Rattle.sv_flush.specs.Waits.{waiting_of};

use sv_base::Span;
use sv_instance::Bound;
use sv_value::Inst;

/// A binding callback: the child whose prop is to be bound, what to, and the place of its directive.
#[derive(Clone, Copy, PartialEq, Eq, Debug)]
pub struct Binding {
    pub child: Inst,
    pub bound: Bound,
    pub span: Span,
}

/// An entry of the render queue: the mount callbacks of an instance, or one of its `afterUpdate` callbacks by its place.
#[derive(Clone, Copy, PartialEq, Eq, Debug)]
pub enum Waiting {
    Mounting(Inst),
    AfterUpdate(Inst, usize),
}

impl Waiting {
    // The instance whose callbacks wait.
    pub(crate) fn inst(&self) -> Inst
        ensures { result.number ≡ instance_of (waiting_of self.now) }
    {
        match self {
            Waiting::Mounting(inst) | Waiting::AfterUpdate(inst, _) => *inst,
        }
    }
}
