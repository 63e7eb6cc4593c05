// What an operation gives.
ghost use Rattle.std.specs.Prelude.{◌≡◌};
ghost use Rattle.sv_value.specs.View.{view_of};
ghost use Rattle.sv_ops.specs.Answer.{Gives, gives};
ghost use Rattle.sv_ops.specs.Answers.{Answers};
ghost use Rattle.std.specs.Prelude.{Ok};

use sv_value::Value;

/// A value, and the steps that it costs beside those of the node that it is the value of.
#[derive(Drop)]
pub struct Given {
    pub value: Value,
    pub cost: usize,
}

impl Given {
    /// A value that costs nothing more.
    pub(crate) fn free(value: Value) -> Given
        ensures { Answers (Ok result) (gives (view_of value)) }
    {
        Given { value, cost: 0 }
    }
}
