// The values of the expressions of markup, each of which is counted.
ghost use Rattle.std.specs.Prelude.{◌≡◌};
ghost use Rattle.sv_meaning.specs.Gives.{Evaluates};
ghost use Rattle.sv_meaning.specs.Parts.{part_value};
ghost use Rattle.sv_parts.specs.Counting.{Counts};

use std::alloc::Global;
use sv_code::{Part, Program};
use sv_eval::eval_part;
use sv_meaning::EvalError;
use sv_value::Value;
use sv_view::View;

/// How many parts were evaluated.
#[derive(Drop)]
pub struct Tally {
    pub count: u64,
}

impl Tally {
    /// No part was evaluated.
    pub fn new() -> Tally
        ensures { result ≡ record { count = 0 } }
    {
        Tally { count: 0 }
    }
}

/// The value of a part on a view, or its fault. Either is counted.
pub fn eval(
    alloc: Global,
    program: &Program,
    part: &Part,
    view: &View,
    tally: &mut Tally,
) -> Result<Value, EvalError>
    ensures value { Evaluates result (part_value program.now view.now part.now) }
    ensures counted { Counts result tally.old tally.new }
{
    let Some(count) = tally.count.checked_add(1) else {
        return Err(EvalError::NoMemory);
    };
    tally.count = count;
    eval_part(alloc, program, view, part)
}
