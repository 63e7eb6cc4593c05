// Parts evaluated, and the texts of what they give.
ghost use Rattle.std.specs.Prelude.{◌≡◌, is_some, option_copied};
ghost use Rattle.sv_value.specs.View.{view_of};
ghost use Rattle.sv_value.specs.Words.{text_of as spec_text_of};
ghost use Rattle.sv_shapes.specs.Shapes.{opened};
ghost use Rattle.sv_parts.specs.State.{Meets};
ghost use Rattle.sv_parts.specs.Sides.{sides};
ghost use Rattle.sv_parts.specs.Parts.{evaluated, text_of_part, text_step, marked, literal_step, show_step};

use crate::here::Here;
use crate::refusal::{PatchError, Refusal};
use crate::state::{State, number};
use crate::tally::eval;
use sv_base::Text;
use sv_code::Part;
use sv_meaning::EvalError;
use sv_ops::{Fault, FaultKind};
use sv_shapes::{Held, Shape, mark_of, shown_text};
use sv_value::{Value, ValueFault, text_of};

/// A fault at the place of a part.
pub fn fault_at(kind: FaultKind, part: &Part) -> PatchError
    ensures { result ≡ PatchError.Refused (Refusal.Fault (record { kind = kind; span = part.now.span })) }
{
    PatchError::Refused(Refusal::Fault(Fault {
        kind,
        span: part.span,
    }))
}

/// The value of a part on the present view; it costs an evaluation, and a fault of it is refused.
pub fn evaluate(here: &Here<'_>, part: &Part, state: &mut State) -> Result<Held, PatchError>
    ensures { Meets result state.new (evaluated here.now.program.now part.now (sides here.now) state.old) }
{
    match eval(here.alloc, here.program, part, here.new, &mut state.tally) {
        Ok(value) => Ok(Held::new(value)),
        Err(EvalError::Fault(fault)) => Err(PatchError::Refused(Refusal::Fault(fault))),
        Err(EvalError::NoMemory) => Err(PatchError::NoMemory),
    }
}

// The text of a part; a fault of it is refused, and `NotText` where its value has no text.
fn text_of_shown(here: &Here<'_>, part: &Part, state: &mut State) -> Result<Text, PatchError>
    ensures { Meets result state.new (text_of_part here.now.program.now part.now (sides here.now) state.old) }
{
    match evaluate(here, part, state) {
        Ok(value) => match text_of(here.alloc, value.get()) {
            Ok(text) => Ok(text),
            Err(ValueFault::NotText) => Err(fault_at(FaultKind::NotText, part)),
            Err(_) => Err(PatchError::NoMemory),
        },
        Err(error) => Err(error),
    }
}

/// Whether a value has a text.
pub fn has_text(value: &Value) -> bool
    ensures { result ≡ is_some (spec_text_of (view_of value.now)) }
{
    match value {
        Value::Undefined | Value::Null | Value::Bool(_) | Value::Num(_) | Value::Text(_) => true,
        Value::List(_) | Value::Obj(_) | Value::Func(_) | Value::Store(_) => false,
    }
}

/// The text of a part that had one, or none. It is evaluated where it had none or something that it reads moved; a fault of it is refused, and
/// `NotText` where it has no text.
pub fn renew_text(
    here: &Here<'_>,
    part: &Part,
    old: Option<&Text>,
    state: &mut State,
) -> Result<Text, PatchError>
    ensures { Meets result state.new (text_step here.now.program.now part.now (option_copied old.entry) (sides here.now) state.old) }
{
    match old {
        Some(text) => {
            if here.has_moved(&part.reads) {
                text_of_shown(here, part, state)
            } else {
                Ok(text.share()?)
            }
        }
        None => text_of_shown(here, part, state),
    }
}

// The mark that a text had, or a new one.
fn mark(old: Option<u64>, state: &mut State) -> Result<u64, PatchError>
    ensures { Meets result state.new (marked old state.old) }
{
    match old {
        Some(mark) => Ok(mark),
        None => number(state),
    }
}

/// A text that is written, by the mark that it had or a new one.
pub fn plan_literal(old: Option<u64>, state: &mut State) -> Result<Shape, PatchError>
    ensures { Meets result state.new (literal_step old state.old) }
{
    match mark(old, state) {
        Ok(mark) => Ok(Shape::Literal(mark)),
        Err(error) => Err(error),
    }
}

/// The text of an expression, from what was shown of it before. It is evaluated where it is new or something that it reads moved; a fault of
/// it is refused, and `NotText` where it has no text.
pub fn plan_show(
    here: &Here<'_>,
    part: &Part,
    old: Option<&Shape>,
    state: &mut State,
) -> Result<Shape, PatchError>
    ensures { Meets result state.new (show_step here.now.program.now part.now (sides here.now) (opened (option_copied old.entry)) state.old) }
{
    match renew_text(here, part, shown_text(old), state) {
        Ok(text) => match mark(mark_of(old), state) {
            Ok(mark) => Ok(Shape::Text { mark, text }),
            Err(error) => Err(error),
        },
        Err(error) => Err(error),
    }
}
