// The line of a refused turn.
ghost use Rattle.std.specs.Prelude.{◌≡◌, ◌++◌, ◌≤◌, Err, OnOk, OnErr, string_bytes};
ghost use Rattle.sv_io.specs.Faults.{Rose};
ghost use Rattle.sv_io.specs.Sink.{with_bytes, AppendsFront};
ghost use Rattle.sv_play.specs.Refused as spec;

use crate::faults::fault_word;
use std::alloc::Global;
use sv_base::{NoMemory, Span};
use sv_code::Program;
use sv_io::{Sink, SinkError, write_all};
use sv_lines::place_of;
use sv_parts::Refusal;
use sv_value::Key;

/// Appends the line that stands in place of the page where a turn is refused.
#[tactic(auto, unfolding(crate::specs::Refused::refused_line))]
pub fn push_refused(text: &mut String, program: &Program, refusal: &Refusal) -> Result<(), NoMemory>
    requires { spec.LinesAscend program.now }
    ensures { OnOk result (string_bytes text.new ≡ string_bytes text.old ++ spec.refused_line program.now refusal.now) }
{
    match refusal {
        Refusal::Fault(fault) => {
            text.push_str("refused: fault ")?;
            text.push_str(fault_word(fault.kind))?;
            push_at(text, program, fault.span)
        }
        Refusal::Duplicate { span, key } => push_duplicate(text, program, *span, key),
        Refusal::Budget => Ok(text.push_str("refused: budget\n")?),
    }
}

/// Writes that line; or a prefix of it, where a write fails or memory runs out.
pub fn write_refused<K: Sink>(
    alloc: Global,
    program: &Program,
    refusal: &Refusal,
    out: &mut K,
) -> Result<(), SinkError>
    requires { spec.LinesAscend program.now }
    ensures all { OnOk result (K.written out.new ≡ with_bytes (K.written out.old) (spec.refused_line program.now refusal.now)) }
    ensures front { OnErr result (AppendsFront (K.written out.old) (K.written out.new) (spec.refused_line program.now refusal.now)) }
    ensures later { K.faults out.old ≤ K.faults out.new }
    ensures failed { result ≡ Err SinkError.Failed → Rose (K.faults out.old) (K.faults out.new) }
{
    let mut line = String::new(alloc);
    push_refused(&mut line, program, refusal)?;
    write_all(out, line.as_bytes())
}

fn push_duplicate(
    text: &mut String,
    program: &Program,
    span: Span,
    key: &Key,
) -> Result<(), NoMemory>
    requires { spec.LinesAscend program.now }
    ensures { OnOk result (string_bytes text.new ≡ string_bytes text.old ++ spec.duplicate_line program.now span key.now) }
{
    text.push_str("refused: duplicate key ")?;
    push_key(text, key)?;
    push_at(text, program, span)
}

fn push_at(text: &mut String, program: &Program, span: Span) -> Result<(), NoMemory>
    requires { spec.LinesAscend program.now }
    ensures { OnOk result (string_bytes text.new ≡ string_bytes text.old ++ spec.at_place program.now span) }
{
    text.push_str(" at ")?;
    push_place(text, program, span)?;
    Ok(text.push_str("\n")?)
}

// Appends the place where a span begins.
#[tactic(auto, unfolding(crate::specs::Refused::place_in))]
fn push_place(text: &mut String, program: &Program, span: Span) -> Result<(), NoMemory>
    requires { spec.LinesAscend program.now }
    ensures { OnOk result (string_bytes text.new ≡ string_bytes text.old ++ spec.place program.now span) }
{
    let Some(file) = program.files.as_slice().get(span.file as usize) else {
        return Ok(());
    };
    let (line, column) = place_of(&file.lines, span.from);
    text.push_str(file.name.as_str())?;
    Ok(write!(text, ":{line}:{column}")?)
}

#[tactic(auto, unfolding(crate::specs::Refused::key_text))]
fn push_key(text: &mut String, key: &Key) -> Result<(), NoMemory>
    ensures { OnOk result (string_bytes text.new ≡ string_bytes text.old ++ spec.key_text key.now) }
{
    match key {
        Key::Num(number) => Ok(write!(text, "{number}")?),
        Key::Text(name) => {
            text.push_str("\"")?;
            text.push_str(name.as_str())?;
            Ok(text.push_str("\"")?)
        }
        Key::Bool(truth) => Ok(text.push_str(if *truth { "true" } else { "false" })?),
    }
}
