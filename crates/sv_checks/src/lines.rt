// The lines of a test.
ghost use Rattle.std.specs.Prelude.{◌≡◌, ◌++◌, OnOk, decimal};
ghost use Rattle.sv_checks.specs.Lines as spec;

use crate::quoted::push_quoted;
use std::alloc::Global;
use sv_base::NoMemory;
use sv_select::Verdict;

fn push_number(alloc: Global, out: &mut Vec<u8>, number: u64) -> Result<(), NoMemory>
    ensures { OnOk result (out.new.items ≡ out.old.items ++ decimal number) }
{
    let digits = number.to_string(alloc)?;
    out.extend_from_slice(digits.as_str().as_bytes())?;
    Ok(())
}

fn push_counted(alloc: Global, out: &mut Vec<u8>, word: &str, count: u64) -> Result<(), NoMemory>
    ensures { OnOk result (out.new.items ≡ out.old.items ++ spec.counted_text word.now count) }
{
    out.extend_from_slice(word.as_bytes())?;
    push_number(alloc, out, count)
}

fn push_shown(out: &mut Vec<u8>, word: &str, text: &str) -> Result<(), NoMemory>
    ensures { OnOk result (out.new.items ≡ out.old.items ++ spec.shown_text word.now text.now) }
{
    out.extend_from_slice(word.as_bytes())?;
    push_quoted(out, text)
}

fn push_verdict(alloc: Global, out: &mut Vec<u8>, verdict: &Verdict) -> Result<(), NoMemory>
    ensures { OnOk result (out.new.items ≡ out.old.items ++ spec.verdict_text verdict.now) }
{
    match verdict {
        Verdict::Holds => Ok(out.extend_from_slice(b" ok")?),
        Verdict::Count(count) => push_counted(alloc, out, " failed: found ", *count),
        Verdict::NoMatch => Ok(out.extend_from_slice(b" failed: no match")?),
        Verdict::Text(text) => push_shown(out, " failed: text ", text.as_str()),
        Verdict::Attribute(Some(text)) => push_shown(out, " failed: attr ", text.as_str()),
        Verdict::Attribute(None) => Ok(out.extend_from_slice(b" failed: attr absent")?),
    }
}

// The line of a step by its number, once it was judged.
pub(crate) fn push_line(
    alloc: Global,
    out: &mut Vec<u8>,
    at: u64,
    verdict: &Verdict,
) -> Result<(), NoMemory>
    ensures { OnOk result (out.new.items ≡ out.old.items ++ spec.verdict_line at verdict.now) }
{
    out.extend_from_slice(b"step ")?;
    push_number(alloc, out, at)?;
    push_verdict(alloc, out, verdict)?;
    out.push(b'\n')?;
    Ok(())
}

// The last line of a test.
pub(crate) fn push_sums(
    alloc: Global,
    out: &mut Vec<u8>,
    passed: u64,
    failed: u64,
) -> Result<(), NoMemory>
    ensures { OnOk result (out.new.items ≡ out.old.items ++ spec.sums_line passed failed) }
{
    out.extend_from_slice(b"passed ")?;
    push_number(alloc, out, passed)?;
    out.extend_from_slice(b" failed ")?;
    push_number(alloc, out, failed)?;
    out.push(b'\n')?;
    Ok(())
}
