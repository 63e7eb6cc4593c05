// Texts between double quotes.
ghost use Rattle.std.specs.Prelude.{◌≡◌, ◌++◌, OnOk};
ghost use Rattle.sv_checks.specs.Lines as spec;

use sv_base::NoMemory;

fn push_byte(out: &mut Vec<u8>, byte: u8) -> Result<(), NoMemory>
    ensures { OnOk result (out.new.items ≡ out.old.items ++ spec.quoted_byte byte) }
{
    match byte {
        b'\\' => out.extend_from_slice(b"\\\\")?,
        b'"' => out.extend_from_slice(b"\\\"")?,
        b'\n' => out.extend_from_slice(b"\\n")?,
        _ => out.push(byte)?,
    }
    Ok(())
}

fn push_bytes(out: &mut Vec<u8>, text: &[u8]) -> Result<(), NoMemory>
    ensures { OnOk result (out.new.items ≡ out.old.items ++ spec.quoted_bytes text.now) }
{
    for byte in text {
        push_byte(out, *byte)?;
    }
    Ok(())
}

// A text between double quotes.
pub(crate) fn push_quoted(out: &mut Vec<u8>, text: &str) -> Result<(), NoMemory>
    ensures { OnOk result (out.new.items ≡ out.old.items ++ spec.quoted text.now) }
{
    out.push(b'"')?;
    push_bytes(out, text.as_bytes())?;
    out.push(b'"')?;
    Ok(())
}
