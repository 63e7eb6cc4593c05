// Bytes that HTML spells otherwise.
ghost use Rattle.std.specs.Prelude.{◌≡◌, ◌++◌, OnOk};
ghost use Rattle.sv_html.specs.Html.{text_byte, text_html, value_byte, bytes_html};

use sv_base::NoMemory;

fn push_text_byte(out: &mut Vec<u8>, byte: u8) -> Result<(), NoMemory>
    ensures { OnOk result (out.new.items ≡ out.old.items ++ text_byte byte) }
{
    match byte {
        b'&' => out.extend_from_slice(b"&amp;")?,
        b'<' => out.extend_from_slice(b"&lt;")?,
        b'>' => out.extend_from_slice(b"&gt;")?,
        _ => out.push(byte)?,
    }
    Ok(())
}

fn push_value_byte(out: &mut Vec<u8>, byte: u8) -> Result<(), NoMemory>
    ensures { OnOk result (out.new.items ≡ out.old.items ++ value_byte byte) }
{
    match byte {
        b'&' => out.extend_from_slice(b"&amp;")?,
        b'"' => out.extend_from_slice(b"&quot;")?,
        _ => out.push(byte)?,
    }
    Ok(())
}

// The text of a text node.
pub(crate) fn push_bytes(out: &mut Vec<u8>, text: &[u8]) -> Result<(), NoMemory>
    ensures { OnOk result (out.new.items ≡ out.old.items ++ text_html text.now) }
{
    for byte in text {
        push_text_byte(out, *byte)?;
    }
    Ok(())
}

// The text of an attribute.
pub(crate) fn push_value(out: &mut Vec<u8>, text: &[u8]) -> Result<(), NoMemory>
    ensures { OnOk result (out.new.items ≡ out.old.items ++ bytes_html text.now) }
{
    for byte in text {
        push_value_byte(out, *byte)?;
    }
    Ok(())
}
