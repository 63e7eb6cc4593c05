// The values of attributes as they are written, and their texts.
ghost use Rattle.std.specs.Prelude.{◌≡◌, option_copied, IfOk};
ghost use Rattle.sv_ops.specs.Texts.{between};
ghost use Rattle.sv_attributes.specs.Values as spec;

use std::alloc::Global;
use sv_base::{NoMemory, Text};
use sv_code::{FragValuePart, Part};
use sv_list::Items;
use sv_shapes::Texts;

/// The expression that a value is, where it is one alone.
pub fn alone(parts: &[FragValuePart]) -> Option<&Part>
    ensures { option_copied result ≡ spec.alone parts.now }
{
    match parts {
        [FragValuePart::Show(part)] => Some(part),
        _ => None,
    }
}

/// Whether nothing of a value is evaluated.
pub fn is_literal(parts: &[FragValuePart]) -> bool
    ensures { result ≡ spec.is_literal parts.now }
{
    for part in parts {
        if matches!(part, FragValuePart::Show(_)) {
            return false;
        }
    }
    true
}

/// The texts of a value that are written.
pub fn written(alloc: Global, parts: &[FragValuePart]) -> Result<Texts, NoMemory>
    ensures { IfOk result (λ texts. texts ≡ spec.written parts.now) }
{
    let mut texts = Items::new(alloc);
    for part in parts {
        if let FragValuePart::Text(text) = part {
            texts.push(text.share()?)?;
        }
    }
    Ok(texts)
}

/// Texts with another between them.
pub fn joined(alloc: Global, separator: &str, texts: &[Text]) -> Result<Text, NoMemory>
    ensures { IfOk result (λ whole. whole ≡ between separator.now texts.now) }
{
    let mut whole = String::new(alloc);
    for (number, text) in texts.iter().enumerate() {
        if number > 0 {
            whole.push_str(separator)?;
        }
        whole.push_str(text.as_str())?;
    }
    Text::new(alloc, whole.as_str())
}
