// The members of an object.
ghost use Rattle.std.specs.Prelude.{◌≡◌, option_map};
ghost use Rattle.serde_json.specs.View.{view};
ghost use Rattle.sv_events.specs.Members as spec;

use serde_json::Value;

/// The text that a value is, where it isn't empty.
pub fn filled_text(value: &Value) -> Option<&str>
    ensures { option_map (λ t. t.now) result ≡ spec.filled_text (view value.now) }
{
    let text = value.as_str()?;
    if text.is_empty() { None } else { Some(text) }
}

// The text of a member that is there and isn't empty.
pub(crate) fn filled<'a>(value: &'a Value, key: &str) -> Option<&'a str>
    ensures { option_map (λ t. t.now) result ≡ spec.filled key.now (view value.now) }
{
    filled_text(value.get(key)?)
}

// The text of a member that may be missing.
pub(crate) fn text_at<'a>(value: &'a Value, key: &str) -> Option<Option<&'a str>>
    ensures { option_map (option_map (λ t. t.now)) result ≡ spec.text_at key.now (view value.now) }
{
    match value.get(key) {
        None => Some(None),
        Some(member) => Some(Some(member.as_str()?)),
    }
}

// The truth value of a member that may be missing.
pub(crate) fn flag_at(value: &Value, key: &str) -> Option<Option<bool>>
    ensures { result ≡ spec.flag_at key.now (view value.now) }
{
    match value.get(key) {
        None => Some(None),
        Some(member) => Some(Some(member.as_bool()?)),
    }
}
