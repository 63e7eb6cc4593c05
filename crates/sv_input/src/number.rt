// Numbers that users type.
ghost use Rattle.std.specs.Char.{is_ascii_digit};
ghost use Rattle.std.specs.List.{list_all};
ghost use Rattle.std.specs.Prelude.{◌≡◌, IfOk, min};
ghost use Rattle.sv_input.specs.Number as spec;

use std::alloc::Global;
use sv_base::{NoMemory, Num, Text};

// One more than the greatest size of a number.
const LIMIT: u64 = 1 << 53;

// The number that digits write, or the limit where it is greater.
fn digits_number(digits: &[u8]) -> u64
    ensures { result ≡ min (spec.digits_number digits.now) LIMIT }
{
    let mut number: u64 = 0;
    for byte in digits {
        number = (10 * number + u64::from(byte.saturating_sub(b'0'))).min(LIMIT);
    }
    number
}

fn all_digits(bytes: &[u8]) -> bool
    ensures { result ≡ list_all is_ascii_digit bytes.now }
{
    bytes.iter().all(|byte| byte.is_ascii_digit())
}

// One or more digits.
fn is_numeral(digits: &[u8]) -> bool
    ensures { result ≡ spec.is_numeral digits.now }
{
    !digits.is_empty() && all_digits(digits)
}

/// The whole number that a text writes: an optional minus sign, and one or more digits. `None` exactly where it writes none, or one
/// that is out of the range of numbers.
pub fn number_in(text: &str) -> Option<Num>
    ensures { result ≡ spec.number_in text.now }
{
    let (sign, digits) = match text.as_bytes() {
        [b'-', digits @ ..] => (-1, digits),
        digits => (1, digits),
    };
    if !is_numeral(digits) {
        return None;
    }
    Num::new(sign * digits_number(digits) as i64)
}

/// The plain decimal spelling of the number that a text writes, or an empty text where it writes none in range.
pub fn spelling(alloc: Global, text: &str) -> Result<Text, NoMemory>
    ensures { IfOk result (λ spelling. spelling ≡ spec.spelling text.now) }
{
    match number_in(text) {
        Some(number) => {
            let digits = number.to_string(alloc)?;
            Text::new(alloc, digits.as_str())
        }
        None => Text::new(alloc, ""),
    }
}
