// Digits and the numbers that they write.
ghost use Rattle.std.specs.Prelude.{◌≡◌, ◌≤◌, ◌<◌, ◌*◌, ◌^◌, length, min};
ghost use Rattle.sv_lex.specs.Digits as spec;

/// The two kinds of digits.
#[derive(Clone, Copy)]
pub enum Base {
    Ten,
    Sixteen,
}

// The value of a digit, or 16 for what is none.
fn value_of(b: u8) -> u8
    ensures value { result ≡ spec.value_of b }
    ensures small { result ≤ 16 }
{
    match b {
        b'0'..=b'9' => b - b'0',
        b'a'..=b'f' => b - b'a' + 10,
        b'A'..=b'F' => b - b'A' + 10,
        _ => 16,
    }
}

fn size_of(base: Base) -> u8
    ensures { result ≡ spec.size_of base }
{
    match base {
        Base::Ten => 10,
        Base::Sixteen => 16,
    }
}

// The number with a digit 0 behind it.
fn shifted(base: Base, number: u64) -> u64
    requires { number < 2 ^ 58 }
    ensures value { result ≡ spec.size_of base * number }
    ensures small { result < 2 ^ 62 }
{
    match base {
        Base::Ten => 10 * number,
        Base::Sixteen => 16 * number,
    }
}

/// How many digits stand at the front.
pub fn digits_len(base: Base, z: &[u8]) -> usize
    ensures value { result ≡ spec.digits_len base z.now }
    ensures within { result ≤ length z.now }
{
    let mut end = 0;
    while end < z.len() && value_of(z[end]) < size_of(base) {
        end += 1;
    }
    end
}

/// The number that the digits write, or `limit` where it is greater.
pub fn number(base: Base, limit: u64, digits: &[u8]) -> u64
    requires { limit < 2 ^ 58 }
    ensures { result ≡ min (spec.number base digits.now) limit }
{
    let mut number: u64 = 0;
    for b in digits {
        number = (shifted(base, number) + u64::from(value_of(*b))).min(limit);
    }
    number
}
