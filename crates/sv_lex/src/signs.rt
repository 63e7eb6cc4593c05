// Signs.
ghost use Rattle.std.specs.Prelude.{◌≡◌, ◌≢◌, ◌≤◌, length, OnSome};
ghost use Rattle.sv_lex.specs.Signs as spec;

use crate::front::byte;
use crate::lexeme::Lexeme;

// The signs of three bytes.
fn of_three(b: u8, c: u8, d: u8) -> Option<Lexeme>
    ensures value { result ≡ spec.of_three b c d }
    ensures within { OnSome result (d ≢ 0) }
{
    if c == b'=' && d == b'=' {
        match b {
            b'=' => Some(Lexeme::Same),
            b'!' => Some(Lexeme::NotSame),
            _ => None,
        }
    } else if b == b'.' && c == b'.' && d == b'.' {
        Some(Lexeme::Dots)
    } else {
        None
    }
}

fn with_equal(b: u8) -> Option<Lexeme>
    ensures { result ≡ spec.with_equal b }
{
    match b {
        b'=' => Some(Lexeme::EqualEqual),
        b'!' => Some(Lexeme::BangEqual),
        b'<' => Some(Lexeme::LessEqual),
        b'>' => Some(Lexeme::MoreEqual),
        b'+' => Some(Lexeme::PlusEqual),
        b'-' => Some(Lexeme::MinusEqual),
        b'*' => Some(Lexeme::StarEqual),
        b'%' => Some(Lexeme::PercentEqual),
        _ => None,
    }
}

fn doubled(b: u8) -> Option<Lexeme>
    ensures { result ≡ spec.doubled b }
{
    match b {
        b'&' => Some(Lexeme::AndAnd),
        b'|' => Some(Lexeme::OrOr),
        b'?' => Some(Lexeme::Nullish),
        b'+' => Some(Lexeme::PlusPlus),
        b'-' => Some(Lexeme::MinusMinus),
        _ => None,
    }
}

// The signs of two bytes.
fn of_two(b: u8, c: u8) -> Option<Lexeme>
    ensures value { result ≡ spec.of_two b c }
    ensures within { b ≢ 0 → OnSome result (c ≢ 0) }
{
    if c == b'=' {
        with_equal(b)
    } else if c == b {
        doubled(b)
    } else if b == b'=' && c == b'>' {
        Some(Lexeme::Arrow)
    } else if b == b'$' && c == b':' {
        Some(Lexeme::React)
    } else {
        None
    }
}

fn operator(b: u8) -> Lexeme
    ensures { result ≡ spec.operator b }
{
    match b {
        b'?' => Lexeme::Question,
        b':' => Lexeme::Colon,
        b'!' => Lexeme::Bang,
        b'-' => Lexeme::Minus,
        b'+' => Lexeme::Plus,
        b'*' => Lexeme::Star,
        b'/' => Lexeme::Slash,
        b'%' => Lexeme::Percent,
        b'=' => Lexeme::Equal,
        b'<' => Lexeme::Less,
        b'>' => Lexeme::More,
        b'`' => Lexeme::Backquote,
        _ => Lexeme::Bad,
    }
}

// The signs of one byte, and `Bad` for what is none.
fn of_one(b: u8) -> Lexeme
    ensures { result ≡ spec.of_one b }
{
    match b {
        b'(' => Lexeme::LParen,
        b')' => Lexeme::RParen,
        b'[' => Lexeme::LBracket,
        b']' => Lexeme::RBracket,
        b'{' => Lexeme::LBrace,
        b'}' => Lexeme::RBrace,
        b',' => Lexeme::Comma,
        b';' => Lexeme::Semi,
        b'.' => Lexeme::Dot,
        _ => operator(b),
    }
}

/// The longest sign at the front and its bytes, or `Bad` for one byte where there is none.
#[tactic(auto, unfolding(crate::specs::Signs::sign))]
pub fn sign(z: &[u8]) -> (Lexeme, usize)
    requires { 1 ≤ length z.now }
    ensures value { result ≡ spec.sign z.now }
    ensures within { result.1 ≤ length z.now }
{
    let (b, c) = (z[0], byte(z, 1));
    if let Some(lexeme) = of_three(b, c, byte(z, 2)) {
        return (lexeme, 3);
    }
    match of_two(b, c) {
        Some(lexeme) => (lexeme, 2),
        None => (of_one(b), 1),
    }
}
