// Looks ahead for an arrow.
ghost use Rattle.std.specs.Prelude.{◌≡◌};
ghost use Rattle.sv_expr.specs.Ahead as spec;

use sv_lex::{Lexeme, first, past, same_lexeme};

#[tactic(auto, unfolding(crate::specs::Ahead::leads))]
fn leads(lexeme: Lexeme, z: &[u8]) -> bool
    ensures { result ≡ spec.leads lexeme z.now }
{
    same_lexeme(first(z), lexeme)
}

#[tactic(auto, unfolding(crate::specs::Ahead::closes))]
fn closes(z: &[u8]) -> bool
    ensures { result ≡ spec.closes z.now }
{
    leads(Lexeme::RParen, z) && leads(Lexeme::Arrow, past(z))
}

// Whether names, a closing bracket and `=>` come.
fn scan(text: &[u8], most: usize) -> bool
    ensures { result ≡ spec.scan most text.now }
{
    let mut z = text;
    for _turn in 0..most {
        if !leads(Lexeme::Name, z) {
            return closes(z);
        }
        z = past(z);
        if !leads(Lexeme::Comma, z) {
            return closes(z);
        }
        z = past(z);
    }
    false
}

/// Whether an arrow comes: a name or names in brackets, and `=>`.
#[tactic(auto, unfolding(crate::specs::Ahead::begins_arrow))]
pub fn begins_arrow(z: &[u8]) -> bool
    ensures { result ≡ spec.begins_arrow z.now }
{
    if leads(Lexeme::LParen, z) {
        scan(past(z), z.len())
    } else {
        leads(Lexeme::Name, z) && leads(Lexeme::Arrow, past(z))
    }
}
