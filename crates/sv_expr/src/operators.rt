// Tokens that are operators, literals or targets.
ghost use Rattle.std.specs.Prelude.{◌≡◌};
ghost use Rattle.sv_expr.specs.Operators as spec;

use sv_ast::{AssignOp, ExprKind, Op};
use sv_lex::{Lexeme, Tokens, first, past};

// The operator between two operands that a token is.
fn operator(lexeme: Lexeme) -> Option<Op>
    ensures { result ≡ spec.operator lexeme }
{
    match lexeme {
        Lexeme::Nullish => Some(Op::Nullish),
        Lexeme::OrOr => Some(Op::Or),
        Lexeme::AndAnd => Some(Op::And),
        Lexeme::Same => Some(Op::Same),
        Lexeme::NotSame => Some(Op::NotSame),
        Lexeme::EqualEqual => Some(Op::Equal),
        Lexeme::BangEqual => Some(Op::NotEqual),
        Lexeme::Less => Some(Op::Less),
        Lexeme::LessEqual => Some(Op::LessEq),
        Lexeme::More => Some(Op::More),
        Lexeme::MoreEqual => Some(Op::MoreEq),
        Lexeme::Plus => Some(Op::Add),
        Lexeme::Minus => Some(Op::Sub),
        Lexeme::Star => Some(Op::Mul),
        Lexeme::Slash => Some(Op::Div),
        Lexeme::Percent => Some(Op::Rem),
        _ => None,
    }
}

// The group of operators that bind alike, 1 the tightest and 7 the loosest.
fn group(op: Op) -> u8
    ensures { result ≡ spec.group op }
{
    match op {
        Op::Mul | Op::Div | Op::Rem => 1,
        Op::Add | Op::Sub => 2,
        Op::Less | Op::LessEq | Op::More | Op::MoreEq => 3,
        Op::Same | Op::NotSame | Op::Equal | Op::NotEqual => 4,
        Op::And => 5,
        Op::Or => 6,
        Op::Nullish => 7,
    }
}

/// The operator of this group that a token is.
#[tactic(auto, unfolding(crate::specs::Operators::operator_in))]
pub fn operator_in(within: u8, lexeme: Lexeme) -> Option<Op>
    ensures { result ≡ spec.operator_in within lexeme }
{
    match operator(lexeme) {
        Some(op) if group(op) == within => Some(op),
        _ => None,
    }
}

// The operator of an assignment that a token is.
fn assign_op(lexeme: Lexeme) -> Option<AssignOp>
    ensures { result ≡ spec.assign_op lexeme }
{
    match lexeme {
        Lexeme::Equal => Some(AssignOp::Set),
        Lexeme::PlusEqual => Some(AssignOp::Add),
        Lexeme::MinusEqual => Some(AssignOp::Sub),
        Lexeme::StarEqual => Some(AssignOp::Mul),
        Lexeme::PercentEqual => Some(AssignOp::Rem),
        _ => None,
    }
}

// Whether a token counts up or down, if it does.
fn bump(lexeme: Lexeme) -> Option<bool>
    ensures { result ≡ spec.bump lexeme }
{
    match lexeme {
        Lexeme::PlusPlus => Some(true),
        Lexeme::MinusMinus => Some(false),
        _ => None,
    }
}

/// Whether `++` or `--` comes on the line of the last token, and whether it counts up.
#[tactic(auto, unfolding(crate::specs::Operators::bump_behind))]
pub fn bump_behind(tokens: &Tokens<'_>) -> Option<bool>
    ensures { result ≡ spec.bump_behind tokens.now }
{
    if tokens.is_later() {
        None
    } else {
        bump(tokens.peek())
    }
}

/// The value that a word is.
pub fn literal(lexeme: Lexeme) -> Option<ExprKind>
    ensures { result ≡ spec.literal lexeme }
{
    match lexeme {
        Lexeme::True => Some(ExprKind::Bool(true)),
        Lexeme::False => Some(ExprKind::Bool(false)),
        Lexeme::Null => Some(ExprKind::Null),
        Lexeme::Undefined => Some(ExprKind::Undefined),
        _ => None,
    }
}

fn is_target(lexeme: Lexeme) -> bool
    ensures { result ≡ spec.is_target lexeme }
{
    matches!(lexeme, Lexeme::Name | Lexeme::Store)
}

/// Whether a token begins a suffix.
pub fn begins_suffix(lexeme: Lexeme) -> bool
    ensures { result ≡ spec.begins_suffix lexeme }
{
    matches!(lexeme, Lexeme::Dot | Lexeme::LBracket | Lexeme::LParen)
}

/// The operator of the assignment that comes, if one comes.
#[tactic(auto, unfolding(crate::specs::Operators::assigns, sv_lex::specs::Reader::sees, sv_lex::specs::Reader::next))]
pub fn assigns(tokens: &Tokens<'_>) -> Option<AssignOp>
    ensures { result ≡ spec.assigns tokens.now }
{
    if is_target(tokens.peek()) {
        assign_op(first(past(tokens.text())))
    } else {
        None
    }
}
