// The forms in which an expression stands in a construct.

/// How an expression stands in a construct.
#[derive(Clone, Copy, Debug, PartialEq, Eq)]
pub enum Form {
    /// As the operand of a prefix operator.
    Operand,
    /// As an expression.
    Whole,
    /// As an expression that may be a quotient, in round brackets or as an argument of `Math.floor` or `Math.trunc`.
    Bracketed,
}
