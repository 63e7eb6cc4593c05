// Operators.

/// The operators of assignments: `=`, `+=`, `-=`, `*=`, `%=`.
#[derive(Clone, Copy, Debug, PartialEq, Eq)]
pub enum AssignOp {
    Set,
    Add,
    Sub,
    Mul,
    Rem,
}

/// The operators between two operands: `??`, `||`, `&&`, `===`, `!==`, `==`, `!=`, `<`, `<=`, `>`, `>=`, `+`, `-`,
/// `*`, `/`, `%`.
#[derive(Clone, Copy, Debug, PartialEq, Eq)]
pub enum Op {
    Nullish,
    Or,
    And,
    Same,
    NotSame,
    Equal,
    NotEqual,
    Less,
    LessEq,
    More,
    MoreEq,
    Add,
    Sub,
    Mul,
    Div,
    Rem,
}
