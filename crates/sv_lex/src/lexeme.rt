// The kinds of tokens.

/// The kinds of tokens. `docs/language.md` says what each is written as.
#[derive(Clone, Copy, Debug, PartialEq, Eq)]
pub enum Lexeme {
    /// No text is left.
    End,
    /// Nothing has a reading here.
    Bad,
    /// A name.
    Name,
    /// `$` directly before a name.
    Store,
    /// A whole number.
    Numeral,
    /// A string.
    Quoted,
    /// A word that is no name and that no form is written with.
    Reserved,
    Break,
    Const,
    Continue,
    Else,
    Export,
    False,
    For,
    Function,
    If,
    Import,
    Let,
    Null,
    Return,
    True,
    Undefined,
    While,
    /// `===`
    Same,
    /// `!==`
    NotSame,
    /// `...`
    Dots,
    /// `==`
    EqualEqual,
    /// `!=`
    BangEqual,
    /// `<=`
    LessEqual,
    /// `>=`
    MoreEqual,
    /// `&&`
    AndAnd,
    /// `||`
    OrOr,
    /// `??`
    Nullish,
    /// `++`
    PlusPlus,
    /// `--`
    MinusMinus,
    /// `+=`
    PlusEqual,
    /// `-=`
    MinusEqual,
    /// `*=`
    StarEqual,
    /// `%=`
    PercentEqual,
    /// `=>`
    Arrow,
    /// `$:`
    React,
    /// `(`
    LParen,
    /// `)`
    RParen,
    /// `[`
    LBracket,
    /// `]`
    RBracket,
    /// `{`
    LBrace,
    /// `}`
    RBrace,
    /// `,`
    Comma,
    /// `;`
    Semi,
    /// `.`
    Dot,
    /// `?`
    Question,
    /// `:`
    Colon,
    /// `!`
    Bang,
    /// `-`
    Minus,
    /// `+`
    Plus,
    /// `*`
    Star,
    /// `/`
    Slash,
    /// `%`
    Percent,
    /// `=`
    Equal,
    /// `<`
    Less,
    /// `>`
    More,
    /// A back quote, which begins a template.
    Backquote,
}
