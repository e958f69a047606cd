//! The tokens that have one spelling each: the signs and the reserved words.

/// A sign or a reserved word of the inscription language. Source: the lexis of the language, own choice
/// after CPN ML.
#[derive(Clone, Copy, Debug, PartialEq, Eq)]
pub enum Symbol {
    /// `(`
    OpenParenthesis,
    /// `)`
    CloseParenthesis,
    /// `[`
    OpenBracket,
    /// `]`
    CloseBracket,
    /// `,`
    Comma,
    /// `;`
    Semicolon,
    /// `:`
    Colon,
    /// `=`
    Equal,
    /// `<>`
    NotEqual,
    /// `<`
    Less,
    /// `<=`
    LessOrEqual,
    /// `>`
    Greater,
    /// `>=`
    GreaterOrEqual,
    /// `::`
    DoubleColon,
    /// `^^`
    DoubleCaret,
    /// `^`
    Caret,
    /// `++`
    DoublePlus,
    /// `+`
    Plus,
    /// `-`
    Minus,
    /// `*`
    Star,
    /// `~`
    Tilde,
    /// a backtick
    Backtick,
    /// `@+`
    AtPlus,
    /// `@`
    At,
    /// `#`
    Hash,
    /// `|`
    Bar,
    /// `=>`
    Arrow,
    /// `..`
    DoubleDot,
    /// `_`
    Underscore,
    /// `colset`
    Colset,
    /// `var`
    Var,
    /// `val`
    Val,
    /// `fun`
    Fun,
    /// `with`
    With,
    /// `product`
    Product,
    /// `list`
    List,
    /// `union`
    Union,
    /// `timed`
    Timed,
    /// `unit`
    Unit,
    /// `bool`
    Bool,
    /// `int`
    Int,
    /// `string`
    String,
    /// `if`
    If,
    /// `then`
    Then,
    /// `else`
    Else,
    /// `case`
    Case,
    /// `of`
    Of,
    /// `let`
    Let,
    /// `in`
    In,
    /// `end`
    End,
    /// `foldl`
    Foldl,
    /// `over`
    Over,
    /// `from`
    From,
    /// `do`
    Do,
    /// `andalso`
    Andalso,
    /// `orelse`
    Orelse,
    /// `not`
    Not,
    /// `div`
    Div,
    /// `mod`
    Mod,
    /// `true`
    True,
    /// `false`
    False,
    /// `empty`
    Empty,
    /// `time`
    Time,
}
