//! The operators of inscriptions.

/// An operator between two operands. Source: the operators of CPN ML, with the multiset forms of its arc
/// inscriptions.
#[derive(Clone, Copy, Debug, PartialEq, Eq)]
pub enum Infix {
    /// `@+`, a token with a delay
    Later,
    /// a backtick, so many tokens of a value
    Times,
    /// `orelse`
    Orelse,
    /// `andalso`
    Andalso,
    /// `=`
    Equal,
    /// `<>`
    NotEqual,
    /// `<`
    Less,
    /// `<=`
    LessOrEqual,
    /// `>`
    Greater,
    /// `>=`
    GreaterOrEqual,
    /// `::`, an item in front of a list
    Cons,
    /// `^^`, two lists one after the other
    Append,
    /// `+`
    Add,
    /// `-`
    Subtract,
    /// `^`, two strings one after the other
    Concatenate,
    /// `*`
    Multiply,
    /// `div`
    Div,
    /// `mod`
    Mod,
}

/// An operator in front of its operand.
#[derive(Clone, Copy, Debug, PartialEq, Eq)]
pub enum Prefix {
    /// `not`
    Not,
    /// `~`
    Negate,
    /// `#` and a number, a component of a product
    Component(i64),
}
