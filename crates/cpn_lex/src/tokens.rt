//! The tokens of a text.

use crate::symbols::Symbol;

/// The tokens of a text, from left to right.
pub type Tokens = Vec<Token>;

/// A token, and where it begins.
#[derive(Debug, Drop)]
pub struct Token {
    /// What it is.
    pub kind: Kind,
    /// The offset of its first byte in the text, 0 to 4,095.
    pub at: usize,
}

/// What a token is. Source: the lexis of the inscription language, own choice after CPN ML.
#[derive(Debug, Drop)]
pub enum Kind {
    /// A name that is no reserved word: a letter, then letters, digits and `_`.
    Name(String),
    /// A number, `~` in front of a negative one.
    Number(i64),
    /// A string, as the bytes that it means: `\"` stands for `"`, and `\\` for `\`.
    Text(String),
    /// A sign or a reserved word.
    Symbol(Symbol),
}
