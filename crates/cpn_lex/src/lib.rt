//! The lexer of the inscription language: from the bytes of a text to its tokens, or to the first
//! rule that it breaks, and where.
//!
//! The crate knows no grammar: which tokens may follow one another is not its matter.
#![tactic(auto)]

mod bytes;
mod fronts;
mod lexing;
mod names;
mod numbers;
mod refusals;
mod signs;
mod strings;
mod symbols;
mod tokens;
mod words;

pub use lexing::lex;
pub use refusals::LexError;
pub use symbols::Symbol;
pub use tokens::{Kind, Token, Tokens};
