//! Why a text has no tokens.

ghost use Rattle.std.specs.Prelude.{◌≡◌};
ghost use Rattle.cpn_lex.specs.declared.refusals.LexError.TheVariants.{Memory};

use std::alloc::{AllocError, AllocFailed};
use thiserror::Error;

/// Why a text has no tokens. Each `at` is the offset of a byte in the text.
#[derive(Clone, Copy, Debug, PartialEq, Eq, Error)]
pub enum LexError {
    /// Memory ran out.
    #[error("out of memory")]
    Memory,
    /// No token begins with the byte at this offset, or it may not stand in a string.
    #[error("no token begins with the byte at {0}")]
    BadByte(usize),
    /// The string that begins at this offset isn't closed by the end of the text.
    #[error("the string at {0} is not closed")]
    OpenString(usize),
    /// The number that begins at this offset isn't within an `i64`.
    #[error("the number at {0} is too large")]
    NumberTooLarge(usize),
    /// The text has more than 4,096 bytes.
    #[error("the text has more than 4096 bytes")]
    TooLong,
}

impl From<AllocError> for LexError {
    ghost from_gives = { λ _ e. e ≡ Memory };

    fn from(_error: AllocError) -> LexError {
        LexError::Memory
    }
}

impl<T: Drop> From<AllocFailed<T>> for LexError {
    ghost from_gives = { λ _ e. e ≡ Memory };

    fn from(_error: AllocFailed<T>) -> LexError {
        LexError::Memory
    }
}
