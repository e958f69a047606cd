//! Why tokens have no tree.

ghost use Rattle.std.specs.Prelude.{◌≡◌};
ghost use Rattle.cpn_syntax.specs.declared.refusals.SyntaxError.TheVariants.{Memory};

use std::alloc::{AllocError, AllocFailed};
use thiserror::Error;

/// Why tokens have no tree. The position is the offset of a token in the text.
#[derive(Clone, Copy, Debug, PartialEq, Eq, Error)]
pub enum SyntaxError {
    /// Memory ran out.
    #[error("out of memory")]
    Memory,
    /// The first token after whose reading no text of the grammar can follow.
    #[error("the token at {0} is not expected")]
    Unexpected(usize),
    /// The tokens are the beginning of a text of the grammar, and none themselves.
    #[error("the text ends too early")]
    EndOfText,
    /// The tokens are a text of the grammar, but its tree is deeper than 64.
    #[error("the tree is deeper than 64")]
    TooDeep,
}

impl From<AllocError> for SyntaxError {
    ghost from_gives = { λ _ e. e ≡ Memory };

    fn from(_error: AllocError) -> SyntaxError {
        SyntaxError::Memory
    }
}

impl<T: Drop> From<AllocFailed<T>> for SyntaxError {
    ghost from_gives = { λ _ e. e ≡ Memory };

    fn from(_error: AllocFailed<T>) -> SyntaxError {
        SyntaxError::Memory
    }
}
