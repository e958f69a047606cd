//! Why a text of the inscription language is not accepted.

ghost use Rattle.std.specs.Prelude.{◌≡◌};
ghost use Rattle.cpn_types.specs.InscriptionErrors.{of_lex, of_syntax, of_typing};

use cpn_declared::TypeError;
use cpn_lex::LexError;
use cpn_syntax::SyntaxError;
use thiserror::Error;

/// Why a text is not accepted: by its tokens, its grammar or its types.
#[derive(Debug, Drop, Error)]
pub enum InscriptionError {
    /// Memory ran out.
    #[error("out of memory")]
    Memory,
    /// It has no tokens.
    #[error("{0}")]
    Lex(LexError),
    /// Its tokens have no tree.
    #[error("{0}")]
    Syntax(SyntaxError),
    /// Its tree is not accepted.
    #[error("{0}")]
    Typing(TypeError),
}

impl From<LexError> for InscriptionError {
    ghost from_gives = { λ e r. r ≡ of_lex e };

    fn from(error: LexError) -> InscriptionError {
        match error {
            LexError::Memory => InscriptionError::Memory,
            LexError::BadByte(_)
            | LexError::OpenString(_)
            | LexError::NumberTooLarge(_)
            | LexError::TooLong => InscriptionError::Lex(error),
        }
    }
}

impl From<SyntaxError> for InscriptionError {
    ghost from_gives = { λ e r. r ≡ of_syntax e };

    fn from(error: SyntaxError) -> InscriptionError {
        match error {
            SyntaxError::Memory => InscriptionError::Memory,
            SyntaxError::Unexpected(_) | SyntaxError::EndOfText | SyntaxError::TooDeep => {
                InscriptionError::Syntax(error)
            }
        }
    }
}

impl From<TypeError> for InscriptionError {
    ghost from_gives = { λ e r. r ≡ of_typing e };

    fn from(error: TypeError) -> InscriptionError {
        match error {
            TypeError::Memory => InscriptionError::Memory,
            refusal => InscriptionError::Typing(refusal),
        }
    }
}
