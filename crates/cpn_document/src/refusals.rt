//! Why bytes are no net document.

ghost use Rattle.std.specs.Prelude.{◌≡◌, Some};
ghost use Rattle.cpn_document.specs.Answers.{refusal_of, refused_view};
ghost use Rattle.cpn_document.specs.declared.refusals.DocError.TheVariants.{Memory};

use crate::pointers::Pointer;
use std::alloc::{AllocError, AllocFailed};
use thiserror::Error;

/// What a document may not have too many of.
#[derive(Clone, Copy, Debug, PartialEq, Eq)]
pub enum Limit {
    /// Declarations: it may have 1024.
    Declarations,
    /// Modules: it may have 256.
    Modules,
    /// Arcs at one transition: 64, where an arc that leads both ways counts two.
    Arcs,
    /// Phases: it may have 64.
    Phases,
}

/// What a part of a document is refused for, by calls that take no memory.
#[derive(Clone, Copy)]
pub(crate) enum Refused {
    /// Something has the wrong shape.
    Shape(Pointer),
    /// Something is no whole number, or one out of its range.
    BadNumber(Pointer),
    /// Something is no name, or no new one.
    BadName(Pointer),
    /// The version is another.
    Version,
    /// There are too many of something.
    Limit(Limit),
}

/// Why the bytes are no net document.
#[derive(Debug, Drop, Error)]
pub enum DocError {
    /// Memory ran out. The one variant that is no refusal.
    #[error("out of memory")]
    Memory,
    /// The bytes are no JSON value.
    #[error("not a JSON value")]
    NotJson,
    /// Something at this pointer has the wrong shape: it is of another kind than it has to be, has a key that is no key of it, or
    /// lacks one that has to be there.
    #[error("something of the wrong shape")]
    Shape(Pointer),
    /// What stands at this pointer is no whole number, or one out of its range.
    #[error("no whole number, or one out of its range")]
    BadNumber(Pointer),
    /// What stands at this pointer is no name, or the name of something before it.
    #[error("no name, or no new one")]
    BadName(Pointer),
    /// The version is another than 1.
    #[error("another version")]
    Version,
    /// There are too many of something.
    #[error("too many of something")]
    Limit(Limit),
}

impl From<Refused> for DocError {
    ghost from_gives = { λ refused e. refusal_of e ≡ Some (refused_view refused) };

    fn from(refused: Refused) -> DocError {
        match refused {
            Refused::Shape(place) => DocError::Shape(place),
            Refused::BadNumber(place) => DocError::BadNumber(place),
            Refused::BadName(place) => DocError::BadName(place),
            Refused::Version => DocError::Version,
            Refused::Limit(kind) => DocError::Limit(kind),
        }
    }
}

impl From<AllocError> for DocError {
    ghost from_gives = { λ _ e. e ≡ Memory };

    fn from(_error: AllocError) -> DocError {
        DocError::Memory
    }
}

impl<T: Drop> From<AllocFailed<T>> for DocError {
    ghost from_gives = { λ _ e. e ≡ Memory };

    fn from(_error: AllocFailed<T>) -> DocError {
        DocError::Memory
    }
}
