//! Why a declaration or an inscription is not accepted.

ghost use Rattle.std.specs.Prelude.{◌≡◌};
ghost use Rattle.cpn_declared.specs.declared.refusals.TypeError.TheVariants.{Memory as wants_memory};

use cpn_core::Memory;
use std::alloc::{AllocError, AllocFailed};
use thiserror::Error;

/// What there are too many of.
#[derive(Clone, Copy, Debug)]
pub enum Limit {
    /// Colour sets inside one another: more than 32.
    Depth,
    /// Parts of a colour set, all written out: more than 4,096.
    Nodes,
    /// Variables of a transition: more than 32.
    Variables,
}

/// Why a declaration or an inscription is not accepted: the first reason from left to right. A position is the offset of a
/// token in the text.
#[derive(Debug, Drop, Error)]
pub enum TypeError {
    /// Memory ran out.
    #[error("out of memory")]
    Memory,
    /// A name that is not there, or of another kind than its context needs.
    #[error("{0} is not known here")]
    Unknown(String),
    /// A name that its space or its pattern has already.
    #[error("{0} is there already")]
    Duplicate(String),
    /// The first form whose type is not the wanted one, by its first token.
    #[error("the form at {0} has not the type that its context wants")]
    Mismatch(usize),
    /// A variable in a text that uses none: that of a `val`, a `fun` or an initial marking.
    #[error("the variable {0} may not stand here")]
    NotClosed(String),
    /// A variable of a transition that no binding of tokens, no guard and no small colour set determines.
    #[error("the variable {0} is not bindable")]
    NotBindable(String),
    /// `@+` on an input arc, by the sign.
    #[error("the delay at {0} stands on an input arc")]
    InputDelay(usize),
    /// `@`, `@+` or `time` where none may stand, by the sign or the word.
    #[error("time may not be told at {0}")]
    TimeNotAllowed(usize),
    /// More than a limit allows.
    #[error("there are too many of them: {0:?}")]
    TooMany(Limit),
    /// A colour set of integers without a value.
    #[error("the colour set {0} has no value")]
    EmptyColour(String),
}

impl From<Memory> for TypeError {
    ghost from_gives = { λ _ e. e ≡ wants_memory };

    fn from(_error: Memory) -> TypeError {
        TypeError::Memory
    }
}

impl From<AllocError> for TypeError {
    ghost from_gives = { λ _ e. e ≡ wants_memory };

    fn from(_error: AllocError) -> TypeError {
        TypeError::Memory
    }
}

impl<T: Drop> From<AllocFailed<T>> for TypeError {
    ghost from_gives = { λ _ e. e ≡ wants_memory };

    fn from(_error: AllocFailed<T>) -> TypeError {
        TypeError::Memory
    }
}
