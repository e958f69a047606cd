//! Why a hierarchy is not unfolded.

ghost use Rattle.std.specs.Prelude.{◌≡◌};
ghost use Rattle.cpn_fuse.specs.declared.refusals.UnfoldError.TheVariants.{Memory};

use std::alloc::{AllocError, AllocFailed};
use thiserror::Error;

/// Why a hierarchy is not unfolded.
#[derive(Clone, Copy, Debug, PartialEq, Eq, Error)]
pub enum UnfoldError {
    /// Memory ran out. The one variant that is no refusal.
    #[error("out of memory")]
    Memory,
    /// There would be more than 4,096 instances of modules.
    #[error("too many instances of modules")]
    Instances,
    /// There would be more than 16,384 instances of places.
    #[error("too many instances of places")]
    Places,
    /// There would be more than 16,384 instances of transitions.
    #[error("too many instances of transitions")]
    Transitions,
}

impl From<AllocError> for UnfoldError {
    ghost from_gives = { λ _ e. e ≡ Memory };

    fn from(_error: AllocError) -> UnfoldError {
        UnfoldError::Memory
    }
}

impl<T: Drop> From<AllocFailed<T>> for UnfoldError {
    ghost from_gives = { λ _ e. e ≡ Memory };

    fn from(_error: AllocFailed<T>) -> UnfoldError {
        UnfoldError::Memory
    }
}
