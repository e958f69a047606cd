//! Why an accepted document has no flat net with an initial marking.

ghost use Rattle.std.specs.Prelude.{◌≡◌, option_map};
ghost use Rattle.cpn_fuse.specs.Answers.{refusal_of};
ghost use Rattle.cpn_flat.specs.Answers.{refusal_of as flat_refusal_of};
ghost use Rattle.cpn_flat.specs.Flat.{too_many};
ghost use Rattle.cpn_flat.specs.declared.refusals.FlatError.TheVariants.{Memory};

use cpn_core::EvalFault;
use cpn_fuse::UnfoldError;
use std::alloc::{AllocError, AllocFailed};

/// Why an accepted document has no flat net with an initial marking. The first that holds counts, in this order.
#[derive(Debug, Drop, thiserror::Error)]
pub enum FlatError {
    /// Memory ran out.
    #[error("memory ran out")]
    Memory,
    /// The modules have more than 4,096 instances.
    #[error("too many instances")]
    Instances,
    /// There are more than 16,384 place instances.
    #[error("too many places")]
    Places,
    /// There are more than 16,384 transition instances.
    #[error("too many transitions")]
    Transitions,
    /// An initial marking at the compound place of this name has a fault: the first compound place, and the first of its members
    /// that has one.
    #[error("an initial marking has a fault")]
    Init(String, EvalFault),
    /// Two members of the compound place of this name have initial markings that differ: the first compound place.
    #[error("initial markings of one compound place differ")]
    InitialDiffers(String),
}

impl From<cpn_core::Memory> for FlatError {
    ghost from_gives = { λ _ e. e ≡ Memory };

    fn from(_error: cpn_core::Memory) -> FlatError {
        FlatError::Memory
    }
}

impl From<AllocError> for FlatError {
    ghost from_gives = { λ _ e. e ≡ Memory };

    fn from(_error: AllocError) -> FlatError {
        FlatError::Memory
    }
}

impl<T: Drop> From<AllocFailed<T>> for FlatError {
    ghost from_gives = { λ _ e. e ≡ Memory };

    fn from(_error: AllocFailed<T>) -> FlatError {
        FlatError::Memory
    }
}

impl From<UnfoldError> for FlatError {
    ghost from_gives = { λ error e. flat_refusal_of e ≡ option_map too_many (refusal_of error) };

    fn from(error: UnfoldError) -> FlatError {
        match error {
            UnfoldError::Memory => FlatError::Memory,
            UnfoldError::Instances => FlatError::Instances,
            UnfoldError::Places => FlatError::Places,
            UnfoldError::Transitions => FlatError::Transitions,
        }
    }
}
