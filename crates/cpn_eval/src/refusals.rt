//! Why an inscription has no value.

ghost use Rattle.std.specs.Prelude.{◌≡◌};
ghost use Rattle.cpn_eval.specs.declared.refusals.NoValue.TheVariants.{Memory};

use cpn_core::{EvalFault, Memory as NoMemory};
use std::alloc::{AllocError, AllocFailed};
use thiserror::Error;

/// Why an inscription that has a meaning has no value.
#[derive(Clone, Copy, Debug, PartialEq, Eq, Error)]
pub enum Refused {
    /// The inscription's meaning is a fault.
    #[error("a fault: {0:?}")]
    Fault(EvalFault),
    /// Want of memory.
    #[error("want of memory")]
    Memory,
}

impl From<NoMemory> for Refused {
    ghost use Rattle.cpn_eval.specs.declared.refusals.Refused.TheVariants as refused;

    ghost from_gives = { λ _ e. e ≡ refused.Memory };

    fn from(_error: NoMemory) -> Refused {
        Refused::Memory
    }
}

/// Why an inscription, typed or not, has no value.
#[derive(Clone, Copy, Debug, PartialEq, Eq)]
pub enum NoValue {
    /// Its meaning is a fault.
    Fault(EvalFault),
    /// It has no meaning, as it is not typed.
    Untyped,
    /// Want of memory.
    Memory,
}

impl From<NoMemory> for NoValue {
    ghost from_gives = { λ _ e. e ≡ Memory };

    fn from(_error: NoMemory) -> NoValue {
        NoValue::Memory
    }
}

impl From<AllocError> for NoValue {
    ghost from_gives = { λ _ e. e ≡ Memory };

    fn from(_error: AllocError) -> NoValue {
        NoValue::Memory
    }
}

impl<T: Drop> From<AllocFailed<T>> for NoValue {
    ghost from_gives = { λ _ e. e ≡ Memory };

    fn from(_error: AllocFailed<T>) -> NoValue {
        NoValue::Memory
    }
}
