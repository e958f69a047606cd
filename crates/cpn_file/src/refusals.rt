//! Why a document is not read.

ghost use Rattle.std.specs.Prelude.{◌≡◌, option_map, not, is_some};
ghost use Rattle.cpn_document.specs.Answers.{refusal_of};
ghost use Rattle.cpn_module_nets.specs.Answers.{net_refusal_of};
ghost use Rattle.cpn_flat.specs.Answers.{refusal_of as flat_refusal_of};
ghost use Rattle.cpn_file.specs.Reading.{of_form, of_net, of_flat};
ghost use Rattle.cpn_file.specs.Answers.{load_refusal_of};
ghost use Rattle.cpn_file.specs.declared.refusals.LoadError.TheVariants.{Memory as WantsMemory};

use cpn_core::Memory;
use cpn_document::{DocError, Pointer};
use cpn_flat::FlatError;
use cpn_module::ModuleError;
use cpn_module_nets::NetError;
use cpn_types::{InscriptionError, TypeError};
use std::alloc::{AllocError, AllocFailed};
use thiserror::Error;

/// Why a document is not read.
#[derive(Debug, Drop, Error)]
pub enum LoadError {
    /// Memory ran out. The one variant that is no refusal.
    #[error("out of memory")]
    Memory,
    /// The bytes are no document.
    #[error("{0}")]
    Document(DocError),
    /// The text at this pointer, or the variables of the transition there, are not accepted.
    #[error("{1}")]
    Inscription(Pointer, InscriptionError),
    /// Its modules make no hierarchy.
    #[error("{0}")]
    Module(ModuleError),
    /// It has no flat net with an initial marking.
    #[error("{0}")]
    Flat(FlatError),
}

impl LoadError {
    /// Whether memory ran out: whether it is no refusal.
    pub fn is_memory(&self) -> bool
        ensures tells { result ≡ not (is_some (load_refusal_of self.now)) }
    {
        match self {
            LoadError::Memory
            | LoadError::Document(DocError::Memory)
            | LoadError::Inscription(_, InscriptionError::Memory)
            | LoadError::Inscription(_, InscriptionError::Typing(TypeError::Memory))
            | LoadError::Module(ModuleError::Memory)
            | LoadError::Flat(FlatError::Memory) => true,
            LoadError::Document(_)
            | LoadError::Inscription(_, _)
            | LoadError::Module(_)
            | LoadError::Flat(_) => false,
        }
    }
}

impl From<DocError> for LoadError {
    ghost from_gives = { λ error e. load_refusal_of e ≡ option_map of_form (refusal_of error) };

    fn from(error: DocError) -> LoadError {
        match error {
            DocError::Memory => LoadError::Memory,
            error => LoadError::Document(error),
        }
    }
}

impl From<NetError> for LoadError {
    ghost from_gives = { λ error e. load_refusal_of e ≡ option_map of_net (net_refusal_of error) };

    fn from(error: NetError) -> LoadError {
        match error {
            NetError::Memory => LoadError::Memory,
            NetError::Modules(error) => LoadError::Module(error),
            NetError::Inscription(pointer, error) => LoadError::Inscription(pointer, error),
        }
    }
}

impl From<FlatError> for LoadError {
    ghost from_gives = { λ error e. load_refusal_of e ≡ option_map of_flat (flat_refusal_of error) };

    fn from(error: FlatError) -> LoadError {
        match error {
            FlatError::Memory => LoadError::Memory,
            error => LoadError::Flat(error),
        }
    }
}

impl From<Memory> for LoadError {
    ghost from_gives = { λ _ e. e ≡ WantsMemory };

    fn from(_error: Memory) -> LoadError {
        LoadError::Memory
    }
}

impl From<AllocError> for LoadError {
    ghost from_gives = { λ _ e. e ≡ WantsMemory };

    fn from(_error: AllocError) -> LoadError {
        LoadError::Memory
    }
}

impl<T: Drop> From<AllocFailed<T>> for LoadError {
    ghost from_gives = { λ _ e. e ≡ WantsMemory };

    fn from(_error: AllocFailed<T>) -> LoadError {
        LoadError::Memory
    }
}
