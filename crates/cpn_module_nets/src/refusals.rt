//! Why the nets of a document are not accepted.

ghost use Rattle.std.specs.Prelude.{◌≡◌, Some, option_map};
ghost use Rattle.cpn_declared.specs.Answers.{refusal_of as type_refusal_of};
ghost use Rattle.cpn_module.specs.Answers.{refusal_of};
ghost use Rattle.cpn_module_trees.specs.ParsingViews.{unparsed_view};
ghost use Rattle.cpn_text_refusals.specs.Refusals.{no_tree, typing};
ghost use Rattle.cpn_module_nets.specs.Reading.{inscription, of_modules};
ghost use Rattle.cpn_module_nets.specs.Answers.{net_refusal_of};
ghost use Rattle.cpn_module_nets.specs.declared.refusals.NetError.TheVariants.{Memory as WantsMemory};

use cpn_core::Memory;
use cpn_document::Pointer;
use cpn_module::ModuleError;
use cpn_module_trees::Unparsed;
use cpn_types::{InscriptionError, TypeError};
use std::alloc::{AllocError, AllocFailed};
use thiserror::Error;

/// Why the nets of a document are not accepted.
#[derive(Debug, Drop, Error)]
pub enum NetError {
    /// Memory ran out, or the numbers of places. The one variant that is no refusal.
    #[error("out of memory")]
    Memory,
    /// The modules make no hierarchy.
    #[error("{0}")]
    Modules(ModuleError),
    /// The text at this pointer, or the variables of the transition there, are not accepted.
    #[error("{1}")]
    Inscription(Pointer, InscriptionError),
}

/// The refusal of the text at a pointer that has no tree.
pub(crate) fn not_parsed(at: Pointer, error: Unparsed) -> NetError
    ensures refused { net_refusal_of result ≡ Some (inscription at (no_tree (unparsed_view error))) }
{
    match error {
        Unparsed::Lex(error) => NetError::Inscription(at, InscriptionError::Lex(error)),
        Unparsed::Syntax(error) => NetError::Inscription(at, InscriptionError::Syntax(error)),
    }
}

/// The refusal of what stands at a pointer by a rule of typing.
pub(crate) fn not_accepted(at: Pointer, error: TypeError) -> NetError
    ensures refused { net_refusal_of result ≡ option_map (λ r. inscription at (typing r)) (type_refusal_of error) }
{
    match error {
        TypeError::Memory => NetError::Memory,
        error => NetError::Inscription(at, InscriptionError::Typing(error)),
    }
}

impl From<ModuleError> for NetError {
    ghost from_gives = { λ error e. net_refusal_of e ≡ option_map of_modules (refusal_of error) };

    fn from(error: ModuleError) -> NetError {
        match error {
            ModuleError::Memory => NetError::Memory,
            error => NetError::Modules(error),
        }
    }
}

impl From<Memory> for NetError {
    ghost from_gives = { λ _ e. e ≡ WantsMemory };

    fn from(_error: Memory) -> NetError {
        NetError::Memory
    }
}

impl From<AllocError> for NetError {
    ghost from_gives = { λ _ e. e ≡ WantsMemory };

    fn from(_error: AllocError) -> NetError {
        NetError::Memory
    }
}

impl<T: Drop> From<AllocFailed<T>> for NetError {
    ghost from_gives = { λ _ e. e ≡ WantsMemory };

    fn from(_error: AllocFailed<T>) -> NetError {
        NetError::Memory
    }
}
