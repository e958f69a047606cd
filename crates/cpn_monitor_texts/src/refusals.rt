//! Why the monitors of a document are not accepted.

ghost use Rattle.std.specs.Prelude.{◌≡◌, Some, option_map, not, is_some};
ghost use Rattle.cpn_declared.specs.Answers.{refusal_of as type_refusal_of};
ghost use Rattle.cpn_text_refusals.specs.Refusals.{no_tree, typing};
ghost use Rattle.cpn_module_trees.specs.ParsingViews.{unparsed_view};
ghost use Rattle.cpn_monitor_texts.specs.Answers.{monitor_refusal_of};
ghost use Rattle.cpn_monitor_texts.specs.Reading.{bad_text};
ghost use Rattle.cpn_monitor_texts.specs.declared.refusals.MonitorError.TheVariants.{Memory as WantsMemory};

use cpn_core::Memory;
use cpn_module_trees::Unparsed;
use cpn_types::{InscriptionError, TypeError};
use std::alloc::{AllocError, AllocFailed};
use thiserror::Error;

/// Why the monitors of a document are not accepted.
#[derive(Debug, Drop, Error)]
pub enum MonitorError {
    /// Memory ran out. The one variant that is no refusal.
    #[error("out of memory")]
    Memory,
    /// The monitor of this number names a transition, or a place, that is not in the net.
    #[error("monitor {0}: unknown name")]
    UnknownName(usize),
    /// The text of the monitor of this number is not accepted.
    #[error("monitor {0}: {1}")]
    Bad(usize, InscriptionError),
}

impl MonitorError {
    /// Whether memory ran out: whether it is no refusal.
    pub fn is_memory(&self) -> bool
        ensures tells { result ≡ not (is_some (monitor_refusal_of self.now)) }
    {
        match self {
            MonitorError::Memory
            | MonitorError::Bad(_, InscriptionError::Memory)
            | MonitorError::Bad(_, InscriptionError::Typing(TypeError::Memory)) => true,
            MonitorError::UnknownName(_) | MonitorError::Bad(_, _) => false,
        }
    }
}

/// The refusal of the text of the monitor of a number that has no tree.
pub(crate) fn not_parsed(number: usize, error: Unparsed) -> MonitorError
    ensures refused { monitor_refusal_of result ≡ Some (bad_text number (no_tree (unparsed_view error))) }
{
    match error {
        Unparsed::Lex(error) => MonitorError::Bad(number, InscriptionError::Lex(error)),
        Unparsed::Syntax(error) => MonitorError::Bad(number, InscriptionError::Syntax(error)),
    }
}

/// The refusal of the text of the monitor of a number by a rule of typing.
pub(crate) fn not_accepted(number: usize, error: TypeError) -> MonitorError
    ensures refused { monitor_refusal_of result ≡ option_map (λ r. bad_text number (typing r)) (type_refusal_of error) }
{
    match error {
        TypeError::Memory => MonitorError::Memory,
        error => MonitorError::Bad(number, InscriptionError::Typing(error)),
    }
}

impl From<Memory> for MonitorError {
    ghost from_gives = { λ _ e. e ≡ WantsMemory };

    fn from(_error: Memory) -> MonitorError {
        MonitorError::Memory
    }
}

impl From<AllocError> for MonitorError {
    ghost from_gives = { λ _ e. e ≡ WantsMemory };

    fn from(_error: AllocError) -> MonitorError {
        MonitorError::Memory
    }
}

impl<T: Drop> From<AllocFailed<T>> for MonitorError {
    ghost from_gives = { λ _ e. e ≡ WantsMemory };

    fn from(_error: AllocFailed<T>) -> MonitorError {
        MonitorError::Memory
    }
}
