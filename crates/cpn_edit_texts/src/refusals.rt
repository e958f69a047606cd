//! Why the monitors and the edits of a document are refused.

ghost use Rattle.std.specs.Prelude.{◌≡◌, Some, option_map, not, is_some};
ghost use Rattle.cpn_declared.specs.Answers.{refusal_of as type_refusal_of};
ghost use Rattle.cpn_text_refusals.specs.Refusals.{no_tree, typing};
ghost use Rattle.cpn_module_trees.specs.ParsingViews.{unparsed_view};
ghost use Rattle.cpn_monitor_texts.specs.Answers.{monitor_refusal_of};
ghost use Rattle.cpn_edit_texts.specs.Answers.{edit_refusal_of};
ghost use Rattle.cpn_edit_texts.specs.Reading.{bad_text, of_monitors};
ghost use Rattle.cpn_edit_texts.specs.declared.refusals.EditError.TheVariants.{Memory as WantsMemory};

use cpn_core::{EvalFault, Memory};
use cpn_document::Pointer;
use cpn_lex::LexError;
use cpn_module_trees::Unparsed;
use cpn_monitor_texts::MonitorError;
use cpn_syntax::SyntaxError;
use cpn_types::TypeError;
use std::alloc::{AllocError, AllocFailed};
use thiserror::Error;

/// Why the text of an edit is not accepted.
#[derive(Debug, Drop, Error)]
pub enum Trouble {
    /// It has no tokens.
    #[error("{0}")]
    Lex(LexError),
    /// Its tokens have no tree.
    #[error("{0}")]
    Syntax(SyntaxError),
    /// Its tree is not accepted; the variables of the edited transition are too many, or not bindable; or a monitor's is none of them.
    #[error("{0}")]
    Typing(TypeError),
    /// It is an initial marking that has this fault.
    #[error("{0:?}")]
    Eval(EvalFault),
}

/// Why the monitors and the edits of a document are refused.
#[derive(Debug, Drop, Error)]
pub enum EditError {
    /// Memory ran out.
    #[error("out of memory")]
    Memory,
    /// The edit at this pointer names a transition, or a place, that is not in the net.
    #[error("unknown name")]
    UnknownName(Pointer),
    /// The text at this pointer is not accepted.
    #[error("{1}")]
    Bad(Pointer, Trouble),
    /// A monitor is refused.
    #[error("{0}")]
    Monitor(MonitorError),
}

impl EditError {
    /// Whether memory ran out: whether it is no refusal.
    pub fn is_memory(&self) -> bool
        ensures tells { result ≡ not (is_some (edit_refusal_of self.now)) }
    {
        match self {
            EditError::Memory | EditError::Bad(_, Trouble::Typing(TypeError::Memory)) => true,
            EditError::Monitor(error) => error.is_memory(),
            EditError::UnknownName(_) | EditError::Bad(_, _) => false,
        }
    }
}

/// The refusal of a text that has no tree.
pub(crate) fn not_parsed(at: Pointer, error: Unparsed) -> EditError
    ensures refused { edit_refusal_of result ≡ Some (bad_text at (no_tree (unparsed_view error))) }
{
    match error {
        Unparsed::Lex(error) => EditError::Bad(at, Trouble::Lex(error)),
        Unparsed::Syntax(error) => EditError::Bad(at, Trouble::Syntax(error)),
    }
}

/// The refusal of a text by a rule of typing.
pub(crate) fn not_accepted(at: Pointer, error: TypeError) -> EditError
    ensures refused { edit_refusal_of result ≡ option_map (λ r. bad_text at (typing r)) (type_refusal_of error) }
{
    match error {
        TypeError::Memory => EditError::Memory,
        _ => EditError::Bad(at, Trouble::Typing(error)),
    }
}

impl From<MonitorError> for EditError {
    ghost from_gives = { λ error e. edit_refusal_of e ≡ option_map of_monitors (monitor_refusal_of error) };

    fn from(error: MonitorError) -> EditError {
        match error {
            MonitorError::Memory => EditError::Memory,
            _ => EditError::Monitor(error),
        }
    }
}

impl From<AllocError> for EditError {
    ghost from_gives = { λ _error e. e ≡ WantsMemory };

    fn from(_: AllocError) -> EditError {
        EditError::Memory
    }
}

impl<T: Drop> From<AllocFailed<T>> for EditError {
    ghost from_gives = { λ _error e. e ≡ WantsMemory };

    fn from(_: AllocFailed<T>) -> EditError {
        EditError::Memory
    }
}

impl From<Memory> for EditError {
    ghost from_gives = { λ _error e. e ≡ WantsMemory };

    fn from(_: Memory) -> EditError {
        EditError::Memory
    }
}
