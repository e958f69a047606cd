//! The error line of a document that is no model.

ghost use Rattle.std.specs.Prelude.{◌≡◌, IfOk, IfSome, string_bytes};
ghost use Rattle.cpn_edit_texts.specs.Answers.{edit_refusal_of, trouble_at};
ghost use Rattle.cpn_monitor_texts.specs.Answers.{monitor_refusal_of};
ghost use Rattle.cpn_model.specs.Answers.{model_refusal_of};
ghost use Rattle.cpn_model.specs.Lines.{monitor_line, edit_line, model_line};

use crate::refusals::ModelError;
use cpn_core::Memory;
use cpn_document::{MonitorPart, Pointer};
use cpn_edit_texts::{EditError, Trouble};
use cpn_file::{fault_line_of, inscription_line_of, pointer_line, typing_line_of};
use cpn_monitor_texts::MonitorError;
use cpn_types::InscriptionError;
use std::alloc::Global;

/// The line of a monitor that is refused.
fn monitor_line_of(alloc: Global, error: &MonitorError) -> Result<String, Memory>
    ensures line { IfOk result (λ line. IfSome (monitor_refusal_of error.now) (λ r. string_bytes line ≡ monitor_line r)) }
{
    match error {
        MonitorError::Memory => Err(Memory),
        MonitorError::UnknownName(number) => pointer_line(
            alloc,
            "net monitor",
            1,
            "unknown_name",
            Pointer::Monitor(*number, MonitorPart::Whole),
        ),
        MonitorError::Bad(number, error) => inscription_line_of(
            alloc,
            Pointer::Monitor(*number, MonitorPart::Expr),
            error,
        ),
    }
}

/// The line of the text of an edit that is refused, or that has a fault.
fn trouble_line_of(alloc: Global, at: Pointer, trouble: &Trouble) -> Result<String, Memory>
    ensures line { IfOk result (λ line. IfSome (trouble_at at trouble.now) (λ r. string_bytes line ≡ edit_line r)) }
{
    match trouble {
        Trouble::Lex(error) => inscription_line_of(alloc, at, &InscriptionError::Lex(*error)),
        Trouble::Syntax(error) => inscription_line_of(alloc, at, &InscriptionError::Syntax(*error)),
        Trouble::Typing(error) => typing_line_of(alloc, at, error),
        Trouble::Eval(fault) => fault_line_of(alloc, at, *fault),
    }
}

/// The line of a monitor or an edit that is refused.
fn edit_line_of(alloc: Global, error: &EditError) -> Result<String, Memory>
    ensures line { IfOk result (λ line. IfSome (edit_refusal_of error.now) (λ r. string_bytes line ≡ edit_line r)) }
{
    match error {
        EditError::Memory => Err(Memory),
        EditError::UnknownName(at) => pointer_line(alloc, "net edit", 1, "unknown_name", *at),
        EditError::Bad(at, trouble) => trouble_line_of(alloc, *at, trouble),
        EditError::Monitor(error) => monitor_line_of(alloc, error),
    }
}

impl ModelError {
    /// The error line of the refusal, with its line feed. Want of memory has none, and is answered as itself.
    ///
    /// # Errors
    ///
    /// `Memory` where memory is wanted, or the error is that it was.
    pub fn line(&self, alloc: Global) -> Result<String, Memory>
        ensures line { IfOk result (λ line. IfSome (model_refusal_of self.now) (λ r. string_bytes line ≡ model_line r)) }
    {
        match self {
            ModelError::Memory => Err(Memory),
            ModelError::Document(error) => error.line(alloc),
            ModelError::Edit(error) => edit_line_of(alloc, error),
        }
    }
}
