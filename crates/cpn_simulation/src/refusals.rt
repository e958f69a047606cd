//! Why there is no report, and the line that says so.

ghost use Rattle.std.specs.Prelude.{◌≡◌, None, IfSome, IfOk, OnOk, option_map, string_bytes};
ghost use Rattle.cpn_edit_texts.specs.Answers.{edit_refusal_of};
ghost use Rattle.cpn_file.specs.Answers.{load_refusal_of};
ghost use Rattle.cpn_model.specs.Answers.{model_refusal_of};
ghost use Rattle.cpn_monitor_texts.specs.Answers.{monitor_refusal_of};
ghost use Rattle.cpn_simulation.specs.Causes.{bad_document, error_line, status_of, status_of_document, status_of_edits, status_of_loading, status_of_monitors};
ghost use Rattle.cpn_simulation.specs.RefusalViews.{refusal_view};

use crate::statuses::Status;
use cpn_core::Memory;
use cpn_edit_texts::EditError;
use cpn_file::LoadError;
use cpn_model::ModelError;
use cpn_monitor_texts::MonitorError;
use std::alloc::Global;

/// Why there is no report.
#[derive(Debug, Drop)]
pub enum Refusal {
    /// The words give no options.
    Words,
    /// The source had a fault.
    Read,
    /// The document has more than 16,777,216 bytes.
    Long,
    /// The document is no model.
    Document(ModelError),
    /// Memory ran out.
    Memory,
}

/// Why there is no report of a document that is no model.
pub fn of_document(error: ModelError) -> Refusal
    ensures refusal { refusal_view result ≡ option_map bad_document (model_refusal_of error) }
    ensures memory { refusal_view result ≡ None → result ≡ Refusal.Memory }
{
    if error.is_memory() {
        return Refusal::Memory;
    }
    Refusal::Document(error)
}

/// The line that the words are refused.
pub const WORDS_LINE: &str = "error words\n";

/// The line of the refusal, with its line feed. Want of memory has none, and is answered as itself.
pub fn line_of(alloc: Global, refusal: &Refusal) -> Result<String, Memory>
    ensures memory { OnOk result (refusal.now ≡ Refusal.Memory → ⊥) }
    ensures line { IfOk result (λ line. IfSome (refusal_view refusal.now) (λ plain. string_bytes line ≡ error_line plain)) }
{
    let fixed = match refusal {
        Refusal::Words => WORDS_LINE,
        Refusal::Read => "error read\n",
        Refusal::Long => "error long\n",
        Refusal::Document(error) => return error.line(alloc),
        Refusal::Memory => return Err(Memory),
    };
    let line = String::from_str(alloc, fixed)?;
    Ok(line)
}

/// The status of the refusal.
pub fn status_of(refusal: &Refusal) -> Status
    ensures status { IfSome (refusal_view refusal.now) (λ plain. result ≡ status_of plain) }
{
    match refusal {
        Refusal::Words => Status::BadWords,
        Refusal::Read => Status::ReadFault,
        Refusal::Long => Status::TooLong,
        Refusal::Document(error) => status_of_document(error),
        Refusal::Memory => Status::Memory,
    }
}

/// The status of a document that is no model.
fn status_of_document(error: &ModelError) -> Status
    ensures status { IfSome (model_refusal_of error.now) (λ refusal. result ≡ status_of_document refusal) }
{
    match error {
        ModelError::Memory => Status::Memory,
        ModelError::Document(error) => status_of_loading(error),
        ModelError::Edit(error) => status_of_edits(error),
    }
}

/// The status of a document one of whose monitors or edits is refused.
fn status_of_edits(error: &EditError) -> Status
    ensures status { IfSome (edit_refusal_of error.now) (λ refusal. result ≡ status_of_edits refusal) }
{
    match error {
        EditError::Memory => Status::Memory,
        EditError::UnknownName(_) => Status::BadNet,
        EditError::Bad(_, _) => Status::BadInscription,
        EditError::Monitor(error) => status_of_monitors(error),
    }
}

/// The status of a document one of whose monitors is refused.
fn status_of_monitors(error: &MonitorError) -> Status
    ensures status { IfSome (monitor_refusal_of error.now) (λ refusal. result ≡ status_of_monitors refusal) }
{
    match error {
        MonitorError::Memory => Status::Memory,
        MonitorError::UnknownName(_) => Status::BadNet,
        MonitorError::Bad(_, _) => Status::BadInscription,
    }
}

/// The status of a document that is not loaded.
fn status_of_loading(error: &LoadError) -> Status
    ensures status { IfSome (load_refusal_of error.now) (λ refusal. result ≡ status_of_loading refusal) }
{
    match error {
        LoadError::Memory => Status::Memory,
        LoadError::Document(_) => Status::BadDocument,
        LoadError::Inscription(_, _) => Status::BadInscription,
        LoadError::Module(_) => Status::BadNet,
        LoadError::Flat(_) => Status::BadNet,
    }
}
