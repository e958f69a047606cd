//! Why the bytes of a document are no model.

ghost use Rattle.std.specs.Prelude.{◌≡◌, option_map, not, is_some};
ghost use Rattle.cpn_edit_texts.specs.Answers.{edit_refusal_of};
ghost use Rattle.cpn_file.specs.Answers.{load_refusal_of};
ghost use Rattle.cpn_model.specs.Answers.{model_refusal_of};
ghost use Rattle.cpn_model.specs.Reading.{of_document, of_edits};

use cpn_edit_texts::EditError;
use cpn_file::LoadError;
use thiserror::Error;

/// Why the bytes of a document are no model.
#[derive(Debug, Drop, Error)]
pub enum ModelError {
    /// Memory ran out. The one variant that is no refusal.
    #[error("out of memory")]
    Memory,
    /// The document is not loaded.
    #[error("{0}")]
    Document(LoadError),
    /// A monitor, or an edit, is not accepted.
    #[error("{0}")]
    Edit(EditError),
}

impl ModelError {
    /// Whether memory ran out: whether it is no refusal.
    pub fn is_memory(&self) -> bool
        ensures tells { result ≡ not (is_some (model_refusal_of self.now)) }
    {
        match self {
            ModelError::Memory => true,
            ModelError::Document(error) => error.is_memory(),
            ModelError::Edit(error) => error.is_memory(),
        }
    }
}

impl From<LoadError> for ModelError {
    ghost from_gives = { λ error e. model_refusal_of e ≡ option_map of_document (load_refusal_of error) };

    fn from(error: LoadError) -> ModelError {
        match error {
            LoadError::Memory => ModelError::Memory,
            error => ModelError::Document(error),
        }
    }
}

impl From<EditError> for ModelError {
    ghost from_gives = { λ error e. model_refusal_of e ≡ option_map of_edits (edit_refusal_of error) };

    fn from(error: EditError) -> ModelError {
        match error {
            EditError::Memory => ModelError::Memory,
            error => ModelError::Edit(error),
        }
    }
}
