//! From the bytes of a document to its model.

ghost use Rattle.std.specs.Prelude.{◌≡◌, IfOk, IfErr, IfSome};
ghost use Rattle.cpn_core.specs.Inscriptions.{funs_view};
ghost use Rattle.cpn_core.specs.Nets.{net_view};
ghost use Rattle.cpn_declared.specs.DeclsViews.{decls_view};
ghost use Rattle.cpn_edit_texts.specs.Ready.{IsReady};
ghost use Rattle.cpn_flat.specs.Views.{loaded_view};
ghost use Rattle.cpn_flat.specs.WellLoaded.{IsWellLoaded};
ghost use Rattle.cpn_monitor.specs.Fitting.{FitNet};
ghost use Rattle.cpn_monitor.specs.Views.{monitors_view};
ghost use Rattle.cpn_model.specs.Answers.{Opens, model_refusal_of};
ghost use Rattle.cpn_model.specs.Models.{IsModel};
ghost use Rattle.cpn_model.specs.Reading.{PlainModel, Reading, read, refused};
ghost use Rattle.cpn_model.specs.Views.{model_view};

use crate::models::{Model, model_of};
use crate::refusals::ModelError;
use cpn_file::load;
use std::alloc::Global;

/// Reads a document as a model: its flat net with its initial marking, its monitors and its phases.
///
/// The document is loaded first; then its monitors are checked in their order, and then the edits of its phases; the first refusal counts.
///
/// # Errors
///
/// - [`ModelError::Document`]: the document is not loaded.
/// - [`ModelError::Edit`]: a monitor or an edit is refused, as [`model_of`] says.
/// - [`ModelError::Memory`]: memory ran out.
pub fn open(alloc: Global, bytes: &[u8]) -> Result<Model, ModelError>
    ensures reads { IfOk result (λ model. IsModel bytes.now (read (model_view model))) }
    ensures well_loaded { IfOk result (λ model. IsWellLoaded (loaded_view model.loaded)) }
    // The monitors fit the net.
    ensures fit { IfOk result (λ model. FitNet (net_view model.loaded.net) (funs_view model.monitors.funs.value) (monitors_view model.monitors)) }
    // The edits of its phases may be made of it, and a run may start from it.
    ensures ready { IfOk result (λ model. IsReady (decls_view model.loaded.decls) (net_view model.loaded.net) model.loaded.initial (monitors_view model.monitors)) }
    ensures refuses { IfErr result (λ e. IfSome (model_refusal_of e) (λ refusal. IsModel bytes.now (refused refusal))) }
    // Whatever the answer, the bytes are at most one model.
    ensures one_model { (reading other : Reading PlainModel) → IsModel bytes.now reading → IsModel bytes.now other → reading ≡ other }
    // Whatever the bytes are is answered, but for want of memory.
    ensures complete { (reading : Reading PlainModel) → IsModel bytes.now reading → Opens model_view result reading }
{
    cpn_monitor_texts::one_check();
    cpn_edit_texts::one_check();
    let loaded = load(alloc, bytes)?;
    let model = model_of(alloc, loaded)?;
    Ok(model)
}
