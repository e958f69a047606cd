//! From what is loaded of a document to its model.

ghost use Rattle.std.specs.Prelude.{IfOk};
ghost use Rattle.cpn_core.specs.Inscriptions.{funs_view};
ghost use Rattle.cpn_core.specs.Nets.{net_view};
ghost use Rattle.cpn_declared.specs.DeclsViews.{decls_view};
ghost use Rattle.cpn_edit_texts.specs.Answers.{EditsBy};
ghost use Rattle.cpn_edit_texts.specs.Ready.{IsReady};
ghost use Rattle.cpn_flat.specs.Views.{loaded_view};
ghost use Rattle.cpn_flat.specs.WellLoaded.{IsWellLoaded};
ghost use Rattle.cpn_monitor.specs.Fitting.{FitNet};
ghost use Rattle.cpn_monitor.specs.Views.{monitors_view};
ghost use Rattle.cpn_typing.specs.Consistency.{IsConsistent};
ghost use Rattle.cpn_model.specs.Models.{model_in};
ghost use Rattle.cpn_model.specs.Views.{model_view};

use cpn_edit_texts::{EditError, Phase, check_phases};
use cpn_file::Loaded;
use cpn_monitor::Monitors;
use cpn_monitor_texts::check_monitors;
use std::alloc::Global;

/// A model: what is loaded of a document, its monitors in the net, and its phases.
#[derive(Drop)]
pub struct Model {
    /// The net, with its initial marking, and what the document declares.
    pub loaded: Loaded,
    /// The monitors, in their order.
    pub monitors: Monitors,
    /// The phases, in their order, whose edits are made of the net one after another.
    pub phases: Vec<Phase>,
}

/// Makes a model of what is loaded of a document.
///
/// The monitors are checked first, in their order; then the edits of the phases, one after another, each in the net as those before it have
/// left it. The first refusal counts.
///
/// # Errors
///
/// - [`EditError::Monitor`]: a monitor names a transition, or a place, that is not in the net, or its text is not accepted.
/// - [`EditError::UnknownName`]: an edit names a transition, or a place, that is not in the net.
/// - [`EditError::Bad`]: the text of an edit is not accepted, or is an initial marking that has a fault.
/// - [`EditError::Memory`]: memory ran out.
pub fn model_of(alloc: Global, loaded: Loaded) -> Result<Model, EditError>
    requires consistent { IsConsistent (decls_view loaded.decls) }
    requires well_loaded { IsWellLoaded (loaded_view loaded) }
    // What is answered is what is loaded as a model, or the refusal of its first monitor, or else of its first edit, that is refused.
    ensures reads { EditsBy model_view result (model_in (loaded_view loaded)) }
    ensures well_loaded { IfOk result (λ model. IsWellLoaded (loaded_view model.loaded)) }
    // The monitors fit the net.
    ensures fit { IfOk result (λ model. FitNet (net_view model.loaded.net) (funs_view model.monitors.funs.value) (monitors_view model.monitors)) }
    // The edits of its phases may be made of it, and a run may start from it.
    ensures ready { IfOk result (λ model. IsReady (decls_view model.loaded.decls) (net_view model.loaded.net) model.loaded.initial (monitors_view model.monitors)) }
{
    let monitors = check_monitors(
        alloc,
        &loaded.decls,
        &loaded.net,
        loaded.monitors.as_slice(),
    )?;
    let phases = check_phases(
        alloc,
        &loaded.decls,
        &loaded.net,
        &monitors,
        loaded.phases.as_slice(),
    )?;
    Ok(Model {
        loaded,
        monitors,
        phases,
    })
}
