//! The files that the words name.

ghost use Rattle.std.specs.Prelude.{◌≡◌, IfOk};
ghost use Rattle.cpn_core.specs.Inscriptions.{funs_view};
ghost use Rattle.cpn_core.specs.Nets.{net_view};
ghost use Rattle.cpn_declared.specs.DeclsViews.{decls_view};
ghost use Rattle.cpn_edit_texts.specs.Ready.{IsReady};
ghost use Rattle.cpn_flat.specs.Views.{loaded_view};
ghost use Rattle.cpn_flat.specs.WellLoaded.{IsWellLoaded};
ghost use Rattle.cpn_monitor.specs.Fitting.{FitNet};
ghost use Rattle.cpn_monitor.specs.Views.{monitors_view};
ghost use Rattle.cpn_runs.specs.FinishedViews.{setup_view};
ghost use Rattle.cpn_runs.specs.Views.{limits_view};
ghost use Rattle.cpn_test_program.specs.Shown.{AreLimits, IsShownSetup};

use crate::refusals::Refusal;
use crate::words::Options;
use cpn_core::Memory;
use cpn_model::{Model, open};
use cpn_runs::{Limits, Setup};
use std::alloc::Global;
use std::fs;
use std::rt::Files;
use std::sync::Arc;

/// The setup of a run of the net of a file under the options.
pub fn setup_from(
    rt: &(impl Files + AllocGlobal),
    options: &Options<'_>,
    path: &str,
) -> Result<Setup, Refusal>
    ensures shown { IfOk result (λ setup. IsShownSetup (setup_view setup)) }
{
    let model = model_from(rt, path)?;
    Ok(setup_of(rt.alloc(), model, options.limits, options.seed)?)
}

/// The model of a document file.
pub fn model_from(rt: &(impl Files + AllocGlobal), path: &str) -> Result<Model, Refusal>
    ensures well_loaded { IfOk result (λ model. IsWellLoaded (loaded_view model.loaded)) }
    ensures fit { IfOk result (λ model. FitNet (net_view model.loaded.net) (funs_view model.monitors.funs.value) (monitors_view model.monitors)) }
    ensures ready { IfOk result (λ model. IsReady (decls_view model.loaded.decls) (net_view model.loaded.net) model.loaded.initial (monitors_view model.monitors)) }
{
    let Ok(bytes) = fs::read(rt, path) else {
        return Err(Refusal::File);
    };
    match open(rt.alloc(), &bytes) {
        Ok(model) => Ok(model),
        Err(error) => Err(Refusal::Document(error)),
    }
}

/// The setup of a run of the model with the limits and the seed.
fn setup_of(alloc: Global, model: Model, limits: Limits, seed: u64) -> Result<Setup, Memory>
    requires well_loaded { IsWellLoaded (loaded_view model.loaded) }
    requires fit { FitNet (net_view model.loaded.net) (funs_view model.monitors.funs.value) (monitors_view model.monitors) }
    requires within { AreLimits (limits_view limits) }
    ensures shown { IfOk result (λ setup. IsShownSetup (setup_view setup)) }
{
    let loaded = model.loaded;
    Ok(Setup {
        net: shared(alloc, loaded.net)?,
        start: loaded.initial,
        clock: 0,
        limits,
        monitors: shared(alloc, model.monitors)?,
        seed,
    })
}

/// The value, to be shared.
fn shared<T: Drop>(alloc: Global, value: T) -> Result<Arc<T>, Memory>
    ensures same { IfOk result (λ one. one.value ≡ value) }
{
    Ok(Arc::new(alloc, value)?)
}

/// The text of a file.
pub fn text_from(rt: &(impl Files + AllocGlobal), path: &str) -> Result<String, Refusal> {
    match fs::read_to_string(rt, path) {
        Ok(text) => Ok(text),
        Err(_) => Err(Refusal::File),
    }
}
