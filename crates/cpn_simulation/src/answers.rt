//! From the words and the source to the report, or to the reason why there is none.

ghost use Rattle.std.specs.Prelude.{◌≡◌, ◌≤◌, ◌⊎◌, [], length, Some, Err, map, string_bytes, IfOk, IfErr, OnOk, IfSome, MatchOption};
ghost use Rattle.cpn_core.specs.Inscriptions.{funs_view};
ghost use Rattle.cpn_core.specs.Nets.{net_view};
ghost use Rattle.cpn_declared.specs.DeclsViews.{decls_view};
ghost use Rattle.cpn_edit.specs.Sessions.{StartInitially};
ghost use Rattle.cpn_edit_texts.specs.Reading.{read};
ghost use Rattle.cpn_edit_texts.specs.Ready.{IsReady};
ghost use Rattle.cpn_flat.specs.Views.{loaded_view};
ghost use Rattle.cpn_model.specs.Models.{model_in};
ghost use Rattle.cpn_model.specs.Views.{model_view};
ghost use Rattle.cpn_monitor.specs.Fitting.{FitNet};
ghost use Rattle.cpn_monitor.specs.Views.{monitors_view};
ghost use Rattle.cpn_probe.specs.Reported.{HaveReported};
ghost use Rattle.cpn_simulation.specs.Documents.{GeneratesNet, document_of};
ghost use Rattle.cpn_simulation.specs.Limits.{most_bytes};
ghost use Rattle.cpn_simulation.specs.OptionsView.{options_view};
ghost use Rattle.cpn_simulation.specs.Reported.{IsReported, IsReportOf, IsTheReport};
ghost use Rattle.cpn_simulation.specs.Causes.{HasCause, GiveOptions, HaveOneReading, IsReadOnce};
ghost use Rattle.cpn_simulation.specs.RefusalViews.{refusal_view};

use crate::documents::document_bytes;
use crate::no_options::NoOptions;
use crate::options::Options;
use crate::phases::run_phases;
use crate::refusals::{Refusal, of_document};
use crate::statuses::Status;
use crate::words::options_from;
use cpn_core::Memory;
use cpn_edit::Session;
use cpn_floor::Gate;
use cpn_io::{ReadError, Source};
use cpn_model::{Model, open};
use cpn_probe::{Probe, report_all};
use cpn_runs::Limits;
use std::alloc::Global;
use std::sync::Wait;
use std::thread::Threads;

/// A report, and the status of its last run.
#[derive(Drop)]
pub struct Report {
    pub text: String,
    pub status: Status,
}

/// The report of the runs of the document, under the options of the words, and of what the probes said of them. In mode `large` the document
/// is a generated net; otherwise it is what the source gives. Where there are several workers, each passes the gate between a claim and its evaluation.
pub fn answer<S: Source, P: Probe, G: Gate + Sync, R: Threads + Wait + Sync>(
    rt: &R,
    alloc: Global,
    words: &[String],
    source: &mut S,
    probes: &mut Vec<P>,
    gate: &G,
) -> Result<Report, Refusal>
    ensures report { IfOk result (λ report. IfSome (document_of (map string_bytes words.now) (S.left source.old)) (λ bytes. (length bytes ≤ most_bytes) × IsTheReport bytes (map string_bytes words.now) (HaveReported P.Notes P.Reports probes.old.items) report.status (string_bytes report.text))) }
    ensures status { IfOk result (λ report. IsReported report.status) }
    ensures end { OnOk result ((GeneratesNet (map string_bytes words.now) → ⊥) → IfSome (S.left source.old) (λ _. S.left source.new ≡ Some [])) }
    ensures unread { GeneratesNet (map string_bytes words.now) → source.new ≡ source.old }
    ensures options { OnOk result (GiveOptions (map string_bytes words.now)) }
    ensures cause { IfErr result (λ refusal. MatchOption (refusal_view refusal) (refusal ≡ Refusal.Memory) (λ plain. HasCause plain (map string_bytes words.now) (document_of (map string_bytes words.now) (S.left source.old)) (S.faults source.old) (S.faults source.new))) }
    // Unless memory is wanted, what is refused is refused before any run, and no probe was told anything.
    ensures untold { IfErr result (λ refusal. (refusal ≡ Refusal.Memory) ⊎ (probes.new ≡ probes.old)) }
    // The document has at most one reading.
    ensures one_reading { OnOk result (IfSome (document_of (map string_bytes words.now) (S.left source.old)) HaveOneReading) }
    ensures read_once { IfErr result (λ refusal. IfSome (refusal_view refusal) (λ plain. IsReadOnce plain (document_of (map string_bytes words.now) (S.left source.old)))) }
{
    let options = match options_from(alloc, words) {
        Ok(options) => options,
        Err(NoOptions::Refused) => return Err(Refusal::Words),
        Err(NoOptions::Memory) => return Err(Refusal::Memory),
    };
    let bytes = match document_bytes(alloc, &options, source) {
        Ok(bytes) => bytes,
        Err(ReadError::Memory) => return Err(Refusal::Memory),
        Err(ReadError::Failed) => return Err(Refusal::Read),
        Err(ReadError::TooLong) => return Err(Refusal::Long),
    };
    let model = match open(alloc, &bytes) {
        Ok(model) => model,
        Err(error) => return Err(of_document(error)),
    };
    match report_of(rt, alloc, &options, model, probes, gate) {
        Ok(report) => Ok(report),
        Err(Memory) => Err(Refusal::Memory),
    }
}

/// The report of the runs of the model under the options, and of what the probes said of them.
fn report_of<P: Probe, G: Gate + Sync, R: Threads + Wait + Sync>(
    rt: &R,
    alloc: Global,
    options: &Options,
    model: Model,
    probes: &mut Vec<P>,
    gate: &G,
) -> Result<Report, Memory>
    requires reads { model_in (loaded_view model.loaded) (read (model_view model)) }
    requires ready { IsReady (decls_view model.loaded.decls) (net_view model.loaded.net) model.loaded.initial (monitors_view model.monitors) }
    requires fit { FitNet (net_view model.loaded.net) (funs_view model.monitors.funs.value) (monitors_view model.monitors) }
    requires starts { StartInitially (model_view model).phases }
    ensures report { IfOk result (λ report. IsReportOf (model_view model) (options_view options.now) (HaveReported P.Notes P.Reports probes.old.items) report.status (string_bytes report.text)) }
    ensures status { IfOk result (λ report. IsReported report.status) }
{
    let mut told = cpn_report::Report::new(alloc, options.trace)?;
    let limits = Limits {
        steps: options.steps,
        until: options.until,
        seats: options.workers as u32,
    };
    let session = Session::of_model(alloc, model, options.seed, limits)?;
    let status = run_phases(rt, alloc, session, &mut told, probes, gate)?;
    let said = report_all(alloc, probes.as_slice())?;
    let text = told.end(said.as_slice())?;
    Ok(Report { text, status })
}
