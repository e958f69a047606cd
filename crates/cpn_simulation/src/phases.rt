//! The runs of the phases of a document, one after another.

ghost use Rattle.std.specs.Prelude.{◌≡◌, ◌≢◌, ◌+◌, ◌<◌, ◌^◌, List, [], length, IfOk, OnOk};
ghost use Rattle.cpn_book.specs.Books.{setup_in, journal_in, entered_in, IsBook};
ghost use Rattle.cpn_core.specs.Nets.{net_view};
ghost use Rattle.cpn_edit.specs.Sessions.{PlainSession, AreRuns, IsNextRun, after_run};
ghost use Rattle.cpn_edit.specs.Standing.{Stands, IsSession, MayStart, run_view};
ghost use Rattle.cpn_probe.specs.Told.{AreTold};
ghost use Rattle.cpn_report.specs.Printable.{IsPrintable};
ghost use Rattle.cpn_report.specs.Tells.{runs_in, occurrences_in, Tells};
ghost use Rattle.cpn_report.specs.declared.traces.Trace.{Trace};
ghost use Rattle.cpn_runs.specs.Bounds.{most_steps};
ghost use Rattle.cpn_runs.specs.FinishedViews.{setup_view, finished_view};
ghost use Rattle.cpn_runs.specs.Phases.{PlainPhase};
ghost use Rattle.cpn_runs.specs.Run.{IsRun};
ghost use Rattle.cpn_runs.specs.State.{wants_memory};
ghost use Rattle.cpn_runs.specs.Views.{end_view};
ghost use Rattle.cpn_simulation.specs.Reported.{shown_start as start_shown, told_runs, occurrences_in_all, status_after as status_after_end, status_after_all, IsReported};
ghost use Rattle.cpn_simulation.specs.Telling.{BeginsNext, HasTold, MayBegin};

use crate::statuses::Status;
use crate::workers::run_by_workers;
use cpn_book::Book;
use cpn_core::Memory;
use cpn_document::Start;
use cpn_edit::Session;
use cpn_floor::Gate;
use cpn_probe::{Probe, tell_all};
use cpn_report::{Report, printable_runs};
use cpn_runs::{End, Finished};
use std::alloc::Global;
use std::sync::Wait;
use std::thread::Threads;

/// Makes the runs of the phases that are left, one after another, each by its workers (several pass the gate); a run that ends by a fault is the last. The
/// report is told each run, and the probes its occurrences, after it has ended. What is answered is the status of the last end.
///
/// # Errors
///
/// `Memory` where memory is wanted, also by a worker or a probe.
pub(crate) fn run_phases<P: Probe, G: Gate + Sync, R: Threads + Wait + Sync>(
    rt: &R,
    alloc: Global,
    session: Session,
    told: &mut Report,
    probes: &mut Vec<P>,
    gate: &G,
) -> Result<Status, Memory>
    requires may_begin { MayBegin session told.old }
    ensures runs { IfOk result (λ status. (s : PlainSession) → Stands s session → s.earlier ≡ [] → (trace : Trace) → Tells trace [] told.old
        → (runs : List PlainPhase) × AreRuns s runs × (status ≡ status_after_all runs) × Tells trace (told_runs s.phases runs) told.new × AreTold P.Notes probes.old.items (occurrences_in_all runs) probes.new.items) }
    ensures reported { IfOk result IsReported }
{
    let mut session = session;
    let mut status = Status::Done;
    while let Some(start) = session.next_phase()? {
        (session, status) = run_phase(rt, alloc, session, start, told, probes, gate)?;
        if let Status::RunFault = status {
            return Ok(status);
        }
    }
    Ok(status)
}

/// Makes one run, tells the report and the probes of it, and answers the session after it and the status of its end.
fn run_phase<P: Probe, G: Gate + Sync, R: Threads + Wait + Sync>(
    rt: &R,
    alloc: Global,
    session: Session,
    start: Start,
    told: &mut Report,
    probes: &mut Vec<P>,
    gate: &G,
) -> Result<(Session, Status), Memory>
    requires stands { IsSession session }
    requires may_start { MayStart start session }
    requires few_runs { runs_in told.old + 1 < 2 ^ 64 }
    requires few_occurrences { occurrences_in told.old + most_steps < 2 ^ 64 }
    ensures run { IfOk result (λ after. (s : PlainSession) → Stands s session → (run : PlainPhase) × IsNextRun s start run × (run.run.cause ≢ wants_memory) × Stands (after_run s run) after.0
        × (after.1 ≡ status_after_end run.run.cause) × HasTold start run told.old told.new × AreTold P.Notes probes.old.items run.run.occurrences probes.new.items) }
    ensures reported { IfOk result (λ after. IsReported after.1) }
{
    let (between, book) = session.begin(start)?;
    let finished = run_told(rt, alloc, book, start, told, probes, gate)?;
    let status = status_after(&finished.cause);
    Ok((between.end(finished), status))
}

/// Makes the run of a book that was just begun, and tells the report and the probes of it.
fn run_told<P: Probe, G: Gate + Sync, R: Threads + Wait + Sync>(
    rt: &R,
    alloc: Global,
    book: Book,
    start: Start,
    told: &mut Report,
    probes: &mut Vec<P>,
    gate: &G,
) -> Result<Finished, Memory>
    requires kept { IsBook book }
    requires begun { journal_in book ≡ [] }
    requires none_entered { entered_in book ≡ 0 }
    requires begins { BeginsNext start book }
    requires few_runs { runs_in told.old + 1 < 2 ^ 64 }
    requires few_occurrences { occurrences_in told.old + most_steps < 2 ^ 64 }
    ensures setup { IfOk result (λ f. setup_view f.setup ≡ setup_in book) }
    ensures run { IfOk result (λ f. IsRun (setup_in book) (finished_view f)) }
    ensures ends_otherwise { IfOk result (λ f. (finished_view f).cause ≢ wants_memory) }
    ensures is_told { IfOk result (λ f. HasTold start (run_view f) told.old told.new) }
    ensures are_told { IfOk result (λ f. AreTold P.Notes probes.old.items (finished_view f).occurrences probes.new.items) }
{
    let finished = run_by_workers(rt, alloc, book, gate)?;
    printable_runs();
    tell_run(start, &finished, told, probes)?;
    Ok(finished)
}

/// Tells the report and the probes of a run that has ended.
fn tell_run<P: Probe>(
    start: Start,
    finished: &Finished,
    told: &mut Report,
    probes: &mut Vec<P>,
) -> Result<(), Memory>
    requires printable { IsPrintable (net_view finished.now.setup.net.value) (finished_view finished.now) }
    requires few_runs { runs_in told.old + 1 < 2 ^ 64 }
    requires few_occurrences { occurrences_in told.old + length (finished_view finished.now).occurrences < 2 ^ 64 }
    ensures is_told { OnOk result (HasTold start (run_view finished.now) told.old told.new) }
    ensures are_told { OnOk result (AreTold P.Notes probes.old.items (finished_view finished.now).occurrences probes.new.items) }
{
    told.tell(shown_start(start), finished)?;
    tell_all(probes, finished.occurrences.as_slice())?;
    Ok(())
}

/// The start of a phase, as a report shows it.
fn shown_start(start: Start) -> cpn_report::Start
    ensures shown { result ≡ start_shown start }
{
    match start {
        Start::Initial => cpn_report::Start::Initial,
        Start::Here => cpn_report::Start::Here,
    }
}

/// The status of a run that has ended by the cause, which is not want of memory.
fn status_after(cause: &End) -> Status
    requires told { end_view cause.now ≢ wants_memory }
    ensures status { result ≡ status_after_end (end_view cause.now) }
    ensures reported { IsReported result }
{
    match cause {
        End::Fault(_, _) => Status::RunFault,
        End::Steps => Status::Done,
        End::Dead => Status::Done,
        End::Until(_) => Status::Done,
        End::Stop(_) => Status::Done,
        End::Memory => unreachable!(),
    }
}
