//! What is printed of a run that has ended.

ghost use Rattle.std.specs.Prelude.{◌≡◌, true, map};
ghost use Rattle.std.specs.List.{list_all};
ghost use Rattle.cpn_core.specs.Nets.{net_view};
ghost use Rattle.cpn_core.specs.Occurrences.{occurrence_view};
ghost use Rattle.cpn_report.specs.Printable.{IsPrintableNet, IsPrintable, IsPrintableInPart, is_occurrence};
ghost use Rattle.cpn_runs.specs.FinishedViews.{setup_view, finished_view};
ghost use Rattle.cpn_runs.specs.Run.{IsRun};
ghost use Rattle.cpn_test_program.specs.Shown.{IsShownSetup};

use cpn_core::{Memory, Net, Occurrence};
use cpn_report::{
    Start, Trace, end_text, monitor_text, occurrence_text, printable_runs, push_place_lines,
    run_text, schedule_text,
};
use cpn_runs::{End, Finished};
use std::alloc::Global;

/// Appends the answer of a call that ended the run, and what is printed of the run.
pub fn push_end(out: &mut String, alloc: Global, finished: &Finished) -> Result<(), Memory>
    requires shown { IsShownSetup (setup_view finished.now.setup) }
    requires run { IsRun (setup_view finished.now.setup) (finished_view finished.now) }
{
    printable_runs();
    if let End::Memory = finished.cause {
        push_line(out, "end for want of memory")?;
        return push_parts(out, alloc, finished);
    }
    push_report(out, alloc, finished)
}

/// Appends the line of the end, and the lines of the run as a report has them.
fn push_report(out: &mut String, alloc: Global, finished: &Finished) -> Result<(), Memory>
    requires printable { IsPrintable (net_view finished.now.setup.net.value) (finished_view finished.now) }
{
    let end = end_text(
        alloc,
        &finished.setup.net,
        &finished.values,
        &finished.cause,
    )?;
    push_line(out, end.as_str())?;
    let text = run_text(alloc, Trace::On, 0, Start::Initial, finished)?;
    out.push_str(text.as_str())?;
    Ok(())
}

/// Appends what would be lines of the report of a run: its occurrences, its journal, its last marking and what its monitors measured.
fn push_parts(out: &mut String, alloc: Global, finished: &Finished) -> Result<(), Memory>
    requires net { IsPrintableNet (net_view finished.now.setup.net.value) }
    requires parts { IsPrintableInPart (net_view finished.now.setup.net.value) (finished_view finished.now) }
{
    push_occurrences(out, alloc, &finished.setup.net, &finished.occurrences)?;
    push_line(out, schedule_text(alloc, &finished.journal)?.as_str())?;
    push_place_lines(
        out,
        &finished.setup.net,
        &finished.setup.net.places,
        &finished.marking,
    )?;
    push_values(out, alloc, finished)
}

/// Appends the lines of the occurrences.
fn push_occurrences(
    out: &mut String,
    alloc: Global,
    net: &Net,
    occurrences: &[Occurrence],
) -> Result<(), Memory>
    requires net { IsPrintableNet (net_view net.now) }
    requires elements { list_all (is_occurrence (net_view net.now)) (map occurrence_view occurrences.now) ≡ true }
{
    for occurrence in occurrences {
        push_line(out, occurrence_text(alloc, net, occurrence)?.as_str())?;
    }
    Ok(())
}

/// Appends the lines of what the monitors of a run measured.
fn push_values(out: &mut String, alloc: Global, finished: &Finished) -> Result<(), Memory> {
    for number in 0..finished.values.values.len() {
        push_line(
            out,
            monitor_text(alloc, &finished.values, number as u64)?.as_str(),
        )?;
    }
    Ok(())
}

/// Appends a line, with its line feed.
fn push_line(out: &mut String, line: &str) -> Result<(), Memory> {
    out.push_str(line)?;
    out.push_str("\n")?;
    Ok(())
}
