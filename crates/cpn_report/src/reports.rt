// The report of runs, one after another, and of what probes said.
ghost use Rattle.std.specs.Prelude.{◌≡◌, ◌+◌, ◌<◌, ◌^◌, List, [], ◌∷◌, ◌++◌, length, IfOk, OnOk};
ghost use Rattle.std.specs.List.{filter};
ghost use Rattle.std.specs.String.{string_bytes};
ghost use Rattle.cpn_core.specs.Nets.{net_view};
ghost use Rattle.cpn_runs.specs.FinishedViews.{setup_view, finished_view};
ghost use Rattle.cpn_report.specs.Printable.{IsPrintable};
ghost use Rattle.cpn_report.specs.Lines.{lines_text};
ghost use Rattle.cpn_report.specs.Report.{ToldRun, is_told, trace_lines, place_lines, run_text as text_of_run, report_text};
ghost use Rattle.cpn_report.specs.Tells.{told_run, runs_in, occurrences_in, Tells};

use crate::elements::push_occurrences;
use crate::ends::push_end_line;
use crate::lines::{
    push_clock_line, push_next_line, push_occurrences_line, push_ready_line, push_report_line,
    push_run_line, push_schedule_line, push_total_line,
};
use crate::monitors::push_monitor_lines;
use crate::places::push_place_lines;
use crate::probes::push_probe_lines;
use crate::starts::Start;
use crate::traces::Trace;
use cpn_core::{Memory, Text};
use cpn_runs::Finished;
use std::alloc::Global;

/// A report that is being written: its first line, and the lines of the runs that it has told, one after another.
///
/// Source: own choice.
#[derive(Drop)]
pub struct Report {
    text: String,
    trace: Trace,
    runs: u64,
    occurrences: u64,
}

impl Report {
    /// A report that has told no run. Without a trace it leaves out the lines of occurrences and of journals, and where it is brief those
    /// of places too, and no others.
    ///
    /// `Err` comes for want of memory alone.
    pub fn new(alloc: Global, trace: Trace) -> Result<Report, Memory>
        ensures tells { IfOk result (λ report. Tells trace [] report) }
    {
        let mut text = String::new(alloc);
        push_report_line(&mut text)?;
        Ok(Report {
            text,
            trace,
            runs: 0,
            occurrences: 0,
        })
    }

    /// Appends the lines of the next run, which has ended; runs are numbered from 0.
    ///
    /// Each value that is printed is one of the colour set of its variable or its place, the net has the names for it, and the run does
    /// not end for want of memory. The runs are fewer than 2^64, and so are the occurrences of all of them together. `Err` comes for want
    /// of memory alone; nothing is said of the report after it, which may end in a part of the run's lines.
    pub fn tell(&mut self, start: Start, finished: &Finished) -> Result<(), Memory>
        requires printable { IsPrintable (net_view finished.now.setup.net.value) (finished_view finished.now) }
        requires few_runs { runs_in self.old + 1 < 2 ^ 64 }
        requires few_occurrences { occurrences_in self.old + length (finished_view finished.now).occurrences < 2 ^ 64 }
        ensures tells { OnOk result ((trace : Trace) → (tolds : List ToldRun) → Tells trace tolds self.old → Tells trace (tolds ++ told_run start finished.now ∷ []) self.new) }
    {
        push_run(&mut self.text, self.trace, self.runs, start, finished)?;
        self.runs += 1;
        self.occurrences += finished.occurrences.len() as u64;
        Ok(())
    }

    /// The whole report, as text: that of the runs that were told, then a line for each of the texts that probes said, numbered from 0,
    /// then how many occurrences there were in all runs. A byte of a text that is outside 0x20 to 0x7E is shown as `?`.
    ///
    /// `Err` comes for want of memory alone.
    pub fn end(self, said: &[Text]) -> Result<String, Memory>
        ensures text { IfOk result (λ text. (trace : Trace) → (tolds : List ToldRun) → Tells trace tolds self → string_bytes text ≡ report_text trace tolds said.now) }
    {
        let mut out = self.text;
        push_probe_lines(&mut out, said)?;
        push_total_line(&mut out, self.occurrences)?;
        Ok(out)
    }
}

/// The lines of the run with this number, each with its line feed, from its opening to what its monitors measured. The run is one that
/// a report may tell.
///
/// `Err` comes for want of memory alone.
pub fn run_text(
    alloc: Global,
    trace: Trace,
    number: u64,
    start: Start,
    finished: &Finished,
) -> Result<String, Memory>
    requires printable { IsPrintable (net_view finished.now.setup.net.value) (finished_view finished.now) }
    ensures text { IfOk result (λ text. string_bytes text ≡ text_of_run trace (setup_view finished.now.setup) number start (finished_view finished.now)) }
{
    let mut out = String::new(alloc);
    push_run(&mut out, trace, number, start, finished)?;
    Ok(out)
}

/// Appends the lines of the run with this number.
fn push_run(
    out: &mut String,
    trace: Trace,
    number: u64,
    start: Start,
    finished: &Finished,
) -> Result<(), Memory>
    requires printable { IsPrintable (net_view finished.now.setup.net.value) (finished_view finished.now) }
    ensures written { OnOk result (string_bytes out.new ≡ string_bytes out.old ++ text_of_run trace (setup_view finished.now.setup) number start (finished_view finished.now)) }
{
    let net = &*finished.setup.net;
    push_run_line(out, number, start, finished.setup.clock, &finished.opening)?;
    push_trace(out, trace, finished)?;
    push_end_line(out, net, &finished.values, &finished.cause)?;
    push_occurrences_line(out, finished.occurrences.len() as u64)?;
    push_clock_line(out, finished.clock)?;
    push_places(out, trace, finished)?;
    push_ready_line(out, finished.closing.ready)?;
    push_next_line(out, finished.closing.next)?;
    push_monitor_lines(out, &finished.values)?;
    Ok(())
}

/// Appends the lines of the occurrences and of the journal, where the trace is on.
fn push_trace(out: &mut String, trace: Trace, finished: &Finished) -> Result<(), Memory>
    requires printable { IsPrintable (net_view finished.now.setup.net.value) (finished_view finished.now) }
    ensures written { OnOk result (string_bytes out.new ≡ string_bytes out.old ++ lines_text (net_view finished.now.setup.net.value) (filter (is_told trace) (trace_lines (finished_view finished.now)))) }
{
    match trace {
        Trace::On => {
            push_occurrences(out, &finished.setup.net, &finished.occurrences)?;
            push_schedule_line(out, &finished.journal)?;
        }
        Trace::Off => {}
        Trace::Brief => {}
    }
    Ok(())
}

/// Appends the lines of the places, unless the report is brief.
fn push_places(out: &mut String, trace: Trace, finished: &Finished) -> Result<(), Memory>
    requires printable { IsPrintable (net_view finished.now.setup.net.value) (finished_view finished.now) }
    ensures written { OnOk result (string_bytes out.new ≡ string_bytes out.old ++ lines_text (net_view finished.now.setup.net.value) (filter (is_told trace) (place_lines (net_view finished.now.setup.net.value).places (finished_view finished.now).marking))) }
{
    let net = &*finished.setup.net;
    match trace {
        Trace::On => push_place_lines(out, net, &net.places, &finished.marking)?,
        Trace::Off => push_place_lines(out, net, &net.places, &finished.marking)?,
        Trace::Brief => {}
    }
    Ok(())
}
