// The lines of a report that hold numbers and fixed words alone.
ghost use Rattle.std.specs.Prelude.{◌≡◌, ◌++◌, map, IfOk, OnOk};
ghost use Rattle.std.specs.List.{flat_map};
ghost use Rattle.std.specs.String.{string_bytes};
ghost use Rattle.cpn_report.specs.Lines.{first_text, ended, start_text, opening_text, time_text, event_text, schedule_text as text_of_schedule, occurrences_text, clock_text, ready_text, next_text, total_text};
ghost use Rattle.cpn_runs.specs.Views.{event_view};
ghost use Rattle.cpn_runs.specs.FinishedViews.{outlook_view};

use crate::starts::Start;
use cpn_core::Memory;
use cpn_runs::{Event, Outlook};
use std::alloc::Global;
use std::fmt::Write;

/// Appends the first line of each report.
pub(crate) fn push_report_line(out: &mut String) -> Result<(), Memory>
    ensures written { OnOk result (string_bytes out.new ≡ string_bytes out.old ++ ended first_text) }
{
    out.push_str("report 1\n")?;
    Ok(())
}

/// Appends the first line of the run with this number, from the start at the clock, with the outlook there.
#[tactic(auto, unfolding(crate::specs::Lines::opening_text))]
pub(crate) fn push_run_line(
    out: &mut String,
    number: u64,
    start: Start,
    clock: u64,
    opening: &Outlook,
) -> Result<(), Memory>
    ensures written { OnOk result (string_bytes out.new ≡ string_bytes out.old ++ ended (opening_text number start clock (outlook_view opening.now))) }
{
    let ready = opening.ready;
    let start = start_name(start);
    write!(out, "run {number} {start} {clock} ready {ready} next ")?;
    push_time(out, opening.next)?;
    out.push_str("\n")?;
    Ok(())
}

/// How the marking that a run starts from is told.
fn start_name(start: Start) -> &'static str
    ensures name { result.now ≡ start_text start }
{
    match start {
        Start::Initial => "initial",
        Start::Here => "here",
    }
}

/// Appends a time that may be missing.
pub fn push_time(out: &mut String, time: Option<u64>) -> Result<(), Memory>
    ensures written { OnOk result (string_bytes out.new ≡ string_bytes out.old ++ time_text time) }
{
    match time {
        None => out.push_str("none")?,
        Some(time) => write!(out, "{time}")?,
    }
    Ok(())
}

/// The line of a run's journal, without a line feed. It does not tell the seats.
///
/// `Err` comes for want of memory alone.
pub fn schedule_text(alloc: Global, journal: &[Event]) -> Result<String, Memory>
    ensures text { IfOk result (λ text. string_bytes text ≡ text_of_schedule (map event_view journal.now)) }
{
    let mut out = String::new(alloc);
    push_schedule(&mut out, journal)?;
    Ok(out)
}

/// Appends the line of the run's journal.
pub(crate) fn push_schedule_line(out: &mut String, journal: &[Event]) -> Result<(), Memory>
    ensures written { OnOk result (string_bytes out.new ≡ string_bytes out.old ++ ended (text_of_schedule (map event_view journal.now))) }
{
    push_schedule(out, journal)?;
    out.push_str("\n")?;
    Ok(())
}

/// Appends the line of the run's journal, without a line feed.
#[tactic(auto, unfolding(crate::specs::Lines::schedule_text))]
fn push_schedule(out: &mut String, journal: &[Event]) -> Result<(), Memory>
    ensures written { OnOk result (string_bytes out.new ≡ string_bytes out.old ++ text_of_schedule (map event_view journal.now)) }
{
    out.push_str("schedule")?;
    push_events(out, journal)?;
    Ok(())
}

/// Appends the events, each with a space before it.
fn push_events(out: &mut String, journal: &[Event]) -> Result<(), Memory>
    ensures written { OnOk result (string_bytes out.new ≡ string_bytes out.old ++ flat_map event_text (map event_view journal.now)) }
{
    for event in journal {
        push_event(out, *event)?;
    }
    Ok(())
}

/// Appends an event, with a space before it.
fn push_event(out: &mut String, event: Event) -> Result<(), Memory>
    ensures written { OnOk result (string_bytes out.new ≡ string_bytes out.old ++ event_text (event_view event)) }
{
    match event {
        Event::Claim { seat: _, number } => write!(out, " c{number}")?,
        Event::Done { seat: _, number } => write!(out, " d{number}")?,
        Event::Move { time } => write!(out, " m{time}")?,
        Event::Cut { number } => write!(out, " x{number}")?,
    }
    Ok(())
}

/// Appends the line of the number of occurrences.
#[tactic(auto, unfolding(crate::specs::Lines::occurrences_text))]
pub(crate) fn push_occurrences_line(out: &mut String, count: u64) -> Result<(), Memory>
    ensures written { OnOk result (string_bytes out.new ≡ string_bytes out.old ++ ended (occurrences_text count)) }
{
    write!(out, "occurrences {count}\n")?;
    Ok(())
}

/// Appends the line of the last clock.
#[tactic(auto, unfolding(crate::specs::Lines::clock_text))]
pub(crate) fn push_clock_line(out: &mut String, clock: u64) -> Result<(), Memory>
    ensures written { OnOk result (string_bytes out.new ≡ string_bytes out.old ++ ended (clock_text clock)) }
{
    write!(out, "clock {clock}\n")?;
    Ok(())
}

/// Appends the line of the number of ready elements.
#[tactic(auto, unfolding(crate::specs::Lines::ready_text))]
pub(crate) fn push_ready_line(out: &mut String, count: u64) -> Result<(), Memory>
    ensures written { OnOk result (string_bytes out.new ≡ string_bytes out.old ++ ended (ready_text count)) }
{
    write!(out, "ready {count}\n")?;
    Ok(())
}

/// Appends the line of the next time.
#[tactic(auto, unfolding(crate::specs::Lines::next_text))]
pub(crate) fn push_next_line(out: &mut String, time: Option<u64>) -> Result<(), Memory>
    ensures written { OnOk result (string_bytes out.new ≡ string_bytes out.old ++ ended (next_text time)) }
{
    out.push_str("next ")?;
    push_time(out, time)?;
    out.push_str("\n")?;
    Ok(())
}

/// Appends the line of the number of occurrences in all runs.
#[tactic(auto, unfolding(crate::specs::Lines::total_text))]
pub(crate) fn push_total_line(out: &mut String, count: u64) -> Result<(), Memory>
    ensures written { OnOk result (string_bytes out.new ≡ string_bytes out.old ++ ended (total_text count)) }
{
    write!(out, "total {count}\n")?;
    Ok(())
}
