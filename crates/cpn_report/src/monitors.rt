// What monitors measured, as it is printed.
ghost use Rattle.std.specs.Prelude.{◌≡◌, ◌<◌, ◌++◌, length, IfOk, OnOk};
ghost use Rattle.std.specs.List.{flat_map};
ghost use Rattle.std.specs.String.{string_bytes};
ghost use Rattle.cpn_monitor.specs.Views.{measured_view, value_view, values_view};
ghost use Rattle.cpn_report.specs.Lines.{ended};
ghost use Rattle.cpn_report.specs.MonitorText.{value_at, bound_text, sizes_text, integers_text, measured_text, monitor_text as text_of_monitor};

use crate::integers::push_int;
use cpn_core::Memory;
use cpn_monitor::{Integers, Measured, MonitorValue, Sizes, Values14};
use std::alloc::Global;
use std::fmt::Write;

/// The line of the monitor of a number, from 0, without a line feed: the kind of the monitor, the numbers that it measured, its name.
/// `~` stands in front of a negative number, and `none` for the least and the greatest of no values.
///
/// `Err` comes for want of memory alone.
pub fn monitor_text(alloc: Global, values: &Values14, number: u64) -> Result<String, Memory>
    requires known { number < length (values_view values.now) }
    ensures text { IfOk result (λ text. string_bytes text ≡ text_of_monitor (value_at (values_view values.now) number)) }
{
    let mut out = String::new(alloc);
    let value = &values.values[number as usize];
    push_monitor(&mut out, value)?;
    Ok(out)
}

/// Appends the lines of all monitors, in their order.
pub(crate) fn push_monitor_lines(out: &mut String, values: &Values14) -> Result<(), Memory>
    ensures written { OnOk result (string_bytes out.new ≡ string_bytes out.old ++ flat_map (λ value. ended (text_of_monitor value)) (values_view values.now)) }
{
    for value in &values.values {
        push_monitor_line(out, value)?;
    }
    Ok(())
}

/// Appends the line of a monitor.
fn push_monitor_line(out: &mut String, value: &MonitorValue) -> Result<(), Memory>
    ensures written { OnOk result (string_bytes out.new ≡ string_bytes out.old ++ ended (text_of_monitor (value_view value.now))) }
{
    push_monitor(out, value)?;
    out.push_str("\n")?;
    Ok(())
}

/// Appends the line of a monitor, without a line feed.
#[tactic(auto, unfolding(crate::specs::MonitorText::monitor_text))]
fn push_monitor(out: &mut String, value: &MonitorValue) -> Result<(), Memory>
    ensures written { OnOk result (string_bytes out.new ≡ string_bytes out.old ++ text_of_monitor (value_view value.now)) }
{
    out.push_str("monitor ")?;
    push_measured(out, &value.measured)?;
    out.push_str(" ")?;
    out.push_str(value.name.as_str())?;
    Ok(())
}

/// Appends the kind of a monitor, and the numbers that it measured.
fn push_measured(out: &mut String, measured: &Measured) -> Result<(), Memory>
    ensures written { OnOk result (string_bytes out.new ≡ string_bytes out.old ++ measured_text (measured_view measured.now)) }
{
    match measured {
        Measured::Count { number } => write!(out, "count {number}")?,
        Measured::Size(sizes) => push_sizes(out, sizes)?,
        Measured::Value(integers) => push_integers(out, integers)?,
        Measured::StopCount { number } => write!(out, "stop_count {number}")?,
        Measured::StopSize { last } => write!(out, "stop_size {last}")?,
    }
    Ok(())
}

/// Appends numbers of tokens: the least, the greatest and the last one, and their sum over time.
fn push_sizes(out: &mut String, sizes: &Sizes) -> Result<(), Memory>
    ensures written { OnOk result (string_bytes out.new ≡ string_bytes out.old ++ sizes_text sizes.now.least sizes.now.greatest sizes.now.last sizes.now.sum) }
{
    let least = sizes.least;
    let greatest = sizes.greatest;
    let last = sizes.last;
    let sum = sizes.sum;
    write!(out, "size {least} {greatest} {last} {sum}")?;
    Ok(())
}

/// Appends how many values there are, their sum, the least and the greatest of them, and how many faults came in their place.
fn push_integers(out: &mut String, integers: &Integers) -> Result<(), Memory>
    ensures written { OnOk result (string_bytes out.new ≡ string_bytes out.old ++ integers_text integers.now.count integers.now.sum integers.now.least integers.now.greatest integers.now.faulted) }
{
    let count = integers.count;
    write!(out, "value {count} ")?;
    push_int(out, integers.sum)?;
    out.push_str(" ")?;
    push_bound(out, integers.least)?;
    out.push_str(" ")?;
    push_bound(out, integers.greatest)?;
    let faulted = integers.faulted;
    write!(out, " {faulted}")?;
    Ok(())
}

/// Appends an integer that may be missing.
fn push_bound(out: &mut String, bound: Option<i64>) -> Result<(), Memory>
    ensures written { OnOk result (string_bytes out.new ≡ string_bytes out.old ++ bound_text bound) }
{
    match bound {
        None => out.push_str("none")?,
        Some(integer) => push_int(out, i128::from(integer))?,
    }
    Ok(())
}
