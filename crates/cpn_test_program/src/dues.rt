//! Elements that are kept by themselves, and become due while the clock moves.
ghost use Rattle.std.specs.Prelude.{◌≡◌, IfOk};
ghost use Rattle.cpn_core.specs.Elements.{element_view, enabled_view};

use crate::commands::DueCommand;
use crate::telling::{tell_due, tell_kept, tell_line, tell_spare};
use cpn_core::{Binding, Element, EnabledElement, Entry, Memory, Needed, Needs, Value};
use cpn_due::Due;
use std::alloc::Global;
use std::sync::Arc;

/// Makes a command on the elements.
pub fn make_due(
    alloc: Global,
    due: &mut Due,
    command: DueCommand,
    out: &mut String,
) -> Result<(), Memory> {
    match command {
        DueCommand::Put {
            transition,
            number,
            earliest,
        } => put(alloc, due, transition, number, earliest, out),
        DueCommand::Take { transition, number } => take(alloc, due, transition, number, out),
        DueCommand::Clock { clock } => move_clock(due, clock, out),
        DueCommand::Reserve { count } => due.reserve(count),
        DueCommand::Clear => {
            due.clear();
            Ok(())
        }
        DueCommand::Spare => tell_spare(out, due),
    }
}

/// The element of a transition whose one variable has a number.
fn element_of(alloc: Global, transition: u32, number: i64) -> Result<Element, Memory> {
    let mut binding = Binding::new(alloc);
    binding.bind(0, Value::Int(number))?;
    Ok(Element {
        transition,
        binding,
    })
}

/// That an element is enabled from its earliest time on. It needs a token of the place that has the transition's number.
fn enabled_of(
    alloc: Global,
    element: Element,
    number: i64,
    earliest: u64,
) -> Result<EnabledElement, Memory>
    ensures element { IfOk result (λ enabled. (enabled_view enabled).element ≡ element_view element) }
{
    let mut needs = Needs::new(alloc);
    needs.add(Needed {
        place: element.transition,
        value: Value::Int(number),
        offset: 0,
    })?;
    let element = Arc::new(alloc, element)?;
    Ok(EnabledElement {
        entry: Entry { earliest, element },
        needs,
    })
}

/// Puts an element in with its earliest time. Where it is there already, that is told.
fn put(
    alloc: Global,
    due: &mut Due,
    transition: u32,
    number: i64,
    earliest: u64,
    out: &mut String,
) -> Result<(), Memory> {
    due.reserve(1)?;
    let element = element_of(alloc, transition, number)?;
    if due.contains(&element) {
        return tell_line(out, "there\n");
    }
    due.insert(enabled_of(alloc, element, number, earliest)?);
    Ok(())
}

/// Takes an element out, and tells it.
fn take(
    alloc: Global,
    due: &mut Due,
    transition: u32,
    number: i64,
    out: &mut String,
) -> Result<(), Memory> {
    let element = element_of(alloc, transition, number)?;
    match due.remove(&element) {
        None => tell_line(out, "(none)\n"),
        Some(taken) => tell_taken(out, &taken),
    }
}

/// Tells an element that was taken out.
fn tell_taken(out: &mut String, taken: &EnabledElement) -> Result<(), Memory> {
    out.push('(')?;
    tell_kept(out, taken)?;
    out.push_str(")\n")?;
    Ok(())
}

/// Moves the clock, and tells which elements are due; where it would go back, that is told.
fn move_clock(due: &mut Due, clock: u64, out: &mut String) -> Result<(), Memory> {
    if clock < due.clock() {
        return tell_line(out, "back\n");
    }
    due.take_due(clock);
    tell_due(out, due)
}
