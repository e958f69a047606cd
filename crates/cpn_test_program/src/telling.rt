//! What is told of enabled elements, as text.

use cpn_core::{Binding, EnabledElement, Memory, Needs, Value};
use cpn_due::Due;
use cpn_index::Index;
use std::fmt::Write;

/// Tells a line.
pub fn tell_line(out: &mut String, line: &str) -> Result<(), Memory> {
    out.push_str(line)?;
    Ok(())
}

/// Tells a number.
fn tell_number(out: &mut String, number: u64) -> Result<(), Memory> {
    write!(out, "{number}")?;
    Ok(())
}

/// Tells a value, where it is a number.
fn tell_value(out: &mut String, value: &Value) -> Result<(), Memory> {
    if let Value::Int(number) = value {
        let number = *number;
        write!(out, "{number}")?;
    }
    Ok(())
}

/// Tells the values of a binding, the first behind the sign and the others behind commas.
fn tell_binding(out: &mut String, binding: &Binding, sign: &str) -> Result<(), Memory> {
    let mut before = sign;
    for pair in binding.pairs() {
        out.push_str(before)?;
        tell_value(out, &pair.value)?;
        before = ",";
    }
    Ok(())
}

/// Tells the places of the tokens that are needed.
fn tell_needs(out: &mut String, needs: &Needs) -> Result<(), Memory> {
    for needed in needs.tokens() {
        out.push('n')?;
        tell_number(out, u64::from(needed.place))?;
    }
    Ok(())
}

/// Tells an element: its transition, the values of its variables behind the sign, and its least time.
fn tell_element(out: &mut String, told: &EnabledElement, sign: &str) -> Result<(), Memory> {
    tell_number(out, u64::from(told.entry.element.transition))?;
    tell_binding(out, &told.entry.element.binding, sign)?;
    out.push('@')?;
    tell_number(out, told.entry.earliest)
}

/// Tells how many elements are kept, and behind the word a time, where there is one.
fn tell_end(out: &mut String, number: u64, word: &str, time: Option<u64>) -> Result<(), Memory> {
    out.push_str("of ")?;
    tell_number(out, number)?;
    out.push_str(word)?;
    match time {
        None => out.push_str("never")?,
        Some(time) => tell_number(out, time)?,
    }
    out.push_str("]\n")?;
    Ok(())
}

/// Tells the elements that were found.
pub fn tell_found(out: &mut String, found: &[EnabledElement]) -> Result<(), Memory> {
    for element in found {
        tell_element(out, element, ":")?;
        out.push(' ')?;
    }
    out.push('\n')?;
    Ok(())
}

/// Tells the elements of an index that are ready, how many it keeps, and the next time.
pub fn tell_index(out: &mut String, index: &Index) -> Result<(), Memory> {
    out.push('[')?;
    for k in 0..index.ready_len() {
        tell_element(out, index.ready(k), ":")?;
        out.push(' ')?;
    }
    tell_end(out, index.len(), " next ", index.next_time())
}

/// Tells an element that is kept by itself, with what it needs.
pub fn tell_kept(out: &mut String, told: &EnabledElement) -> Result<(), Memory> {
    tell_element(out, told, ".")?;
    tell_needs(out, &told.needs)?;
    out.push(' ')?;
    Ok(())
}

/// Tells the elements that are due, how many there are, and the least time of them all.
pub fn tell_due(out: &mut String, due: &Due) -> Result<(), Memory> {
    out.push('[')?;
    for k in 0..due.ready_len() {
        tell_kept(out, due.ready(k))?;
    }
    tell_end(out, due.len(), " from ", due.first_time())
}

/// Tells for how many elements more there is room.
pub fn tell_spare(out: &mut String, due: &Due) -> Result<(), Memory> {
    tell_number(out, due.spare() as u64)?;
    out.push('\n')?;
    Ok(())
}
