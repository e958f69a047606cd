//! What searches for enabled bindings find in a marking, as text.

ghost use Rattle.std.specs.Prelude.{◌<◌, length};
ghost use Rattle.cpn_core.specs.Nets.{net_view};
ghost use Rattle.cpn_definitions.specs.Sound.{IsMarking, IsSound};

use crate::answers::push_words;
use cpn_core::{Binding, Memory, Net, Pair, Value, Variable};
use cpn_report::{has_names, value_text};
use cpn_search::{enabled, enabled_of, search};
use cpn_tmset::Marking;
use std::alloc::Global;
use std::fmt::Write;

/// The most transitions of a net.
const MOST_TRANSITIONS: u32 = 16_384;

/// Appends of each transition how many tries its search makes and which bindings it finds, each with its least time; then the least
/// times of all enabled elements from a time on.
pub fn push_searched(
    out: &mut String,
    alloc: Global,
    net: &Net,
    marking: &Marking,
    time: u64,
) -> Result<(), Memory>
    requires sound { IsSound (net_view net.now) }
    requires marking { IsMarking (net_view net.now).places marking.now }
{
    for t in 0..MOST_TRANSITIONS {
        if (t as usize) < net.transitions.len() {
            push_search(out, alloc, net, marking, t)?;
        }
    }
    out.push_str("from then")?;
    for element in &enabled(alloc, net, marking, time)? {
        push_time(out, " ", element.entry.earliest)?;
    }
    Ok(())
}

/// Appends what the search of a transition finds.
fn push_search(
    out: &mut String,
    alloc: Global,
    net: &Net,
    marking: &Marking,
    t: u32,
) -> Result<(), Memory>
    requires sound { IsSound (net_view net.now) }
    requires marking { IsMarking (net_view net.now).places marking.now }
    requires in_range { t < length net.now.transitions.items }
{
    let tries = search(alloc, net, marking, t)?.tries;
    write!(out, "{tries} tries")?;
    for one in &enabled_of(alloc, net, marking, t)? {
        push_binding(out, alloc, net, &one.entry.element.binding)?;
        push_time(out, "", one.entry.earliest)?;
    }
    out.push_str("; ")?;
    Ok(())
}

/// Appends a sign and a least time.
fn push_time(out: &mut String, sign: &str, time: u64) -> Result<(), Memory> {
    write!(out, "{sign}@{time}")?;
    Ok(())
}

/// Appends a binding, its variables in declaration order.
fn push_binding(
    out: &mut String,
    alloc: Global,
    net: &Net,
    binding: &Binding,
) -> Result<(), Memory> {
    let mut sign = " {";
    for pair in binding.pairs() {
        out.push_str(sign)?;
        push_pair(out, alloc, net, pair)?;
        sign = ", ";
    }
    out.push_str(if binding.pairs().is_empty() {
        " {}"
    } else {
        "}"
    })?;
    Ok(())
}

/// Appends a variable with its value.
fn push_pair(out: &mut String, alloc: Global, net: &Net, pair: &Pair) -> Result<(), Memory> {
    match net.variables.get(pair.variable as usize) {
        Some(variable) => push_value(out, alloc, net, variable, &pair.value),
        None => Ok(()),
    }
}

/// Appends a variable with a value, where that is one of its colour set and has its names.
fn push_value(
    out: &mut String,
    alloc: Global,
    net: &Net,
    variable: &Variable,
    value: &Value,
) -> Result<(), Memory> {
    if !variable.colour.admits(value) || !has_names(net, &variable.colour) {
        return Ok(());
    }
    let text = value_text(alloc, net, &variable.colour, value)?;
    push_words(out, variable.name.as_str())?;
    push_words(out, "=")?;
    push_words(out, text.as_str())
}
