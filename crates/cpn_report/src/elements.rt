// Bindings, binding elements and occurrences as they are printed.
ghost use Rattle.std.specs.Prelude.{◌≡◌, ◌++◌, true, codes, map, IfOk, OnOk};
ghost use Rattle.std.specs.List.{list_all};
ghost use Rattle.std.specs.String.{string_bytes};
ghost use Rattle.cpn_definitions.specs.Named.{is_named};
ghost use Rattle.cpn_core.specs.Views.{value_view};
ghost use Rattle.cpn_core.specs.Pairs.{pairs_view};
ghost use Rattle.cpn_core.specs.Nets.{net_view};
ghost use Rattle.cpn_core.specs.Elements.{element_view};
ghost use Rattle.cpn_core.specs.Occurrences.{occurrence_view};
ghost use Rattle.cpn_report.specs.Printable.{IsPrintableNet, is_bound, is_binding_element, is_occurrence};
ghost use Rattle.cpn_report.specs.Lines.{occurrence_line, pair_text, binding_text, element_text as text_of_element, occurrence_text as text_of_occurrence, ended, lines_text};
ghost use Rattle.cpn_report.specs.ValueText.{joined};

use crate::values::push_value;
use cpn_core::{Binding, Element, Memory, Net, Occurrence, Pair};
use std::alloc::Global;
use std::fmt::Write;

/// Appends a variable with its value.
fn push_pair(out: &mut String, net: &Net, pair: &Pair) -> Result<(), Memory>
    requires named { list_all (is_named (net_view net.now)) (net_view net.now).variables ≡ true }
    requires bound { is_bound (net_view net.now) (pair.now.variable, value_view pair.now.value) ≡ true }
    ensures written { OnOk result (string_bytes out.new ≡ string_bytes out.old ++ pair_text (net_view net.now) (pair.now.variable, value_view pair.now.value)) }
{
    let variable = &net.variables[pair.variable as usize];
    out.push_str(variable.name.as_str())?;
    out.push_str("=")?;
    push_value(out, net, &variable.colour.shape, &pair.value)?;
    Ok(())
}

/// Appends the pairs, with a comma between each two.
fn push_pairs(out: &mut String, net: &Net, pairs: &[Pair]) -> Result<(), Memory>
    requires named { list_all (is_named (net_view net.now)) (net_view net.now).variables ≡ true }
    requires bound { list_all (is_bound (net_view net.now)) (pairs_view pairs.now) ≡ true }
    ensures written { OnOk result (string_bytes out.new ≡ string_bytes out.old ++ joined (codes ", ") (map (pair_text (net_view net.now)) (pairs_view pairs.now))) }
{
    for (number, pair) in pairs.iter().enumerate() {
        push_pair(out, net, pair)?;
        if number + 1 < pairs.len() {
            out.push_str(", ")?;
        }
    }
    Ok(())
}

/// Appends a binding, in declaration order of its variables.
#[tactic(auto, unfolding(crate::specs::Lines::binding_text))]
pub(crate) fn push_binding(out: &mut String, net: &Net, binding: &Binding) -> Result<(), Memory>
    requires named { list_all (is_named (net_view net.now)) (net_view net.now).variables ≡ true }
    requires bound { list_all (is_bound (net_view net.now)) binding.now ≡ true }
    ensures written { OnOk result (string_bytes out.new ≡ string_bytes out.old ++ binding_text (net_view net.now) binding.now) }
{
    out.push_str("{")?;
    push_pairs(out, net, binding.pairs())?;
    out.push_str("}")?;
    Ok(())
}

/// The text of a binding element: the flattened name of its transition, a space, its binding in declaration order of the variables.
///
/// `Err` comes for want of memory alone.
pub fn element_text(alloc: Global, net: &Net, element: &Element) -> Result<String, Memory>
    requires net { IsPrintableNet (net_view net.now) }
    requires element { is_binding_element (net_view net.now) (element_view element.now) ≡ true }
    ensures text { IfOk result (λ text. string_bytes text ≡ text_of_element (net_view net.now) (element_view element.now)) }
{
    let mut out = String::new(alloc);
    push_element(&mut out, net, element)?;
    Ok(out)
}

/// Appends a binding element.
#[tactic(auto, unfolding(crate::specs::Lines::element_text))]
pub fn push_element(out: &mut String, net: &Net, element: &Element) -> Result<(), Memory>
    requires net { IsPrintableNet (net_view net.now) }
    requires element { is_binding_element (net_view net.now) (element_view element.now) ≡ true }
    ensures written { OnOk result (string_bytes out.new ≡ string_bytes out.old ++ text_of_element (net_view net.now) (element_view element.now)) }
{
    let transition = &net.transitions[element.transition as usize];
    out.push_str(transition.name.as_str())?;
    out.push_str(" ")?;
    push_binding(out, net, &element.binding)?;
    Ok(())
}

/// The line of an occurrence, without a line feed: the number of its claim, its time, its binding element.
///
/// `Err` comes for want of memory alone.
pub fn occurrence_text(alloc: Global, net: &Net, occurrence: &Occurrence) -> Result<String, Memory>
    requires net { IsPrintableNet (net_view net.now) }
    requires element { is_occurrence (net_view net.now) (occurrence_view occurrence.now) ≡ true }
    ensures text { IfOk result (λ text. string_bytes text ≡ text_of_occurrence (net_view net.now) (occurrence_view occurrence.now)) }
{
    let mut out = String::new(alloc);
    push_occurrence(&mut out, net, occurrence)?;
    Ok(out)
}

/// Appends the line of an occurrence, without a line feed.
#[tactic(auto, unfolding(crate::specs::Lines::occurrence_text))]
fn push_occurrence(out: &mut String, net: &Net, occurrence: &Occurrence) -> Result<(), Memory>
    requires net { IsPrintableNet (net_view net.now) }
    requires element { is_occurrence (net_view net.now) (occurrence_view occurrence.now) ≡ true }
    ensures written { OnOk result (string_bytes out.new ≡ string_bytes out.old ++ text_of_occurrence (net_view net.now) (occurrence_view occurrence.now)) }
{
    let number = occurrence.number;
    let time = occurrence.time;
    write!(out, "occ {number} @{time} ")?;
    push_element(out, net, &occurrence.element)?;
    Ok(())
}

/// Appends the line of an occurrence.
fn push_occurrence_line(out: &mut String, net: &Net, occurrence: &Occurrence) -> Result<(), Memory>
    requires net { IsPrintableNet (net_view net.now) }
    requires element { is_occurrence (net_view net.now) (occurrence_view occurrence.now) ≡ true }
    ensures written { OnOk result (string_bytes out.new ≡ string_bytes out.old ++ ended (text_of_occurrence (net_view net.now) (occurrence_view occurrence.now))) }
{
    push_occurrence(out, net, occurrence)?;
    out.push_str("\n")?;
    Ok(())
}

/// Appends the lines of the occurrences, in order.
pub(crate) fn push_occurrences(
    out: &mut String,
    net: &Net,
    occurrences: &[Occurrence],
) -> Result<(), Memory>
    requires net { IsPrintableNet (net_view net.now) }
    requires elements { list_all (is_occurrence (net_view net.now)) (map occurrence_view occurrences.now) ≡ true }
    ensures written { OnOk result (string_bytes out.new ≡ string_bytes out.old ++ lines_text (net_view net.now) (map occurrence_line (map occurrence_view occurrences.now))) }
{
    for occurrence in occurrences {
        push_occurrence_line(out, net, occurrence)?;
    }
    Ok(())
}
