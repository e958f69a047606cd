// The least time at which a binding element is covered.
ghost use Rattle.std.specs.Prelude.{◌≡◌, ◌<◌, true, length, IfOk, IfSome, MatchOption, option_map};
ghost use Rattle.cpn_definitions.specs.Net.{transition_at};
ghost use Rattle.cpn_definitions.specs.Occurrence.{binds, needs_of as needs_in};
ghost use Rattle.cpn_definitions.specs.Outcome.{gives};
ghost use Rattle.cpn_definitions.specs.Sound.{IsSound, IsMarking};
ghost use Rattle.cpn_core.specs.Elements.{enabled_view, HasItsNeeds};
ghost use Rattle.cpn_core.specs.Nets.{net_view};
ghost use Rattle.cpn_search.specs.Found.{element_of, IsNeverCovered, IsLeastTime};

use cpn_core::{Binding, Element, EnabledElement, Entry, Memory, Needs, Net};
use cpn_elements::{guard_holds, needs_of};
use cpn_eval::Refused;
use cpn_tmset::Marking;
use std::alloc::Global;
use std::sync::Arc;

/// The element of a transition and a binding in a sound net, with the least time at which it is covered and with its needs; `None` where
/// it is covered at no time: its guard is not true, an input inscription has a fault, or the marking never has the tokens that it needs.
pub fn enabled_element(
    alloc: Global,
    net: &Net,
    marking: &Marking,
    t: u32,
    binding: Binding,
) -> Result<Option<EnabledElement>, Memory>
    requires sound { IsSound (net_view net.now) }
    requires marking { IsMarking (net_view net.now).places marking.now }
    requires in_range { t < length net.now.transitions.items }
    requires bound { binds (net_view net.now) (transition_at (net_view net.now) t).vars binding ≡ true }
    ensures least { IfOk result (λ found. MatchOption (option_map (λ x. (enabled_view x).earliest) found) (IsNeverCovered (net_view net.now) marking.now (element_of t binding)) (IsLeastTime (net_view net.now) marking.now (element_of t binding))) }
    ensures element { IfOk result (λ found. IfSome found (λ x. (enabled_view x).element ≡ element_of t binding)) }
    ensures needs { IfOk result (λ found. IfSome found (HasItsNeeds (net_view net.now))) }
{
    match least_time(alloc, net, marking, t, &binding)? {
        Some(found) => {
            let (earliest, needs) = found;
            let element = with_needs(alloc, t, binding, earliest, needs)?;
            Ok(Some(element))
        }
        None => Ok(None),
    }
}

/// The least time at which the element of a transition and a binding is covered, with its needs; `None` where it is covered at no time.
fn least_time(
    alloc: Global,
    net: &Net,
    marking: &Marking,
    t: u32,
    binding: &Binding,
) -> Result<Option<(u64, Needs)>, Memory>
    requires sound { IsSound (net_view net.now) }
    requires marking { IsMarking (net_view net.now).places marking.now }
    requires in_range { t < length net.now.transitions.items }
    requires bound { binds (net_view net.now) (transition_at (net_view net.now) t).vars binding.now ≡ true }
    ensures least { IfOk result (λ found. MatchOption (option_map (λ x. x.0) found) (IsNeverCovered (net_view net.now) marking.now (element_of t binding.now)) (IsLeastTime (net_view net.now) marking.now (element_of t binding.now))) }
    ensures needs { IfOk result (λ found. IfSome found (λ x. needs_in (net_view net.now) (element_of t binding.now) ≡ gives x.1)) }
{
    let transition = &net.transitions[t as usize];
    let holds = guard_holds(alloc, net, transition, binding)?;
    if !holds {
        return Ok(None);
    }
    match needs_of(alloc, net, t, binding) {
        Ok(needs) => match marking.earliest(&needs) {
            Some(earliest) => Ok(Some((earliest, needs))),
            None => Ok(None),
        },
        Err(Refused::Fault(_)) => Ok(None),
        Err(Refused::Memory) => Err(Memory),
    }
}

/// The element of a transition and a binding, from a time on, with its needs.
fn with_needs(
    alloc: Global,
    transition: u32,
    binding: Binding,
    earliest: u64,
    needs: Needs,
) -> Result<EnabledElement, Memory>
    ensures earliest { IfOk result (λ x. (enabled_view x).earliest ≡ earliest) }
    ensures element { IfOk result (λ x. (enabled_view x).element ≡ element_of transition binding) }
    ensures needs { IfOk result (λ x. x.needs ≡ needs) }
{
    let element = Element {
        transition,
        binding,
    };
    let element = Arc::new(alloc, element)?;
    Ok(EnabledElement {
        entry: Entry { earliest, element },
        needs,
    })
}
