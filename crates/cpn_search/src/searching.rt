//! The enabled bindings of a transition, and the enabled elements of a net.
ghost use Rattle.std.specs.Prelude.{◌≡◌, ℕ, ◌<◌, ◌≤◌, ◌+◌, ◌++◌, length, map, OnOk, IfOk};
ghost use Rattle.std.specs.List.{AllByRecursion};
ghost use Rattle.cpn_definitions.specs.Enabled.{EnabledOf, Enabled};
ghost use Rattle.cpn_definitions.specs.Sound.{IsSound, IsMarking};
ghost use Rattle.cpn_core.specs.Nets.{net_view};
ghost use Rattle.cpn_core.specs.Elements.{enabled_view, HasItsNeeds};
ghost use Rattle.cpn_stages.specs.Work.{IsFull};
ghost use Rattle.cpn_search.specs.FoundViews.{found_view, AreOf, from_clock};
ghost use Rattle.cpn_search.specs.PlannedNets.{IsPlan};

use crate::plan::Plan;
use crate::plans::Plans;
use crate::sorting::in_order;
use crate::steps::Steps;
use crate::trials::trials_of;
use crate::turns::{Searched, all_found};
use cpn_core::{EnabledElement, Found, Memory, Net};
use cpn_tmset::Marking;
use std::alloc::Global;
use std::marker::Brand;
use std::sync::ledger::{Blank, Ledger};

/// The enabled bindings of a transition of a sound net, as elements: each binding with which it is covered at some time, over all
/// assignments of admitted values to its variables, once, by the values of the variables in declaration order, with the least
/// such time and what the transition needs under it; and how many tries it took.
///
/// The search goes by the stages of the transition's plan: binding terms on the tokens of their places, equations of the
/// guard, small colour sets. Each binding that they make is found if its guard is true and its needs are covered at some
/// time; a fault in the guard or in an input inscription makes it not enabled. `Memory` comes where memory is wanted, and
/// leaves nothing behind.
/// Source: Jensen and Kristensen, chapters 4 and 11; the order, and what a fault means, are our own choice.
pub fn search(alloc: Global, net: &Net, marking: &Marking, t: u32) -> Result<Searched, Memory>
    requires sound { IsSound (net_view net.now) }
    requires marking { IsMarking (net_view net.now).places marking.now }
    requires in_range { t < length net.now.transitions.items }
    ensures enabled { IfOk result (λ searched. EnabledOf (net_view net.now) marking.now t (map found_view searched.found.items)) }
    ensures elements { IfOk result (λ searched. AreOf (net_view net.now) t searched.found.items) }
{
    let plan = Plan::of(alloc, net, t)?;
    search_by(alloc, net, marking, t, &plan)
}

/// The same, where there is the plan of the transition; each try is a step.
///
/// # Errors
///
/// `Memory` where memory is wanted; it leaves nothing behind, and the steps are those that were made.
pub fn search_counted<L: Ledger>(
    alloc: Global,
    net: &Net,
    marking: &Marking,
    t: u32,
    plan: &Plan,
    steps: &mut Steps<L>,
) -> Result<Searched, Memory>
    requires sound { IsSound (net_view net.now) }
    requires marking { IsMarking (net_view net.now).places marking.now }
    requires in_range { t < length net.now.transitions.items }
    requires planned { IsPlan (net_view net.now) t plan.now }
    ensures enabled { IfOk result (λ searched. EnabledOf (net_view net.now) marking.now t (map found_view searched.found.items)) }
    ensures elements { IfOk result (λ searched. AreOf (net_view net.now) t searched.found.items) }
    ensures steps { (k : ℕ) → IsFull (net_view net.now) marking.now t k → steps.new ≤ steps.old + k }
    ensures counted { OnOk result ((k : ℕ) → IsFull (net_view net.now) marking.now t k → steps.new ≡ steps.old + k) }
{
    let mut trials = trials_of(alloc, plan, marking)?;
    let searched = all_found(alloc, net, marking, t, &mut trials, steps)?;
    let found = in_order(searched.found)?;
    Ok(Searched {
        found,
        tries: searched.tries,
    })
}

/// The same, and the steps are not asked for.
pub(crate) fn search_by(
    alloc: Global,
    net: &Net,
    marking: &Marking,
    t: u32,
    plan: &Plan,
) -> Result<Searched, Memory>
    requires sound { IsSound (net_view net.now) }
    requires marking { IsMarking (net_view net.now).places marking.now }
    requires in_range { t < length net.now.transitions.items }
    requires planned { IsPlan (net_view net.now) t plan.now }
    ensures enabled { IfOk result (λ searched. EnabledOf (net_view net.now) marking.now t (map found_view searched.found.items)) }
    ensures elements { IfOk result (λ searched. AreOf (net_view net.now) t searched.found.items) }
{
    search_on::<Brand>(alloc, net, marking, t, plan, Blank::new(1))
}

/// The same, with steps on a ledger that is dropped.
fn search_on<L: Ledger>(
    alloc: Global,
    net: &Net,
    marking: &Marking,
    t: u32,
    plan: &Plan,
    blank: Blank,
) -> Result<Searched, Memory>
    requires sound { IsSound (net_view net.now) }
    requires marking { IsMarking (net_view net.now).places marking.now }
    requires in_range { t < length net.now.transitions.items }
    requires planned { IsPlan (net_view net.now) t plan.now }
    requires name { blank.name ≡ L.name }
    requires parts { blank.parts ≡ L.parts }
    requires some { 0 < blank.parts }
    ensures enabled { IfOk result (λ searched. EnabledOf (net_view net.now) marking.now t (map found_view searched.found.items)) }
    ensures elements { IfOk result (λ searched. AreOf (net_view net.now) t searched.found.items) }
{
    let mut steps = Steps::<L>::none(blank);
    let searched = search_counted(alloc, net, marking, t, plan, &mut steps)?;
    Ok(searched)
}

/// What a `search` finds: the enabled bindings of a transition of a sound net, as elements. `Memory` comes where memory is wanted, and
/// leaves nothing behind. Source: Jensen and Kristensen, chapters 4 and 11; the order is our own choice.
pub fn enabled_of(alloc: Global, net: &Net, marking: &Marking, t: u32) -> Result<Found, Memory>
    requires sound { IsSound (net_view net.now) }
    requires marking { IsMarking (net_view net.now).places marking.now }
    requires in_range { t < length net.now.transitions.items }
    ensures enabled { IfOk result (λ found. EnabledOf (net_view net.now) marking.now t (map found_view found.items)) }
    ensures elements { IfOk result (λ found. AreOf (net_view net.now) t found.items) }
{
    Ok(search(alloc, net, marking, t)?.found)
}

/// The enabled element, not before the clock.
fn from_clock(clock: u64, mut element: EnabledElement) -> EnabledElement
    ensures exact { result ≡ from_clock clock element }
{
    element.entry.earliest = clock.max(element.entry.earliest);
    element
}

/// Appends the elements, none of them before the clock.
pub(crate) fn push_elements(
    listed: &mut Vec<EnabledElement>,
    found: Found,
    clock: u64,
) -> Result<(), Memory>
    ensures appended { OnOk result (listed.new.items ≡ listed.old.items ++ map (from_clock clock) found.items) }
{
    for element in found {
        listed.push(from_clock(clock, element))?;
    }
    Ok(())
}

/// The enabled elements of a sound net: each binding element that is covered at some time not before the clock, once, by
/// transition and then by binding, with the least such time and with what it needs. `Memory` comes where memory is wanted, and leaves
/// nothing behind. Source: Jensen and Kristensen, chapter 11; the order is our own choice.
pub fn enabled(
    alloc: Global,
    net: &Net,
    marking: &Marking,
    clock: u64,
) -> Result<Vec<EnabledElement>, Memory>
    requires sound { IsSound (net_view net.now) }
    requires marking { IsMarking (net_view net.now).places marking.now }
    ensures enabled { IfOk result (λ listed. Enabled (net_view net.now) marking.now clock (map enabled_view listed.items)) }
    ensures needs { IfOk result (λ listed. AllByRecursion (HasItsNeeds (net_view net.now)) listed.items) }
{
    let plans = Plans::of(alloc, net)?;
    plans.enabled(alloc, net, marking, clock)
}
