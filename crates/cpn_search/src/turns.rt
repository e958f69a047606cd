//! The turns of a search: each takes the last of the partial bindings that are under way.
ghost use Rattle.std.specs.Prelude.{◌≡◌, ◌<◌, ◌≤◌, ◌+◌, ◌++◌, ◌∷◌, [], true, length, map, drop, OnOk, OnErr, IfOk};
ghost use Rattle.std.specs.Option.{option_to_list};
ghost use Rattle.cpn_definitions.specs.Net.{transition_at};
ghost use Rattle.cpn_definitions.specs.Occurrence.{binds};
ghost use Rattle.cpn_definitions.specs.Sound.{IsSound, IsMarking};
ghost use Rattle.cpn_core.specs.Nets.{net_view};
ghost use Rattle.cpn_stages.specs.Partial.{bound_in, unbound};
ghost use Rattle.cpn_stages.specs.Trials.{tried};
ghost use Rattle.cpn_search.specs.FoundViews.{found_view, AreOf};
ghost use Rattle.cpn_search.specs.ListedTrials.{IsListedAt, listed_in};
ghost use Rattle.cpn_search.specs.TrialViews.{trials_view, under_way_view, all_under_way};
ghost use Rattle.cpn_search.specs.Searches.{AreTrials, AddsEnd, IsTurn, SearchState, FoundAtEnds, tries_at};

use crate::earliest::enabled_element;
use crate::extending::{UnderWay, push_next};
use crate::steps::Steps;
use crate::trials::Trial;
use cpn_core::{EnabledElement, Found, Memory, Net};
use cpn_match::Partial;
use cpn_tmset::Marking;
use std::alloc::Global;
use std::sync::ledger::Ledger;

/// What a search of a transition finds.
#[derive(Drop)]
pub struct Searched {
    /// The enabled elements of the transition.
    pub found: Found,
    /// How many tries were made, or 2^64 - 1 where there were more: for each partial binding that was come to, the values
    /// that the next stage tried, and one for each binding that all stages made. Source: own choice.
    pub tries: u64,
}

/// Appends the element, where there is one.
fn push_found(found: &mut Found, element: Option<EnabledElement>) -> Result<(), Memory>
    ensures appended { OnOk result (found.new.items ≡ found.old.items ++ option_to_list element) }
{
    if let Some(element) = element {
        found.push(element)?;
    }
    Ok(())
}

/// Appends the element of a partial binding in which each variable has a value, with the least time at which the transition is
/// covered with it, if there is one.
fn push_end(
    alloc: Global,
    net: &Net,
    marking: &Marking,
    t: u32,
    partial: &Partial,
    found: &mut Found,
) -> Result<(), Memory>
    requires sound { IsSound (net_view net.now) }
    requires marking { IsMarking (net_view net.now).places marking.now }
    requires in_range { t < length net.now.transitions.items }
    requires bound { binds (net_view net.now) (transition_at (net_view net.now) t).vars (bound_in partial.now) ≡ true }
    ensures added { IfOk result (λ _. AddsEnd (net_view net.now) marking.now t partial.now (map found_view found.old.items) (map found_view found.new.items)) }
    ensures elements { IfOk result (λ _. AreOf (net_view net.now) t found.old.items → AreOf (net_view net.now) t found.new.items) }
{
    let binding = partial.bound()?;
    let element = enabled_element(alloc, net, marking, t, binding)?;
    push_found(found, element)?;
    Ok(())
}

/// Lists the values of the next trial, if there is one and they are not listed.
fn list_next(alloc: Global, trials: &mut [Trial], tried: usize) -> Result<(), Memory>
    ensures same { trials_view trials.new ≡ trials_view trials.old }
    ensures listed { OnOk result (IsListedAt tried trials.new) }
    ensures work { listed_in trials.new ≤ listed_in trials.old + tries_at (drop tried (trials_view trials.old)) }
    ensures kept { OnErr result (trials.new ≡ trials.old) }
{
    if tried < trials.len() {
        trials[tried].list(alloc)?;
    }
    Ok(())
}

/// One turn: where no trial is left for the partial binding, it is an end; else its next trial makes others of it.
fn turn(
    alloc: Global,
    net: &Net,
    marking: &Marking,
    t: u32,
    trials: &[Trial],
    next: &UnderWay,
    ahead: &mut Vec<UnderWay>,
    found: &mut Found,
) -> Result<(), Memory>
    requires sound { IsSound (net_view net.now) }
    requires marking { IsMarking (net_view net.now).places marking.now }
    requires in_range { t < length net.now.transitions.items }
    requires state { SearchState (net_view net.now) marking.now t (trials_view trials.now) (all_under_way ahead.now.items ++ under_way_view next.now ∷ []) (map found_view found.now.items) }
    requires listed { IsListedAt next.now.tried trials.now }
    ensures turned { IfOk result (λ _. IsTurn (net_view net.now) marking.now t (drop next.now.tried (trials_view trials.now)) (under_way_view next.now) (all_under_way ahead.old.items) (all_under_way ahead.new.items) (map found_view found.old.items) (map found_view found.new.items)) }
    ensures elements { IfOk result (λ _. AreOf (net_view net.now) t found.old.items → AreOf (net_view net.now) t found.new.items) }
{
    if next.tried >= trials.len() {
        push_end(alloc, net, marking, t, &next.partial, found)?;
        return Ok(());
    }
    let trial = &trials[next.tried];
    push_next(alloc, net, trial, &next.partial, next.tried + 1, ahead)?;
    Ok(())
}

/// How many tries a turn makes: those of the next trial, or one for an end.
fn tries_of(trials: &[Trial], tried: usize) -> u64
    requires listed { IsListedAt tried trials.now }
    ensures exact { result ≡ tries_at (drop tried (trials_view trials.now)) }
{
    if tried >= trials.len() {
        return 1;
    }
    trials[tried].tries() as u64
}

/// What is found by the trials of a transition, in no order; each of its tries is a step. The values of a trial are
/// listed when the first partial binding comes to it, so it lists no more values than it makes steps.
pub fn all_found<L: Ledger>(
    alloc: Global,
    net: &Net,
    marking: &Marking,
    t: u32,
    trials: &mut [Trial],
    steps: &mut Steps<L>,
) -> Result<Searched, Memory>
    requires sound { IsSound (net_view net.now) }
    requires marking { IsMarking (net_view net.now).places marking.now }
    requires in_range { t < length net.now.transitions.items }
    requires trials { AreTrials (net_view net.now) marking.now t (trials_view trials.old) }
    ensures found { IfOk result (λ searched. FoundAtEnds (net_view net.now) marking.now t (trials_view trials.old) (map found_view searched.found.items)) }
    ensures elements { IfOk result (λ searched. AreOf (net_view net.now) t searched.found.items) }
    ensures steps { steps.new ≤ steps.old + tried (net_view net.now) (trials_view trials.old) (unbound (transition_at (net_view net.now) t).vars) }
    ensures counted { OnOk result (steps.new ≡ steps.old + tried (net_view net.now) (trials_view trials.old) (unbound (transition_at (net_view net.now) t).vars)) }
    ensures work { listed_in trials.new + steps.old ≤ listed_in trials.old + steps.new }
{
    let transition = &net.transitions[t as usize];
    let partial = Partial::new(alloc, &transition.vars)?;
    let mut ahead = vec![in alloc; UnderWay { partial, tried: 0 }]?;
    let mut found = Vec::new(alloc);
    let mut tries: u64 = 0;
    while let Some(next) = ahead.pop() {
        list_next(alloc, trials, next.tried)?;
        let more = tries_of(trials, next.tried);
        steps.add(more);
        tries = tries.saturating_add(more);
        turn(
            alloc, net, marking, t, trials, &next, &mut ahead, &mut found,
        )?;
    }
    Ok(Searched { found, tries })
}
