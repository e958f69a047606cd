//! The enabled bindings of a transition in which a binding term has a value.
ghost use Rattle.std.specs.Prelude.{◌≡◌, ℕ, ◌<◌, ◌≤◌, ◌+◌, ◌∷◌, [], ◌++◌, length, map, option_map, OnOk, IfOk};
ghost use Rattle.cpn_definitions.specs.Net.{transition_at};
ghost use Rattle.cpn_definitions.specs.Sound.{IsSound, IsMarking};
ghost use Rattle.cpn_core.specs.Views.{value_view};
ghost use Rattle.cpn_core.specs.Inscriptions.{pattern_view};
ghost use Rattle.cpn_core.specs.Nets.{net_view};
ghost use Rattle.cpn_stages.specs.Partial.{unbound};
ghost use Rattle.cpn_stages.specs.Reached.{StandsOn};
ghost use Rattle.cpn_stages.specs.Trials.{tried_by_each};
ghost use Rattle.cpn_stages.specs.Work.{IsPinned};
ghost use Rattle.cpn_stages.specs.TermsWith.{EnabledWith};
ghost use Rattle.cpn_search.specs.FoundViews.{found_view, AreOf};
ghost use Rattle.cpn_search.specs.HeldSearches.{AddsFound, AreFoundSoFar};
ghost use Rattle.cpn_search.specs.PlannedNets.{IsPlan};
ghost use Rattle.cpn_search.specs.Searches.{AreTrials};
ghost use Rattle.cpn_search.specs.StageViews.{stage_view};
ghost use Rattle.cpn_search.specs.TrialViews.{trials_view};
ghost use Rattle.cpn_search.specs.TriedStages.{pattern_on, held, held_number};

use crate::once::each_once;
use crate::plan::{Plan, Stage};
use crate::sorting::in_order;
use crate::steps::Steps;
use crate::trials::{Trial, trials_with};
use crate::turns::all_found;
use cpn_core::{Found, Memory, Net, Pat, Value};
use cpn_tmset::Marking;
use std::alloc::Global;
use std::sync::ledger::Ledger;

/// The pattern of a stage that is a binding term on an arc from the place.
fn pattern_on(stage: &Stage, place: u32) -> Option<&Pat>
    ensures exact { option_map (λ pattern. pattern_view pattern.now) result ≡ pattern_on place (stage_view stage.now) }
{
    match stage {
        Stage::Term { place: on, term } => {
            if place == *on {
                return Some(term.pattern());
            }
            None
        }
        Stage::Equation { .. } => None,
        Stage::Small { .. } => None,
    }
}

/// Appends the elements.
fn push_all(found: &mut Found, more: Found) -> Result<(), Memory>
    ensures appended { OnOk result (found.new.items ≡ found.old.items ++ more.items) }
{
    if found.is_empty() {
        *found = more;
        return Ok(());
    }
    for element in more {
        found.push(element)?;
    }
    Ok(())
}

/// Adds what is found by the trials.
fn push_found_by<L: Ledger>(
    alloc: Global,
    net: &Net,
    marking: &Marking,
    t: u32,
    trials: &mut [Trial],
    found: &mut Found,
    steps: &mut Steps<L>,
) -> Result<(), Memory>
    requires sound { IsSound (net_view net.now) }
    requires marking { IsMarking (net_view net.now).places marking.now }
    requires in_range { t < length net.now.transitions.items }
    requires trials { AreTrials (net_view net.now) marking.now t (trials_view trials.old) }
    ensures added { IfOk result (λ _. AddsFound (net_view net.now) marking.now t (trials_view trials.old ∷ []) (map found_view found.old.items) (map found_view found.new.items)) }
    ensures elements { IfOk result (λ _. AreOf (net_view net.now) t found.old.items → AreOf (net_view net.now) t found.new.items) }
    ensures steps { steps.new ≤ steps.old + tried_by_each (net_view net.now) (trials_view trials.old ∷ []) (unbound (transition_at (net_view net.now) t).vars) }
    ensures counted { OnOk result (steps.new ≡ steps.old + tried_by_each (net_view net.now) (trials_view trials.old ∷ []) (unbound (transition_at (net_view net.now) t).vars)) }
{
    let searched = all_found(alloc, net, marking, t, trials, steps)?;
    push_all(found, searched.found)?;
    Ok(())
}

/// Adds what is found with the value at the stage of a number, if it is a binding term on an arc from the place.
fn push_held<L: Ledger>(
    alloc: Global,
    net: &Net,
    marking: &Marking,
    t: u32,
    plan: &Plan,
    number: usize,
    place: u32,
    value: &Value,
    found: &mut Found,
    steps: &mut Steps<L>,
) -> Result<(), Memory>
    requires sound { IsSound (net_view net.now) }
    requires marking { IsMarking (net_view net.now).places marking.now }
    requires in_range { t < length net.now.transitions.items }
    requires planned { IsPlan (net_view net.now) t plan.now }
    requires stands { StandsOn marking.now place (value_view value.now) }
    requires within { number < length plan.now.stages.items }
    ensures added { IfOk result (λ _. AddsFound (net_view net.now) marking.now t (held_number marking.now place (value_view value.now) plan.now.stages.items number) (map found_view found.old.items) (map found_view found.new.items)) }
    ensures elements { IfOk result (λ _. AreOf (net_view net.now) t found.old.items → AreOf (net_view net.now) t found.new.items) }
    ensures steps { steps.new ≤ steps.old + tried_by_each (net_view net.now) (held_number marking.now place (value_view value.now) plan.now.stages.items number) (unbound (transition_at (net_view net.now) t).vars) }
    ensures counted { OnOk result (steps.new ≡ steps.old + tried_by_each (net_view net.now) (held_number marking.now place (value_view value.now) plan.now.stages.items number) (unbound (transition_at (net_view net.now) t).vars)) }
{
    match pattern_on(&plan.stages[number], place) {
        Some(pattern) => {
            let mut trials = trials_with(alloc, plan, marking, number, pattern, value)?;
            push_found_by(alloc, net, marking, t, &mut trials, found, steps)?;
            Ok(())
        }
        None => Ok(()),
    }
}

/// What is found with the value at one binding term on an arc from the place after another, in no order.
fn found_with<L: Ledger>(
    alloc: Global,
    net: &Net,
    marking: &Marking,
    t: u32,
    plan: &Plan,
    place: u32,
    value: &Value,
    steps: &mut Steps<L>,
) -> Result<Found, Memory>
    requires sound { IsSound (net_view net.now) }
    requires marking { IsMarking (net_view net.now).places marking.now }
    requires in_range { t < length net.now.transitions.items }
    requires planned { IsPlan (net_view net.now) t plan.now }
    requires stands { StandsOn marking.now place (value_view value.now) }
    ensures found { IfOk result (λ found. AreFoundSoFar (net_view net.now) marking.now t (held marking.now place (value_view value.now) [] plan.now.stages.items) [] (map found_view found.items)) }
    ensures elements { IfOk result (λ found. AreOf (net_view net.now) t found.items) }
    ensures steps { steps.new ≤ steps.old + tried_by_each (net_view net.now) (held marking.now place (value_view value.now) [] plan.now.stages.items) (unbound (transition_at (net_view net.now) t).vars) }
    ensures counted { OnOk result (steps.new ≡ steps.old + tried_by_each (net_view net.now) (held marking.now place (value_view value.now) [] plan.now.stages.items) (unbound (transition_at (net_view net.now) t).vars)) }
{
    let mut found = Vec::new(alloc);
    for number in 0..plan.stages.len() {
        push_held(
            alloc, net, marking, t, plan, number, place, value, &mut found, steps,
        )?;
    }
    Ok(found)
}

/// Those enabled bindings of a transition of a sound net, as elements, in which a binding term on an input arc from the place has the
/// value: once, in the order of a `search`, with the least time at which the transition is covered and what it needs. Each try is a step.
///
/// One such term after another is held to the value and tried first, and the other stages of the plan follow; so it takes no more steps
/// than there are bindings to try with the value. What two terms find is listed once.
///
/// # Errors
///
/// `Memory` where memory is wanted; it leaves nothing behind, and the steps are those that were made.
///
/// Source: Jensen and Kristensen, chapters 4 and 11; the order is our own choice.
pub fn enabled_with<L: Ledger>(
    alloc: Global,
    net: &Net,
    marking: &Marking,
    t: u32,
    plan: &Plan,
    place: u32,
    value: &Value,
    steps: &mut Steps<L>,
) -> Result<Found, Memory>
    requires sound { IsSound (net_view net.now) }
    requires marking { IsMarking (net_view net.now).places marking.now }
    requires in_range { t < length net.now.transitions.items }
    requires planned { IsPlan (net_view net.now) t plan.now }
    ensures enabled { IfOk result (λ found. EnabledWith (net_view net.now) marking.now t place (value_view value.now) (map found_view found.items)) }
    ensures elements { IfOk result (λ found. AreOf (net_view net.now) t found.items) }
    ensures steps { (k : ℕ) → IsPinned (net_view net.now) marking.now t place (value_view value.now) k → steps.new ≤ steps.old + k }
    ensures counted { OnOk result (StandsOn marking.now place (value_view value.now) → (k : ℕ) → IsPinned (net_view net.now) marking.now t place (value_view value.now) k → steps.new ≡ steps.old + k) }
{
    if !marking.holds(place, value) {
        let none = Vec::new(alloc);
        return Ok(none);
    }
    let found = found_with(alloc, net, marking, t, plan, place, value, steps)?;
    let sorted = in_order(found)?;
    let once = each_once(alloc, sorted)?;
    Ok(once)
}
