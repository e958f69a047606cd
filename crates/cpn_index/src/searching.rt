//! The searches for what a change enabled.
ghost use Rattle.std.specs.BTreeSet.{contains};
ghost use Rattle.std.specs.Ordering.{nat_cmp};
ghost use Rattle.std.specs.Prelude.{◌≡◌, ℕ, ◌||◌, ◌+◌, ◌<◌, ◌≤◌, ◌∷◌, [], List, true, length, OnOk, OnErr, IfOk};
ghost use Rattle.cpn_definitions.specs.Value.{PlainValue};
ghost use Rattle.cpn_definitions.specs.Lists.{Rises};
ghost use Rattle.cpn_definitions.specs.Net.{transition_at};
ghost use Rattle.cpn_definitions.specs.Sound.{IsSound, IsMarking};
ghost use Rattle.cpn_core.specs.Nets.{net_view};
ghost use Rattle.cpn_core.specs.Views.{value_view};
ghost use Rattle.cpn_tmset.specs.Changed.{is_told};
ghost use Rattle.cpn_tmset.specs.ChangedViews.{change_view, change_views};
ghost use Rattle.cpn_stages.specs.Work.{IsFull, IsPinned};
ghost use Rattle.cpn_search.specs.PlannedNets.{IsPlanned};
ghost use Rattle.cpn_index.specs.Touched.{ReadsToldOtherwise};
ghost use Rattle.cpn_index.specs.Added.{HaveMore, HaveAll, IsOfTransition, HasTermAt};
ghost use Rattle.cpn_index.specs.Readers.{AreReaders, is_one_of, is_read};
ghost use Rattle.cpn_index.specs.UpdateWork.{IsSum, transitions_of, IsPinnedInAll, IsFullIfRead};

use crate::elements::WatchedElements;
use crate::readers::Readers;
use cpn_core::{Memory, Net};
use cpn_search::{Plans, Steps, enabled_with, search_counted};
use cpn_tmset::{Change, Marking};
use std::alloc::Global;
use std::collections::BTreeSet;
use std::sync::ledger::Ledger;

/// Adds what is enabled of a transition with the value on its place.
fn add_found_with<L: Ledger>(
    alloc: Global,
    net: &Net,
    marking: &Marking,
    plans: &Plans,
    t: u32,
    change: &Change,
    elements: &mut WatchedElements,
    steps: &mut Steps<L>,
) -> Result<(), Memory>
    requires sound { IsSound (net_view net.now) }
    requires marking { IsMarking (net_view net.now).places marking.now }
    requires planned { IsPlanned (net_view net.now) plans.now }
    requires places { elements.old.places ≡ length (net_view net.now).places }
    requires in_range { t < length net.now.transitions.items }
    ensures more { OnOk result (HaveMore (net_view net.now) marking.now elements.old.elements elements.new.elements) }
    ensures all { OnOk result (HaveAll (net_view net.now) marking.now (λ e. IsOfTransition t e × HasTermAt (net_view net.now) change.now.place (value_view change.now.value) e) elements.new.elements) }
    ensures steps { (k : ℕ) → IsPinned (net_view net.now) marking.now t change.now.place (value_view change.now.value) k → steps.new ≤ steps.old + k }
    ensures clock { elements.new.clock ≡ elements.old.clock }
    ensures places { elements.new.places ≡ elements.old.places }
{
    let plan = plans.plan(t);
    let found = enabled_with(
        alloc,
        net,
        marking,
        t,
        plan,
        change.place,
        &change.value,
        steps,
    )?;
    elements.add_all(found)?;
    Ok(())
}

/// Adds what is enabled with the value on its place, of each transition that has a binding term there.
fn add_all_with<L: Ledger>(
    alloc: Global,
    net: &Net,
    marking: &Marking,
    plans: &Plans,
    readers: &Readers,
    change: &Change,
    elements: &mut WatchedElements,
    steps: &mut Steps<L>,
) -> Result<(), Memory>
    requires sound { IsSound (net_view net.now) }
    requires marking { IsMarking (net_view net.now).places marking.now }
    requires planned { IsPlanned (net_view net.now) plans.now }
    requires readers { AreReaders (net_view net.now) readers.now }
    requires places { elements.old.places ≡ length (net_view net.now).places }
    ensures more { OnOk result (HaveMore (net_view net.now) marking.now elements.old.elements elements.new.elements) }
    ensures all { OnOk result (HaveAll (net_view net.now) marking.now (HasTermAt (net_view net.now) change.now.place (value_view change.now.value)) elements.new.elements) }
    ensures steps { (k : ℕ) → IsPinnedInAll (net_view net.now) marking.now (change_view change.now) k → steps.new ≤ steps.old + k }
    ensures clock { elements.new.clock ≡ elements.old.clock }
    ensures places { elements.new.places ≡ elements.old.places }
{
    for t in readers.with_term(change.place) {
        add_found_with(alloc, net, marking, plans, *t, change, elements, steps)?;
    }
    Ok(())
}

/// Adds what is enabled with one of the changed values, of each transition that has a binding term on its place.
pub(crate) fn add_found_with_each<L: Ledger>(
    alloc: Global,
    net: &Net,
    marking: &Marking,
    plans: &Plans,
    readers: &Readers,
    changes: &[Change],
    elements: &mut WatchedElements,
    steps: &mut Steps<L>,
) -> Result<(), Memory>
    requires sound { IsSound (net_view net.now) }
    requires marking { IsMarking (net_view net.now).places marking.now }
    requires planned { IsPlanned (net_view net.now) plans.now }
    requires readers { AreReaders (net_view net.now) readers.now }
    requires places { elements.old.places ≡ length (net_view net.now).places }
    ensures more { OnOk result (HaveMore (net_view net.now) marking.now elements.old.elements elements.new.elements) }
    ensures all { OnOk result ((p : ℕ) (v : PlainValue) → is_told p v (change_views changes.now) ≡ true → HaveAll (net_view net.now) marking.now (HasTermAt (net_view net.now) p v) elements.new.elements) }
    ensures steps { (k : ℕ) → IsSum (IsPinnedInAll (net_view net.now) marking.now) (change_views changes.now) k → steps.new ≤ steps.old + k }
    ensures clock { elements.new.clock ≡ elements.old.clock }
    ensures places { elements.new.places ≡ elements.old.places }
{
    for change in changes {
        add_all_with(alloc, net, marking, plans, readers, change, elements, steps)?;
    }
    Ok(())
}

/// Puts each of the numbers into the set.
fn insert_each(set: &mut BTreeSet<u32>, numbers: &[u32]) -> Result<(), Memory>
    ensures inserted { OnOk result ((t : ℕ) → contains nat_cmp set.new t ≡ (contains nat_cmp set.old t || is_one_of numbers.now t)) }
{
    for number in numbers {
        set.insert(*number)?;
    }
    Ok(())
}

/// The transitions that read a place otherwise on which a value changed.
fn read_otherwise(
    alloc: Global,
    readers: &Readers,
    changes: &[Change],
) -> Result<BTreeSet<u32>, Memory>
    ensures read { IfOk result (λ read. (t : ℕ) → contains nat_cmp read t ≡ is_read readers.now.otherwise.items (change_views changes.now) t) }
{
    let mut read = BTreeSet::new(alloc);
    for change in changes {
        insert_each(&mut read, readers.otherwise(change.place))?;
    }
    Ok(read)
}

/// Adds all that is enabled of a transition.
fn add_all_of<L: Ledger>(
    alloc: Global,
    net: &Net,
    marking: &Marking,
    plans: &Plans,
    t: u32,
    elements: &mut WatchedElements,
    steps: &mut Steps<L>,
) -> Result<(), Memory>
    requires sound { IsSound (net_view net.now) }
    requires marking { IsMarking (net_view net.now).places marking.now }
    requires planned { IsPlanned (net_view net.now) plans.now }
    requires places { elements.old.places ≡ length (net_view net.now).places }
    requires in_range { t < length net.now.transitions.items }
    ensures more { OnOk result (HaveMore (net_view net.now) marking.now elements.old.elements elements.new.elements) }
    ensures all { OnOk result (HaveAll (net_view net.now) marking.now (IsOfTransition t) elements.new.elements) }
    ensures steps { (k : ℕ) → IsFull (net_view net.now) marking.now t k → steps.new ≤ steps.old + k }
    ensures clock { elements.new.clock ≡ elements.old.clock }
    ensures places { elements.new.places ≡ elements.old.places }
{
    let plan = plans.plan(t);
    let searched = search_counted(alloc, net, marking, t, plan, steps)?;
    elements.add_all(searched.found)?;
    Ok(())
}

/// Adds all that is enabled of each transition that reads a place otherwise on which a value changed.
pub(crate) fn add_read_otherwise<L: Ledger>(
    alloc: Global,
    net: &Net,
    marking: &Marking,
    plans: &Plans,
    readers: &Readers,
    changes: &[Change],
    elements: &mut WatchedElements,
    steps: &mut Steps<L>,
) -> Result<(), Memory>
    requires sound { IsSound (net_view net.now) }
    requires marking { IsMarking (net_view net.now).places marking.now }
    requires planned { IsPlanned (net_view net.now) plans.now }
    requires readers { AreReaders (net_view net.now) readers.now }
    requires places { elements.old.places ≡ length (net_view net.now).places }
    ensures more { OnOk result (HaveMore (net_view net.now) marking.now elements.old.elements elements.new.elements) }
    ensures all { OnOk result ((t : ℕ) → t < length (net_view net.now).transitions → ReadsToldOtherwise (transition_at (net_view net.now) t) (change_views changes.now) → HaveAll (net_view net.now) marking.now (IsOfTransition t) elements.new.elements) }
    ensures steps { (k : ℕ) → IsSum (IsFullIfRead (net_view net.now) marking.now (change_views changes.now)) (transitions_of (net_view net.now)) k → steps.new ≤ steps.old + k }
    ensures clock { elements.new.clock ≡ elements.old.clock }
    ensures places { elements.new.places ≡ elements.old.places }
{
    let read = read_otherwise(alloc, readers, changes)?;
    for t in &read {
        add_all_of(alloc, net, marking, plans, *t, elements, steps)?;
    }
    Ok(())
}
