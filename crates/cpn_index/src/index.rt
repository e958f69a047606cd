//! The index of enabled elements.
ghost use Rattle.std.specs.Prelude.{◌≡◌, ℕ, ◌+◌, ◌<◌, ◌≤◌, ◌==◌, List, [], length, option_map, slice_get, Some, IfOk, OnOk, OnErr};
ghost use Rattle.cpn_definitions.specs.Enabled.{PlainEntry, Enabled, next_time, ready};
ghost use Rattle.cpn_definitions.specs.Marking.{Marking};
ghost use Rattle.cpn_definitions.specs.Net.{PlainNet};
ghost use Rattle.cpn_definitions.specs.Sound.{IsSound, IsMarking};
ghost use Rattle.cpn_core.specs.Nets.{net_view};
ghost use Rattle.cpn_core.specs.Elements.{enabled_view, HasItsNeeds};
ghost use Rattle.cpn_tmset.specs.ChangedViews.{change_views, changes_view};
ghost use Rattle.cpn_due.specs.Due.{plain_enabled, entries_in, due_at};
ghost use Rattle.cpn_index.specs.Index.{kept_in, clock_in, listed_in, IsIndexOf, MayFollow, MaySetGuard};
ghost use Rattle.cpn_index.specs.UpdateWork.{IsUpdateWork, IsWithinWork};

use crate::elements::WatchedElements;
use crate::readers::Readers;
use crate::retiming::retime_all;
use crate::searching::{add_found_with_each, add_read_otherwise};
use cpn_core::{EnabledElement, Memory, Net};
use cpn_search::{Plans, Steps};
use cpn_tmset::{Change, Changes, Marking};
use std::alloc::Global;
use std::sync::ledger::Ledger;

/// What is enabled in a marking of a net, kept in order, so that a change of the marking costs by what it touches.
///
/// It keeps each element that is covered at some time, from time 0 on, with its least time and its needs; which of them are due at a
/// clock; which wait for a token of a value on a place; the plan of each transition; and on which transitions each place bears.
///
/// Source: own choice. A clause speaks of it by `IsIndexOf`, and of what is enabled from its clock on by the elements that it keeps.
#[derive(Drop)]
pub struct Index {
    alloc: Global,
    plans: Plans,
    readers: Readers,
    elements: WatchedElements,
}

impl Index {
    /// The index of a sound net and a marking, at a clock.
    ///
    /// # Errors
    ///
    /// `Memory` where memory is wanted; it leaves nothing behind.
    pub fn build(alloc: Global, net: &Net, marking: &Marking, clock: u64) -> Result<Index, Memory>
        requires sound { IsSound (net_view net.now) }
        requires marking { IsMarking (net_view net.now).places marking.now }
        ensures built { IfOk result (IsIndexOf (net_view net.now) marking.now) }
        ensures clock { IfOk result (λ index. clock_in index ≡ clock) }
    {
        let plans = Plans::of(alloc, net)?;
        let readers = Readers::of(alloc, net)?;
        let mut elements = WatchedElements::new(alloc, net.places.len(), clock)?;
        let enabled = plans.enabled(alloc, net, marking, 0)?;
        elements.add_all(enabled)?;
        Ok(Index {
            alloc,
            plans,
            readers,
            elements,
        })
    }

    /// Follows a change of the marking: the index was that of a marking from which the new one differs at most in the stamps of what is
    /// told, and is then that of the new one. It costs by what the change touches: steps are counted as `IsUpdateWork` bounds them, and
    /// there is such a bound. What is told twice is searched for twice, and counts twice.
    ///
    /// # Errors
    ///
    /// `Memory` where memory is wanted: the index is then empty, and the steps are those that were made.
    pub fn update<L: Ledger>(
        &mut self,
        net: &Net,
        marking: &Marking,
        changes: &Changes,
        steps: &mut Steps<L>,
    ) -> Result<(), Memory>
        requires sound { IsSound (net_view net.now) }
        requires marking { IsMarking (net_view net.now).places marking.now }
        requires follows { MayFollow (net_view net.now) marking.now (changes_view changes.now) self.old }
        ensures updated { OnOk result (IsIndexOf (net_view net.now) marking.now self.new) }
        ensures steps { (final : List PlainEntry) (k : ℕ) → Enabled (net_view net.now) marking.now 0 final → IsUpdateWork (net_view net.now) marking.now (changes_view changes.now) (entries_in (kept_in self.old)) final k → steps.new ≤ steps.old + k }
        ensures bounded { (final : List PlainEntry) → Enabled (net_view net.now) marking.now 0 final → IsWithinWork (net_view net.now) marking.now (changes_view changes.now) (entries_in (kept_in self.old)) final steps.old steps.new }
        ensures gone { OnErr result (kept_in self.new ≡ []) }
        ensures clock { clock_in self.new ≡ clock_in self.old }
    {
        match self.follow(net, marking, changes.items(), steps) {
            Ok(_) => Ok(()),
            Err(Memory) => {
                self.elements.clear();
                Err(Memory)
            }
        }
    }

    /// Takes out all elements, as where memory is wanted: it is then an index of no marking. The clock stays. It takes no memory.
    pub fn clear(&mut self)
        ensures gone { kept_in self.new ≡ [] }
        ensures clock { clock_in self.new ≡ clock_in self.old }
    {
        self.elements.clear();
    }

    // Follows a change, and answers how many elements are enabled then; after `Memory` nothing is known of what is kept.
    fn follow<L: Ledger>(
        &mut self,
        net: &Net,
        marking: &Marking,
        changes: &[Change],
        steps: &mut Steps<L>,
    ) -> Result<u64, Memory>
        requires sound { IsSound (net_view net.now) }
        requires marking { IsMarking (net_view net.now).places marking.now }
        requires follows { MayFollow (net_view net.now) marking.now (change_views changes.now) self.old }
        ensures updated { OnOk result (IsIndexOf (net_view net.now) marking.now self.new) }
        ensures steps { (final : List PlainEntry) (k : ℕ) → Enabled (net_view net.now) marking.now 0 final → IsUpdateWork (net_view net.now) marking.now (change_views changes.now) (entries_in (kept_in self.old)) final k → steps.new ≤ steps.old + k }
        ensures clock { clock_in self.new ≡ clock_in self.old }
    {
        let alloc = self.alloc;
        let elements = &mut self.elements;
        retime_all(alloc, elements, marking, changes, steps)?;
        add_found_with_each(
            alloc,
            net,
            marking,
            &self.plans,
            &self.readers,
            changes,
            elements,
            steps,
        )?;
        add_read_otherwise(
            alloc,
            net,
            marking,
            &self.plans,
            &self.readers,
            changes,
            elements,
            steps,
        )?;
        Ok(elements.len())
    }

    /// Follows a change of the guard of a transition: the index was that of the marking and of a net that is the same but for the guard and
    /// the variables of the transition, and is then that of the net. It searches for the elements of this transition alone; those of
    /// the others stay.
    ///
    /// # Errors
    ///
    /// `Memory` where memory is wanted: the index is then empty.
    pub fn set_guard(&mut self, net: &Net, marking: &Marking, t: u32) -> Result<(), Memory>
        requires sound { IsSound (net_view net.now) }
        requires marking { IsMarking (net_view net.now).places marking.now }
        requires in_range { t < length net.now.transitions.items }
        requires sets { MaySetGuard (net_view net.now) marking.now t self.old }
        ensures set { OnOk result (IsIndexOf (net_view net.now) marking.now self.new) }
        ensures gone { OnErr result (kept_in self.new ≡ []) }
        ensures clock { clock_in self.new ≡ clock_in self.old }
    {
        match self.renew(net, marking, t) {
            Ok(()) => Ok(()),
            Err(Memory) => {
                self.elements.clear();
                Err(Memory)
            }
        }
    }

    // Makes the plan of the transition anew, and puts what is enabled of it in the place of its elements; after `Memory` nothing is
    // known of what is kept.
    fn renew(&mut self, net: &Net, marking: &Marking, t: u32) -> Result<(), Memory>
        requires sound { IsSound (net_view net.now) }
        requires marking { IsMarking (net_view net.now).places marking.now }
        requires in_range { t < length net.now.transitions.items }
        requires sets { MaySetGuard (net_view net.now) marking.now t self.old }
        ensures set { OnOk result (IsIndexOf (net_view net.now) marking.now self.new) }
        ensures clock { clock_in self.new ≡ clock_in self.old }
    {
        let alloc = self.alloc;
        self.plans.renew(alloc, net, t)?;
        self.elements.remove_of(t)?;
        let found = self.plans.enabled_of(alloc, net, marking, t)?;
        self.elements.add_all(found)?;
        Ok(())
    }

    /// Moves the clock. No element comes or goes by that.
    pub fn advance_to(&mut self, clock: u64)
        requires not_back { clock_in self.old ≤ clock }
        ensures moved { clock_in self.new ≡ clock }
        ensures kept { kept_in self.new ≡ kept_in self.old }
        ensures index { (n : PlainNet) (m : Marking) → IsIndexOf n m self.old → IsIndexOf n m self.new }
    {
        self.elements.take_due(clock);
    }

    /// How many elements are enabled, whether they are due or not.
    pub fn len(&self) -> u64
        ensures number { result ≡ length (kept_in self.now) }
    {
        self.elements.len()
    }

    /// Whether nothing is enabled.
    pub fn is_empty(&self) -> bool
        ensures exact { result ≡ (length (kept_in self.now) == 0) }
    {
        self.elements.len() == 0
    }

    /// How many elements are ready at the clock.
    pub fn ready_len(&self) -> u64
        ensures number { result ≡ length (ready (clock_in self.now) (listed_in self.now)) }
    {
        self.elements.ready_len()
    }

    /// The element at a position, from 0, among those that are ready at the clock, in order.
    pub fn ready(&self, k: u64) -> &EnabledElement
        requires within { k < length (ready (clock_in self.now) (listed_in self.now)) }
        ensures element { slice_get (due_at (clock_in self.now) (kept_in self.now)) k ≡ Some (plain_enabled result.now) }
    {
        self.elements.ready(k)
    }

    /// The least time, from the clock on, at which an element is covered; `None` where none is covered at any time.
    pub fn next_time(&self) -> Option<u64>
        ensures next { result ≡ next_time (listed_in self.now) }
    {
        let first = self.elements.first_time()?;
        Some(first.max(self.elements.clock()))
    }
}
