//! An index that follows the marking of a run.
ghost use Rattle.std.specs.Prelude.{◌≡◌, ◌<◌, IfOk, OnOk};
ghost use Rattle.cpn_definitions.specs.Sound.{IsSound, IsMarking};
ghost use Rattle.cpn_core.specs.Nets.{net_view};
ghost use Rattle.cpn_index.specs.Index.{clock_in, IsIndexOf, MayFollow};
ghost use Rattle.cpn_tmset.specs.ChangedViews.{changes_view};
ghost use Rattle.cpn_test_program.specs.Held.{IsHeld};

use crate::differences::changes_between;
use cpn_core::{EnabledElement, Memory, Net};
use cpn_due::compare_elements;
use cpn_index::Index;
use cpn_search::{Plans, Steps};
use cpn_tmset::{Changes, Marking};
use std::alloc::Global;
use std::cmp::Ordering;
use std::marker::Brand;
use std::sync::ledger::{Blank, Ledger};

/// A marking of a net, and the index of both at a clock.
#[derive(Drop)]
pub struct Held {
    /// The marking.
    pub marking: Marking,
    /// What is enabled in it.
    pub index: Index,
    /// The clock of the index.
    pub clock: u64,
}

impl Held {
    /// The index of a marking of a net, at a clock.
    pub fn of(alloc: Global, net: &Net, marking: &Marking, clock: u64) -> Result<Held, Memory>
        requires sound { IsSound (net_view net.now) }
        requires marking { IsMarking (net_view net.now).places marking.now }
        ensures held { IfOk result (λ held. IsHeld (net_view net.now) held.marking held.index held.clock) }
    {
        let marking = marking.copy()?;
        let index = Index::build(alloc, net, &marking, clock)?;
        Ok(Held {
            marking,
            index,
            clock,
        })
    }

    /// Follows to another marking, of which the index is told what changed, at a clock that is not before.
    pub fn follow(
        &mut self,
        alloc: Global,
        net: &Net,
        marking: &Marking,
        clock: u64,
    ) -> Result<(), Memory>
        requires held { IsHeld (net_view net.now) self.old.marking self.old.index self.old.clock }
        requires marking { IsMarking (net_view net.now).places marking.now }
        ensures held { OnOk result (IsHeld (net_view net.now) self.new.marking self.new.index self.new.clock) }
    {
        let marking = marking.copy()?;
        let changes = changes_between(alloc, &self.marking, &marking)?;
        follow_told(&mut self.index, net, &marking, &changes)?;
        self.marking = marking;
        self.clock = self.clock.max(clock);
        self.index.advance_to(self.clock);
        Ok(())
    }

    /// Whether the index keeps just what a search of the whole net finds anew.
    pub fn agrees(&self, alloc: Global, net: &Net) -> Result<bool, Memory>
        requires held { IsHeld (net_view net.now) self.now.marking self.now.index self.now.clock }
    {
        let plans = Plans::of(alloc, net)?;
        let found = plans.enabled(alloc, net, &self.marking, self.clock)?;
        let as_many = u64::try_from(found.len()) == Ok(self.index.len());
        let next = self.index.next_time() == least_time(&found);
        Ok(as_many && next && are_ready(&self.index, &found, self.clock))
    }
}

/// The index of a marking in which all has the same stamps but what is told follows it to the new one.
fn follow_told(
    index: &mut Index,
    net: &Net,
    marking: &Marking,
    told: &Changes,
) -> Result<(), Memory>
    requires sound { IsSound (net_view net.now) }
    requires marking { IsMarking (net_view net.now).places marking.now }
    requires follows { MayFollow (net_view net.now) marking.now (changes_view told.now) index.old }
    ensures updated { OnOk result (IsIndexOf (net_view net.now) marking.now index.new) }
    ensures clock { clock_in index.new ≡ clock_in index.old }
{
    follow_on::<Brand>(index, net, marking, told, Blank::new(1))
}

/// The same, with steps on a ledger that is dropped.
fn follow_on<L: Ledger>(
    index: &mut Index,
    net: &Net,
    marking: &Marking,
    told: &Changes,
    blank: Blank,
) -> Result<(), Memory>
    requires sound { IsSound (net_view net.now) }
    requires marking { IsMarking (net_view net.now).places marking.now }
    requires follows { MayFollow (net_view net.now) marking.now (changes_view told.now) index.old }
    requires name { blank.name ≡ L.name }
    requires parts { blank.parts ≡ L.parts }
    requires some { 0 < blank.parts }
    ensures updated { OnOk result (IsIndexOf (net_view net.now) marking.now index.new) }
    ensures clock { clock_in index.new ≡ clock_in index.old }
{
    let mut steps = Steps::<L>::none(blank);
    index.update(net, marking, told, &mut steps)
}

/// The least time of the elements; `None` where there is none.
fn least_time(found: &[EnabledElement]) -> Option<u64> {
    let mut least = None;
    for element in found {
        let earliest = element.entry.earliest;
        least = match least {
            None => Some(earliest),
            Some(time) => Some(earliest.min(time)),
        };
    }
    least
}

/// Whether those of the elements that are found for the clock are what is ready, in their order.
fn are_ready(index: &Index, found: &[EnabledElement], clock: u64) -> bool {
    let number = index.ready_len();
    let mut k = 0;
    for element in found {
        if element.entry.earliest == clock {
            if k >= number || !is_same(index.ready(k), element) {
                return false;
            }
            k += 1;
        }
    }
    k == number
}

/// Whether what is kept is the element that was found. Its own time may be before the clock.
fn is_same(kept: &EnabledElement, found: &EnabledElement) -> bool {
    let order = compare_elements(&kept.entry.element, &found.entry.element);
    order == Ordering::Equal && kept.entry.earliest <= found.entry.earliest
}
