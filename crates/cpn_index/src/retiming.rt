//! The least times of elements, taken anew where what they need changed.
ghost use Rattle.std.specs.Prelude.{◌≡◌, ℕ, ◌+◌, ◌≤◌, ◌∷◌, [], List, OnOk};
ghost use Rattle.cpn_definitions.specs.Lists.{Rises};
ghost use Rattle.cpn_definitions.specs.Net.{PlainNet};
ghost use Rattle.cpn_definitions.specs.Enabled.{PlainEntry, Enabled};
ghost use Rattle.cpn_definitions.specs.Sound.{IsMarking};
ghost use Rattle.cpn_tmset.specs.ChangedViews.{change_view, change_views};
ghost use Rattle.cpn_due.specs.Due.{enabled_cmp};
ghost use Rattle.cpn_index.specs.Retimed.{AreOfNet, AreRetimed};
ghost use Rattle.cpn_index.specs.UpdateWork.{gone_number};

use crate::elements::WatchedElements;
use cpn_core::Memory;
use cpn_search::Steps;
use cpn_tmset::{Change, Marking};
use std::alloc::Global;
use std::sync::ledger::Ledger;

/// Takes the least time of each element anew that needs what changed. An element that went, or has another time, is a step.
pub(crate) fn retime_all<L: Ledger>(
    alloc: Global,
    elements: &mut WatchedElements,
    marking: &Marking,
    changes: &[Change],
    steps: &mut Steps<L>,
) -> Result<(), Memory>
    ensures retimed { OnOk result ((n : PlainNet) → IsMarking n.places marking.now → AreOfNet n elements.old.elements → AreRetimed n marking.now (change_views changes.now) elements.old.elements elements.new.elements) }
    ensures steps { (n : PlainNet) (final : List PlainEntry) → IsMarking n.places marking.now → AreOfNet n elements.old.elements → Enabled n marking.now 0 final → steps.new + gone_number final elements.new.elements ≤ steps.old + gone_number final elements.old.elements }
    ensures clock { elements.new.clock ≡ elements.old.clock }
    ensures places { elements.new.places ≡ elements.old.places }
{
    for change in changes {
        retime_waiting(alloc, elements, marking, change, steps)?;
    }
    Ok(())
}

/// Takes the least time of each element anew that waits for the value on its place.
fn retime_waiting<L: Ledger>(
    alloc: Global,
    elements: &mut WatchedElements,
    marking: &Marking,
    change: &Change,
    steps: &mut Steps<L>,
) -> Result<(), Memory>
    ensures retimed { OnOk result ((n : PlainNet) → IsMarking n.places marking.now → AreOfNet n elements.old.elements → AreRetimed n marking.now (change_view change.now ∷ []) elements.old.elements elements.new.elements) }
    ensures steps { (n : PlainNet) (final : List PlainEntry) → IsMarking n.places marking.now → AreOfNet n elements.old.elements → Enabled n marking.now 0 final → steps.new + gone_number final elements.new.elements ≤ steps.old + gone_number final elements.old.elements }
    ensures clock { elements.new.clock ≡ elements.old.clock }
    ensures places { elements.new.places ≡ elements.old.places }
{
    let waiting = elements.waiting(alloc, change.place, &change.value)?;
    for element in &waiting {
        if elements.retime(marking, element) {
            steps.add(1);
        }
    }
    Ok(())
}
