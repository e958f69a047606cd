//! How the index follows the unclaimed marking.

ghost use Rattle.std.specs.Prelude.{◌≡◌, ◌<◌, ℕ, OnOk};
ghost use Rattle.cpn_core.specs.Nets.{net_view};
ghost use Rattle.cpn_definitions.specs.Sound.{IsSound, IsMarking};
ghost use Rattle.cpn_index.specs.Index.{clock_in, IsIndexOf, MayFollow};
ghost use Rattle.cpn_tmset.specs.ChangedViews.{changes_view};

use cpn_core::{Memory, Net};
use cpn_index::Index;
use cpn_search::Steps;
use cpn_tmset::{Changes, Marking};
use std::marker::Brand;
use std::sync::ledger::{Blank, Ledger};

/// The index of a marking in which all has the same stamps but what is told follows it to the new one. After `Memory` it keeps nothing.
pub(crate) fn follow_told(
    index: &mut Index,
    net: &Net,
    marking: &Marking,
    told: &Changes,
) -> Result<(), Memory>
    requires sound { IsSound (net_view net.now) }
    requires marking { IsMarking (net_view net.now).places marking.now }
    requires follows { MayFollow (net_view net.now) marking.now (changes_view told.now) index.old }
    ensures updated { OnOk result (IsIndexOf (net_view net.now) marking.now index.new) }
    ensures clock { clock_in index.new ≡ clock_in index.old }
{
    follow_on::<Brand>(index, net, marking, told, Blank::new(1))
}

// The same, with steps on a ledger that is dropped.
fn follow_on<L: Ledger>(
    index: &mut Index,
    net: &Net,
    marking: &Marking,
    told: &Changes,
    blank: Blank,
) -> Result<(), Memory>
    requires sound { IsSound (net_view net.now) }
    requires marking { IsMarking (net_view net.now).places marking.now }
    requires follows { MayFollow (net_view net.now) marking.now (changes_view told.now) index.old }
    requires name { blank.name ≡ L.name }
    requires parts { blank.parts ≡ L.parts }
    requires some { 0 < blank.parts }
    ensures updated { OnOk result (IsIndexOf (net_view net.now) marking.now index.new) }
    ensures clock { clock_in index.new ≡ clock_in index.old }
{
    let mut steps = Steps::<L>::none(blank);
    index.update(net, marking, told, &mut steps)
}
