//! How the changes of a marking are gathered.

ghost use Rattle.std.specs.Prelude.{◌≡◌, map, length, IfOk, OnOk};
ghost use Rattle.std.specs.List.{filter, slice_get};
ghost use Rattle.cpn_definitions.specs.Lists.{IsInOrder};
ghost use Rattle.cpn_definitions.specs.Marking.{stamps, tokens_at};
ghost use Rattle.cpn_definitions.specs.Occurrence.{made_cmp, needed_cmp};
ghost use Rattle.cpn_core.specs.Views.{value_view};
ghost use Rattle.cpn_tmset.specs.ChangedViews.{change_views, changes_view};
ghost use Rattle.cpn_log.specs.Gathered.{and_then, differs, each_once, ends_with, made_change, need_change, same_stamps};

use cpn_core::{Memory, Needs, Outputs, Value};
use cpn_tmset::{Change, Changes, Marking};
use std::alloc::Global;

/// The places and values of needs, each once.
pub(crate) fn changes_of_needs(alloc: Global, needs: &Needs) -> Result<Changes, Memory>
    ensures told { IfOk result (λ changes. changes_view changes ≡ each_once (map need_change needs.now)) }
    ensures in_order { IsInOrder needed_cmp needs.now }
{
    let tokens = needs.tokens();
    let mut changes = Changes::new(alloc);
    for need in tokens {
        tell(&mut changes, need.place, &need.value)?;
    }
    Ok(changes)
}

/// Those of outputs, each once.
pub(crate) fn changes_of_outputs(alloc: Global, outputs: &Outputs) -> Result<Changes, Memory>
    ensures told { IfOk result (λ changes. changes_view changes ≡ each_once (map made_change outputs.now)) }
    ensures in_order { IsInOrder made_cmp outputs.now }
{
    let tokens = outputs.tokens();
    let mut changes = Changes::new(alloc);
    for made in tokens {
        tell(&mut changes, made.place, &made.value)?;
    }
    Ok(changes)
}

/// Those of the items whose stamps differ in the two markings, each once.
pub(crate) fn changes_among(
    alloc: Global,
    touched: &[Change],
    old: &Marking,
    new: &Marking,
) -> Result<Changes, Memory>
    ensures { IfOk result (λ changes. changes_view changes ≡ each_once (filter (differs old.now new.now) (change_views touched.now))) }
{
    let mut changes = Changes::new(alloc);
    for change in touched {
        if !have_same_stamps(old, new, change) {
            tell(&mut changes, change.place, &change.value)?;
        }
    }
    Ok(changes)
}

/// Appends the value on the place, unless it stands last already.
pub(crate) fn tell(changes: &mut Changes, place: u32, value: &Value) -> Result<(), Memory>
    ensures { OnOk result (changes_view changes.new ≡ and_then (record { place = place; value = value_view value.now }) (changes_view changes.old)) }
{
    if !stands_last(changes.items(), place, value) {
        changes.push(place, value.copy()?)?;
    }
    Ok(())
}

// Whether the last item is the value on the place.
fn stands_last(items: &[Change], place: u32, value: &Value) -> bool
    ensures { result ≡ ends_with (record { place = place; value = value_view value.now }) (change_views items.now) }
{
    match items.last() {
        Some(last) => place == last.place && *value == last.value,
        None => false,
    }
}

// Whether the value has the same stamps on the place in both markings.
fn have_same_stamps(old: &Marking, new: &Marking, change: &Change) -> bool
    ensures { result ≡ same_stamps (stamps (value_view change.now.value) (tokens_at old.now change.now.place)) (stamps (value_view change.now.value) (tokens_at new.now change.now.place)) }
{
    let most = tokens_on(old, change.place);
    for rank in 0..most {
        let stamp = stamp_at(old, change, rank);
        if stamp != stamp_at(new, change, rank) {
            return false;
        }
        if stamp.is_none() {
            return true;
        }
    }
    stamp_at(new, change, most).is_none()
}

// How many tokens stand on the place; none past the last one.
fn tokens_on(marking: &Marking, place: u32) -> u64
    ensures { result ≡ length (tokens_at marking.now place) }
{
    match marking.get(place as usize) {
        Some(held) => held.total(),
        None => 0,
    }
}

// The stamp at a rank, from 0, among those of the value on the place.
fn stamp_at(marking: &Marking, change: &Change, rank: u64) -> Option<u64>
    ensures { result ≡ slice_get (stamps (value_view change.now.value) (tokens_at marking.now change.now.place)) rank }
{
    let held = marking.get(change.place as usize)?;
    held.stamp(&change.value, rank)
}
