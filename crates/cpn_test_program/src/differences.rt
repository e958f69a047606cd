//! What differs in two markings.
ghost use Rattle.std.specs.Prelude.{◌≡◌, ℕ, ◌<◌, ◌^◌, true, false, length, IfOk, OnOk};
ghost use Rattle.std.specs.List.{list_any};
ghost use Rattle.cpn_definitions.specs.Value.{PlainValue};
ghost use Rattle.cpn_definitions.specs.Order.{same_value};
ghost use Rattle.cpn_definitions.specs.Marking.{stamps};
ghost use Rattle.cpn_core.specs.Views.{value_view};
ghost use Rattle.cpn_tmset.specs.Changed.{is_told, OthersStay};
ghost use Rattle.cpn_tmset.specs.ChangedViews.{changes_view};
ghost use Rattle.cpn_tmset.specs.ListedViews.{pointed_view};

use cpn_core::{Memory, Value};
use cpn_tmset::{Changes, Marking, TMSet};
use std::alloc::Global;

/// Whether the value has the same stamps among both tokens.
fn have_same_stamps(old: &TMSet, new: &TMSet, value: &Value) -> bool
    ensures same { result ≡ true → stamps (value_view value.now) new.now ≡ stamps (value_view value.now) old.now }
{
    for rank in 0..u64::MAX {
        let stamp = old.stamp(value, rank);
        if stamp != new.stamp(value, rank) {
            return false;
        }
        if stamp.is_none() {
            return true;
        }
    }
    false
}

/// Tells those of the values whose stamps differ among the tokens of a place.
fn tell_values(
    changes: &mut Changes,
    place: u32,
    values: &[&Value],
    old: &TMSet,
    new: &TMSet,
) -> Result<(), Memory>
    ensures told { OnOk result ((v : PlainValue) → list_any (same_value v) (pointed_view values.now) ≡ true → is_told place v (changes_view changes.new) ≡ false → stamps v new.now ≡ stamps v old.now) }
    ensures more { OnOk result ((p : ℕ) (v : PlainValue) → is_told p v (changes_view changes.new) ≡ false → is_told p v (changes_view changes.old) ≡ false) }
{
    for value in values {
        if !have_same_stamps(old, new, value) {
            changes.push(place, value.copy()?)?;
        }
    }
    Ok(())
}

/// Tells the values on a place whose stamps differ among its old tokens and its new ones.
fn tell_place(
    alloc: Global,
    changes: &mut Changes,
    place: u32,
    old: &TMSet,
    new: &TMSet,
) -> Result<(), Memory>
    ensures told { OnOk result ((v : PlainValue) → is_told place v (changes_view changes.new) ≡ false → stamps v new.now ≡ stamps v old.now) }
    ensures more { OnOk result ((p : ℕ) (v : PlainValue) → is_told p v (changes_view changes.new) ≡ false → is_told p v (changes_view changes.old) ≡ false) }
{
    let before = old.values(alloc)?;
    let after = new.values(alloc)?;
    tell_values(changes, place, &before, old, new)?;
    tell_values(changes, place, &after, old, new)?;
    Ok(())
}

/// The values on places whose stamps differ in two markings of as many places; one that stands in both may be told twice.
pub fn changes_between(alloc: Global, old: &Marking, new: &Marking) -> Result<Changes, Memory>
    requires few { length old.now < 2 ^ 32 }
    requires as_many { length new.now ≡ length old.now }
    ensures others { IfOk result (λ changes. OthersStay (changes_view changes) old.now new.now) }
{
    let mut changes = Changes::new(alloc);
    for place in 0..old.len() as u32 {
        tell_place(
            alloc,
            &mut changes,
            place,
            old.place(place),
            new.place(place),
        )?;
    }
    Ok(changes)
}
