//! The places and values that claims touch.

ghost use Rattle.std.specs.Prelude.{◌≡◌, ◌++◌, map, IfOk, OnOk};
ghost use Rattle.std.specs.Ordering.{is_lt};
ghost use Rattle.std.specs.List.Sorted.{IsPermutation, IsSortedBy};
ghost use Rattle.cpn_tmset.specs.Changed.{change_cmp};
ghost use Rattle.cpn_tmset.specs.ChangedViews.{change_view, change_views};
ghost use Rattle.cpn_runs.specs.HoleRun.{added};
ghost use Rattle.cpn_log.specs.Gathered.{made_change, need_change, touched};
ghost use Rattle.cpn_log.specs.ClaimViews.{claim_views, status_view};

use crate::claims::{Claim, Course};
use cpn_core::{Memory, Needs, Outputs};
use cpn_tmset::Change;
use std::alloc::Global;
use std::cmp::Ordering;

/// The places and values that the claims touch: those of their needs and of what they add, in order.
pub(crate) fn touched_in_order(alloc: Global, claims: &[Claim]) -> Result<Vec<Change>, Memory>
    ensures same { IfOk result (λ items. IsPermutation (touched (claim_views claims.now)) (change_views items.items)) }
    ensures in_order { IfOk result (λ items. IsSortedBy (λ c d. is_lt (change_cmp (change_view c) (change_view d))) items.items) }
{
    let mut items = touched_by_each(alloc, claims)?;
    items.sort_by(|one, another| compare(one, another))?;
    Ok(items)
}

// How two of them compare: by place, then by value.
fn compare(change: &Change, other: &Change) -> Ordering
    ensures exact { result ≡ change_cmp (change_view change.now) (change_view other.now) }
{
    let by_place = change.place.cmp(&other.place);
    let by_value = change.value.cmp(&other.value);
    by_place.then(by_value)
}

// The places and values that the claims touch, claim by claim.
fn touched_by_each(alloc: Global, claims: &[Claim]) -> Result<Vec<Change>, Memory>
    ensures { IfOk result (λ items. change_views items.items ≡ touched (claim_views claims.now)) }
{
    let mut items = Vec::new(alloc);
    for claim in claims {
        push_needs(&mut items, &claim.needs)?;
        push_added(&mut items, &claim.course)?;
    }
    Ok(items)
}

// Appends those of needs.
fn push_needs(items: &mut Vec<Change>, needs: &Needs) -> Result<(), Memory>
    ensures { OnOk result (change_views items.new.items ≡ change_views items.old.items ++ map need_change needs.now) }
{
    for need in needs.tokens() {
        items.push(Change {
            place: need.place,
            value: need.value.copy()?,
        })?;
    }
    Ok(())
}

// Appends those of what a claim adds.
fn push_added(items: &mut Vec<Change>, course: &Course) -> Result<(), Memory>
    ensures { OnOk result (change_views items.new.items ≡ change_views items.old.items ++ map made_change (added (status_view course.now))) }
{
    match course {
        Course::Open => Ok(()),
        Course::Done(outputs) => push_outputs(items, outputs),
        Course::Failed(_) => Ok(()),
    }
}

// Appends those of outputs.
fn push_outputs(items: &mut Vec<Change>, outputs: &Outputs) -> Result<(), Memory>
    ensures { OnOk result (change_views items.new.items ≡ change_views items.old.items ++ map made_change outputs.now) }
{
    for made in outputs.tokens() {
        items.push(Change {
            place: made.place,
            value: made.value.copy()?,
        })?;
    }
    Ok(())
}
