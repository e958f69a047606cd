//! The tokens of terms on a place, and whether two places have the same.

ghost use Rattle.std.specs.Prelude.{◌≡◌, ◌+◌, ◌<◌, ◌≤◌, ◌^◌, ◌↔◌, IsTrue, [], length, replicate, slice_index_or, slice_set, IfOk, OnOk};
ghost use Rattle.cpn_definitions.specs.Lists.{with_items};
ghost use Rattle.cpn_definitions.specs.Marking.{token_at, token_cmp, tokens_at};
ghost use Rattle.cpn_definitions.specs.Terms.{most_tokens, tokens_in};
ghost use Rattle.cpn_core.specs.Views.{value_view};
ghost use Rattle.cpn_tmset.specs.ListedViews.{group_view, groups_view};
ghost use Rattle.cpn_eval.specs.Terms.{term_view, terms_view};
ghost use Rattle.cpn_flat.specs.InitialMarking.{token_of};
ghost use Rattle.cpn_flat.specs.Values.{tokens_with};

use cpn_core::{Memory, Value};
use cpn_eval::Term;
use cpn_tmset::{Marking, TMSet, TokenGroup};
use std::alloc::Global;

/// The time stamp of the tokens of a term; on a place that keeps none it is 0.
fn stamp_of(timed: bool, term: &Term) -> u64
    ensures exact { result ≡ (token_of timed (term_view term.now)).stamp }
{
    if timed { term.delay } else { 0 }
}

/// Adds tokens of a value, each with the stamp, to a place.
fn add_tokens(
    marking: &mut Marking,
    place: u32,
    value: &Value,
    count: u64,
    stamp: u64,
) -> Result<(), Memory>
    requires in_range { place < length marking.old }
    requires room { length (tokens_at marking.old place) + count < 2 ^ 48 }
    ensures added { OnOk result (marking.new ≡ slice_set marking.old place (with_items token_cmp (replicate count (token_at (value_view value.now) stamp)) (slice_index_or marking.old place []))) }
    ensures places { length marking.new ≡ length marking.old }
    ensures number { OnOk result (length (tokens_at marking.new place) ≡ length (tokens_at marking.old place) + count) }
{
    for _token in 0..count {
        marking.add(place, value.copy()?, stamp)?;
    }
    Ok(())
}

/// Adds the tokens of terms to a place, each term's as many times as its count says, with its stamp where the place keeps time stamps and
/// with 0 where it keeps none.
///
/// `Err` comes for want of memory alone.
pub fn add_terms(
    marking: &mut Marking,
    place: u32,
    timed: bool,
    terms: &[Term],
) -> Result<(), Memory>
    requires in_range { place < length marking.old }
    requires few { length (tokens_at marking.old place) + tokens_in (terms_view terms.now) ≤ most_tokens }
    ensures added { OnOk result (marking.new ≡ slice_set marking.old place (tokens_with timed (terms_view terms.now) (slice_index_or marking.old place []))) }
    ensures places { length marking.new ≡ length marking.old }
{
    for term in terms {
        add_tokens(
            marking,
            place,
            &term.value,
            term.count,
            stamp_of(timed, term),
        )?;
    }
    Ok(())
}

/// Whether the groups are so many equal tokens.
fn is_same_group(group: &TokenGroup<'_>, other: &TokenGroup<'_>) -> bool
    ensures exact { IsTrue result ↔ (group_view group.now ≡ group_view other.now) }
{
    group.value == other.value && group.stamp == other.stamp && group.count == other.count
}

/// Whether the lists have the same groups.
fn are_same_groups(groups: &[TokenGroup<'_>], others: &[TokenGroup<'_>]) -> bool
    ensures exact { IsTrue result ↔ (groups_view groups.now ≡ groups_view others.now) }
{
    if groups.len() != others.len() {
        return false;
    }
    for (number, group) in groups.iter().enumerate() {
        if !is_same_group(group, &others[number]) {
            return false;
        }
    }
    true
}

/// Whether two places have the same tokens.
pub(crate) fn are_same(alloc: Global, tokens: &TMSet, others: &TMSet) -> Result<bool, Memory>
    ensures exact { IfOk result (λ same. IsTrue same ↔ (tokens.now ≡ others.now)) }
{
    let tokens = tokens.groups(alloc)?;
    let others = others.groups(alloc)?;
    Ok(are_same_groups(tokens.as_slice(), others.as_slice()))
}
