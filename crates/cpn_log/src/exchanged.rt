//! What an exchange changes: the places and values of which other tokens are put in than were taken.

ghost use Rattle.std.specs.Prelude.{◌≡◌, List, ◌++◌, map, IfOk, OnOk};
ghost use Rattle.cpn_definitions.specs.Lists.{in_order, IsInOrder};
ghost use Rattle.cpn_definitions.specs.Occurrence.{made_cmp, needed_cmp};
ghost use Rattle.cpn_core.specs.NeedsViews.{needed_views};
ghost use Rattle.cpn_core.specs.OutputsViews.{made_view, made_views};
ghost use Rattle.cpn_tmset.specs.Changed.{PlainChange};
ghost use Rattle.cpn_tmset.specs.ChangedViews.{changes_view};
ghost use Rattle.cpn_log.specs.Gathered.{differing, each_once, made_change, tokens_taken};

use crate::gathered::tell;
use cpn_core::{Made, Memory, Needed, Needs, Outputs};
use cpn_tmset::Changes;
use std::alloc::Global;
use std::cmp::Ordering;

/// The places and values of which other tokens are put in than needs took with these stamps, each once, in order.
pub(crate) fn changes_of_exchange(
    alloc: Global,
    needs: &Needs,
    stamps: &[u64],
    outputs: &Outputs,
) -> Result<Changes, Memory>
    ensures told { IfOk result (λ changes. changes_view changes ≡ each_once (differing (in_order made_cmp (tokens_taken needs.now stamps.now)) outputs.now)) }
    ensures needs_in_order { IsInOrder needed_cmp needs.now }
    ensures outputs_in_order { IsInOrder made_cmp outputs.now }
{
    let needed = needs.tokens();
    let made = outputs.tokens();
    let taken = taken_in_order(alloc, needed, stamps)?;
    changes_between(alloc, taken.tokens(), made)
}

/// The tokens that needs took with these stamps, in order.
fn taken_in_order(alloc: Global, needs: &[Needed], stamps: &[u64]) -> Result<Outputs, Memory>
    ensures { IfOk result (λ taken. taken ≡ in_order made_cmp (tokens_taken (needed_views needs.now) stamps.now)) }
{
    let mut taken = Outputs::new(alloc);
    for (index, need) in needs.iter().enumerate() {
        if let Some(stamp) = stamps.get(index) {
            taken.add(Made {
                place: need.place,
                value: need.value.copy()?,
                stamp: *stamp,
            })?;
        }
    }
    Ok(taken)
}

/// The places and values of the tokens that stand in one of two lists in order and not in the other, each once, in order.
fn changes_between(alloc: Global, taken: &[Made], outputs: &[Made]) -> Result<Changes, Memory>
    ensures { IfOk result (λ changes. changes_view changes ≡ each_once (differing (made_views taken.now) (made_views outputs.now))) }
{
    let mut changes = Changes::new(alloc);
    let mut gone = 0usize;
    let mut come = 0usize;
    while gone < taken.len() && come < outputs.len() {
        let token = &taken[gone];
        let made = &outputs[come];
        match compare(token, made) {
            Ordering::Less => {
                tell(&mut changes, token.place, &token.value)?;
                gone += 1;
            }
            Ordering::Equal => {
                gone += 1;
                come += 1;
            }
            Ordering::Greater => {
                tell(&mut changes, made.place, &made.value)?;
                come += 1;
            }
        }
    }
    tell_each(&mut changes, &taken[gone..])?;
    tell_each(&mut changes, &outputs[come..])?;
    Ok(changes)
}

// How two tokens compare: by place, then by value, then by stamp.
fn compare(made: &Made, other: &Made) -> Ordering
    ensures exact { result ≡ made_cmp (made_view made.now) (made_view other.now) }
{
    let by_place = made.place.cmp(&other.place);
    let by_value = made.value.cmp(&other.value);
    let by_stamp = made.stamp.cmp(&other.stamp);
    by_place.then(by_value.then(by_stamp))
}

// Appends the places and values of tokens, each unless it stands last already.
fn tell_each(changes: &mut Changes, tokens: &[Made]) -> Result<(), Memory>
    ensures { OnOk result ((told : List PlainChange) → changes_view changes.old ≡ each_once told → changes_view changes.new ≡ each_once (told ++ map made_change (made_views tokens.now))) }
{
    for token in tokens {
        tell(changes, token.place, &token.value)?;
    }
    Ok(())
}
