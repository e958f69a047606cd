//! The tokens that the members of each compound place share.

ghost use Rattle.std.specs.Prelude.{◌≡◌, ◌<◌, ◌≤◌, ◌^◌, ◌↔◌, IsTrue, [], length, slice_set, IfOk, OnOk};
ghost use Rattle.cpn_definitions.specs.Marking.{tokens_at};
ghost use Rattle.cpn_definitions.specs.Net.{place_at};
ghost use Rattle.cpn_definitions.specs.Terms.{most_tokens, tokens_in};
ghost use Rattle.cpn_core.specs.Nets.{place_view, net_view};
ghost use Rattle.cpn_eval.specs.Terms.{terms_view};
ghost use Rattle.cpn_readings.specs.Reading.{Refuses};
ghost use Rattle.cpn_readings.specs.Relations.{each_so};
ghost use Rattle.cpn_flat.specs.InitialMarking.{tokens_of, IsShared};
ghost use Rattle.cpn_flat.specs.Values.{values_view, value_lists_view, AreFew, AreAllFew};
ghost use Rattle.cpn_flat.specs.Agreeing.{differing, Agree};
ghost use Rattle.cpn_flat.specs.Answers.{refusal_of, GivesBy};

use crate::refusals::FlatError;
use crate::tokens::{add_terms, are_same};
use cpn_core::{Memory, Net, Place};
use cpn_eval::{Term, Terms};
use cpn_tmset::{Marking, TMSet};
use std::alloc::Global;

/// The refusal of a compound place whose members differ.
fn differs(alloc: Global, holder: &Place) -> FlatError
    ensures refused { Refuses (refusal_of result) (differing (place_view holder.now)) }
{
    match String::from_str(alloc, holder.name.as_str()) {
        Ok(name) => FlatError::InitialDiffers(name),
        Err(_) => FlatError::Memory,
    }
}

/// Whether the terms are these tokens.
fn are_tokens(alloc: Global, timed: bool, terms: &[Term], tokens: &TMSet) -> Result<bool, Memory>
    requires few { tokens_in (terms_view terms.now) ≤ most_tokens }
    ensures exact { IfOk result (λ same. IsTrue same ↔ (tokens_of timed (terms_view terms.now) ≡ tokens.now)) }
{
    let mut alone = Marking::new(alloc, 1)?;
    add_terms(&mut alone, 0, timed, terms)?;
    let same = are_same(alloc, alone.place(0), tokens)?;
    Ok(same)
}

/// Holds further values against the tokens of their compound place.
fn hold_against(
    alloc: Global,
    holder: &Place,
    tokens: &TMSet,
    others: &[Terms],
) -> Result<(), FlatError>
    requires few { AreFew (values_view others.now) }
    ensures agree { GivesBy (λ _. tokens.now) result (Agree (place_view holder.now) tokens.now (values_view others.now)) }
{
    for other in others {
        let same = are_tokens(alloc, holder.colour.timed, other.as_slice(), tokens)?;
        if !same {
            return Err(differs(alloc, holder));
        }
    }
    Ok(())
}

/// Puts the tokens that the members of a compound place share on it; it has none yet.
fn share(
    alloc: Global,
    marking: &mut Marking,
    place: u32,
    holder: &Place,
    values: &[Terms],
) -> Result<(), FlatError>
    requires in_range { place < length marking.old }
    requires empty { tokens_at marking.old place ≡ [] }
    requires few { AreFew (values_view values.now) }
    ensures shared { GivesBy (λ _. tokens_at marking.new place) result (IsShared (place_view holder.now) (values_view values.now)) }
    ensures put { OnOk result (marking.new ≡ slice_set marking.old place (tokens_at marking.new place)) }
    ensures places { length marking.new ≡ length marking.old }
{
    match values.split_first() {
        Some((value, others)) => {
            add_terms(marking, place, holder.colour.timed, value.as_slice())?;
            hold_against(alloc, holder, marking.place(place), others)?;
            Ok(())
        }
        None => Ok(()),
    }
}

/// The marking in which the members of each compound place share the tokens of their values.
pub(crate) fn shared_marking(
    alloc: Global,
    net: &Net,
    values: &[Vec<Terms>],
) -> Result<Marking, FlatError>
    requires as_many { length values.now ≡ length net.now.places.items }
    requires small { length values.now < 2 ^ 32 }
    requires few { AreAllFew (value_lists_view values.now) }
    ensures shared { GivesBy (λ marking. marking) result (each_so (λ c value. IsShared (place_at (net_view net.now) c) value) 0 (value_lists_view values.now)) }
{
    let mut marking = Marking::new(alloc, values.len())?;
    for (place, values) in values.iter().enumerate() {
        let holder = &net.places[place];
        share(alloc, &mut marking, place as u32, holder, values.as_slice())?;
    }
    Ok(marking)
}
