//! What stands on a place, from when on it covers a multiset, and what that takes from it.

use crate::multisets::{MANY, multiset_of, number_of};
use cpn_core::{Memory, Value};
use cpn_mset::MSet;
use cpn_tmset::{Picks, TMSet, TokenGroup};
use std::alloc::Global;
use std::test::Fail;

/// Adds a token.
fn put(place: &mut TMSet, number: i64, stamp: u64) -> Result<(), Memory> {
    if place.total() < MANY {
        place.add(Value::Int(number), stamp)?;
    }
    Ok(())
}

/// The place with these tokens, each a number and a stamp.
fn place_of(alloc: Global, tokens: &[(i64, u64)]) -> Result<TMSet, Memory> {
    let mut place = TMSet::new(alloc);
    for (number, stamp) in tokens {
        put(&mut place, *number, *stamp)?;
    }
    Ok(place)
}

/// Takes the need at the time, if it is covered then.
fn take(place: &mut TMSet, need: &MSet, time: u64, picks: &mut Picks) -> Result<(), Memory> {
    if place.covers_at(need, time) {
        place.subtract(need, time, picks)?;
    }
    Ok(())
}

/// Writes the tokens, equal ones counted, and how many there are of how many values.
fn push_place(text: &mut String, alloc: Global, place: &TMSet) -> Result<(), Memory> {
    push_groups(text, place.groups(alloc)?.as_slice())?;
    let total = place.total();
    let values = place.values(alloc)?.len();
    write!(text, "= {total} of {values}")?;
    Ok(())
}

fn push_groups(text: &mut String, groups: &[TokenGroup<'_>]) -> Result<(), Memory> {
    for group in groups {
        let number = number_of(group.value);
        let stamp = group.stamp;
        let count = group.count;
        write!(text, "{number}@{stamp}x{count} ")?;
    }
    Ok(())
}

/// Writes from when on the place covers the need, and a blank.
fn push_time(text: &mut String, place: &TMSet, need: &MSet) -> Result<(), Memory> {
    match place.earliest(need, 0) {
        Some(time) => write!(text, " from {time} ")?,
        None => text.push_str(" never ")?,
    }
    Ok(())
}

/// Writes the tokens that were taken.
fn push_picks(text: &mut String, picks: &Picks) -> Result<(), Memory> {
    text.push_str("took")?;
    for pick in picks.as_slice() {
        let number = number_of(&pick.value);
        let stamp = pick.stamp;
        write!(text, " {number}@{stamp}")?;
    }
    Ok(())
}

/// Writes the tokens that were taken, and those that are left.
fn push_left(text: &mut String, alloc: Global, picks: &Picks, place: &TMSet) -> Result<(), Memory> {
    push_picks(text, picks)?;
    text.push_str(" left ")?;
    push_place(text, alloc, place)
}

/// Writes what is told of a place with these tokens, from which two needs are taken, a 7 at 5 and then a 7 at 4, each if it is covered,
/// when further tokens are put in ahead of these.
pub fn tell_put_after(
    text: &mut String,
    alloc: Global,
    tokens: &[(i64, u64)],
    ahead: &[(i64, u64)],
) -> Result<(), Memory> {
    let mut place = place_of(alloc, tokens)?;
    let mut picks = Picks::new(alloc);
    take_two(alloc, &mut place, &mut picks)?;
    for (number, stamp) in ahead {
        put_after(&mut place, *number, *stamp, &mut picks)?;
    }
    push_left(text, alloc, &picks, &place)
}

/// Takes a 7 at 5 and then a 7 at 4, each if it is covered.
fn take_two(alloc: Global, place: &mut TMSet, picks: &mut Picks) -> Result<(), Memory> {
    let need = multiset_of(alloc, &[(7, 1)])?;
    take(place, &need, 5, picks)?;
    take(place, &need, 4, picks)
}

/// Puts a token in ahead of those that were taken.
fn put_after(place: &mut TMSet, number: i64, stamp: u64, picks: &mut Picks) -> Result<(), Memory> {
    if place.total() < MANY {
        place.put_after(&Value::Int(number), stamp, picks)?;
    }
    Ok(())
}

/// Writes what is told of a place with these tokens and of this need, which is taken at the time 10, from a copy.
pub fn tell_place(
    text: &mut String,
    alloc: Global,
    tokens: &[(i64, u64)],
    need: &[(i64, u64)],
) -> Result<(), Memory> {
    let place = place_of(alloc, tokens)?;
    let need = multiset_of(alloc, need)?;
    tell_copy(text, alloc, &place, &need)
}

fn tell_copy(text: &mut String, alloc: Global, place: &TMSet, need: &MSet) -> Result<(), Memory> {
    let mut rest = place.copy()?;
    let mut picks = Picks::new(alloc);
    take(&mut rest, need, 10, &mut picks)?;
    push_start(text, alloc, place, need)?;
    push_left(text, alloc, &picks, &rest)
}

/// Writes the tokens, and from when on they cover the need.
fn push_start(text: &mut String, alloc: Global, place: &TMSet, need: &MSet) -> Result<(), Memory> {
    push_place(text, alloc, place)?;
    push_time(text, place, need)
}

/// A place with a token of each of a thousand values and one, and as many of the value 7 and the stamp 3.
fn many_tokens(alloc: Global) -> Result<TMSet, Memory> {
    let mut place = TMSet::new(alloc);
    for number in 0..1_001 {
        put(&mut place, number, 5)?;
        put(&mut place, 7, 3)?;
    }
    Ok(place)
}

/// Takes the tokens of the value 7 and the last one; writes from when on they are covered, and which are taken.
fn tell_many(text: &mut String, alloc: Global, place: &mut TMSet) -> Result<(), Memory> {
    let need = multiset_of(alloc, &[(7, 1_002), (1_000, 1)])?;
    push_time(text, place, &need)?;
    push_taken(text, alloc, place, &need)
}

/// Takes the need at the time 10, and writes which tokens those are.
fn push_taken(
    text: &mut String,
    alloc: Global,
    place: &mut TMSet,
    need: &MSet,
) -> Result<(), Memory> {
    let mut picks = Picks::new(alloc);
    take(place, need, 10, &mut picks)?;
    push_picks(text, &picks)
}

/// Whether the right ones of many tokens are taken, and the others stay.
fn are_taken(alloc: Global) -> Result<bool, Memory> {
    let mut place = many_tokens(alloc)?;
    let mut text = String::new(alloc);
    tell_many(&mut text, alloc, &mut place)?;
    let is_begun = text.as_str().starts_with(" from 5 took 7@5 7@3 7@3");
    let is_ended = text.as_str().ends_with(" 7@3 7@3 1000@5");
    Ok(is_begun && is_ended && place.total() == 999 && !place.holds(&Value::Int(7)))
}

#[test]
fn many_tokens_are_taken(rt: HostRuntime) -> Result<(), Fail> {
    assert!(rt; are_taken(rt.alloc())?);
    Ok(())
}
