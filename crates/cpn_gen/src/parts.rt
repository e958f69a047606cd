//! The places, the transitions and the arcs of a ring, by their numbers.

ghost use Rattle.std.specs.Prelude.{◌≡◌, ◌<◌, map, string_bytes, decimal, IfOk};
ghost use Rattle.std.specs.List.{flat_map};
ghost use Rattle.serde_json.specs.View.{view};
ghost use Rattle.cpn_gen.specs.GeneratedNets.{numbers_below, place_name as name_of_place, transition_name as name_of_transition, place as place_at, transition as transition_at, arc as arc_at, next as next_number, arcs_of, one_token};

use crate::objects;
use cpn_memory::Memory;
use serde_json::Value;
use std::alloc::Global;

/// The places of a ring of `n`.
pub(crate) fn places(alloc: Global, n: u64) -> Result<Vec<Value>, Memory>
    ensures { IfOk result (λ places. map view places.items ≡ map place_at (numbers_below n)) }
{
    let mut places = Vec::new(alloc);
    for i in 0..n {
        places.push(place(alloc, i)?)?;
    }
    Ok(places)
}

/// The transitions of a ring of `n`.
pub(crate) fn transitions(alloc: Global, n: u64) -> Result<Vec<Value>, Memory>
    ensures { IfOk result (λ transitions. map view transitions.items ≡ map transition_at (numbers_below n)) }
{
    let mut transitions = Vec::new(alloc);
    for i in 0..n {
        transitions.push(transition(alloc, i)?)?;
    }
    Ok(transitions)
}

/// The arcs of a ring of `n`, those of each transition together.
pub(crate) fn arcs(alloc: Global, n: u64) -> Result<Vec<Value>, Memory>
    ensures { IfOk result (λ arcs. map view arcs.items ≡ flat_map (arcs_of n) (numbers_below n)) }
{
    let mut arcs = Vec::new(alloc);
    for i in 0..n {
        arcs.push(arc(alloc, i, i, "transition")?)?;
        arcs.push(arc(alloc, next(n, i), i, "place")?)?;
    }
    Ok(arcs)
}

/// The number of the next place in a ring of `n`: after the last one comes the first.
fn next(n: u64, i: u64) -> u64
    requires { i < n }
    ensures { result ≡ next_number n i }
{
    (i + 1) % n
}

/// The place of a number.
fn place(alloc: Global, i: u64) -> Result<Value, Memory>
    ensures { IfOk result (λ place. view place ≡ place_at i) }
{
    let name = place_name(alloc, i)?;
    let initial = initial_marking(alloc, i, i % 7)?;
    let place = objects::place(alloc, &name, &initial)?;
    Ok(place)
}

/// The transition of a number.
fn transition(alloc: Global, i: u64) -> Result<Value, Memory>
    ensures { IfOk result (λ transition. view transition ≡ transition_at i) }
{
    let name = transition_name(alloc, i)?;
    let delay = numeral(alloc, 1 + i % 5)?;
    let transition = objects::transition(alloc, &name, &delay)?;
    Ok(transition)
}

/// The arc between a place and a transition, to the one that `to` says.
fn arc(alloc: Global, place: u64, transition: u64, to: &str) -> Result<Value, Memory>
    ensures { IfOk result (λ arc. view arc ≡ arc_at place transition to.now) }
{
    let place = place_name(alloc, place)?;
    let transition = transition_name(alloc, transition)?;
    let arc = objects::arc(alloc, &place, &transition, to)?;
    Ok(arc)
}

/// The name of a place.
fn place_name(alloc: Global, i: u64) -> Result<String, Memory>
    ensures { IfOk result (λ name. string_bytes name ≡ name_of_place i) }
{
    let name = format!(in alloc; "P{i}")?;
    Ok(name)
}

/// The name of a transition.
fn transition_name(alloc: Global, i: u64) -> Result<String, Memory>
    ensures { IfOk result (λ name. string_bytes name ≡ name_of_transition i) }
{
    let name = format!(in alloc; "t{i}")?;
    Ok(name)
}

/// The initial marking that is one token of a value and a time stamp.
fn initial_marking(alloc: Global, value: u64, stamp: u64) -> Result<String, Memory>
    ensures { IfOk result (λ text. string_bytes text ≡ one_token value stamp) }
{
    let text = format!(in alloc; "1`{value}@{stamp}")?;
    Ok(text)
}

/// The number as text.
fn numeral(alloc: Global, number: u64) -> Result<String, Memory>
    ensures { IfOk result (λ text. string_bytes text ≡ decimal number) }
{
    let text = format!(in alloc; "{number}")?;
    Ok(text)
}
