//! How many arcs the transitions of a module have.

ghost use Rattle.std.specs.Prelude.{◌≡◌, ℕ, ◌<◌, List, [], map, length, slice_index_or, IfOk};
ghost use Rattle.std.specs.Option.{unwrap_or};
ghost use Rattle.std.specs.BTreeMap.{get_by};
ghost use Rattle.std.specs.Cmp.Lexicographic.{slice_cmp};
ghost use Rattle.std.specs.Ordering.{nat_cmp};
ghost use Rattle.cpn_document.specs.Document.{arcs_on, arcs_at, have_few_arcs};
ghost use Rattle.cpn_document.specs.Views.{arc_view};

use crate::document::{Arc, Way};
use crate::names::Names;
use std::alloc::{AllocError, Global};
use std::collections::BTreeMap;

/// The most arcs of one transition.
const MOST_ARCS: u64 = 64;

/// How many arcs a way is.
fn arcs_on(way: Way) -> u64
    ensures exact { result ≡ arcs_on way }
{
    match way {
        Way::ToTransition => 1,
        Way::ToPlace => 1,
        Way::Both => 2,
    }
}

/// How many of the arcs are at the transition of each name.
fn arc_counts<'a>(alloc: Global, arcs: &'a [Arc]) -> Result<BTreeMap<&'a str, u64>, AllocError>
    ensures counts { IfOk result (λ counts. (name : List ℕ) → unwrap_or (get_by (λ k. slice_cmp nat_cmp name k.now) counts) 0 ≡ arcs_at name (map arc_view arcs.now)) }
{
    let mut counts = BTreeMap::new(alloc);
    for arc in arcs {
        let name = arc.transition.as_str();
        let count = counts.get(name).copied().unwrap_or(0);
        counts.insert(name, count + arcs_on(arc.way))?;
    }
    Ok(counts)
}

/// Whether none of the transitions of these names has too many of the arcs.
pub(crate) fn have_few_arcs(
    alloc: Global,
    transitions: &Names,
    arcs: &[Arc],
) -> Result<bool, AllocError>
    ensures tells { IfOk result (λ few. few ≡ have_few_arcs transitions.now (map arc_view arcs.now)) }
{
    let counts = arc_counts(alloc, arcs)?;
    for number in 0..transitions.len() {
        let count = counts.get(transitions.name(number)).copied().unwrap_or(0);
        if count > MOST_ARCS {
            return Ok(false);
        }
    }
    Ok(true)
}
