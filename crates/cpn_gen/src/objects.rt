//! The objects of a document, by what stands in them.

ghost use Rattle.std.specs.Prelude.{◌≡◌, [], ◌∷◌, codes, map, IfOk};
ghost use Rattle.serde_json.specs.Data.{array, string};
ghost use Rattle.serde_json.specs.View.{view, items_view};
ghost use Rattle.cpn_gen.specs.GeneratedNets.{texts, module_of, document_of};

use serde_json::{Value, json};
use std::alloc::{AllocError, Global};

/// A place of the colour set `T`.
pub(crate) fn place(alloc: Global, name: &str, initial: &str) -> Result<Value, AllocError>
    ensures { IfOk result (λ value. view value ≡ texts ((codes "colour", codes "T") ∷ (codes "initial", initial.now) ∷ (codes "name", name.now) ∷ [])) }
{
    json!(in alloc; {"colour": "T", "initial": initial, "name": name})
}

/// A transition with a delay.
pub(crate) fn transition(alloc: Global, name: &str, delay: &str) -> Result<Value, AllocError>
    ensures { IfOk result (λ value. view value ≡ texts ((codes "delay", delay.now) ∷ (codes "name", name.now) ∷ [])) }
{
    json!(in alloc; {"delay": delay, "name": name})
}

/// An arc that moves a token of whatever value between the place and the transition, to the one that `to` says.
pub(crate) fn arc(
    alloc: Global,
    place: &str,
    transition: &str,
    to: &str,
) -> Result<Value, AllocError>
    ensures { IfOk result (λ value. view value ≡ texts ((codes "expr", codes "x") ∷ (codes "place", place.now) ∷ (codes "to", to.now) ∷ (codes "transition", transition.now) ∷ [])) }
{
    json!(in alloc; {"expr": "x", "place": place, "to": to, "transition": transition})
}

/// The module with these arcs, places and transitions.
pub(crate) fn module(
    alloc: Global,
    arcs: Vec<Value>,
    places: Vec<Value>,
    transitions: Vec<Value>,
) -> Result<Value, AllocError>
    ensures { IfOk result (λ value. view value ≡ module_of (array (items_view arcs.items)) (array (items_view places.items)) (array (items_view transitions.items))) }
{
    json!(in alloc; {"arcs": arcs, "name": "Top", "places": places, "transitions": transitions})
}

/// The document with this module.
pub(crate) fn document(alloc: Global, top: Value) -> Result<Value, AllocError>
    ensures { IfOk result (λ value. view value ≡ document_of (view top)) }
{
    json!(in alloc; {
        "declarations": ["colset T = int timed;", "var x : T;"],
        "modules": [top],
        "top": "Top",
        "version": 1u64
    })
}
