//! Copies of nets and of edits, which share the inscriptions.

ghost use Rattle.std.specs.Prelude.{◌≡◌, map, IfOk};
ghost use Rattle.cpn_core.specs.Nets.{net_view, place_view, transition_view};
ghost use Rattle.cpn_declared.specs.DeclsViews.{decls_view};
ghost use Rattle.cpn_typing.specs.DeclaresFor.{DeclaresFor};
ghost use Rattle.cpn_edit_texts.specs.Views.{edit_view};

use crate::edits::Edit;
use crate::guards::shared_arcs;
use cpn_core::{Memory, Net, Place, Transition};
use cpn_types::Decls;
use std::alloc::Global;

/// The same transition.
fn copy_of_transition(alloc: Global, transition: &Transition) -> Result<Transition, Memory>
    ensures same { IfOk result (λ copy. transition_view copy ≡ transition_view transition.now) }
{
    let name = String::from_str(alloc, transition.name.as_str())?;
    let inputs = shared_arcs(alloc, transition.inputs.as_slice())?;
    let outputs = shared_arcs(alloc, transition.outputs.as_slice())?;
    transition.with_arcs(name, inputs, outputs)
}

/// The same edit.
pub(crate) fn copy_of_edit(alloc: Global, edit: &Edit) -> Result<Edit, Memory>
    ensures same { IfOk result (λ copy. edit_view copy ≡ edit_view edit.now) }
{
    match edit {
        Edit::Guard(number, transition) => {
            Ok(Edit::Guard(*number, copy_of_transition(alloc, transition)?))
        }
        Edit::Initial(number, tokens) => Ok(Edit::Initial(*number, tokens.copy()?)),
    }
}

/// The same places.
fn copy_of_places(alloc: Global, places: &[Place]) -> Result<Vec<Place>, Memory>
    ensures same { IfOk result (λ copies. map place_view copies.items ≡ map place_view places.now) }
{
    let mut copies = Vec::with_capacity(alloc, places.len())?;
    for place in places {
        let name = String::from_str(alloc, place.name.as_str())?;
        copies.push(place.with_name(name)?)?;
    }
    Ok(copies)
}

/// The same transitions.
fn copy_of_transitions(alloc: Global, transitions: &[Transition]) -> Result<Vec<Transition>, Memory>
    ensures same { IfOk result (λ copies. map transition_view copies.items ≡ map transition_view transitions.now) }
{
    let mut copies = Vec::with_capacity(alloc, transitions.len())?;
    for transition in transitions {
        copies.push(copy_of_transition(alloc, transition)?)?;
    }
    Ok(copies)
}

/// The same net, of what is declared.
pub(crate) fn copy_of_net(alloc: Global, decls: &Decls, net: &Net) -> Result<Net, Memory>
    requires declares { DeclaresFor (decls_view decls.now) (net_view net.now) }
    ensures same { IfOk result (λ copy. net_view copy ≡ net_view net.now) }
{
    let places = copy_of_places(alloc, net.places.as_slice())?;
    let transitions = copy_of_transitions(alloc, net.transitions.as_slice())?;
    let declared = decls.parts(alloc)?;
    Ok(Net {
        places,
        transitions,
        variables: declared.variables,
        constants: declared.constants,
        constructors: declared.constructors,
        funs: net.funs.clone()?,
    })
}
