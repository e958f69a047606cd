//! The arcs of the net, joined to their transitions, and the variables of each transition.

ghost use Rattle.std.specs.Prelude.{◌≡◌, ◌<◌, [], ◌∷◌, ◌++◌, length, map, option_map, IfOk};
ghost use Rattle.std.specs.List.{AllByRecursion};
ghost use Rattle.cpn_core.specs.Nets.{arc_view, arcs_view, transition_view};
ghost use Rattle.cpn_module.specs.declared.hierarchy.Node.TheVariants.{Transition as of_transition};
ghost use Rattle.cpn_accepted.specs.Completed.{IsCompleted};
ghost use Rattle.cpn_module_nets.specs.Accepted.{with_first, joined_from};
ghost use Rattle.cpn_module_nets.specs.AcceptedViews.{sides_view, sides_views};
ghost use Rattle.cpn_module_nets.specs.Joining.{IsAtOneOf, joined_with};
ghost use Rattle.cpn_readings.specs.ItemByItem.{EachIs};

use crate::arcs::Sides;
use cpn_core::{Memory, PlaceArc, Transition};
use cpn_module::Node;
use cpn_types::variables_of;
use std::alloc::{AllocError, Global};

/// Adds an arc, where there is one.
fn push_arc(arcs: &mut Vec<PlaceArc>, arc: Option<PlaceArc>) -> Result<(), AllocError>
    ensures pushed { IfOk result (λ _. arcs_view arcs.new.items ≡ arcs_view arcs.old.items ++ with_first (option_map arc_view arc) []) }
{
    match arc {
        Some(arc) => {
            arcs.push(arc)?;
            Ok(())
        }
        None => Ok(()),
    }
}

/// Joins the arcs that an arc of the document stands for to their transition.
fn join(transition: &mut Transition, arc: Sides) -> Result<(), AllocError>
    ensures joined { IfOk result (λ _. transition_view transition.new ≡ joined_with (transition_view transition.old) (sides_view arc)) }
{
    let inputs = push_arc(&mut transition.inputs, arc.input);
    let outputs = push_arc(&mut transition.outputs, arc.output);
    inputs.and(outputs)
}

/// Joins the arcs that an arc of the document stands for to the transition of a number.
fn join_to(transitions: &mut Vec<Transition>, number: usize, arc: Sides) -> Result<(), AllocError>
    requires there { number < length transitions.old.items }
    requires at_transition { arc.node ≡ of_transition number }
    ensures joined { IfOk result (λ _. map transition_view transitions.new.items ≡ joined_from 0 (map transition_view transitions.old.items) (sides_view arc ∷ [])) }
{
    let transition = &mut transitions[number];
    join(transition, arc)
}

/// Joins the arcs that an arc of the document stands for to their transition among these.
fn join_among(transitions: &mut Vec<Transition>, arc: Sides) -> Result<(), AllocError>
    requires there { IsAtOneOf (length transitions.old.items) arc.node }
    ensures joined { IfOk result (λ _. map transition_view transitions.new.items ≡ joined_from 0 (map transition_view transitions.old.items) (sides_view arc ∷ [])) }
{
    match arc.node {
        Node::Transition(number) => join_to(transitions, number, arc),
        Node::Substitution(_) => {
            drop(arc);
            Ok(())
        }
    }
}

/// Joins the arcs of the net to their transitions.
pub(crate) fn join_arcs(
    transitions: &mut Vec<Transition>,
    arcs: Vec<Sides>,
) -> Result<(), AllocError>
    requires there { AllByRecursion (λ arc. IsAtOneOf (length transitions.old.items) arc.node) (sides_views arcs.items) }
    ensures joined { IfOk result (λ _. map transition_view transitions.new.items ≡ joined_from 0 (map transition_view transitions.old.items) (sides_views arcs.items)) }
{
    for arc in arcs {
        join_among(transitions, arc)?;
    }
    Ok(())
}

/// The transition with its variables listed.
fn completed(alloc: Global, transition: Transition) -> Result<Transition, Memory>
    ensures completed { IfOk result (λ t. IsCompleted (transition_view transition) (transition_view t)) }
{
    let vars = variables_of(
        alloc,
        &transition.guard,
        &transition.delay,
        transition.inputs.as_slice(),
        transition.outputs.as_slice(),
    )?;
    Ok(Transition { vars, ..transition })
}

/// The transitions, each with its variables listed.
pub(crate) fn with_variables(
    alloc: Global,
    transitions: Vec<Transition>,
) -> Result<Vec<Transition>, Memory>
    ensures completed { IfOk result (λ made. EachIs IsCompleted (map transition_view transitions.items) (map transition_view made.items)) }
{
    let mut made = Vec::with_capacity(alloc, transitions.len())?;
    for transition in transitions {
        made.push(completed(alloc, transition)?)?;
    }
    Ok(made)
}
