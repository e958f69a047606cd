//! The arcs of modules.

ghost use Rattle.std.specs.Prelude.{◌≡◌, ◌<◌, ◌≤◌, ◌^◌, map, length};
ghost use Rattle.std.specs.List.{AllByRecursion};
ghost use Rattle.cpn_core.specs.Colours.{colour_view};
ghost use Rattle.cpn_core.specs.Nets.{arc_view, place_view as net_place_view};
ghost use Rattle.cpn_trees.specs.ParsedViews.{inscription_view};
ghost use Rattle.cpn_declared.specs.DeclsViews.{decls_view};
ghost use Rattle.cpn_document.specs.declared.document.Way.TheVariants.{Both};
ghost use Rattle.cpn_forms.specs.ContextViews.{side_view};
ghost use Rattle.cpn_module.specs.Views.{ends_view, structure_view};
ghost use Rattle.cpn_module_trees.specs.TreesViews.{tree_view};
ghost use Rattle.cpn_module_nets.specs.Reading.{each_from};
ghost use Rattle.cpn_module_nets.specs.Accepted.{arc_at, sides_of as sides_in, inscribed as inscribed_in, arc_with as arc_in, arc_of as arc_numbered};
ghost use Rattle.cpn_module_nets.specs.AcceptedViews.{sides_view, sides_views};
ghost use Rattle.cpn_module_nets.specs.Answers.{Loads};

use crate::refusals::{NetError, not_accepted, not_parsed};
use cpn_core::{Colour, Place, PlaceArc};
use cpn_document::{ArcPart, ModulePart, Pointer, Way};
use cpn_module::{Ends, Node, Structure};
use cpn_module_trees::Parsing;
use cpn_syntax::Inscription;
use cpn_types::{Decls, Side, check_arc};
use std::alloc::Global;
use std::sync::Arc;

/// An arc of a module as it is accepted: what it joins a place to, and the input arc and the output arc that it stands for.
#[derive(Drop)]
pub struct Sides {
    /// The transition, or the substitution transition.
    pub node: Node,
    /// The input arc.
    pub input: Option<PlaceArc>,
    /// The output arc.
    pub output: Option<PlaceArc>,
}

/// An arc of the net on a side of its transition, at the place of a number and a colour set.
#[tactic(auto, unfolding(crate::specs::Accepted::arc_at))]
fn side_of(
    alloc: Global,
    decls: &Decls,
    colour: &Colour,
    side: Side,
    at: Pointer,
    number: usize,
    tree: &Inscription,
) -> Result<PlaceArc, NetError>
    requires few { number < 2 ^ 32 }
    ensures reads { Loads arc_view result (arc_at (side_view side) (decls_view decls.now) (colour_view colour.now) at number (inscription_view tree.now)) }
{
    match check_arc(alloc, decls, colour, side, tree) {
        Ok(inscription) => Ok(PlaceArc {
            place: number as u32,
            inscription: Arc::new(alloc, inscription)?,
        }),
        Err(error) => Err(not_accepted(at, error)),
    }
}

/// The two arcs of the net that an arc both ways with this tree stands for.
#[tactic(auto, unfolding(crate::specs::Accepted::sides_of))]
fn both_sides(
    alloc: Global,
    decls: &Decls,
    colour: &Colour,
    at: Pointer,
    ends: &Ends,
    tree: &Inscription,
) -> Result<Sides, NetError>
    requires few { ends.now.place < 2 ^ 32 }
    ensures reads { Loads sides_view result (sides_in Both (decls_view decls.now) (colour_view colour.now) at (ends_view ends.now) (inscription_view tree.now)) }
{
    let input = side_of(alloc, decls, colour, Side::Input, at, ends.place, tree)?;
    match side_of(alloc, decls, colour, Side::Output, at, ends.place, tree) {
        Ok(output) => Ok(Sides {
            node: ends.node,
            input: Some(input),
            output: Some(output),
        }),
        Err(error) => {
            drop(input);
            Err(error)
        }
    }
}

/// The arcs of the net that an arc of these ends, with this tree, stands for.
#[tactic(auto, unfolding(crate::specs::Accepted::sides_of))]
fn sides_of(
    alloc: Global,
    decls: &Decls,
    colour: &Colour,
    at: Pointer,
    ends: &Ends,
    tree: &Inscription,
) -> Result<Sides, NetError>
    requires few { ends.now.place < 2 ^ 32 }
    ensures reads { Loads sides_view result (sides_in ends.now.way (decls_view decls.now) (colour_view colour.now) at (ends_view ends.now) (inscription_view tree.now)) }
{
    match ends.way {
        Way::ToTransition => {
            let input = side_of(alloc, decls, colour, Side::Input, at, ends.place, tree)?;
            Ok(Sides {
                node: ends.node,
                input: Some(input),
                output: None,
            })
        }
        Way::ToPlace => {
            let output = side_of(alloc, decls, colour, Side::Output, at, ends.place, tree)?;
            Ok(Sides {
                node: ends.node,
                input: None,
                output: Some(output),
            })
        }
        Way::Both => both_sides(alloc, decls, colour, at, ends, tree),
    }
}

/// The arcs of the net that an arc of these ends, with the text at a place of the document, stands for.
#[tactic(auto, unfolding(crate::specs::Accepted::inscribed))]
fn inscribed(
    alloc: Global,
    decls: &Decls,
    places: &[Place],
    at: Pointer,
    ends: &Ends,
    text: &Parsing<Inscription>,
) -> Result<Sides, NetError>
    requires few { length places.now < 2 ^ 32 }
    requires at_place { ends.now.place < length places.now }
    ensures reads { Loads sides_view result (inscribed_in (decls_view decls.now) (map net_place_view places.now) at (ends_view ends.now) (tree_view text.now)) }
{
    let colour = &places[ends.place].colour;
    match text {
        Ok(tree) => sides_of(alloc, decls, colour, at, ends, tree),
        Err(error) => Err(not_parsed(at, *error)),
    }
}

/// The arcs of the net that an arc of these ends stands for: none at a substitution transition.
#[tactic(auto, unfolding(crate::specs::Accepted::arc_with))]
fn arc_of(
    alloc: Global,
    decls: &Decls,
    places: &[Place],
    at: Pointer,
    ends: &Ends,
    text: &Parsing<Inscription>,
) -> Result<Sides, NetError>
    requires few { length places.now < 2 ^ 32 }
    requires at_place { ends.now.place < length places.now }
    ensures reads { Loads sides_view result (arc_in (decls_view decls.now) (map net_place_view places.now) at (ends_view ends.now) (tree_view text.now)) }
{
    match ends.node {
        Node::Transition(_) => inscribed(alloc, decls, places, at, ends, text),
        Node::Substitution(_) => Ok(Sides {
            node: ends.node,
            input: None,
            output: None,
        }),
    }
}

/// The arcs of the net that each arc of a module stands for.
pub(crate) fn arcs_of(
    alloc: Global,
    decls: &Decls,
    places: &[Place],
    of_module: usize,
    structure: &Structure,
    texts: &[Parsing<Inscription>],
) -> Result<Vec<Sides>, NetError>
    requires few { length places.now < 2 ^ 32 }
    requires as_many { length texts.now ≤ length (structure_view structure.now).arcs }
    requires at_places { AllByRecursion (λ ends. ends.place < length places.now) (structure_view structure.now).arcs }
    ensures reads { Loads (λ sides. sides_views sides.items) result (each_from (arc_numbered (decls_view decls.now) (map net_place_view places.now) of_module (structure_view structure.now)) 0 (map tree_view texts.now)) }
{
    let mut sides = Vec::with_capacity(alloc, texts.len())?;
    for (number, text) in texts.iter().enumerate() {
        let ends = &structure.arcs[number];
        let at = Pointer::Module(of_module, ModulePart::Arc(number, ArcPart::Expr));
        sides.push(arc_of(alloc, decls, places, at, ends, text)?)?;
    }
    Ok(sides)
}
