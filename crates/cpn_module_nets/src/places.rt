//! The places of modules, with their initial markings.

ghost use Rattle.std.specs.Prelude.{◌≡◌, ℕ, Some, map, option_map, length};
ghost use Rattle.cpn_core.specs.Colours.{colour_view};
ghost use Rattle.cpn_core.specs.Nets.{place_view as net_place_view};
ghost use Rattle.cpn_declared.specs.DeclsViews.{decls_view};
ghost use Rattle.cpn_accepted.specs.Views.{initial_view, initials_view};
ghost use Rattle.cpn_module_nets.specs.Reading.{each_from};
ghost use Rattle.cpn_module_nets.specs.Accepted.{net_place as net_place_in, places_of as places_in, initial_at, initial_of as initial_in};
ghost use Rattle.cpn_module_trees.specs.TreesViews.{tree_view, place_trees_view, module_trees_view};
ghost use Rattle.cpn_module_nets.specs.AcceptedViews.{places_view};
ghost use Rattle.cpn_module_nets.specs.Answers.{Loads, IsUnknown};

use crate::refusals::{NetError, not_accepted, not_parsed};
use cpn_core::{ArcExpr, Colour, Place};
use cpn_document::{ModulePart, PlacePart, Pointer};
use cpn_module_trees::{ModuleTrees, Parsing, PlaceTrees};
use cpn_syntax::Inscription;
use cpn_types::{Decls, InscriptionError, TypeError, check_init};
use std::alloc::{AllocError, Global};

/// The refusal of a place whose colour set is not declared.
fn unknown_colour(alloc: Global, of_module: usize, number: usize, name: &str) -> NetError
    ensures refused { IsUnknown of_module number name.now result }
{
    match String::from_str(alloc, name) {
        Ok(name) => NetError::Inscription(
            Pointer::Module(of_module, ModulePart::Place(number, PlacePart::Colour)),
            InscriptionError::Typing(TypeError::Unknown(name)),
        ),
        Err(_) => NetError::Memory,
    }
}

/// A place of a module, by their numbers.
#[tactic(auto, unfolding(crate::specs::Accepted::net_place))]
fn net_place(
    alloc: Global,
    decls: &Decls,
    of_module: usize,
    number: usize,
    place: &PlaceTrees,
) -> Result<Place, NetError>
    ensures reads { Loads net_place_view result (net_place_in (decls_view decls.now) of_module number (place_trees_view place.now)) }
{
    match decls.colour(place.colour) {
        Some(colour) => {
            let name = String::from_str(alloc, place.name)?;
            let colour = colour.copy()?;
            Ok(Place { name, colour })
        }
        None => Err(unknown_colour(alloc, of_module, number, place.colour)),
    }
}

/// Places of a module, which are numbered.
fn net_places(
    alloc: Global,
    decls: &Decls,
    of_module: usize,
    places: &[PlaceTrees],
) -> Result<Vec<Place>, NetError>
    ensures reads { Loads places_view result (each_from (net_place_in (decls_view decls.now) of_module) 0 (map place_trees_view places.now)) }
{
    let mut made = Vec::with_capacity(alloc, places.len())?;
    for (number, place) in places.iter().enumerate() {
        made.push(net_place(alloc, decls, of_module, number, place)?)?;
    }
    Ok(made)
}

/// The places of a module.
#[tactic(auto, unfolding(crate::specs::Accepted::places_of))]
fn places_of(
    alloc: Global,
    decls: &Decls,
    of_module: usize,
    trees: &ModuleTrees,
) -> Result<Vec<Place>, NetError>
    ensures reads { Loads places_view result (places_in (decls_view decls.now) of_module (module_trees_view trees.now)) }
{
    net_places(alloc, decls, of_module, trees.places.as_slice())
}

/// The places of each module.
pub(crate) fn places_of_each(
    alloc: Global,
    decls: &Decls,
    modules: &[ModuleTrees],
) -> Result<Vec<Vec<Place>>, NetError>
    ensures reads { Loads (λ made. map places_view made.items) result (each_from (places_in (decls_view decls.now)) 0 (map module_trees_view modules.now)) }
{
    let mut made = Vec::with_capacity(alloc, modules.len())?;
    for (number, trees) in modules.iter().enumerate() {
        made.push(places_of(alloc, decls, number, trees)?)?;
    }
    Ok(made)
}

/// The initial marking that is written at a place of the colour set.
#[tactic(auto, unfolding(crate::specs::Accepted::initial_at))]
fn written_initial(
    alloc: Global,
    decls: &Decls,
    colour: &Colour,
    at: Pointer,
    text: &Parsing<Inscription>,
) -> Result<ArcExpr, NetError>
    ensures reads { Loads (λ initial. Some (initial_view initial)) result (initial_at (decls_view decls.now) (colour_view colour.now) at (Some (tree_view text.now))) }
{
    match text {
        Ok(tree) => match check_init(alloc, decls, colour, tree) {
            Ok(initial) => Ok(initial),
            Err(error) => Err(not_accepted(at, error)),
        },
        Err(error) => Err(not_parsed(at, *error)),
    }
}

/// The initial marking of a place of the colour set, where one is written.
#[tactic(auto, unfolding(crate::specs::Accepted::initial_at))]
fn initial_of(
    alloc: Global,
    decls: &Decls,
    colour: &Colour,
    at: Pointer,
    text: &Option<Parsing<Inscription>>,
) -> Result<Option<ArcExpr>, NetError>
    ensures reads { Loads (λ initial. option_map initial_view initial) result (initial_at (decls_view decls.now) (colour_view colour.now) at (option_map tree_view text.now)) }
{
    match text {
        Some(text) => {
            let initial = written_initial(alloc, decls, colour, at, text)?;
            Ok(Some(initial))
        }
        None => Ok(None),
    }
}

/// The initial markings of the places of a module.
pub(crate) fn initials_of(
    alloc: Global,
    decls: &Decls,
    places: &[Place],
    of_module: usize,
    written: &[PlaceTrees],
) -> Result<Vec<Option<ArcExpr>>, NetError>
    requires as_many { length places.now ≡ length written.now }
    ensures reads { Loads (λ initials. initials_view initials.items) result (each_from (initial_in (decls_view decls.now) (map net_place_view places.now) of_module) 0 (map place_trees_view written.now)) }
{
    let mut initials = Vec::with_capacity(alloc, written.len())?;
    for (number, place) in written.iter().enumerate() {
        let colour = &places[number].colour;
        let at = Pointer::Module(of_module, ModulePart::Place(number, PlacePart::Initial));
        initials.push(initial_of(alloc, decls, colour, at, &place.initial)?)?;
    }
    Ok(initials)
}
