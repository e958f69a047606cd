//! A document with the trees of its texts.

ghost use Rattle.std.specs.Prelude.{map, option_map, string_bytes, IfOk};
ghost use Rattle.cpn_document.specs.Views.{place_view, transition_view, arc_view, module_view, document_view};
ghost use Rattle.cpn_readings.specs.ItemByItem.{EachIs, OptionIs};
ghost use Rattle.cpn_module_trees.specs.Parsing.{IsDeclaration, IsInscription, IsGuard, IsDelay};
ghost use Rattle.cpn_module_trees.specs.Trees.{ArePlaceTrees, AreTransitionTrees, IsArcTree, AreModuleTrees, AreTrees};
ghost use Rattle.cpn_module_trees.specs.TreesViews.{tree_view, conjuncts_view, declared_view, place_trees_view, transition_trees_view, module_trees_view, document_trees_view};

use crate::parsing::{Parsing, declaration_in, delay_in, guard_in, inscription_in};
use cpn_document::{Arc, Document, Module, Place, Transition};
use cpn_memory::Memory;
use cpn_syntax::{Declaration, Guard, Inscription};
use std::alloc::Global;

/// A place with what its initial marking is parsed as.
#[derive(Drop)]
pub struct PlaceTrees<'v> {
    /// Its name in its module.
    pub name: &'v str,
    /// The name of its colour set.
    pub colour: &'v str,
    /// Its initial marking, where one is written.
    pub initial: Option<Parsing<Inscription>>,
}

/// A transition with what its guard and its delay are parsed as.
#[derive(Drop)]
pub struct TransitionTrees<'v> {
    /// Its name in its module.
    pub name: &'v str,
    /// Its guard, where one is written.
    pub guard: Option<Parsing<Guard>>,
    /// Its delay, where one is written.
    pub delay: Option<Parsing<Inscription>>,
}

/// A module with what its texts are parsed as.
#[derive(Drop)]
pub struct ModuleTrees<'v> {
    /// Its places, in order.
    pub places: Vec<PlaceTrees<'v>>,
    /// Its transitions, in order.
    pub transitions: Vec<TransitionTrees<'v>>,
    /// The inscriptions of its arcs, in order; that of an arc that has none is `empty`.
    pub arcs: Vec<Parsing<Inscription>>,
}

/// A document with what its texts are parsed as.
#[derive(Drop)]
pub struct DocumentTrees<'v> {
    /// Its declarations, in order.
    pub declarations: Vec<Parsing<Declaration>>,
    /// Its modules, in order.
    pub modules: Vec<ModuleTrees<'v>>,
}

/// The inscription of an arc that has none.
const EMPTY: &str = "empty";

fn initial_tree(
    alloc: Global,
    text: &Option<String>,
) -> Result<Option<Parsing<Inscription>>, Memory>
    ensures parsed { IfOk result (λ tree. OptionIs IsInscription (option_map string_bytes text.now) (option_map tree_view tree)) }
{
    match text {
        Some(text) => {
            let tree = inscription_in(alloc, text.as_str())?;
            Ok(Some(tree))
        }
        None => Ok(None),
    }
}

fn guard_tree(alloc: Global, text: &Option<String>) -> Result<Option<Parsing<Guard>>, Memory>
    ensures parsed { IfOk result (λ tree. OptionIs IsGuard (option_map string_bytes text.now) (option_map conjuncts_view tree)) }
{
    match text {
        Some(text) => {
            let tree = guard_in(alloc, text.as_str())?;
            Ok(Some(tree))
        }
        None => Ok(None),
    }
}

fn delay_tree(alloc: Global, text: &Option<String>) -> Result<Option<Parsing<Inscription>>, Memory>
    ensures parsed { IfOk result (λ tree. OptionIs IsDelay (option_map string_bytes text.now) (option_map tree_view tree)) }
{
    match text {
        Some(text) => {
            let tree = delay_in(alloc, text.as_str())?;
            Ok(Some(tree))
        }
        None => Ok(None),
    }
}

fn place_trees(alloc: Global, place: &Place) -> Result<PlaceTrees<'_>, Memory>
    ensures parsed { IfOk result (λ trees. ArePlaceTrees (place_view place.now) (place_trees_view trees)) }
{
    let initial = initial_tree(alloc, &place.initial)?;
    Ok(PlaceTrees {
        name: place.name.as_str(),
        colour: place.colour.as_str(),
        initial,
    })
}

fn transition_trees(alloc: Global, transition: &Transition) -> Result<TransitionTrees<'_>, Memory>
    ensures parsed { IfOk result (λ trees. AreTransitionTrees (transition_view transition.now) (transition_trees_view trees)) }
{
    let guard = guard_tree(alloc, &transition.guard)?;
    let delay = delay_tree(alloc, &transition.delay)?;
    Ok(TransitionTrees {
        name: transition.name.as_str(),
        guard,
        delay,
    })
}

fn arc_tree(alloc: Global, arc: &Arc) -> Result<Parsing<Inscription>, Memory>
    ensures parsed { IfOk result (λ tree. IsArcTree (arc_view arc.now) (tree_view tree)) }
{
    match &arc.expr {
        Some(text) => inscription_in(alloc, text.as_str()),
        None => inscription_in(alloc, EMPTY),
    }
}

fn declarations_trees(alloc: Global, texts: &[String]) -> Result<Vec<Parsing<Declaration>>, Memory>
    ensures parsed { IfOk result (λ trees. EachIs IsDeclaration (map string_bytes texts.now) (map declared_view trees.items)) }
{
    let mut trees = Vec::with_capacity(alloc, texts.len())?;
    for text in texts {
        trees.push(declaration_in(alloc, text.as_str())?)?;
    }
    Ok(trees)
}

fn places_trees(alloc: Global, places: &[Place]) -> Result<Vec<PlaceTrees<'_>>, Memory>
    ensures parsed { IfOk result (λ trees. EachIs ArePlaceTrees (map place_view places.now) (map place_trees_view trees.items)) }
{
    let mut trees = Vec::with_capacity(alloc, places.len())?;
    for place in places {
        trees.push(place_trees(alloc, place)?)?;
    }
    Ok(trees)
}

fn transitions_trees(
    alloc: Global,
    transitions: &[Transition],
) -> Result<Vec<TransitionTrees<'_>>, Memory>
    ensures parsed { IfOk result (λ trees. EachIs AreTransitionTrees (map transition_view transitions.now) (map transition_trees_view trees.items)) }
{
    let mut trees = Vec::with_capacity(alloc, transitions.len())?;
    for transition in transitions {
        trees.push(transition_trees(alloc, transition)?)?;
    }
    Ok(trees)
}

fn arcs_trees(alloc: Global, arcs: &[Arc]) -> Result<Vec<Parsing<Inscription>>, Memory>
    ensures parsed { IfOk result (λ trees. EachIs IsArcTree (map arc_view arcs.now) (map tree_view trees.items)) }
{
    let mut trees = Vec::with_capacity(alloc, arcs.len())?;
    for arc in arcs {
        trees.push(arc_tree(alloc, arc)?)?;
    }
    Ok(trees)
}

fn module_trees(alloc: Global, written: &Module) -> Result<ModuleTrees<'_>, Memory>
    ensures parsed { IfOk result (λ trees. AreModuleTrees (module_view written.now) (module_trees_view trees)) }
{
    let places = places_trees(alloc, written.places.as_slice())?;
    let transitions = transitions_trees(alloc, written.transitions.as_slice())?;
    let arcs = arcs_trees(alloc, written.arcs.as_slice())?;
    Ok(ModuleTrees {
        places,
        transitions,
        arcs,
    })
}

fn modules_trees(alloc: Global, modules: &[Module]) -> Result<Vec<ModuleTrees<'_>>, Memory>
    ensures parsed { IfOk result (λ trees. EachIs AreModuleTrees (map module_view modules.now) (map module_trees_view trees.items)) }
{
    let mut trees = Vec::with_capacity(alloc, modules.len())?;
    for written in modules {
        trees.push(module_trees(alloc, written)?)?;
    }
    Ok(trees)
}

/// The document with each of its texts lexed and parsed.
///
/// # Errors
///
/// [`Memory`]: memory ran out. A text that has no tree is no error: why it has none stands there instead.
pub fn document_trees(alloc: Global, document: &Document) -> Result<DocumentTrees<'_>, Memory>
    ensures parsed { IfOk result (λ trees. AreTrees (document_view document.now) (document_trees_view trees)) }
{
    let declarations = declarations_trees(alloc, document.declarations.as_slice())?;
    let modules = modules_trees(alloc, document.modules.as_slice())?;
    Ok(DocumentTrees {
        declarations,
        modules,
    })
}
