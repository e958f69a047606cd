//! The net of each module of a document.

ghost use Rattle.std.specs.Prelude.{◌≡◌, ℕ, ◌<◌, ◌^◌, map, length};
ghost use Rattle.cpn_core.specs.Nets.{transition_view, place_view};
ghost use Rattle.cpn_declared.specs.DeclsViews.{decls_view};
ghost use Rattle.cpn_module.specs.Hierarchy.{structure_at};
ghost use Rattle.cpn_module.specs.Views.{structure_view, hierarchy_view};
ghost use Rattle.cpn_module_trees.specs.TreesViews.{module_trees_view};
ghost use Rattle.cpn_accepted.specs.Views.{module_net_view};
ghost use Rattle.cpn_accepted.specs.Nets.{places_at};
ghost use Rattle.cpn_module_nets.specs.Answers.{LoadsBy};
ghost use Rattle.cpn_module_nets.specs.AcceptedViews.{places_view};
ghost use Rattle.cpn_module_nets.specs.Documents.{transitions_so, net_so, nets_so};
ghost use Rattle.cpn_module_nets.specs.Fitting.{GoTogether, trees_at};

use crate::arcs::arcs_of;
use crate::bindable::check_variables;
use crate::joining::{join_arcs, with_variables};
use crate::places::initials_of;
use crate::refusals::NetError;
use crate::transitions::bare_transitions;
use cpn_accepted::ModuleNet;
use cpn_core::{Place, Transition};
use cpn_module::{Hierarchy, Structure};
use cpn_module_trees::ModuleTrees;
use cpn_types::Decls;
use std::alloc::Global;

/// How many numbers of 32 bits there are.
const NUMBERS: usize = 4_294_967_296;

/// The transitions of a module with their arcs and their variables, which have to be bindable.
fn transitions_of(
    alloc: Global,
    decls: &Decls,
    places: &[Place],
    of_module: usize,
    structure: &Structure,
    trees: &ModuleTrees,
) -> Result<Vec<Transition>, NetError>
    requires few { length places.now < 2 ^ 32 }
    requires together { GoTogether (map place_view places.now) (structure_view structure.now) (module_trees_view trees.now) }
    ensures reads { LoadsBy (λ made. map transition_view made.items) result (transitions_so (decls_view decls.now) (map place_view places.now) of_module (structure_view structure.now) (module_trees_view trees.now)) }
{
    let mut bares = bare_transitions(alloc, decls, of_module, trees.transitions.as_slice())?;
    let arcs = arcs_of(
        alloc,
        decls,
        places,
        of_module,
        structure,
        trees.arcs.as_slice(),
    )?;
    join_arcs(&mut bares, arcs)?;
    let transitions = with_variables(alloc, bares)?;
    check_variables(alloc, decls, of_module, transitions.as_slice())?;
    Ok(transitions)
}

/// The net of a module with these places.
fn net_of(
    alloc: Global,
    decls: &Decls,
    places: Vec<Place>,
    of_module: usize,
    structure: &Structure,
    trees: &ModuleTrees,
) -> Result<ModuleNet, NetError>
    requires together { GoTogether (map place_view places.items) (structure_view structure.now) (module_trees_view trees.now) }
    ensures reads { LoadsBy module_net_view result (net_so (decls_view decls.now) (map place_view places.items) of_module (structure_view structure.now) (module_trees_view trees.now)) }
{
    if places.len() >= NUMBERS {
        return Err(NetError::Memory);
    }
    let initials = initials_of(
        alloc,
        decls,
        places.as_slice(),
        of_module,
        trees.places.as_slice(),
    )?;
    let transitions = transitions_of(alloc, decls, places.as_slice(), of_module, structure, trees)?;
    Ok(ModuleNet {
        places,
        initials,
        transitions,
    })
}

/// The net of each module, with its places.
pub(crate) fn nets_of(
    alloc: Global,
    decls: &Decls,
    hierarchy: &Hierarchy,
    places: Vec<Vec<Place>>,
    modules: &[ModuleTrees],
) -> Result<Vec<ModuleNet>, NetError>
    requires as_many_places { length places.items ≡ length modules.now }
    requires as_many_structures { length hierarchy.now.modules.items ≡ length modules.now }
    requires together { (m : ℕ) → m < length modules.now → GoTogether (places_at (map places_view places.items) m) (structure_at (hierarchy_view hierarchy.now) m) (trees_at (map module_trees_view modules.now) m) }
    ensures reads { LoadsBy (λ nets. map module_net_view nets.items) result (nets_so (decls_view decls.now) (map places_view places.items) (hierarchy_view hierarchy.now) (map module_trees_view modules.now)) }
{
    let mut nets = Vec::with_capacity(alloc, modules.len())?;
    for own in places {
        let number = nets.len();
        let structure = &hierarchy.modules[number];
        let net = net_of(alloc, decls, own, number, structure, &modules[number])?;
        nets.push(net)?;
    }
    Ok(nets)
}
