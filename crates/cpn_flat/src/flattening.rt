//! The flat net of what is accepted of a document, with its initial marking.

ghost use Rattle.std.specs.Prelude.{◌≡◌, ℕ, ◌<◌, ◌^◌, List, map, length, IfOk};
ghost use Rattle.std.specs.List.{AllByRecursion};
ghost use Rattle.cpn_core.specs.Nets.{place_view, transition_view, net_view};
ghost use Rattle.cpn_declared.specs.DeclsViews.{decls_view};
ghost use Rattle.cpn_document.specs.Document.{RawDocument};
ghost use Rattle.cpn_document.specs.Views.{document_view};
ghost use Rattle.cpn_fuse.specs.Answers.{AreUnfolded};
ghost use Rattle.cpn_fuse.specs.Views.{instances_view};
ghost use Rattle.cpn_module.specs.Named.{hierarchy_in};
ghost use Rattle.cpn_module.specs.Views.{hierarchy_view};
ghost use Rattle.cpn_accepted.specs.Nets.{PlainAccepted, net_from, IsWellAccepted};
ghost use Rattle.cpn_accepted.specs.Views.{module_net_view, accepted_view};
ghost use Rattle.cpn_readings.specs.Relations.{HasOne};
ghost use Rattle.cpn_flat.specs.Flat.{loaded_with, flat_in, all_written};
ghost use Rattle.cpn_flat.specs.FlatNet.{all_places as place_instances};
ghost use Rattle.cpn_flat.specs.InitialMarking.{all_initials as initials_in, AreAllMeant, started};
ghost use Rattle.cpn_flat.specs.Items.{HaveItems};
ghost use Rattle.cpn_flat.specs.Names.{IsNamedIn};
ghost use Rattle.cpn_flat.specs.Parts.{AreItsParts};
ghost use Rattle.cpn_flat.specs.Placed.{StandBehind, AreOfModules};
ghost use Rattle.cpn_flat.specs.Views.{loaded_view};
ghost use Rattle.cpn_flat.specs.WellLoaded.{IsWellLoaded};
ghost use Rattle.cpn_flat.specs.Answers.{GivesBy};

use crate::names::instance_names;
use crate::places::{all_places, compound_places};
use crate::refusals::FlatError;
use crate::starting::marking_of;
use crate::transitions::all_transitions;
use crate::written::{all_initials, written_lists};
use cpn_accepted::{Accepted, ModuleNet};
use cpn_classes::Classes;
use cpn_core::{Memory, Net, Place, Transition};
use cpn_declared::Decls;
use cpn_document::{Document, Monitor, Phase};
use cpn_fuse::{Instance, Unfolded, compound, one_unfolding, unfold};
use cpn_module::Hierarchy;
use cpn_tmset::Marking;
use std::alloc::Global;
use std::sync::Arc;

/// A net and its initial marking, and what is declared beside it; and the monitors and phases of the document, as they are written.
#[derive(Drop)]
pub struct Loaded {
    /// The net.
    pub net: Net,
    /// The tokens of each of its places at the start.
    pub initial: Marking,
    /// What is declared: the net's variables, constants, constructors and functions, whose bodies both share, and the colour sets.
    pub decls: Decls,
    /// The monitors, in their order.
    pub monitors: Vec<Monitor>,
    /// The phases, in their order.
    pub phases: Vec<Phase>,
}

/// A flat net, and its initial marking.
#[derive(Drop)]
struct NetAtStart {
    /// The net.
    net: Net,
    /// The tokens of each of its places at the start.
    initial: Marking,
}

/// The places and the transitions of a flat net.
#[derive(Drop)]
struct Parts {
    /// The compound places.
    places: Vec<Place>,
    /// The transition instances.
    transitions: Vec<Transition>,
}

/// The places and the transitions of the flat net of modules that are unfolded.
fn parts_of(
    alloc: Global,
    document: &Document,
    hierarchy: &Hierarchy,
    modules: &[ModuleNet],
    unfolded: &Unfolded,
    classes: &Classes,
) -> Result<Parts, Memory>
    requires unfolded { AreUnfolded (hierarchy_view hierarchy.now) unfolded.now }
    requires behind { StandBehind (instances_view unfolded.now.instances.items) }
    requires in_modules { AreOfModules (length modules.now) (instances_view unfolded.now.instances.items) }
    requires there { AllByRecursion (IsNamedIn (document_view document.now) (instances_view unfolded.now.instances.items)) (instances_view unfolded.now.instances.items) }
    requires items { HaveItems (hierarchy_view hierarchy.now) (map module_net_view modules.now) (instances_view unfolded.now.instances.items) (length classes.now.numbers) }
    requires as_many { (names : List (List ℕ)) → length classes.now.numbers ≡ length (place_instances (map module_net_view modules.now) (instances_view unfolded.now.instances.items) names) }
    requires small { length classes.now.numbers < 2 ^ 32 }
    ensures made { IfOk result (λ parts. AreItsParts (document_view document.now) (hierarchy_view hierarchy.now) (map module_net_view modules.now) (instances_view unfolded.now.instances.items) classes.now (map place_view parts.places.items) (map transition_view parts.transitions.items)) }
{
    let instances = unfolded.instances.as_slice();
    let names = instance_names(alloc, document, instances)?;
    let all = all_places(alloc, modules, instances, names.as_slice())?;
    let places = compound_places(alloc, all.as_slice(), classes)?;
    let transitions = all_transitions(
        alloc,
        hierarchy,
        modules,
        instances,
        unfolded.first_places.as_slice(),
        names.as_slice(),
        classes,
    )?;
    Ok(Parts {
        places,
        transitions,
    })
}

/// A net of what is declared, with these places and transitions.
fn net_of(alloc: Global, decls: &Decls, parts: Parts) -> Result<Net, Memory>
    ensures made { IfOk result (λ net. net_view net ≡ net_from (decls_view decls.now) (map place_view parts.places.items) (map transition_view parts.transitions.items)) }
{
    let Parts {
        places,
        transitions,
    } = parts;
    let declared = decls.parts(alloc)?;
    let funs = Arc::new(alloc, declared.funs)?;
    Ok(Net {
        places,
        transitions,
        variables: declared.variables,
        constants: declared.constants,
        constructors: declared.constructors,
        funs,
    })
}

/// The initial marking of the flat net of modules that are unfolded.
fn initial_of(
    alloc: Global,
    net: &Net,
    modules: &[ModuleNet],
    instances: &[Instance],
    classes: &Classes,
) -> Result<Marking, FlatError>
    requires in_modules { AreOfModules (length modules.now) (instances_view instances.now) }
    requires as_many { length classes.now.numbers ≡ length (initials_in (map module_net_view modules.now) (instances_view instances.now)) }
    requires small { length classes.now.numbers < 2 ^ 32 }
    requires each { length net.now.places.items ≡ length classes.now.firsts }
    requires few { length net.now.places.items < 2 ^ 32 }
    requires meant { AreAllMeant (net_view net.now).functions (all_written (map module_net_view modules.now) (instances_view instances.now) classes.now) }
    ensures reads { GivesBy (λ marking. marking) result (started (net_view net.now) (all_written (map module_net_view modules.now) (instances_view instances.now) classes.now)) }
{
    let initials = all_initials(alloc, modules, instances)?;
    let written = written_lists(alloc, initials.as_slice(), classes)?;
    marking_of(alloc, net, written.as_slice())
}

/// The flat net of what is accepted of a document, with its initial marking; or the first refusal.
fn start_of(
    alloc: Global,
    document: &Document,
    accepted: &Accepted,
) -> Result<NetAtStart, FlatError>
    requires well { IsWellAccepted (accepted_view accepted.now) }
    requires few_variables { length (decls_view accepted.now.decls).variables < 2 ^ 32 }
    requires hierarchy { hierarchy_view accepted.now.hierarchy ≡ hierarchy_in (document_view document.now) }
    ensures reads { GivesBy (λ start. loaded_with (document_view document.now) (accepted_view accepted.now) (net_view start.net) start.initial) result
        (flat_in (document_view document.now) (accepted_view accepted.now)) }
    ensures one { HasOne (flat_in (document_view document.now) (accepted_view accepted.now)) }
    ensures well_loaded { IfOk result (λ start. IsWellLoaded (loaded_with (document_view document.now) (accepted_view accepted.now) (net_view start.net) start.initial)) }
{
    let unfolded = unfold(alloc, &accepted.hierarchy)?;
    let classes = compound(alloc, &accepted.hierarchy, &unfolded)?;
    let parts = parts_of(
        alloc,
        document,
        &accepted.hierarchy,
        accepted.modules.as_slice(),
        &unfolded,
        &classes,
    )?;
    let net = net_of(alloc, &accepted.decls, parts)?;
    let instances = unfolded.instances.as_slice();
    let initial = initial_of(
        alloc,
        &net,
        accepted.modules.as_slice(),
        instances,
        &classes,
    )?;
    Ok(NetAtStart { net, initial })
}

/// Makes the flat net of what is accepted of a document, and its initial marking.
///
/// # Errors
///
/// The first of these that holds: there are more than 4,096 instances ([`FlatError::Instances`]), more than 16,384 place instances
/// ([`FlatError::Places`]), more than 16,384 transition instances ([`FlatError::Transitions`]); an initial marking has a fault
/// ([`FlatError::Init`]); two members of a compound place have initial markings that differ ([`FlatError::InitialDiffers`]). Or
/// [`FlatError::Memory`]: memory ran out.
pub fn flatten(alloc: Global, document: Document, accepted: Accepted) -> Result<Loaded, FlatError>
    requires well { IsWellAccepted (accepted_view accepted) }
    requires few_variables { length (decls_view accepted.decls).variables < 2 ^ 32 }
    requires hierarchy { hierarchy_view accepted.hierarchy ≡ hierarchy_in (document_view document) }
    // What is answered is what is meant: the flat net and its initial marking, or the first refusal.
    ensures reads { GivesBy loaded_view result (flat_in (document_view document) (accepted_view accepted)) }
    // At most one thing is meant.
    ensures one { HasOne (flat_in (document_view document) (accepted_view accepted)) }
    // The net is sound, and its initial marking is one of its places.
    ensures well_loaded { IfOk result (λ loaded. IsWellLoaded (loaded_view loaded)) }
{
    let start = start_of(alloc, &document, &accepted)?;
    Ok(Loaded {
        net: start.net,
        initial: start.initial,
        decls: accepted.decls,
        monitors: document.monitors,
        phases: document.phases,
    })
}

/// The law that what is accepted of a document means at most one thing. A call does nothing: it is there for what it ensures.
pub fn one_flat_net()
    ensures one { (d : RawDocument) (accepted : PlainAccepted) → HasOne (flat_in d accepted) }
{
    one_unfolding();
}
