//! Everything that the names of a document name, by its number.

ghost use Rattle.std.specs.Prelude.{◌≡◌, ◌<◌, length, map, All, IfOk};
ghost use Rattle.cpn_document.specs.Views.{place_view, arc_view, assignment_view, sub_view, module_view, member_view, fusion_view, document_view};
ghost use Rattle.cpn_module.specs.Named.{place_names, transition_names, sub_names, node_among, ends_among, ends_in, assignment_among, hierarchy_in};
ghost use Rattle.cpn_module.specs.Names.{AreNamesOf, names_at, substitution_among, structure_among, member_among, fusion_among};
ghost use Rattle.cpn_module.specs.Known.{IsKnownNode, IsKnownArc, IsKnownAssignment, IsKnownSub, IsKnownModule, IsKnownMember, IsKnownFusion, AreKnown};
ghost use Rattle.cpn_module.specs.Views.{ends_view, assigned_view, substitution_view, structure_view, fused_view, fusion_set_view, hierarchy_view};

use crate::hierarchy::{
    Assigned, Ends, FusedPlace, FusionSet, Hierarchy, Node, Structure, Substitution,
};
use crate::name_lists::{DocumentNames, Names};
use cpn_document::{Arc, Assignment, Document, Fusion, Member, Module, Place, PortType, Sub};
use std::alloc::{AllocError, Global};

/// What port each of the places is.
fn ports_of(alloc: Global, places: &[Place]) -> Result<Vec<Option<PortType>>, AllocError>
    ensures ports { IfOk result (λ ports. ports.items ≡ map (λ p. p.port) (map place_view places.now)) }
{
    let mut ports = Vec::with_capacity(alloc, places.len())?;
    for place in places {
        ports.push(place.port)?;
    }
    Ok(ports)
}

/// The transition of a name, or else the substitution transition.
fn node_of(transitions: &Names, subs: &Names, name: &str) -> Node
    requires there { IsKnownNode name.now transitions.now subs.now }
    ensures exact { result ≡ node_among transitions.now subs.now name.now }
{
    match transitions.number(name) {
        Some(number) => Node::Transition(number),
        None => Node::Substitution(subs.number_there(name)),
    }
}

/// The ends of arcs, among the names of the places, the transitions and the substitution transitions of their module.
fn ends_of(
    alloc: Global,
    places: &Names,
    transitions: &Names,
    subs: &Names,
    arcs: &[Arc],
) -> Result<Vec<Ends>, AllocError>
    requires known { All (IsKnownArc places.now transitions.now subs.now) (map arc_view arcs.now) }
    ensures ends { IfOk result (λ ends. map ends_view ends.items ≡ map (ends_among places.now transitions.now subs.now) (map arc_view arcs.now)) }
{
    let mut ends = Vec::with_capacity(alloc, arcs.len())?;
    for arc in arcs {
        ends.push(Ends {
            place: places.number_there(arc.place.as_str()),
            node: node_of(transitions, subs, arc.transition.as_str()),
            way: arc.way,
        })?;
    }
    Ok(ends)
}

/// The arcs of a module, given the names of its places and transitions.
fn arcs_among(
    alloc: Global,
    places: &Names,
    transitions: &Names,
    module: &Module,
) -> Result<Vec<Ends>, AllocError>
    requires places { places.now ≡ place_names (module_view module.now) }
    requires transitions { transitions.now ≡ transition_names (module_view module.now) }
    requires known { All (IsKnownArc (place_names (module_view module.now)) (transition_names (module_view module.now)) (sub_names (module_view module.now))) (module_view module.now).arcs }
    ensures ends { IfOk result (λ ends. map ends_view ends.items ≡ map (ends_in (module_view module.now)) (map arc_view module.now.arcs.items)) }
{
    let subs = Names::of_subs(alloc, module.subs.as_slice())?;
    ends_of(alloc, places, transitions, &subs, module.arcs.as_slice())
}

/// The arcs of a module, given the names of its places.
fn arcs_of(alloc: Global, places: &Names, module: &Module) -> Result<Vec<Ends>, AllocError>
    requires places { places.now ≡ place_names (module_view module.now) }
    requires known { All (IsKnownArc (place_names (module_view module.now)) (transition_names (module_view module.now)) (sub_names (module_view module.now))) (module_view module.now).arcs }
    ensures ends { IfOk result (λ ends. map ends_view ends.items ≡ map (ends_in (module_view module.now)) (map arc_view module.now.arcs.items)) }
{
    let transitions = Names::of_transitions(alloc, module.transitions.as_slice())?;
    arcs_among(alloc, places, &transitions, module)
}

/// The assignments of a substitution transition, given its submodule and the names of the places of its module.
fn assigned_of(
    alloc: Global,
    names: &DocumentNames,
    submodule: usize,
    sockets: &Names,
    assign: &[Assignment],
) -> Result<Vec<Assigned>, AllocError>
    requires in_range { submodule < length names.now.places.items }
    requires known { All (IsKnownAssignment sockets.now (names_at names.now.places.items submodule)) (map assignment_view assign.now) }
    ensures assigned { IfOk result (λ assigned. map assigned_view assigned.items ≡ map (assignment_among sockets.now (names_at names.now.places.items submodule)) (map assignment_view assign.now)) }
{
    let mut assigned = Vec::with_capacity(alloc, assign.len())?;
    for assignment in assign {
        assigned.push(Assigned {
            port: names.place(submodule, assignment.port.as_str()),
            socket: sockets.number_there(assignment.socket.as_str()),
        })?;
    }
    Ok(assigned)
}

/// The substitution transitions of a module, given the names of its places.
fn substitutions_of(
    alloc: Global,
    names: &DocumentNames,
    sockets: &Names,
    subs: &[Sub],
) -> Result<Vec<Substitution>, AllocError>
    requires many { length names.now.places.items ≡ length names.now.modules }
    requires known { All (IsKnownSub names.now.modules names.now.places.items sockets.now) (map sub_view subs.now) }
    ensures substitutions { IfOk result (λ substitutions. map substitution_view substitutions.items ≡ map (substitution_among names.now.modules names.now.places.items sockets.now) (map sub_view subs.now)) }
{
    let mut substitutions = Vec::with_capacity(alloc, subs.len())?;
    for sub in subs {
        let submodule = names.modules.number_there(sub.submodule.as_str());
        let assignments = assigned_of(alloc, names, submodule, sockets, sub.assign.as_slice())?;
        substitutions.push(Substitution {
            submodule,
            assignments,
        })?;
    }
    Ok(substitutions)
}

/// How a module is made, given the names of its places.
fn structure_of(
    alloc: Global,
    names: &DocumentNames,
    places: &Names,
    module: &Module,
) -> Result<Structure, AllocError>
    requires places { places.now ≡ place_names (module_view module.now) }
    requires many { length names.now.places.items ≡ length names.now.modules }
    requires known { IsKnownModule names.now.modules names.now.places.items (module_view module.now) }
    ensures structure { IfOk result (λ structure. structure_view structure ≡ structure_among names.now.modules names.now.places.items (module_view module.now)) }
{
    Ok(Structure {
        ports: ports_of(alloc, module.places.as_slice())?,
        transitions: module.transitions.len(),
        arcs: arcs_of(alloc, places, module)?,
        substitutions: substitutions_of(alloc, names, places, module.subs.as_slice())?,
    })
}

/// How each of the modules is made.
fn structures_of(
    alloc: Global,
    names: &DocumentNames,
    modules: &[Module],
) -> Result<Vec<Structure>, AllocError>
    requires places { names.now.places.items ≡ map place_names (map module_view modules.now) }
    requires many { length names.now.places.items ≡ length names.now.modules }
    requires known { All (IsKnownModule names.now.modules names.now.places.items) (map module_view modules.now) }
    ensures structures { IfOk result (λ structures. map structure_view structures.items ≡ map (structure_among names.now.modules names.now.places.items) (map module_view modules.now)) }
{
    let mut structures = Vec::with_capacity(alloc, modules.len())?;
    for (number, module) in modules.iter().enumerate() {
        let places = &names.places[number];
        structures.push(structure_of(alloc, names, places, module)?)?;
    }
    Ok(structures)
}

/// The members of a fusion set.
fn members_of(
    alloc: Global,
    names: &DocumentNames,
    members: &[Member],
) -> Result<Vec<FusedPlace>, AllocError>
    requires many { length names.now.places.items ≡ length names.now.modules }
    requires known { All (IsKnownMember names.now.modules names.now.places.items) (map member_view members.now) }
    ensures members { IfOk result (λ fused. map fused_view fused.items ≡ map (member_among names.now.modules names.now.places.items) (map member_view members.now)) }
{
    let mut fused = Vec::with_capacity(alloc, members.len())?;
    for member in members {
        let of_module = names.modules.number_there(member.module.as_str());
        let place = names.place(of_module, member.place.as_str());
        fused.push(FusedPlace { of_module, place })?;
    }
    Ok(fused)
}

/// The fusion sets.
fn fusions_of(
    alloc: Global,
    names: &DocumentNames,
    fusions: &[Fusion],
) -> Result<Vec<FusionSet>, AllocError>
    requires many { length names.now.places.items ≡ length names.now.modules }
    requires known { All (IsKnownFusion names.now.modules names.now.places.items) (map fusion_view fusions.now) }
    ensures fusions { IfOk result (λ sets. map fusion_set_view sets.items ≡ map (fusion_among names.now.modules names.now.places.items) (map fusion_view fusions.now)) }
{
    let mut sets = Vec::with_capacity(alloc, fusions.len())?;
    for fusion in fusions {
        let members = members_of(alloc, names, fusion.members.as_slice())?;
        sets.push(FusionSet { members })?;
    }
    Ok(sets)
}

/// The hierarchy that a document names, given the names of its modules and of their places.
pub(crate) fn hierarchy_of(
    alloc: Global,
    document: &Document,
    names: &DocumentNames,
) -> Result<Hierarchy, AllocError>
    requires names { AreNamesOf (document_view document.now) names.now.modules names.now.places.items }
    requires known { AreKnown names.now.modules names.now.places.items (document_view document.now) }
    ensures named { IfOk result (λ hierarchy. hierarchy_view hierarchy ≡ hierarchy_in (document_view document.now)) }
{
    let modules = structures_of(alloc, names, document.modules.as_slice())?;
    let fusions = fusions_of(alloc, names, document.fusions.as_slice())?;
    Ok(Hierarchy {
        top: names.modules.number_there(document.top.as_str()),
        modules,
        fusions,
    })
}
