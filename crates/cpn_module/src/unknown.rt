//! Names that name nothing: the first of them is refused.

ghost use Rattle.std.specs.Prelude.{◌≡◌, map, is_some, IfSome};
ghost use Rattle.cpn_readings.specs.Rules.{each_item};
ghost use Rattle.cpn_document.specs.Parts.{is_one_of};
ghost use Rattle.cpn_document.specs.Views.{place_view, arc_view, assignment_view, sub_view, module_view, member_view, fusion_view, document_view};
ghost use Rattle.cpn_module.specs.Named.{module_names, place_names, module_named, place_named, transition_names, is_port as is_port_of};
ghost use Rattle.cpn_module.specs.Names.{AreNamesOf};
ghost use Rattle.cpn_module.specs.ModuleRules.{submodule_rule, submodule_rules, member_module_rule, member_module_rules, module_rules, arc_place_rule, arc_place_rules, assignment_place_rules, sub_place_rules, places_of_module_rules, member_place_rule, member_place_rules, place_rules, arc_transition_rule, arc_transition_rules, transitions_of_module_rules, transition_rules, name_rules};
ghost use Rattle.cpn_module.specs.Answers.{Checks};

use crate::name_lists::{DocumentNames, Names};
use crate::pointing::{at_arc, at_assignment, at_member, at_sub};
use crate::refusals::ModuleError;
use crate::walks::check_each;
use cpn_document::{
    Arc, ArcPart, Assignment, AssignmentPart, Document, Fusion, Member, MemberPart, Module, Place,
    Pointer, Sub, SubPart,
};
use std::alloc::Global;

/// That the submodule of a substitution transition is there.
#[tactic(auto, using(cpn_readings::proofs::BrokenRules::in_order))]
fn check_submodule(
    modules: &Names,
    in_module: usize,
    number: usize,
    sub: &Sub,
) -> Result<(), ModuleError>
    ensures checks { Checks result (submodule_rule modules.now in_module number (sub_view sub.now)) }
{
    if modules.has(sub.submodule.as_str()) {
        return Ok(());
    }
    let here = at_sub(in_module, number, SubPart::Module);
    Err(ModuleError::UnknownModule(here))
}

/// The same of each substitution transition of a module.
fn check_submodules(
    modules: &Names,
    in_module: usize,
    of_module: &Module,
) -> Result<(), ModuleError>
    ensures checks { Checks result (submodule_rules modules.now in_module (module_view of_module.now)) }
{
    check_each(&of_module.subs, |number, sub| {
        check_submodule(modules, in_module, number, sub)
    })
}

/// The same of each module.
fn check_all_submodules(modules: &Names, document: &Document) -> Result<(), ModuleError>
    ensures checks { Checks result (each_item (submodule_rules modules.now) 0 (document_view document.now).modules) }
{
    check_each(&document.modules, |number, of_module| {
        check_submodules(modules, number, of_module)
    })
}

/// That the module of a member of a fusion set is there.
#[tactic(auto, using(cpn_readings::proofs::BrokenRules::in_order))]
fn check_member_module(
    modules: &Names,
    in_fusion: usize,
    number: usize,
    member: &Member,
) -> Result<(), ModuleError>
    ensures checks { Checks result (member_module_rule modules.now in_fusion number (member_view member.now)) }
{
    if modules.has(member.module.as_str()) {
        return Ok(());
    }
    let here = at_member(in_fusion, number, MemberPart::Module);
    Err(ModuleError::UnknownModule(here))
}

/// The same of each member of a fusion set.
fn check_member_modules(
    modules: &Names,
    in_fusion: usize,
    fusion: &Fusion,
) -> Result<(), ModuleError>
    ensures checks { Checks result (member_module_rules modules.now in_fusion (fusion_view fusion.now)) }
{
    check_each(&fusion.members, |number, member| {
        check_member_module(modules, in_fusion, number, member)
    })
}

/// The same of each fusion set.
fn check_all_member_modules(modules: &Names, document: &Document) -> Result<(), ModuleError>
    ensures checks { Checks result (each_item (member_module_rules modules.now) 0 (document_view document.now).fusions) }
{
    check_each(&document.fusions, |number, fusion| {
        check_member_modules(modules, number, fusion)
    })
}

/// That the top module, the submodules and the modules of members are there.
#[tactic(auto, using(cpn_readings::proofs::BrokenRules::in_order), unfolding(crate::specs::ModuleRules::module_rules))]
fn check_modules(modules: &Names, document: &Document) -> Result<(), ModuleError>
    requires modules { modules.now ≡ module_names (document_view document.now) }
    ensures checks { Checks result (module_rules (document_view document.now)) }
{
    if !modules.has(document.top.as_str()) {
        return Err(ModuleError::UnknownModule(Pointer::Top));
    }
    check_all_submodules(modules, document)?;
    check_all_member_modules(modules, document)
}

/// That the place of an arc is there, among the names of the places of its module.
#[tactic(auto, using(cpn_readings::proofs::BrokenRules::in_order))]
fn check_arc_place(
    places: &Names,
    in_module: usize,
    number: usize,
    arc: &Arc,
) -> Result<(), ModuleError>
    ensures checks { Checks result (arc_place_rule places.now in_module number (arc_view arc.now)) }
{
    if places.has(arc.place.as_str()) {
        return Ok(());
    }
    let here = at_arc(in_module, number, ArcPart::Place);
    Err(ModuleError::UnknownPlace(here))
}

/// The same of each arc of a module.
fn check_arc_places(places: &Names, in_module: usize, of_module: &Module) -> Result<(), ModuleError>
    ensures checks { Checks result (arc_place_rules places.now in_module (module_view of_module.now)) }
{
    check_each(&of_module.arcs, |number, arc| {
        check_arc_place(places, in_module, number, arc)
    })
}

/// The place of a name in the module of a name, where both are there.
fn find_place<'d>(
    document: &'d Document,
    names: &DocumentNames,
    of_module: &str,
    name: &str,
) -> Option<&'d Place>
    requires names { AreNamesOf (document_view document.now) names.now.modules names.now.places.items }
    ensures there { is_some result ≡ is_one_of name.now (place_names (module_named (document_view document.now) of_module.now)) }
    ensures place { IfSome result (λ place. place_view place.now ≡ place_named (module_named (document_view document.now) of_module.now) name.now) }
{
    let number = names.modules.number(of_module)?;
    let place = names.places[number].number(name)?;
    Some(&document.modules[number].places[place])
}

/// Whether a module has a port, by their names.
fn is_port(document: &Document, names: &DocumentNames, of_module: &str, port: &str) -> bool
    requires names { AreNamesOf (document_view document.now) names.now.modules names.now.places.items }
    ensures tells { result ≡ is_port_of (module_named (document_view document.now) of_module.now) port.now }
{
    match find_place(document, names, of_module, port) {
        Some(place) => place.port.is_some(),
        None => false,
    }
}

/// That an assignment has a port of the submodule and a place of the module, among the names of the places of the module.
#[tactic(auto, using(cpn_readings::proofs::BrokenRules::in_order), unfolding(crate::specs::ModuleRules::assignment_place_rules))]
fn check_assignment(
    document: &Document,
    names: &DocumentNames,
    places: &Names,
    in_module: usize,
    in_sub: usize,
    sub: &Sub,
    number: usize,
    assignment: &Assignment,
) -> Result<(), ModuleError>
    requires names { AreNamesOf (document_view document.now) names.now.modules names.now.places.items }
    ensures checks { Checks result (assignment_place_rules (document_view document.now) places.now in_module in_sub (sub_view sub.now) number (assignment_view assignment.now)) }
{
    if !is_port(
        document,
        names,
        sub.submodule.as_str(),
        assignment.port.as_str(),
    ) {
        let here = at_assignment(in_module, in_sub, number, AssignmentPart::Port);
        return Err(ModuleError::UnknownPlace(here));
    }
    if !places.has(assignment.socket.as_str()) {
        let here = at_assignment(in_module, in_sub, number, AssignmentPart::Socket);
        return Err(ModuleError::UnknownPlace(here));
    }
    Ok(())
}

/// The same of each assignment of a substitution transition.
fn check_assignments(
    document: &Document,
    names: &DocumentNames,
    places: &Names,
    in_module: usize,
    in_sub: usize,
    sub: &Sub,
) -> Result<(), ModuleError>
    requires names { AreNamesOf (document_view document.now) names.now.modules names.now.places.items }
    ensures checks { Checks result (sub_place_rules (document_view document.now) places.now in_module in_sub (sub_view sub.now)) }
{
    check_each(&sub.assign, |number, assignment| {
        check_assignment(
            document, names, places, in_module, in_sub, sub, number, assignment,
        )
    })
}

/// The same of each substitution transition of a module.
fn check_all_assignments(
    document: &Document,
    names: &DocumentNames,
    places: &Names,
    in_module: usize,
    of_module: &Module,
) -> Result<(), ModuleError>
    requires names { AreNamesOf (document_view document.now) names.now.modules names.now.places.items }
    ensures checks { Checks result (each_item (sub_place_rules (document_view document.now) places.now in_module) 0 (module_view of_module.now).subs) }
{
    check_each(&of_module.subs, |number, sub| {
        check_assignments(document, names, places, in_module, number, sub)
    })
}

/// That the places that a module names are there.
#[tactic(auto, using(cpn_readings::proofs::BrokenRules::in_order), unfolding(crate::specs::ModuleRules::places_of_module_rules))]
fn check_places_of_module(
    document: &Document,
    names: &DocumentNames,
    places: &Names,
    in_module: usize,
    of_module: &Module,
) -> Result<(), ModuleError>
    requires names { AreNamesOf (document_view document.now) names.now.modules names.now.places.items }
    requires places { places.now ≡ place_names (module_view of_module.now) }
    ensures checks { Checks result (places_of_module_rules (document_view document.now) in_module (module_view of_module.now)) }
{
    check_arc_places(places, in_module, of_module)?;
    check_all_assignments(document, names, places, in_module, of_module)
}

/// That the places that modules name are there.
fn check_places_of_modules(document: &Document, names: &DocumentNames) -> Result<(), ModuleError>
    requires names { AreNamesOf (document_view document.now) names.now.modules names.now.places.items }
    ensures checks { Checks result (each_item (places_of_module_rules (document_view document.now)) 0 (document_view document.now).modules) }
{
    for (number, of_module) in document.modules.iter().enumerate() {
        let places = &names.places[number];
        check_places_of_module(document, names, places, number, of_module)?;
    }
    Ok(())
}

/// That the place of a member of a fusion set is there.
#[tactic(auto, using(cpn_readings::proofs::BrokenRules::in_order))]
fn check_member_place(
    document: &Document,
    names: &DocumentNames,
    in_fusion: usize,
    number: usize,
    member: &Member,
) -> Result<(), ModuleError>
    requires names { AreNamesOf (document_view document.now) names.now.modules names.now.places.items }
    ensures checks { Checks result (member_place_rule (document_view document.now) in_fusion number (member_view member.now)) }
{
    let found = find_place(
        document,
        names,
        member.module.as_str(),
        member.place.as_str(),
    );
    if found.is_some() {
        return Ok(());
    }
    let here = at_member(in_fusion, number, MemberPart::Place);
    Err(ModuleError::UnknownPlace(here))
}

/// The same of each member of a fusion set.
fn check_member_places(
    document: &Document,
    names: &DocumentNames,
    in_fusion: usize,
    fusion: &Fusion,
) -> Result<(), ModuleError>
    requires names { AreNamesOf (document_view document.now) names.now.modules names.now.places.items }
    ensures checks { Checks result (member_place_rules (document_view document.now) in_fusion (fusion_view fusion.now)) }
{
    check_each(&fusion.members, |number, member| {
        check_member_place(document, names, in_fusion, number, member)
    })
}

/// The same of each fusion set.
fn check_all_member_places(document: &Document, names: &DocumentNames) -> Result<(), ModuleError>
    requires names { AreNamesOf (document_view document.now) names.now.modules names.now.places.items }
    ensures checks { Checks result (each_item (member_place_rules (document_view document.now)) 0 (document_view document.now).fusions) }
{
    check_each(&document.fusions, |number, fusion| {
        check_member_places(document, names, number, fusion)
    })
}

/// That the places of arcs, the ports and sockets of assignments, and the places of members are there.
#[tactic(auto, using(cpn_readings::proofs::BrokenRules::in_order), unfolding(crate::specs::ModuleRules::place_rules))]
fn check_places(document: &Document, names: &DocumentNames) -> Result<(), ModuleError>
    requires names { AreNamesOf (document_view document.now) names.now.modules names.now.places.items }
    ensures checks { Checks result (place_rules (document_view document.now)) }
{
    check_places_of_modules(document, names)?;
    check_all_member_places(document, names)
}

/// That the transition of an arc is there, or the substitution transition, among the names of both in its module.
#[tactic(auto, using(cpn_readings::proofs::BrokenRules::in_order))]
fn check_arc_transition(
    transitions: &Names,
    subs: &Names,
    in_module: usize,
    number: usize,
    arc: &Arc,
) -> Result<(), ModuleError>
    ensures checks { Checks result (arc_transition_rule transitions.now subs.now in_module number (arc_view arc.now)) }
{
    let name = arc.transition.as_str();
    if transitions.has(name) || subs.has(name) {
        return Ok(());
    }
    let here = at_arc(in_module, number, ArcPart::Transition);
    Err(ModuleError::UnknownTransition(here))
}

/// The same of each arc of a module.
fn check_arc_transitions(
    transitions: &Names,
    subs: &Names,
    in_module: usize,
    of_module: &Module,
) -> Result<(), ModuleError>
    ensures checks { Checks result (arc_transition_rules transitions.now subs.now in_module (module_view of_module.now)) }
{
    check_each(&of_module.arcs, |number, arc| {
        check_arc_transition(transitions, subs, in_module, number, arc)
    })
}

/// That the transitions that a module names are there, given the names of its transitions.
fn check_transitions_among(
    alloc: Global,
    transitions: &Names,
    in_module: usize,
    of_module: &Module,
) -> Result<(), ModuleError>
    requires transitions { transitions.now ≡ transition_names (module_view of_module.now) }
    ensures checks { Checks result (transitions_of_module_rules in_module (module_view of_module.now)) }
{
    let subs = Names::of_subs(alloc, of_module.subs.as_slice())?;
    check_arc_transitions(transitions, &subs, in_module, of_module)
}

/// That the transitions that a module names are there.
fn check_transitions_of_module(
    alloc: Global,
    in_module: usize,
    of_module: &Module,
) -> Result<(), ModuleError>
    ensures checks { Checks result (transitions_of_module_rules in_module (module_view of_module.now)) }
{
    let transitions = Names::of_transitions(alloc, of_module.transitions.as_slice())?;
    check_transitions_among(alloc, &transitions, in_module, of_module)
}

/// The same of each module.
fn check_transitions(alloc: Global, document: &Document) -> Result<(), ModuleError>
    ensures checks { Checks result (transition_rules (document_view document.now)) }
{
    check_each(&document.modules, |number, of_module| {
        check_transitions_of_module(alloc, number, of_module)
    })
}

/// That everything that is named is there.
#[tactic(auto, using(cpn_readings::proofs::BrokenRules::in_order), unfolding(crate::specs::ModuleRules::name_rules))]
pub(crate) fn check_names(
    alloc: Global,
    document: &Document,
    names: &DocumentNames,
) -> Result<(), ModuleError>
    requires names { AreNamesOf (document_view document.now) names.now.modules names.now.places.items }
    ensures checks { Checks result (name_rules (document_view document.now)) }
{
    check_modules(&names.modules, document)?;
    check_places(document, names)?;
    check_transitions(alloc, document)
}
