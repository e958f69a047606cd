//! Colour sets that agree: of sockets and ports, and of the members of fusion sets.

ghost use Rattle.std.specs.Prelude.{◌≡◌, map, All};
ghost use Rattle.cpn_readings.specs.Rules.{each_item};
ghost use Rattle.cpn_declared.specs.DeclsViews.{decls_view};
ghost use Rattle.cpn_document.specs.Views.{document_view};
ghost use Rattle.cpn_module.specs.Answers.{Checks};
ghost use Rattle.cpn_module.specs.ModuleRules.{colour_rules, sub_colour_rules, structure_colour_rules, fusion_colour_rules, colour_name as colour_of, agrees_with_first as agrees_with_the_first};
ghost use Rattle.cpn_module.specs.Views.{substitution_view, structure_view, fused_view, fusion_set_view, hierarchy_view};
ghost use Rattle.cpn_module.specs.Colours.{colours_agree as names_agree};
ghost use Rattle.cpn_module.specs.Named.{hierarchy_in};
ghost use Rattle.cpn_module.specs.Ranges.{HasItsNumbers};
ghost use Rattle.cpn_module.specs.PlacesAt.{IsPlaceAt, IsMemberAt, AreAssignedAt, HasPlacesAt};

use crate::hierarchy::{FusedPlace, FusionSet, Hierarchy, Structure, Substitution};
use crate::pointing::{at_assignment, at_member};
use crate::refusals::ModuleError;
use cpn_declared::Decls;
use cpn_document::{AssignmentPart, Document, MemberPart};
use cpn_same::same_colour;

/// Whether the colour sets of two names agree.
fn colours_agree(decls: &Decls, name: &str, other: &str) -> bool
    ensures exact { result ≡ names_agree (decls_view decls.now) name.now other.now }
{
    if name == other {
        return true;
    }
    match decls.colour(name) {
        None => false,
        Some(colour) => match decls.colour(other) {
            None => false,
            Some(other_colour) => same_colour(colour, other_colour),
        },
    }
}

/// The name of the colour set of a place of a module, by their numbers.
fn colour_name(document: &Document, of_module: usize, place: usize) -> &str
    requires there { IsPlaceAt (document_view document.now) of_module place }
    ensures exact { result.now ≡ colour_of (document_view document.now) of_module place }
{
    document.modules[of_module].places[place].colour.as_str()
}

/// Checks a substitution transition, by the numbers of its module and its own.
fn check_substitution(
    document: &Document,
    decls: &Decls,
    in_module: usize,
    in_sub: usize,
    substitution: &Substitution,
) -> Result<(), ModuleError>
    requires there { All (AreAssignedAt (document_view document.now) in_module (substitution_view substitution.now)) (substitution_view substitution.now).assignments }
    ensures checks { Checks result (sub_colour_rules (decls_view decls.now) (document_view document.now) in_module in_sub (substitution_view substitution.now)) }
{
    let assignments = substitution.assignments.as_slice();
    for (number, assigned) in assignments.iter().enumerate() {
        let socket = colour_name(document, in_module, assigned.socket);
        let port = colour_name(document, substitution.submodule, assigned.port);
        if !colours_agree(decls, socket, port) {
            let here = at_assignment(in_module, in_sub, number, AssignmentPart::Whole);
            return Err(ModuleError::ColourDiffers(here));
        }
    }
    Ok(())
}

/// Checks a module, by its number.
fn check_structure(
    document: &Document,
    decls: &Decls,
    in_module: usize,
    structure: &Structure,
) -> Result<(), ModuleError>
    requires there { All (HasPlacesAt (document_view document.now) in_module) (structure_view structure.now).substitutions }
    ensures checks { Checks result (structure_colour_rules (decls_view decls.now) (document_view document.now) in_module (structure_view structure.now)) }
{
    let substitutions = structure.substitutions.as_slice();
    for (number, substitution) in substitutions.iter().enumerate() {
        check_substitution(document, decls, in_module, number, substitution)?;
    }
    Ok(())
}

/// Checks the modules.
fn check_structures(
    document: &Document,
    decls: &Decls,
    hierarchy: &Hierarchy,
) -> Result<(), ModuleError>
    requires named { hierarchy_view hierarchy.now ≡ hierarchy_in (document_view document.now) }
    requires numbers { HasItsNumbers (hierarchy_view hierarchy.now) }
    ensures checks { Checks result (each_item (structure_colour_rules (decls_view decls.now) (document_view document.now)) 0 (hierarchy_view hierarchy.now).modules) }
{
    let modules = hierarchy.modules.as_slice();
    for (number, structure) in modules.iter().enumerate() {
        check_structure(document, decls, number, structure)?;
    }
    Ok(())
}

/// Whether the colour set of a place agrees with that of the first of these members.
fn agrees_with_first(
    document: &Document,
    decls: &Decls,
    member: FusedPlace,
    members: &[FusedPlace],
) -> bool
    requires there { All (IsMemberAt (document_view document.now)) (map fused_view members.now) }
    requires member { IsMemberAt (document_view document.now) (fused_view member) }
    ensures exact { result ≡ agrees_with_the_first (decls_view decls.now) (document_view document.now) (fused_view member) (map fused_view members.now) }
{
    match members.first() {
        None => true,
        Some(first) => {
            let name = colour_name(document, first.of_module, first.place);
            let other = colour_name(document, member.of_module, member.place);
            colours_agree(decls, name, other)
        }
    }
}

/// Checks a fusion set, by its number.
fn check_fusion(
    document: &Document,
    decls: &Decls,
    in_fusion: usize,
    fusion: &FusionSet,
) -> Result<(), ModuleError>
    requires there { All (IsMemberAt (document_view document.now)) (fusion_set_view fusion.now) }
    ensures checks { Checks result (fusion_colour_rules (decls_view decls.now) (document_view document.now) in_fusion (fusion_set_view fusion.now)) }
{
    let members = fusion.members.as_slice();
    for (number, member) in members.iter().enumerate() {
        if !agrees_with_first(document, decls, *member, members) {
            let here = at_member(in_fusion, number, MemberPart::Whole);
            return Err(ModuleError::ColourDiffers(here));
        }
    }
    Ok(())
}

/// Checks the fusion sets.
fn check_fusions(
    document: &Document,
    decls: &Decls,
    hierarchy: &Hierarchy,
) -> Result<(), ModuleError>
    requires named { hierarchy_view hierarchy.now ≡ hierarchy_in (document_view document.now) }
    requires numbers { HasItsNumbers (hierarchy_view hierarchy.now) }
    ensures checks { Checks result (each_item (fusion_colour_rules (decls_view decls.now) (document_view document.now)) 0 (hierarchy_view hierarchy.now).fusions) }
{
    let fusions = hierarchy.fusions.as_slice();
    for (number, fusion) in fusions.iter().enumerate() {
        check_fusion(document, decls, number, fusion)?;
    }
    Ok(())
}

/// Checks that the colour sets of sockets agree with those of their ports, and those of the members of a fusion set with that of
/// the first.
#[tactic(auto, using(cpn_readings::proofs::BrokenRules::in_order), unfolding(crate::specs::ModuleRules::colour_rules))]
pub(crate) fn check_colours(
    document: &Document,
    decls: &Decls,
    hierarchy: &Hierarchy,
) -> Result<(), ModuleError>
    requires named { hierarchy_view hierarchy.now ≡ hierarchy_in (document_view document.now) }
    requires numbers { HasItsNumbers (hierarchy_view hierarchy.now) }
    ensures checks { Checks result (colour_rules (decls_view decls.now) (document_view document.now) (hierarchy_view hierarchy.now)) }
{
    check_structures(document, decls, hierarchy)?;
    check_fusions(document, decls, hierarchy)
}
