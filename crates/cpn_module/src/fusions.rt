//! What fusion sets have to keep: no member is a port, and no place is in two of them.

ghost use Rattle.std.specs.Prelude.{◌≡◌, ◌||◌, [], map, not, is_some, OnOk};
ghost use Rattle.std.specs.List.{list_any};
ghost use Rattle.cpn_document.specs.Document.{at_member as part_of_member};
ghost use Rattle.cpn_document.specs.declared.pointers.MemberPart.TheVariants.{Whole};
ghost use Rattle.cpn_readings.specs.Rules.{each_item};
ghost use Rattle.cpn_module.specs.Refusals.{port_in_fusion, two_fusions};
ghost use Rattle.cpn_module.specs.Hierarchy.{PlainMember, port_at, structure_at};
ghost use Rattle.cpn_module.specs.Views.{fused_view, hierarchy_view};
ghost use Rattle.cpn_module.specs.ModuleRules.{rule, fusion_port_rules, is_same_member, two_fusions_rules};
ghost use Rattle.cpn_module.specs.Pairs.{has_pair};
ghost use Rattle.cpn_module.specs.Answers.{Checks};

use crate::hierarchy::{FusedPlace, Hierarchy};
use crate::pairs::Pairs;
use crate::pointing::at_member;
use crate::ports::port_at;
use crate::refusals::ModuleError;
use cpn_document::MemberPart;
use std::alloc::{AllocError, Global};

/// None of the members of a fusion set is a port.
fn check_members(
    hierarchy: &Hierarchy,
    in_fusion: usize,
    members: &[FusedPlace],
) -> Result<(), ModuleError>
    ensures checks { Checks result (each_item (λ k member. rule (not (is_some (port_at (structure_at (hierarchy_view hierarchy.now) member.of_module) member.place))) (port_in_fusion (part_of_member in_fusion k Whole))) 0 (map fused_view members.now)) }
{
    for (number, member) in members.iter().enumerate() {
        if port_at(hierarchy, member.of_module, member.place).is_some() {
            return Err(ModuleError::PortInFusion(at_member(in_fusion, number, MemberPart::Whole)));
        }
    }
    Ok(())
}

/// No member of a fusion set is a port.
pub(crate) fn check_fusion_ports(hierarchy: &Hierarchy) -> Result<(), ModuleError>
    ensures checks { Checks result (fusion_port_rules (hierarchy_view hierarchy.now)) }
{
    for (number, fusion) in hierarchy.fusions.iter().enumerate() {
        check_members(hierarchy, number, &fusion.members)?;
    }
    Ok(())
}

/// None of the members of a fusion set is one of the places of earlier ones. A place is its module and its number there.
fn check_apart(earlier: &Pairs, in_fusion: usize, members: &[FusedPlace]) -> Result<(), ModuleError>
    ensures checks { Checks result (each_item (λ k member. rule (not (has_pair member.of_module member.place earlier.now)) (two_fusions (part_of_member in_fusion k Whole))) 0 (map fused_view members.now)) }
{
    for (number, member) in members.iter().enumerate() {
        if earlier.has(member.of_module, member.place) {
            return Err(ModuleError::TwoFusions(at_member(in_fusion, number, MemberPart::Whole)));
        }
    }
    Ok(())
}

/// Adds the members of a fusion set to places.
fn add_members(places: &mut Pairs, members: &[FusedPlace]) -> Result<(), AllocError>
    ensures added { OnOk result ((member : PlainMember) → has_pair member.of_module member.place places.new ≡ (has_pair member.of_module member.place places.old || list_any (is_same_member member) (map fused_view members.now))) }
{
    for member in members {
        places.add(member.of_module, member.place)?;
    }
    Ok(())
}

/// No place is in two fusion sets. The places of the fusion sets are added to the places, of which there are none yet.
fn check_fusions_apart(places: &mut Pairs, hierarchy: &Hierarchy) -> Result<(), ModuleError>
    requires none_yet { places.old ≡ [] }
    ensures checks { Checks result (two_fusions_rules (hierarchy_view hierarchy.now)) }
{
    for (number, fusion) in hierarchy.fusions.iter().enumerate() {
        check_apart(places, number, &fusion.members)?;
        add_members(places, &fusion.members)?;
    }
    Ok(())
}

/// No place is in two fusion sets.
pub(crate) fn check_two_fusions(alloc: Global, hierarchy: &Hierarchy) -> Result<(), ModuleError>
    ensures checks { Checks result (two_fusions_rules (hierarchy_view hierarchy.now)) }
{
    let mut places = Pairs::new(alloc);
    check_fusions_apart(&mut places, hierarchy)
}
