//! The fusion sets of a document.

ghost use Rattle.std.specs.Prelude.{◌≡◌, [], ◌∷◌, ◌++◌, map, codes, OnOk, option_map, IfOk};
ghost use Rattle.serde_json.specs.View.{view};
ghost use Rattle.cpn_document.specs.Names.{texts_of as bytes_of};
ghost use Rattle.cpn_document.specs.Parts.{items_at};
ghost use Rattle.cpn_document.specs.Document.{at_member as part_of_member, RawMember, RawFusion, member_in, member_rules, fusion_in, fusion_rules, fusions_rules, member_keys as keys_of_member, fusion_keys as keys_of_fusion};
ghost use Rattle.cpn_document.specs.Views.{member_view, fusion_view};
ghost use Rattle.cpn_document.specs.Rules.{first_broken};
ghost use Rattle.cpn_document.specs.Answers.{Gives, refused_view};

use crate::document::{Fusion, Member};
use crate::lists::{Item, Named, items_of, named_of};
use crate::names::{Names, add_named};
use crate::parts::{
    keys_refusal, list_or_empty, list_refusal, name_refusal, optional_list_refusal, text_or_empty,
};
use crate::pointers::{FusionPart, MemberPart, Pointer};
use crate::refusals::{DocError, Refused};
use crate::texts::copied;
use serde_json::Value;
use std::alloc::{AllocError, Global};

/// A part of a member, by the numbers of its fusion set and its own.
fn at_member(in_fusion: usize, number: usize, part: MemberPart) -> Pointer
    ensures exact { result ≡ part_of_member in_fusion number part }
{
    Pointer::Fusion(in_fusion, FusionPart::Member(number, part))
}

/// The keys of a member, in a document of this version.
fn member_keys(_version: u64) -> [&'static str; 2]
    ensures exact { bytes_of result ≡ keys_of_member _version }
{
    ["module", "place"]
}

/// The refusal of a value that breaks a rule of members.
#[tactic(auto, using(crate::proofs::BrokenRules::in_groups), unfolding(crate::specs::Document::member_rules))]
fn member_refusal(version: u64, in_fusion: usize, number: usize, value: &Value) -> Option<Refused>
    ensures exact { option_map refused_view result ≡ first_broken (member_rules version in_fusion number (view value.now)) }
{
    let whole = at_member(in_fusion, number, MemberPart::Whole);
    let at_module = at_member(in_fusion, number, MemberPart::Module);
    let at_place = at_member(in_fusion, number, MemberPart::Place);
    keys_refusal(value, &member_keys(version), whole)
        .or(name_refusal(value, "module", whole, at_module))
        .or(name_refusal(value, "place", whole, at_place))
}

/// The member that stands in a value that keeps the rules of members.
fn copied_member(alloc: Global, value: &Value) -> Result<Member, AllocError>
    ensures reads { IfOk result (λ member. member_view member ≡ member_in (view value.now)) }
{
    Ok(Member {
        module: copied(alloc, text_or_empty(value, "module"))?,
        place: copied(alloc, text_or_empty(value, "place"))?,
    })
}

/// Where the members of a fusion set stand: in a document of a version, by the number of the fusion set.
#[derive(Clone, Copy)]
pub(crate) struct InFusion {
    version: u64,
    in_fusion: usize,
}

impl Item for Member {
    type Within = InFusion;

    ghost Raw = { RawMember };

    ghost seen = { member_view };

    ghost value_in = { member_in };

    ghost rules = { λ within. member_rules within.version within.in_fusion };

    fn read(
        alloc: Global,
        within: InFusion,
        number: usize,
        value: &Value,
    ) -> Result<Member, DocError> {
        if let Some(refused) = member_refusal(within.version, within.in_fusion, number, value) {
            return Err(DocError::from(refused));
        }
        let member = copied_member(alloc, value)?;
        Ok(member)
    }
}

/// The keys of a fusion set, in a document of this version.
fn fusion_keys(_version: u64) -> [&'static str; 2]
    ensures exact { bytes_of result ≡ keys_of_fusion _version }
{
    ["name", "members"]
}

impl Named for Fusion {
    type Within = u64;

    ghost Raw = { RawFusion };

    ghost seen = { fusion_view };

    ghost value_in = { fusion_in };

    ghost rules = { fusion_rules };

    fn read<'v>(
        alloc: Global,
        version: u64,
        number: usize,
        names: &mut Names<'v>,
        value: &'v Value,
    ) -> Result<Fusion, DocError> {
        let whole = Pointer::Fusion(number, FusionPart::Whole);
        let at_name = Pointer::Fusion(number, FusionPart::Name);
        add_named(value, names, &fusion_keys(version), whole, at_name)?;
        let at_members = Pointer::Fusion(number, FusionPart::Members);
        if let Some(refused) = list_refusal(value, "members", whole, at_members) {
            return Err(DocError::from(refused));
        }
        let within = InFusion {
            version,
            in_fusion: number,
        };
        let members = items_of(alloc, within, list_or_empty(value, "members"))?;
        Ok(Fusion {
            name: copied(alloc, text_or_empty(value, "name"))?,
            members,
        })
    }
}

/// The fusion sets of a document.
#[tactic(auto, using(crate::proofs::BrokenRules::in_groups), unfolding(crate::specs::Document::fusions_rules, crate::specs::Document::each_fusion))]
pub(crate) fn fusions_in(
    alloc: Global,
    version: u64,
    value: &Value,
) -> Result<Vec<Fusion>, DocError>
    ensures gives { Gives (λ fusions. map fusion_view fusions.items) result (map fusion_in (items_at (codes "fusions") (view value.now))) (fusions_rules version (view value.now)) }
{
    let refused = optional_list_refusal(value, "fusions", Pointer::Root, Pointer::Fusions);
    if let Some(refused) = refused {
        return Err(DocError::from(refused));
    }
    let mut names = Names::new(alloc);
    named_of(alloc, version, &mut names, list_or_empty(value, "fusions"))
}
