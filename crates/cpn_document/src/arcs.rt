//! The arcs of a module.

ghost use Rattle.std.specs.Prelude.{◌≡◌, ℕ, List, [], ◌∷◌, map, codes, IfOk, option_map};
ghost use Rattle.serde_json.specs.View.{view};
ghost use Rattle.cpn_document.specs.Names.{texts_of as bytes_of};
ghost use Rattle.cpn_document.specs.Parts.{items_at};
ghost use Rattle.cpn_document.specs.Document.{at_arc as part_of_arc, RawArc, way_of as way_of_word, arc_in, arc_keys as keys_of_arc, arc_rules, arcs_rules};
ghost use Rattle.cpn_document.specs.Views.{arc_view};
ghost use Rattle.cpn_document.specs.Rules.{first_broken};
ghost use Rattle.cpn_document.specs.Answers.{Gives, refused_view};

use crate::arc_counts::have_few_arcs;
use crate::document::{Arc, Way};
use crate::lists::{Item, items_of};
use crate::modules::InModule;
use crate::names::Names;
use crate::parts::{
    keys_refusal, list_or_empty, list_refusal, name_refusal, optional_text, optional_text_refusal,
    text_or_empty, word_refusal,
};
use crate::pointers::{ArcPart, ModulePart, Pointer};
use crate::refusals::{DocError, Limit, Refused};
use crate::texts::{copied, copied_or_none};
use serde_json::Value;
use std::alloc::{AllocError, Global};

/// The way of a word.
#[tactic(auto, unfolding(crate::specs::Document::way_of))]
fn way_of(word: &str) -> Way
    ensures exact { result ≡ way_of_word word.now }
{
    if word == "transition" {
        Way::ToTransition
    } else if word == "place" {
        Way::ToPlace
    } else {
        Way::Both
    }
}

/// A part of an arc, by the numbers of its module and the arc.
fn at_arc(in_module: usize, number: usize, part: ArcPart) -> Pointer
    ensures exact { result ≡ part_of_arc in_module number part }
{
    Pointer::Module(in_module, ModulePart::Arc(number, part))
}

/// The keys of an arc, in a document of this version.
fn arc_keys(_version: u64) -> [&'static str; 4]
    ensures exact { bytes_of result ≡ keys_of_arc _version }
{
    ["place", "transition", "to", "expr"]
}

/// The refusal of a value that breaks a rule of arcs.
fn arc_refusal(version: u64, in_module: usize, number: usize, value: &Value) -> Option<Refused>
    ensures exact { option_map refused_view result ≡ first_broken (arc_rules version in_module number (view value.now)) }
{
    let whole = at_arc(in_module, number, ArcPart::Whole);
    let at_place = at_arc(in_module, number, ArcPart::Place);
    let at_transition = at_arc(in_module, number, ArcPart::Transition);
    let at_way = at_arc(in_module, number, ArcPart::To);
    let at_expr = at_arc(in_module, number, ArcPart::Expr);
    let ways = ["transition", "place", "both"];
    keys_refusal(value, &arc_keys(version), whole)
        .or(name_refusal(value, "place", whole, at_place))
        .or(name_refusal(value, "transition", whole, at_transition))
        .or(word_refusal(value, &ways, "to", whole, at_way))
        .or(optional_text_refusal(value, "expr", whole, at_expr))
}

/// The arc that stands in a value that keeps the rules of arcs.
fn copied_arc(alloc: Global, value: &Value) -> Result<Arc, AllocError>
    ensures reads { IfOk result (λ arc. arc_view arc ≡ arc_in (view value.now)) }
{
    Ok(Arc {
        place: copied(alloc, text_or_empty(value, "place"))?,
        transition: copied(alloc, text_or_empty(value, "transition"))?,
        way: way_of(text_or_empty(value, "to")),
        expr: copied_or_none(alloc, optional_text(value, "expr"))?,
    })
}

impl Item for Arc {
    type Within = InModule;

    ghost Raw = { RawArc };

    ghost seen = { arc_view };

    ghost value_in = { arc_in };

    ghost rules = { λ within. arc_rules within.version within.in_module };

    fn read(
        alloc: Global,
        within: InModule,
        number: usize,
        value: &Value,
    ) -> Result<Arc, DocError> {
        if let Some(refused) = arc_refusal(within.version, within.in_module, number, value) {
            return Err(DocError::from(refused));
        }
        let arc = copied_arc(alloc, value)?;
        Ok(arc)
    }
}

/// The arcs of a module, not too many at any of the transitions of these names.
#[tactic(auto, using(crate::proofs::BrokenRules::in_groups), unfolding(crate::specs::Document::arcs_rules, crate::specs::Document::each_arc))]
pub(crate) fn arcs_in(
    alloc: Global,
    version: u64,
    in_module: usize,
    transitions: &Names,
    value: &Value,
) -> Result<Vec<Arc>, DocError>
    ensures gives { Gives (λ arcs. map arc_view arcs.items) result (map arc_in (items_at (codes "arcs") (view value.now))) (arcs_rules version in_module transitions.now (view value.now)) }
{
    let whole = Pointer::Module(in_module, ModulePart::Whole);
    let here = Pointer::Module(in_module, ModulePart::Arcs);
    if let Some(refused) = list_refusal(value, "arcs", whole, here) {
        return Err(DocError::from(refused));
    }
    let within = InModule { version, in_module };
    let arcs = items_of(alloc, within, list_or_empty(value, "arcs"))?;
    if have_few_arcs(alloc, transitions, arcs.as_slice())? {
        Ok(arcs)
    } else {
        Err(DocError::Limit(Limit::Arcs))
    }
}
