//! The places of a module.

ghost use Rattle.std.specs.Prelude.{◌≡◌, [], ◌∷◌, ◌++◌, map, option_map, codes, OnOk, IfOk};
ghost use Rattle.serde_json.specs.View.{view};
ghost use Rattle.cpn_document.specs.Names.{texts_of as bytes_of};
ghost use Rattle.cpn_document.specs.Parts.{optional_text_at, items_at, word_rules, where_there};
ghost use Rattle.cpn_document.specs.Document.{at_place as part_of_place, port_of as port_of_word, RawPlace, place_in, place_rules, places_rules, place_keys as keys_of_place};
ghost use Rattle.cpn_document.specs.Views.{place_view};
ghost use Rattle.cpn_document.specs.Rules.{first_broken};
ghost use Rattle.cpn_document.specs.Answers.{Gives, refused_view};

use crate::document::{Place, PortType};
use crate::lists::{Named, named_of};
use crate::modules::InModule;
use crate::names::{Names, add_named};
use crate::parts::{
    list_or_empty, list_refusal, optional_text, optional_text_refusal, text_or_empty, text_refusal,
    word_refusal,
};
use crate::pointers::{ModulePart, PlacePart, Pointer};
use crate::refusals::{DocError, Refused};
use crate::texts::{copied, copied_or_none};
use serde_json::Value;
use std::alloc::{AllocError, Global};

/// The port type of a word.
#[tactic(auto, unfolding(crate::specs::Document::port_of))]
fn port_of(word: &str) -> PortType
    ensures exact { result ≡ port_of_word word.now }
{
    if word == "in" {
        PortType::In
    } else if word == "out" {
        PortType::Out
    } else {
        PortType::Io
    }
}

/// What port a place is, or none where it is no port.
fn port_in(value: &Value) -> Option<PortType>
    ensures exact { result ≡ option_map port_of_word (optional_text_at (codes "port") (view value.now)) }
{
    match optional_text(value, "port") {
        Some(word) => Some(port_of(word)),
        None => None,
    }
}

/// The refusal where something else than a port type stands at a key.
#[tactic(auto, unfolding(crate::specs::Parts::where_there, crate::specs::Rules::first_broken))]
fn port_refusal(value: &Value, whole: Pointer, here: Pointer) -> Option<Refused>
    ensures exact { option_map refused_view result
        ≡ first_broken (where_there (codes "port") (view value.now)
        (word_rules (codes "in" ∷ codes "out" ∷ codes "io" ∷ []) (codes "port") whole here (view value.now))) }
{
    if value.get("port").is_none() {
        return None;
    }
    word_refusal(value, &["in", "out", "io"], "port", whole, here)
}

/// A part of a place, by the numbers of its module and the place.
fn at_place(in_module: usize, number: usize, part: PlacePart) -> Pointer
    ensures exact { result ≡ part_of_place in_module number part }
{
    Pointer::Module(in_module, ModulePart::Place(number, part))
}

/// The keys of a place, in a document of this version.
fn place_keys(_version: u64) -> [&'static str; 4]
    ensures exact { bytes_of result ≡ keys_of_place _version }
{
    ["name", "colour", "initial", "port"]
}

/// The place that stands in a value that keeps the rules of places.
fn copied_place(alloc: Global, value: &Value) -> Result<Place, AllocError>
    ensures reads { IfOk result (λ place. place_view place ≡ place_in (view value.now)) }
{
    Ok(Place {
        name: copied(alloc, text_or_empty(value, "name"))?,
        colour: copied(alloc, text_or_empty(value, "colour"))?,
        initial: copied_or_none(alloc, optional_text(value, "initial"))?,
        port: port_in(value),
    })
}

impl Named for Place {
    type Within = InModule;

    ghost Raw = { RawPlace };

    ghost seen = { place_view };

    ghost value_in = { place_in };

    ghost rules = { λ within. place_rules within.version within.in_module };

    fn read<'v>(
        alloc: Global,
        within: InModule,
        number: usize,
        names: &mut Names<'v>,
        value: &'v Value,
    ) -> Result<Place, DocError> {
        let whole = at_place(within.in_module, number, PlacePart::Whole);
        let at_name = at_place(within.in_module, number, PlacePart::Name);
        add_named(value, names, &place_keys(within.version), whole, at_name)?;
        let at_colour = at_place(within.in_module, number, PlacePart::Colour);
        let at_initial = at_place(within.in_module, number, PlacePart::Initial);
        let at_port = at_place(within.in_module, number, PlacePart::Port);
        let refused = text_refusal(value, "colour", whole, at_colour)
            .or(optional_text_refusal(value, "initial", whole, at_initial))
            .or(port_refusal(value, whole, at_port));
        if let Some(refused) = refused {
            return Err(DocError::from(refused));
        }
        let place = copied_place(alloc, value)?;
        Ok(place)
    }
}

/// The places of a module.
#[tactic(auto, using(crate::proofs::BrokenRules::in_groups), unfolding(crate::specs::Document::places_rules, crate::specs::Document::each_place))]
pub(crate) fn places_in(
    alloc: Global,
    version: u64,
    in_module: usize,
    value: &Value,
) -> Result<Vec<Place>, DocError>
    ensures gives { Gives (λ places. map place_view places.items) result (map place_in (items_at (codes "places") (view value.now))) (places_rules version in_module (view value.now)) }
{
    let whole = Pointer::Module(in_module, ModulePart::Whole);
    let here = Pointer::Module(in_module, ModulePart::Places);
    if let Some(refused) = list_refusal(value, "places", whole, here) {
        return Err(DocError::from(refused));
    }
    let mut names = Names::new(alloc);
    let list = list_or_empty(value, "places");
    named_of(alloc, InModule { version, in_module }, &mut names, list)
}
