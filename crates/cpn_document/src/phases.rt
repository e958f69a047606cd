//! The phases of a document.

ghost use Rattle.std.specs.Prelude.{◌≡◌, map, codes};
ghost use Rattle.serde_json.specs.View.{view};
ghost use Rattle.cpn_document.specs.Names.{texts_of as bytes_of};
ghost use Rattle.cpn_document.specs.Parts.{items_at};
ghost use Rattle.cpn_document.specs.Phases.{start_of as start_of_word, start_words as words_of_start, RawPhase, phase_in, phase_rules, phases_rules, phase_keys as keys_of_phase};
ghost use Rattle.cpn_document.specs.Views.{phase_view};
ghost use Rattle.cpn_document.specs.Answers.{Gives};

use crate::document::{Phase, Start};
use crate::edits::InPhase;
use crate::lists::{Item, items_of};
use crate::parts::{
    keys_refusal, limit_refusal, list_or_empty, optional_list_refusal, text_or_empty, word_refusal,
};
use crate::pointers::{PhasePart, Pointer};
use crate::refusals::{DocError, Limit};
use serde_json::Value;
use std::alloc::Global;

/// The most phases of a document.
const MOST_PHASES: usize = 64;

/// The start of a word.
#[tactic(auto, unfolding(crate::specs::Phases::start_of))]
fn start_of(word: &str) -> Start
    ensures exact { result ≡ start_of_word word.now }
{
    if word == "here" {
        Start::Here
    } else {
        Start::Initial
    }
}

/// The words that may stand at the start of the phase of a number: the first one starts from the initial marking.
fn start_words(number: usize) -> &'static [&'static str]
    ensures exact { bytes_of result.now ≡ words_of_start number }
{
    if number == 0 {
        &["initial"]
    } else {
        &["initial", "here"]
    }
}

/// The keys of a phase, in a document of this version.
fn phase_keys(_version: u64) -> [&'static str; 2]
    ensures exact { bytes_of result ≡ keys_of_phase _version }
{
    ["start", "edits"]
}

impl Item for Phase {
    type Within = u64;

    ghost Raw = { RawPhase };

    ghost seen = { phase_view };

    ghost value_in = { phase_in };

    ghost rules = { phase_rules };

    fn read(alloc: Global, version: u64, number: usize, value: &Value) -> Result<Phase, DocError> {
        let whole = Pointer::Phase(number, PhasePart::Whole);
        let at_start = Pointer::Phase(number, PhasePart::Start);
        let at_edits = Pointer::Phase(number, PhasePart::Edits);
        let refused = keys_refusal(value, &phase_keys(version), whole)
            .or(word_refusal(value, start_words(number), "start", whole, at_start))
            .or(optional_list_refusal(value, "edits", whole, at_edits));
        if let Some(refused) = refused {
            return Err(DocError::from(refused));
        }
        let within = InPhase {
            version,
            in_phase: number,
        };
        let edits = items_of(alloc, within, list_or_empty(value, "edits"))?;
        Ok(Phase {
            start: start_of(text_or_empty(value, "start")),
            edits,
        })
    }
}

/// The phases of a document, not too many.
#[tactic(auto, using(crate::proofs::BrokenRules::in_groups, crate::proofs::SeenValues::length_seen), unfolding(crate::specs::Phases::phases_rules, crate::specs::Phases::each_phase))]
pub(crate) fn phases_in(alloc: Global, version: u64, value: &Value) -> Result<Vec<Phase>, DocError>
    ensures gives { Gives (λ phases. map phase_view phases.items) result (map phase_in (items_at (codes "phases") (view value.now))) (phases_rules version (view value.now)) }
{
    let list = list_or_empty(value, "phases");
    let phases = optional_list_refusal(value, "phases", Pointer::Root, Pointer::Phases);
    let few = limit_refusal(list.len() <= MOST_PHASES, Limit::Phases);
    if let Some(refused) = phases.or(few) {
        return Err(DocError::from(refused));
    }
    items_of(alloc, version, list)
}
