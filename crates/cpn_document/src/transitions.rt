//! The transitions of a module.

ghost use Rattle.std.specs.Prelude.{◌≡◌, [], ◌∷◌, ◌++◌, map, option_map, codes, OnOk, IfOk};
ghost use Rattle.serde_json.specs.View.{view};
ghost use Rattle.cpn_document.specs.Names.{texts_of as bytes_of};
ghost use Rattle.cpn_document.specs.Parts.{text_at, items_at, names_in};
ghost use Rattle.cpn_document.specs.Document.{at_transition as part_of_transition, RawTransition, transition_in, transition_keys as keys_of_transition, transition_rules, transitions_rules};
ghost use Rattle.cpn_document.specs.Views.{transition_view};
ghost use Rattle.cpn_document.specs.Answers.{Gives};

use crate::document::Transition;
use crate::lists::{Named, named_of};
use crate::modules::InModule;
use crate::names::{Names, add_named};
use crate::parts::{
    list_or_empty, list_refusal, optional_text, optional_text_refusal, text_or_empty,
};
use crate::pointers::{ModulePart, Pointer, TransitionPart};
use crate::refusals::DocError;
use crate::texts::{copied, copied_or_none};
use serde_json::Value;
use std::alloc::{AllocError, Global};

/// A part of a transition, by the numbers of its module and the transition.
fn at_transition(in_module: usize, number: usize, part: TransitionPart) -> Pointer
    ensures exact { result ≡ part_of_transition in_module number part }
{
    Pointer::Module(in_module, ModulePart::Transition(number, part))
}

/// The keys of a transition, in a document of this version.
fn transition_keys(_version: u64) -> [&'static str; 3]
    ensures exact { bytes_of result ≡ keys_of_transition _version }
{
    ["name", "guard", "delay"]
}

/// The transition that stands in a value that keeps the rules of transitions.
fn copied_transition(alloc: Global, value: &Value) -> Result<Transition, AllocError>
    ensures reads { IfOk result (λ transition. transition_view transition ≡ transition_in (view value.now)) }
{
    Ok(Transition {
        name: copied(alloc, text_or_empty(value, "name"))?,
        guard: copied_or_none(alloc, optional_text(value, "guard"))?,
        delay: copied_or_none(alloc, optional_text(value, "delay"))?,
    })
}

impl Named for Transition {
    type Within = InModule;

    ghost Raw = { RawTransition };

    ghost seen = { transition_view };

    ghost value_in = { transition_in };

    ghost rules = { λ within. transition_rules within.version within.in_module };

    fn read<'v>(
        alloc: Global,
        within: InModule,
        number: usize,
        names: &mut Names<'v>,
        value: &'v Value,
    ) -> Result<Transition, DocError> {
        let whole = at_transition(within.in_module, number, TransitionPart::Whole);
        let at_name = at_transition(within.in_module, number, TransitionPart::Name);
        add_named(
            value,
            names,
            &transition_keys(within.version),
            whole,
            at_name,
        )?;
        let at_guard = at_transition(within.in_module, number, TransitionPart::Guard);
        let at_delay = at_transition(within.in_module, number, TransitionPart::Delay);
        let guard = optional_text_refusal(value, "guard", whole, at_guard);
        let delay = optional_text_refusal(value, "delay", whole, at_delay);
        if let Some(refused) = guard.or(delay) {
            return Err(DocError::from(refused));
        }
        let transition = copied_transition(alloc, value)?;
        Ok(transition)
    }
}

/// The transitions of a module. Their names are added to the names, of which there are none yet.
#[tactic(auto, using(crate::proofs::BrokenRules::in_groups), unfolding(crate::specs::Document::transitions_rules, crate::specs::Document::each_transition))]
pub(crate) fn transitions_in<'v>(
    alloc: Global,
    version: u64,
    in_module: usize,
    names: &mut Names<'v>,
    value: &'v Value,
) -> Result<Vec<Transition>, DocError>
    requires none_yet { names.old ≡ [] }
    ensures gives { Gives (λ transitions. map transition_view transitions.items) result (map transition_in (items_at (codes "transitions") (view value.now))) (transitions_rules version in_module (view value.now)) }
    ensures names { OnOk result (names.new ≡ names_in (items_at (codes "transitions") (view value.now))) }
{
    let whole = Pointer::Module(in_module, ModulePart::Whole);
    let here = Pointer::Module(in_module, ModulePart::Transitions);
    if let Some(refused) = list_refusal(value, "transitions", whole, here) {
        return Err(DocError::from(refused));
    }
    let list = list_or_empty(value, "transitions");
    named_of(alloc, InModule { version, in_module }, names, list)
}
