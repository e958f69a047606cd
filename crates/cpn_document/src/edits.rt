//! The edits of a phase.

ghost use Rattle.std.specs.Prelude.{◌≡◌, Some, map, option_map, IfOk};
ghost use Rattle.serde_json.specs.View.{view};
ghost use Rattle.cpn_document.specs.Names.{texts_of as bytes_of};
ghost use Rattle.cpn_document.specs.Phases.{form_of as form_of_word, form_in as form_told, edit_keys as keys_of_edit, at_edit as part_of_edit, change_in, form_rules, change_rules, edit_in, edit_rules, RawEdit};
ghost use Rattle.cpn_document.specs.Views.{edit_view};
ghost use Rattle.cpn_document.specs.Rules.{first_broken};
ghost use Rattle.cpn_document.specs.Answers.{Finds, Gives, refused_view};

use crate::document::Edit;
use crate::lists::Item;
use crate::parts::{flat_name_refusal, keys_refusal, text_or_empty, text_refusal};
use crate::pointers::{EditPart, PhasePart, Pointer};
use crate::refusals::{DocError, Refused};
use crate::texts::copied;
use serde_json::Value;
use std::alloc::{AllocError, Global};

/// The form of an edit: what its kind lets it have.
#[derive(Clone, Copy)]
pub(crate) enum EditForm {
    /// It changes a guard.
    Guard,
    /// It changes an initial marking.
    Initial,
}

/// The form that a word gives an edit.
#[tactic(auto, unfolding(crate::specs::Phases::form_of))]
fn form_of(word: &str) -> Option<EditForm>
    ensures exact { result ≡ form_of_word word.now }
{
    if word == "guard" {
        Some(EditForm::Guard)
    } else if word == "initial" {
        Some(EditForm::Initial)
    } else {
        None
    }
}

/// The form of an edit, where the word of one stands at its kind.
fn form_in(value: &Value) -> Option<EditForm>
    ensures exact { result ≡ form_told (view value.now) }
{
    form_of(text_or_empty(value, "kind"))
}

/// The keys of an edit of a form; where it has none, those of both.
fn edit_keys(_version: u64, form: Option<EditForm>) -> &'static [&'static str]
    ensures exact { bytes_of result.now ≡ keys_of_edit _version form }
{
    match form {
        Some(EditForm::Guard) => &["kind", "transition", "text"],
        Some(EditForm::Initial) => &["kind", "place", "text"],
        None => &["kind", "transition", "place", "text"],
    }
}

/// A part of an edit, by the numbers of its phase and its own.
fn at_edit(in_phase: usize, number: usize, part: EditPart) -> Pointer
    ensures exact { result ≡ part_of_edit in_phase number part }
{
    Pointer::Phase(in_phase, PhasePart::Edit(number, part))
}

/// The form of the edit of a number, which has one.
#[tactic(auto, using(crate::proofs::BrokenRules::in_order), unfolding(crate::specs::Phases::form_rules))]
fn form_at_key(in_phase: usize, number: usize, value: &Value) -> Result<EditForm, Refused>
    ensures finds { Finds Some result (form_told (view value.now)) (form_rules in_phase number (view value.now)) }
{
    let whole = at_edit(in_phase, number, EditPart::Whole);
    let here = at_edit(in_phase, number, EditPart::Kind);
    if let Some(refused) = text_refusal(value, "kind", whole, here) {
        return Err(refused);
    }
    match form_in(value) {
        Some(form) => Ok(form),
        None => Err(Refused::Shape(here)),
    }
}

/// The refusal where what an edit of a form changes breaks a rule.
#[tactic(auto, using(crate::proofs::BrokenRules::in_groups), unfolding(crate::specs::Phases::change_rules))]
fn change_refusal(in_phase: usize, number: usize, form: EditForm, value: &Value) -> Option<Refused>
    ensures exact { option_map refused_view result ≡ first_broken (change_rules in_phase number form (view value.now)) }
{
    let whole = at_edit(in_phase, number, EditPart::Whole);
    let at_text = at_edit(in_phase, number, EditPart::Text);
    let changed = match form {
        EditForm::Guard => {
            let here = at_edit(in_phase, number, EditPart::Transition);
            flat_name_refusal(value, "transition", whole, here)
        },
        EditForm::Initial => {
            let here = at_edit(in_phase, number, EditPart::Place);
            flat_name_refusal(value, "place", whole, here)
        },
    };
    changed.or(text_refusal(value, "text", whole, at_text))
}

/// The edit of a form in a value that keeps the rules of it.
fn copied_edit(alloc: Global, form: EditForm, value: &Value) -> Result<Edit, AllocError>
    ensures reads { IfOk result (λ edit. edit_view edit ≡ change_in form (view value.now)) }
{
    match form {
        EditForm::Guard => Ok(Edit::Guard {
            transition: copied(alloc, text_or_empty(value, "transition"))?,
            text: copied(alloc, text_or_empty(value, "text"))?,
        }),
        EditForm::Initial => Ok(Edit::Initial {
            place: copied(alloc, text_or_empty(value, "place"))?,
            text: copied(alloc, text_or_empty(value, "text"))?,
        }),
    }
}

/// Where the edits of a phase stand: in a document of a version, by the number of the phase.
#[derive(Clone, Copy)]
pub(crate) struct InPhase {
    /// The version of the document.
    pub(crate) version: u64,
    /// The number of the phase.
    pub(crate) in_phase: usize,
}

impl Item for Edit {
    type Within = InPhase;

    ghost Raw = { RawEdit };

    ghost seen = { edit_view };

    ghost value_in = { edit_in };

    ghost rules = { λ within. edit_rules within.version within.in_phase };

    #[tactic(auto, using(crate::proofs::BrokenRules::in_groups), unfolding(crate::specs::Phases::edit_rules))]
    fn read(
        alloc: Global,
        within: InPhase,
        number: usize,
        value: &Value,
    ) -> Result<Edit, DocError> {
        let whole = at_edit(within.in_phase, number, EditPart::Whole);
        if let Some(refused) = keys_refusal(
            value,
            edit_keys(within.version, form_in(value)),
            whole,
        ) {
            return Err(DocError::from(refused));
        }
        let form = form_at_key(within.in_phase, number, value)?;
        if let Some(refused) = change_refusal(within.in_phase, number, form, value) {
            return Err(DocError::from(refused));
        }
        let edit = copied_edit(alloc, form, value)?;
        Ok(edit)
    }
}
