//! The monitors of a document.

ghost use Rattle.std.specs.Prelude.{◌≡◌, Some, [], ◌∷◌, ◌++◌, map, codes, OnOk, option_map, IfOk};
ghost use Rattle.serde_json.specs.View.{view};
ghost use Rattle.cpn_document.specs.Names.{texts_of as bytes_of};
ghost use Rattle.cpn_document.specs.Parts.{items_at, number_rules};
ghost use Rattle.cpn_document.specs.Monitors.{form_of as form_of_word, form_in as form_told, monitor_keys as keys_of_monitor, bound_of as bound_of_word, kind_in, form_rules, transition_name_rules, place_name_rules, kind_rules, RawMonitor, monitor_in, monitor_rules, monitors_rules};
ghost use Rattle.cpn_document.specs.Views.{kind_view, monitor_view};
ghost use Rattle.cpn_document.specs.Rules.{first_broken};
ghost use Rattle.cpn_document.specs.Answers.{Finds, Gives, refused_view};
ghost use Rattle.cpn_document.specs.declared.pointers.Pointer.TheVariants as at;
ghost use Rattle.cpn_document.specs.declared.pointers.MonitorPart.TheVariants as of_monitor;

use crate::document::{Bound, Monitor, MonitorKind};
use crate::lists::{Named, named_of};
use crate::names::{Names, add_named};
use crate::parts::{
    flat_name_refusal, list_or_empty, number_or_zero, number_refusal, optional_list_refusal,
    text_or_empty, text_refusal, word_refusal,
};
use crate::pointers::{MonitorPart, Pointer};
use crate::refusals::{DocError, Refused};
use crate::texts::copied;
use serde_json::Value;
use std::alloc::{AllocError, Global};

/// The most occurrences after which a monitor may stop a run.
const MOST_OCCURRENCES: u64 = 1_000_000;

/// The most tokens at which a monitor may stop a run.
const MOST_TOKENS: u64 = 1 << 62;

/// The form of a monitor: what its kind lets it have.
#[derive(Clone, Copy)]
pub(crate) enum MonitorForm {
    /// It counts the occurrences of a transition.
    Count,
    /// It looks at the number of tokens on a place.
    Size,
    /// It looks at the value of an inscription.
    Value,
    /// It stops at an occurrence.
    StopCount,
    /// It stops at a number of tokens.
    StopSize,
}

/// The form that a word gives a monitor.
#[tactic(auto, unfolding(crate::specs::Monitors::form_of))]
fn form_of(word: &str) -> Option<MonitorForm>
    ensures exact { result ≡ form_of_word word.now }
{
    if word == "count" {
        Some(MonitorForm::Count)
    } else if word == "size" {
        Some(MonitorForm::Size)
    } else if word == "value" {
        Some(MonitorForm::Value)
    } else if word == "stop_count" {
        Some(MonitorForm::StopCount)
    } else if word == "stop_size" {
        Some(MonitorForm::StopSize)
    } else {
        None
    }
}

/// The form of a monitor, where the word of one stands at its kind.
#[tactic(auto, unfolding(crate::specs::Parts::text_at))]
fn form_in(value: &Value) -> Option<MonitorForm>
    ensures exact { result ≡ form_told (view value.now) }
{
    form_of(text_or_empty(value, "kind"))
}

/// The keys of a monitor of a form; where it has none, those of all forms.
fn monitor_keys(_version: u64, form: Option<MonitorForm>) -> &'static [&'static str]
    ensures exact { bytes_of result.now ≡ keys_of_monitor _version form }
{
    match form {
        Some(MonitorForm::Count) => &["name", "kind", "transition"],
        Some(MonitorForm::Size) => &["name", "kind", "place"],
        Some(MonitorForm::Value) => &["name", "kind", "transition", "expr"],
        Some(MonitorForm::StopCount) => &["name", "kind", "transition", "n"],
        Some(MonitorForm::StopSize) => &["name", "kind", "place", "op", "n"],
        None => &["name", "kind", "transition", "place", "expr", "op", "n"],
    }
}

/// The bound of a word.
#[tactic(auto, unfolding(crate::specs::Monitors::bound_of))]
fn bound_of(word: &str) -> Bound
    ensures exact { result ≡ bound_of_word word.now }
{
    if word == "at_least" {
        Bound::AtLeast
    } else {
        Bound::AtMost
    }
}

/// The form of the monitor of a number, which has one.
#[tactic(auto, using(crate::proofs::BrokenRules::in_order), unfolding(crate::specs::Monitors::form_rules))]
fn form_at_key(number: usize, value: &Value) -> Result<MonitorForm, Refused>
    ensures finds { Finds Some result (form_told (view value.now)) (form_rules number (view value.now)) }
{
    let whole = Pointer::Monitor(number, MonitorPart::Whole);
    let here = Pointer::Monitor(number, MonitorPart::Kind);
    if let Some(refused) = text_refusal(value, "kind", whole, here) {
        return Err(refused);
    }
    match form_in(value) {
        Some(form) => Ok(form),
        None => Err(Refused::Shape(here)),
    }
}

/// The refusal where no flattened name stands at the transition of a monitor.
#[tactic(auto, unfolding(crate::specs::Monitors::transition_name_rules))]
fn transition_refusal(number: usize, value: &Value) -> Option<Refused>
    ensures exact { option_map refused_view result ≡ first_broken (transition_name_rules number (view value.now)) }
{
    let whole = Pointer::Monitor(number, MonitorPart::Whole);
    let here = Pointer::Monitor(number, MonitorPart::Transition);
    flat_name_refusal(value, "transition", whole, here)
}

/// The refusal where no flattened name stands at the place of a monitor.
#[tactic(auto, unfolding(crate::specs::Monitors::place_name_rules))]
fn place_refusal(number: usize, value: &Value) -> Option<Refused>
    ensures exact { option_map refused_view result ≡ first_broken (place_name_rules number (view value.now)) }
{
    let whole = Pointer::Monitor(number, MonitorPart::Whole);
    let here = Pointer::Monitor(number, MonitorPart::Place);
    flat_name_refusal(value, "place", whole, here)
}

/// The refusal where no whole number from the first to the last stands at the `n` of a monitor.
fn n_refusal(number: usize, first: u64, last: u64, value: &Value) -> Option<Refused>
    ensures exact { option_map refused_view result
        ≡ first_broken (number_rules first last (codes "n") (at.Monitor number of_monitor.Whole) (at.Monitor number of_monitor.N) (view value.now)) }
{
    let whole = Pointer::Monitor(number, MonitorPart::Whole);
    let here = Pointer::Monitor(number, MonitorPart::N);
    number_refusal(value, first, last, "n", whole, here)
}

/// The refusal where what a monitor of a form measures or stops at breaks a rule.
#[tactic(auto, using(crate::proofs::BrokenRules::in_groups), unfolding(crate::specs::Monitors::kind_rules))]
fn kind_refusal(number: usize, form: MonitorForm, value: &Value) -> Option<Refused>
    ensures exact { option_map refused_view result ≡ first_broken (kind_rules number form (view value.now)) }
{
    let whole = Pointer::Monitor(number, MonitorPart::Whole);
    match form {
        MonitorForm::Count => transition_refusal(number, value),
        MonitorForm::Size => place_refusal(number, value),
        MonitorForm::Value => {
            let at_expr = Pointer::Monitor(number, MonitorPart::Expr);
            transition_refusal(number, value).or(text_refusal(value, "expr", whole, at_expr))
        },
        MonitorForm::StopCount => {
            transition_refusal(number, value).or(n_refusal(number, 1, MOST_OCCURRENCES, value))
        },
        MonitorForm::StopSize => {
            let at_op = Pointer::Monitor(number, MonitorPart::Op);
            place_refusal(number, value)
                .or(word_refusal(value, &["at_least", "at_most"], "op", whole, at_op))
                .or(n_refusal(number, 0, MOST_TOKENS, value))
        },
    }
}

/// What a monitor of a form measures or stops at, in a value that keeps the rules of it.
fn copied_kind(alloc: Global, form: MonitorForm, value: &Value) -> Result<MonitorKind, AllocError>
    ensures reads { IfOk result (λ kind. kind_view kind ≡ kind_in form (view value.now)) }
{
    match form {
        MonitorForm::Count => Ok(MonitorKind::Count {
            transition: copied(alloc, text_or_empty(value, "transition"))?,
        }),
        MonitorForm::Size => Ok(MonitorKind::Size {
            place: copied(alloc, text_or_empty(value, "place"))?,
        }),
        MonitorForm::Value => Ok(MonitorKind::Value {
            transition: copied(alloc, text_or_empty(value, "transition"))?,
            expr: copied(alloc, text_or_empty(value, "expr"))?,
        }),
        MonitorForm::StopCount => Ok(MonitorKind::StopCount {
            transition: copied(alloc, text_or_empty(value, "transition"))?,
            n: number_or_zero(value, "n"),
        }),
        MonitorForm::StopSize => Ok(MonitorKind::StopSize {
            place: copied(alloc, text_or_empty(value, "place"))?,
            op: bound_of(text_or_empty(value, "op")),
            n: number_or_zero(value, "n"),
        }),
    }
}

impl Named for Monitor {
    type Within = u64;

    ghost Raw = { RawMonitor };

    ghost seen = { monitor_view };

    ghost value_in = { monitor_in };

    ghost rules = { monitor_rules };

    fn read<'v>(
        alloc: Global,
        version: u64,
        number: usize,
        names: &mut Names<'v>,
        value: &'v Value,
    ) -> Result<Monitor, DocError> {
        let whole = Pointer::Monitor(number, MonitorPart::Whole);
        let at_name = Pointer::Monitor(number, MonitorPart::Name);
        let keys = monitor_keys(version, form_in(value));
        add_named(value, names, keys, whole, at_name)?;
        let form = form_at_key(number, value)?;
        if let Some(refused) = kind_refusal(number, form, value) {
            return Err(DocError::from(refused));
        }
        Ok(Monitor {
            name: copied(alloc, text_or_empty(value, "name"))?,
            kind: copied_kind(alloc, form, value)?,
        })
    }
}

/// The monitors of a document.
#[tactic(auto, using(crate::proofs::BrokenRules::in_groups), unfolding(crate::specs::Monitors::monitors_rules, crate::specs::Monitors::each_monitor))]
pub(crate) fn monitors_in(
    alloc: Global,
    version: u64,
    value: &Value,
) -> Result<Vec<Monitor>, DocError>
    ensures gives { Gives (λ monitors. map monitor_view monitors.items) result (map monitor_in (items_at (codes "monitors") (view value.now))) (monitors_rules version (view value.now)) }
{
    let refused = optional_list_refusal(value, "monitors", Pointer::Root, Pointer::Monitors);
    if let Some(refused) = refused {
        return Err(DocError::from(refused));
    }
    let mut names = Names::new(alloc);
    named_of(alloc, version, &mut names, list_or_empty(value, "monitors"))
}
