//! The parts of a JSON value, and the rules of what stands at a key.

ghost use Rattle.std.specs.Prelude.{◌≡◌, true, map, Some, None, option_map, if◌then◌else◌};
ghost use Rattle.std.specs.Option.{unwrap_or};
ghost use Rattle.serde_json.specs.View.{view, members_view};
ghost use Rattle.cpn_document.specs.Names.{texts_of as bytes_of};
ghost use Rattle.cpn_document.specs.Parts.{is_one_of as is_among, are_among, text_in, text_at, optional_text_at, items_at, number_at, object_rules, text_in_rules, text_rules, name_rules, flat_name_rules, number_rules, word_rules, list_rules, where_there, limit_rules};
ghost use Rattle.cpn_document.specs.Rules.{first_broken};
ghost use Rattle.cpn_document.specs.Answers.{Finds, refused_view};

use crate::pointers::Pointer;
use crate::refusals::{Limit, Refused};
use crate::texts::{is_flat_name, is_name};
use serde_json::{Map, Value};

/// Whether a text is one of the texts.
fn is_one_of(text: &str, texts: &[&str]) -> bool
    ensures exact { result ≡ is_among text.now (bytes_of texts.now) }
{
    texts.contains(&text)
}

/// Whether the keys of an object are all among these.
#[tactic(auto, using(crate::proofs::SeenValues::keys_seen))]
fn has_only_keys(object: &Map<String, Value>, keys: &[&str]) -> bool
    ensures exact { result ≡ are_among (bytes_of keys.now) (members_view object.now.entries) }
{
    for key in object.keys() {
        if !is_one_of(key.as_str(), keys) {
            return false;
        }
    }
    true
}

/// What a refusal is, unless a rule is kept.
fn refused_unless(kept: bool, refused: Refused) -> Option<Refused>
    ensures exact { result ≡ (if kept then None else Some refused) }
{
    if kept { None } else { Some(refused) }
}

/// The refusal of a value that is no object with no other keys than these.
#[tactic(auto, unfolding(crate::specs::Parts::object_rules, crate::specs::Rules::first_broken))]
pub(crate) fn keys_refusal(value: &Value, keys: &[&str], here: Pointer) -> Option<Refused>
    ensures exact { option_map refused_view result ≡ first_broken (object_rules (bytes_of keys.now) here (view value.now)) }
{
    match value.as_object() {
        Some(object) => refused_unless(has_only_keys(object, keys), Refused::Shape(here)),
        None => Some(Refused::Shape(here)),
    }
}

/// The refusal where there are too many of something.
#[tactic(auto, unfolding(crate::specs::Parts::limit_rules, crate::specs::Rules::first_broken))]
pub(crate) fn limit_refusal(few: bool, kind: Limit) -> Option<Refused>
    ensures exact { option_map refused_view result ≡ first_broken (limit_rules few kind) }
{
    refused_unless(few, Refused::Limit(kind))
}

/// The text that the value is.
#[tactic(auto, unfolding(crate::specs::Parts::text_in_rules, crate::specs::Parts::text_in, crate::specs::Rules::first_broken))]
pub(crate) fn text_of(value: &Value, here: Pointer) -> Result<&str, Refused>
    ensures finds { Finds (λ text. text.now) result (text_in (view value.now)) (text_in_rules here (view value.now)) }
{
    match value.as_str() {
        Some(text) => Ok(text),
        None => Err(Refused::Shape(here)),
    }
}

/// The refusal where no text stands at a key of the object `whole`.
#[tactic(auto, unfolding(crate::specs::Parts::text_rules, crate::specs::Rules::first_broken))]
pub(crate) fn text_refusal(
    value: &Value,
    key: &str,
    whole: Pointer,
    here: Pointer,
) -> Option<Refused>
    ensures exact { option_map refused_view result ≡ first_broken (text_rules key.now whole here (view value.now)) }
{
    match value.get(key) {
        Some(found) => refused_unless(found.as_str().is_some(), Refused::Shape(here)),
        None => Some(Refused::Shape(whole)),
    }
}

/// The text at a key, or the empty one where none stands there.
#[tactic(auto, unfolding(crate::specs::Parts::text_at))]
pub(crate) fn text_or_empty<'v>(value: &'v Value, key: &str) -> &'v str
    ensures exact { result.now ≡ text_at key.now (view value.now) }
{
    match value.get(key) {
        Some(found) => found.as_str().unwrap_or(""),
        None => "",
    }
}

/// The text at a key, or none where the key is missing; the empty one where no text stands there.
#[tactic(auto, unfolding(crate::specs::Parts::optional_text_at, crate::specs::Parts::text_in))]
pub(crate) fn optional_text<'v>(value: &'v Value, key: &str) -> Option<&'v str>
    ensures exact { option_map (λ text. text.now) result ≡ optional_text_at key.now (view value.now) }
{
    match value.get(key) {
        Some(found) => Some(found.as_str().unwrap_or("")),
        None => None,
    }
}

/// The refusal where something else than a text stands at a key.
#[tactic(auto, unfolding(crate::specs::Parts::where_there, crate::specs::Rules::first_broken))]
pub(crate) fn optional_text_refusal(
    value: &Value,
    key: &str,
    whole: Pointer,
    here: Pointer,
) -> Option<Refused>
    ensures exact { option_map refused_view result
        ≡ first_broken (where_there key.now (view value.now) (text_rules key.now whole here (view value.now))) }
{
    if value.get(key).is_none() {
        return None;
    }
    text_refusal(value, key, whole, here)
}

/// The refusal where no name stands at a key.
pub(crate) fn name_refusal(
    value: &Value,
    key: &str,
    whole: Pointer,
    here: Pointer,
) -> Option<Refused>
    ensures exact { option_map refused_view result ≡ first_broken (name_rules key.now whole here (view value.now)) }
{
    let named = is_name(text_or_empty(value, key));
    text_refusal(value, key, whole, here).or(refused_unless(named, Refused::BadName(here)))
}

/// The refusal where no flattened name stands at a key.
pub(crate) fn flat_name_refusal(
    value: &Value,
    key: &str,
    whole: Pointer,
    here: Pointer,
) -> Option<Refused>
    ensures exact { option_map refused_view result ≡ first_broken (flat_name_rules key.now whole here (view value.now)) }
{
    let named = is_flat_name(text_or_empty(value, key));
    text_refusal(value, key, whole, here).or(refused_unless(named, Refused::BadName(here)))
}

/// The whole number at a key, or 0 where none stands there.
#[tactic(auto, unfolding(crate::specs::Parts::number_at))]
pub(crate) fn number_or_zero(value: &Value, key: &str) -> u64
    ensures exact { result ≡ unwrap_or (number_at key.now (view value.now)) 0 }
{
    match value.get(key) {
        Some(found) => found.as_u64().unwrap_or(0),
        None => 0,
    }
}

/// The refusal where no whole number from the first to the last stands at a key.
#[tactic(auto, unfolding(crate::specs::Parts::number_rules, crate::specs::Parts::number_at, crate::specs::Rules::first_broken))]
pub(crate) fn number_refusal(
    value: &Value,
    first: u64,
    last: u64,
    key: &str,
    whole: Pointer,
    here: Pointer,
) -> Option<Refused>
    ensures exact { option_map refused_view result ≡ first_broken (number_rules first last key.now whole here (view value.now)) }
{
    match value.get(key) {
        Some(found) => match found.as_u64() {
            Some(n) => refused_unless(first <= n && n <= last, Refused::BadNumber(here)),
            None => Some(Refused::BadNumber(here)),
        },
        None => Some(Refused::Shape(whole)),
    }
}

/// The refusal where none of these words stands at a key.
pub(crate) fn word_refusal(
    value: &Value,
    words: &[&str],
    key: &str,
    whole: Pointer,
    here: Pointer,
) -> Option<Refused>
    ensures exact { option_map refused_view result ≡ first_broken (word_rules (bytes_of words.now) key.now whole here (view value.now)) }
{
    let among = is_one_of(text_or_empty(value, key), words);
    text_refusal(value, key, whole, here).or(refused_unless(among, Refused::Shape(here)))
}

/// The items of the list at a key; none where no list stands there.
#[tactic(auto, using(crate::proofs::SeenValues::items_of_view), unfolding(crate::specs::Parts::items_at))]
pub(crate) fn list_or_empty<'v>(value: &'v Value, key: &str) -> &'v [Value]
    ensures exact { map view result.now ≡ items_at key.now (view value.now) }
{
    match value.get(key) {
        Some(found) => match found.as_array() {
            Some(list) => list.as_slice(),
            None => &[],
        },
        None => &[],
    }
}

/// The refusal where no list stands at a key.
#[tactic(auto, unfolding(crate::specs::Parts::list_rules, crate::specs::Rules::first_broken))]
pub(crate) fn list_refusal(
    value: &Value,
    key: &str,
    whole: Pointer,
    here: Pointer,
) -> Option<Refused>
    ensures exact { option_map refused_view result ≡ first_broken (list_rules key.now whole here (view value.now)) }
{
    match value.get(key) {
        Some(found) => refused_unless(found.as_array().is_some(), Refused::Shape(here)),
        None => Some(Refused::Shape(whole)),
    }
}

/// The refusal where something else than a list stands at a key.
#[tactic(auto, unfolding(crate::specs::Parts::where_there, crate::specs::Rules::first_broken))]
pub(crate) fn optional_list_refusal(
    value: &Value,
    key: &str,
    whole: Pointer,
    here: Pointer,
) -> Option<Refused>
    ensures exact { option_map refused_view result
        ≡ first_broken (where_there key.now (view value.now) (list_rules key.now whole here (view value.now))) }
{
    if value.get(key).is_none() {
        return None;
    }
    list_refusal(value, key, whole, here)
}
