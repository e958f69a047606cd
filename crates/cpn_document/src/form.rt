//! The document that a JSON value is.

ghost use Rattle.std.specs.Prelude.{◌≡◌, true, ℕ, List, map, string_bytes, codes, option_map};
ghost use Rattle.serde_json.specs.View.{view};
ghost use Rattle.cpn_document.specs.Names.{texts_of as bytes_of};
ghost use Rattle.cpn_document.specs.Parts.{text_in, text_in_rules, items_at};
ghost use Rattle.cpn_document.specs.Document.{version_in as version_stated, version_rules, declarations_rules, document_in, document_keys as keys_of_document, document_rules};
ghost use Rattle.cpn_document.specs.Views.{document_view};
ghost use Rattle.cpn_document.specs.Rules.{first_broken};
ghost use Rattle.cpn_document.specs.Answers.{Gives, refused_view};
ghost use Rattle.cpn_document.specs.declared.pointers.Pointer.TheVariants as at;

use crate::document::Document;
use crate::fusions::fusions_in;
use crate::lists::{Item, items_of};
use crate::modules::modules_in;
use crate::monitors::monitors_in;
use crate::parts::{
    keys_refusal, limit_refusal, list_or_empty, list_refusal, name_refusal, text_of, text_or_empty,
};
use crate::phases::phases_in;
use crate::pointers::Pointer;
use crate::refusals::{DocError, Limit, Refused};
use crate::texts::copied;
use serde_json::Value;
use std::alloc::Global;

/// The version of documents that is read.
const VERSION: u64 = 1;

/// The most declarations of a document.
const MOST_DECLARATIONS: usize = 1024;

/// The keys of a document of this version.
fn document_keys(_version: u64) -> [&'static str; 7]
    ensures exact { bytes_of result ≡ keys_of_document _version }
{
    [
        "version",
        "declarations",
        "top",
        "modules",
        "fusions",
        "monitors",
        "phases",
    ]
}

/// The version that a document states; 0 where that is no whole number from 0 on.
#[tactic(auto, unfolding(crate::specs::Parts::number_at))]
fn version_in(value: &Value) -> u64
    ensures exact { result ≡ version_stated (view value.now) }
{
    match value.get("version") {
        Some(version) => version.as_u64().unwrap_or(0),
        None => 0,
    }
}

/// The refusal where no version is there, or another than the one that is read.
#[tactic(auto, unfolding(crate::specs::Document::version_rules, crate::specs::Rules::first_broken))]
fn version_refusal(value: &Value, stated: u64) -> Option<Refused>
    ensures exact { option_map refused_view result ≡ first_broken (version_rules stated (view value.now)) }
{
    match value.get("version") {
        Some(version) => {
            if !version.is_u64() && !version.is_i64() {
                return Some(Refused::BadNumber(Pointer::Version));
            }
            if stated == VERSION {
                None
            } else {
                Some(Refused::Version)
            }
        },
        None => Some(Refused::Shape(Pointer::Root)),
    }
}

impl Item for String {
    type Within = ();

    ghost Raw = { List ℕ };

    ghost seen = { string_bytes };

    ghost value_in = { text_in };

    ghost rules = { λ _ i. text_in_rules (at.Declaration i) };

    fn read(alloc: Global, _within: (), number: usize, value: &Value) -> Result<String, DocError> {
        let text = text_of(value, Pointer::Declaration(number))?;
        let text = copied(alloc, text)?;
        Ok(text)
    }
}

/// The declarations of a document.
fn declarations_in(alloc: Global, value: &Value) -> Result<Vec<String>, DocError>
    ensures gives { Gives (λ texts. map string_bytes texts.items) result (map text_in (items_at (codes "declarations") (view value.now))) (declarations_rules (view value.now)) }
{
    let list = list_or_empty(value, "declarations");
    let texts = list_refusal(value, "declarations", Pointer::Root, Pointer::Declarations);
    let few = limit_refusal(list.len() <= MOST_DECLARATIONS, Limit::Declarations);
    if let Some(refused) = texts.or(few) {
        return Err(DocError::from(refused));
    }
    items_of(alloc, (), list)
}

/// The document that a JSON value is, where it keeps the rules of documents; else the refusal of the first that it breaks.
pub(crate) fn document_of(alloc: Global, value: &Value) -> Result<Document, DocError>
    ensures gives { Gives document_view result (document_in (view value.now)) (document_rules (version_stated (view value.now)) (view value.now)) }
{
    let version = version_in(value);
    let keys = keys_refusal(value, &document_keys(version), Pointer::Root);
    let stated = version_refusal(value, version);
    if let Some(refused) = keys.or(stated) {
        return Err(DocError::from(refused));
    }
    let declarations = declarations_in(alloc, value)?;
    if let Some(refused) = name_refusal(value, "top", Pointer::Root, Pointer::Top) {
        return Err(DocError::from(refused));
    }
    let modules = modules_in(alloc, version, value)?;
    let fusions = fusions_in(alloc, version, value)?;
    let monitors = monitors_in(alloc, version, value)?;
    let phases = phases_in(alloc, version, value)?;
    Ok(Document {
        version,
        declarations,
        top: copied(alloc, text_or_empty(value, "top"))?,
        modules,
        fusions,
        monitors,
        phases,
    })
}
