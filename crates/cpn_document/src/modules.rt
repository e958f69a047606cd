//! The modules of a document.

ghost use Rattle.std.specs.Prelude.{◌≡◌, [], ◌∷◌, ◌++◌, map, codes, OnOk};
ghost use Rattle.serde_json.specs.View.{view};
ghost use Rattle.cpn_document.specs.Names.{texts_of as bytes_of};
ghost use Rattle.cpn_document.specs.Parts.{items_at, names_in};
ghost use Rattle.cpn_document.specs.Document.{transitions_rules, arcs_rules, subs_rules, RawModule, module_in, module_rules, modules_rules, module_keys as keys_of_module};
ghost use Rattle.cpn_document.specs.Views.{place_view, module_view};
ghost use Rattle.cpn_document.specs.Answers.{Gives};

use crate::arcs::arcs_in;
use crate::document::{Module, Place};
use crate::lists::{Named, named_of};
use crate::names::{Names, add_named};
use crate::parts::{limit_refusal, list_or_empty, list_refusal, text_or_empty};
use crate::places::places_in;
use crate::pointers::{ModulePart, Pointer};
use crate::refusals::{DocError, Limit};
use crate::subs::subs_in;
use crate::texts::copied;
use crate::transitions::transitions_in;
use serde_json::Value;
use std::alloc::Global;

/// The most modules of a document.
const MOST_MODULES: usize = 256;

/// Where a list of a module stands: in a document of a version, by the number of the module.
#[derive(Clone, Copy)]
pub(crate) struct InModule {
    /// The version of the document.
    pub(crate) version: u64,
    /// The number of the module.
    pub(crate) in_module: usize,
}

/// The keys of a module, in a document of this version.
fn module_keys(_version: u64) -> [&'static str; 5]
    ensures exact { bytes_of result ≡ keys_of_module _version }
{
    ["name", "places", "transitions", "arcs", "subs"]
}

/// The module of a number, with these places. The names of its transitions and substitution transitions are added to the names, of
/// which there are none yet.
fn module_with<'v>(
    alloc: Global,
    version: u64,
    number: usize,
    places: Vec<Place>,
    names: &mut Names<'v>,
    value: &'v Value,
) -> Result<Module, DocError>
    requires none_yet { names.old ≡ [] }
    ensures gives { Gives module_view result (record (module_in (view value.now)) { places = map place_view places.items })
        (transitions_rules version number (view value.now)
        ++ arcs_rules version number (names_in (items_at (codes "transitions") (view value.now))) (view value.now)
        ++ subs_rules version number (names_in (items_at (codes "transitions") (view value.now))) (view value.now)) }
{
    let transitions = transitions_in(alloc, version, number, names, value)?;
    let arcs = arcs_in(alloc, version, number, names, value)?;
    let subs = subs_in(alloc, version, number, names, value)?;
    Ok(Module {
        name: copied(alloc, text_or_empty(value, "name"))?,
        places,
        transitions,
        arcs,
        subs,
    })
}

impl Named for Module {
    type Within = u64;

    ghost Raw = { RawModule };

    ghost seen = { module_view };

    ghost value_in = { module_in };

    ghost rules = { module_rules };

    fn read<'v>(
        alloc: Global,
        version: u64,
        number: usize,
        names: &mut Names<'v>,
        value: &'v Value,
    ) -> Result<Module, DocError> {
        let whole = Pointer::Module(number, ModulePart::Whole);
        let at_name = Pointer::Module(number, ModulePart::Name);
        add_named(value, names, &module_keys(version), whole, at_name)?;
        let places = places_in(alloc, version, number, value)?;
        let mut inner = Names::new(alloc);
        module_with(alloc, version, number, places, &mut inner, value)
    }
}

/// The modules of a document.
#[tactic(auto, using(crate::proofs::BrokenRules::in_groups, crate::proofs::SeenValues::length_seen), unfolding(crate::specs::Document::modules_rules, crate::specs::Document::each_module))]
pub(crate) fn modules_in(
    alloc: Global,
    version: u64,
    value: &Value,
) -> Result<Vec<Module>, DocError>
    ensures gives { Gives (λ modules. map module_view modules.items) result (map module_in (items_at (codes "modules") (view value.now))) (modules_rules version (view value.now)) }
{
    let list = list_or_empty(value, "modules");
    let modules = list_refusal(value, "modules", Pointer::Root, Pointer::Modules);
    let few = limit_refusal(list.len() <= MOST_MODULES, Limit::Modules);
    if let Some(refused) = modules.or(few) {
        return Err(DocError::from(refused));
    }
    let mut names = Names::new(alloc);
    named_of(alloc, version, &mut names, list)
}
