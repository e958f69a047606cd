//! The names of a list of objects, none of them there twice.

ghost use Rattle.std.specs.Prelude.{◌≡◌, ◌<◌, [], ◌∷◌, ◌++◌, length, slice_index_or, true, not, if◌then◌else◌, codes, IfOk, OnOk, OnErr};
ghost use Rattle.serde_json.specs.View.{view};
ghost use Rattle.cpn_document.specs.Names.{texts_of as bytes_of};
ghost use Rattle.cpn_document.specs.Parts.{is_one_of, text_at, object_rules, new_name_rules};
ghost use Rattle.cpn_document.specs.Answers.{Gives};

use crate::parts::{keys_refusal, name_refusal, text_or_empty};
use crate::pointers::Pointer;
use crate::refusals::DocError;
use serde_json::Value;
use std::alloc::{AllocError, Global};
use std::collections::BTreeSet;
use std::marker::Model;

/// Names in order, none of them twice.
#[derive(Drop)]
pub(crate) struct Names<'n> {
    names: Vec<&'n str>,
    set: BTreeSet<&'n str>,
}

impl<'n> Model for Names<'n> {
    ghost use Rattle.std.specs.Prelude.{ℕ, List};
    ghost use Rattle.cpn_document.specs.Names.{texts_of as bytes_of, HasNames};

    ghost Value = { List (List ℕ) };

    ghost view = { λ names. bytes_of names.names.items };

    ghost invariant = { λ names. HasNames (bytes_of names.names.items) names.set };
}

impl<'n> Names<'n> {
    /// No names.
    pub(crate) fn new(alloc: Global) -> Names<'n>
        ensures empty { result ≡ [] }
    {
        Names {
            names: Vec::new(alloc),
            set: BTreeSet::new(alloc),
        }
    }

    /// How many names there are.
    pub(crate) fn len(&self) -> usize
        ensures number { result ≡ length self.now }
    {
        self.names.len()
    }

    /// The name of a number.
    pub(crate) fn name(&self, number: usize) -> &'n str
        requires in_range { number < length self.now }
        ensures name { result.now ≡ slice_index_or self.now number [] }
    {
        self.names[number]
    }

    /// Adds a name at the end, unless it is there already. Answers whether it was added.
    fn add(&mut self, name: &'n str) -> Result<bool, AllocError>
        ensures added { IfOk result (λ added. added ≡ not (is_one_of name.now self.old)) }
        ensures names { IfOk result (λ added. self.new ≡ (if added then self.old ++ name.now ∷ [] else self.old)) }
        ensures unchanged { OnErr result (self.new ≡ self.old) }
    {
        self.names.push(name)?;
        match self.set.insert(name) {
            Ok(true) => Ok(true),
            Ok(false) => {
                self.names.pop();
                Ok(false)
            }
            Err(_) => {
                self.names.pop();
                Err(AllocError)
            }
        }
    }
}

/// That a value is an object with no other keys than these, and with a name that none of the names is yet. It is added to them.
#[tactic(auto, using(crate::proofs::BrokenRules::in_order, crate::proofs::BrokenRules::seen_or), unfolding(crate::specs::Parts::new_name_rules))]
pub(crate) fn add_named<'v>(
    value: &'v Value,
    names: &mut Names<'v>,
    keys: &[&str],
    whole: Pointer,
    here: Pointer,
) -> Result<(), DocError>
    ensures gives { Gives (λ _. true) result true
        (object_rules (bytes_of keys.now) whole (view value.now) ++ new_name_rules (codes "name") whole here names.old (view value.now)) }
    ensures names { OnOk result (names.new ≡ names.old ++ text_at (codes "name") (view value.now) ∷ []) }
{
    let refused = keys_refusal(value, keys, whole).or(name_refusal(value, "name", whole, here));
    if let Some(refused) = refused {
        return Err(DocError::from(refused));
    }
    if names.add(text_or_empty(value, "name"))? {
        Ok(())
    } else {
        Err(DocError::BadName(here))
    }
}
