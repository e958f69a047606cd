//! Partial bindings.

ghost use Rattle.std.specs.Prelude.{◌≡◌, ◌<◌, length, map, if◌then◌else◌, None, IfOk, IfSome};
ghost use Rattle.cpn_definitions.specs.Value.{list};
ghost use Rattle.cpn_core.specs.Views.{value_view, values_view};
ghost use Rattle.cpn_match.specs.Pairs.{option_view, pair_view, pairs_view};
ghost use Rattle.cpn_stages.specs.Partial.{IsKept, Extends, unbound, bound_in};
ghost use Rattle.cpn_stages.specs.Fitting.{agreed, held};
ghost use Rattle.cpn_match.specs.Indices.{index_among, known_in, forgotten};
ghost use Rattle.cpn_match.specs.Answers.{Becomes, BecomesIf};

use cpn_core::{Binding, Memory, Value};
use smallvec::SmallVec;
use std::alloc::Global;
use std::marker::Model;

/// A variable by its number, and the value that it is bound to, if it is.
#[derive(Drop)]
pub struct PartialPair {
    /// The number of the variable.
    pub variable: u32,
    /// Its value; `None` where it is not known yet.
    pub value: Option<Value>,
}

/// A partial binding: each variable of a transition, in declaration order, with its value where that is known.
///
/// A clause sees it as the list of the pairs of number and optional value. Source: own choice.
#[derive(Drop)]
pub struct Partial {
    pairs: Vec<PartialPair>,
}

impl Model for Partial {
    ghost use Rattle.cpn_stages.specs.Partial.{PlainPartial};
    ghost use Rattle.cpn_match.specs.PartialCode.{partial_code};

    ghost Value = { PlainPartial };

    ghost coded = { partial_code };

    ghost use Rattle.cpn_match.specs.Pairs.{pairs_view};

    ghost view = { λ b. pairs_view b.pairs.items };
}

/// Whether nothing stands in the slot, or the value; where nothing does, a copy of the value is put into it.
fn agree(slot: &mut Option<Value>, value: &Value) -> Result<bool, Memory>
    ensures agreed { Becomes result (option_view slot.new) (agreed (option_view slot.old) (value_view value.now)) }
    ensures kept { IsKept (option_view slot.old) (option_view slot.new) }
{
    if let Some(known) = slot {
        return Ok(*known == *value);
    }
    *slot = Some(value.copy()?);
    Ok(true)
}

/// The same with a value of its own, which it takes.
fn agree_with(slot: &mut Option<Value>, value: Value) -> bool
    ensures agreed { BecomesIf result (option_view slot.new) (agreed (option_view slot.old) (value_view value)) }
    ensures kept { IsKept (option_view slot.old) (option_view slot.new) }
{
    if let Some(known) = slot {
        return *known == value;
    }
    *slot = Some(value);
    true
}

/// Takes the value from the slot, if it is not known.
fn keep_if(slot: &mut Option<Value>, known: bool)
    ensures kept { option_view slot.new ≡ (if known then option_view slot.old else None) }
{
    if !known {
        *slot = None;
    }
}

/// The index of the variable among the pairs, from 0.
fn index_of(pairs: &[PartialPair], variable: u32) -> Option<usize>
    ensures index { result ≡ index_among variable (pairs_view pairs.now) }
    ensures within { IfSome result (λ index. index < length pairs.now) }
{
    for index in 0..pairs.len() {
        if variable == pairs[index].variable {
            return Some(index);
        }
    }
    None
}

impl Partial {
    ghost use Rattle.cpn_match.specs.Pairs.{pairs_view};

    /// The partial binding of the variables, none of which has a value.
    pub fn new(alloc: Global, variables: &[u32]) -> Result<Partial, Memory>
        ensures unbound { IfOk result (λ partial. partial ≡ unbound variables.now) }
    {
        let mut pairs = Vec::with_capacity(alloc, variables.len())?;
        for variable in variables {
            pairs.push(PartialPair {
                variable: *variable,
                value: None,
            })?;
        }
        Ok(Partial { pairs })
    }

    /// The allocator that it takes its memory from.
    pub fn allocator(&self) -> Global {
        *self.pairs.allocator()
    }

    /// Of which of the variables the value is known, in declaration order.
    pub fn known(&self) -> Result<SmallVec<bool, 32>, Memory>
        ensures known { IfOk result (λ known. known.items ≡ known_in self.now) }
    {
        let mut known = SmallVec::new(*self.pairs.allocator());
        for pair in &self.pairs {
            known.push(pair.value.is_some())?;
        }
        Ok(known)
    }

    /// Takes their values from the variables that are not among the known ones.
    #[tactic(auto, using(crate::proofs::ForgottenValues::one_more, crate::proofs::ForgottenValues::all_gone_through))]
    pub fn forget(&mut self, known: &[bool])
        ensures forgotten { self.new ≡ forgotten known.now self.old }
    {
        for index in 0..self.pairs.len().min(known.len()) {
            let pair = &mut self.pairs[index];
            keep_if(&mut pair.value, known[index]);
        }
    }

    /// The variables with their values, in declaration order.
    pub fn pairs(&self) -> &[PartialPair]
        ensures pairs { pairs_view result.now ≡ self.now }
    {
        &self.pairs
    }

    /// Binds the variable to a copy of the value, if it is one of the partial binding's and not bound; whether it is bound to
    /// the value then. After `Memory` nothing has changed.
    #[tactic(auto, using(crate::proofs::PairIndices::held_nowhere, crate::proofs::PairIndices::held_there, crate::proofs::PairIndices::kept_there, cpn_stages::proofs::Partials::extends_itself))]
    pub fn hold(&mut self, variable: u32, value: &Value) -> Result<bool, Memory>
        ensures held { Becomes result self.new (held variable (value_view value.now) self.old) }
        ensures extends { Extends self.old self.new }
    {
        match index_of(&self.pairs, variable) {
            None => Ok(false),
            Some(index) => {
                let pair = &mut self.pairs[index];
                agree(&mut pair.value, value)
            }
        }
    }

    /// The same with a value of its own, which it takes.
    #[tactic(auto, using(crate::proofs::PairIndices::held_nowhere, crate::proofs::PairIndices::held_there_if, crate::proofs::PairIndices::kept_there, cpn_stages::proofs::Partials::extends_itself))]
    pub fn hold_own(&mut self, variable: u32, value: Value) -> bool
        ensures held { BecomesIf result self.new (held variable (value_view value) self.old) }
        ensures extends { Extends self.old self.new }
    {
        match index_of(&self.pairs, variable) {
            None => false,
            Some(index) => {
                let pair = &mut self.pairs[index];
                agree_with(&mut pair.value, value)
            }
        }
    }

    /// A copy of its own.
    pub fn copy(&self) -> Result<Partial, Memory>
        ensures same { IfOk result (λ copied. copied ≡ self.now) }
    {
        let mut pairs = Vec::with_capacity(*self.pairs.allocator(), self.pairs.len())?;
        for pair in &self.pairs {
            pairs.push(pair.copy()?)?;
        }
        Ok(Partial { pairs })
    }

    /// The binding of those of the variables that have a value.
    pub fn bound(&self) -> Result<Binding, Memory>
        ensures bound { IfOk result (λ binding. binding ≡ bound_in self.now) }
    {
        let mut binding = Binding::new(*self.pairs.allocator());
        for pair in &self.pairs {
            if let Some(value) = &pair.value {
                binding.bind(pair.variable, value.copy()?)?;
            }
        }
        Ok(binding)
    }
}

impl PartialPair {
    /// A copy of its own.
    pub fn copy(&self) -> Result<PartialPair, Memory>
        ensures same { IfOk result (λ copied. pair_view copied ≡ pair_view self.now) }
    {
        let value = match &self.value {
            None => None,
            Some(value) => Some(value.copy()?),
        };
        Ok(PartialPair {
            variable: self.variable,
            value,
        })
    }
}
