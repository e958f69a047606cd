//! Finite multisets of values.
ghost use Rattle.std.specs.Prelude.{◌≡◌, ◌+◌, ◌-◌, ◌^◌, ◌<◌, ◌≤◌, ◌↔◌, IsTrue, [], if◌then◌else◌, OnOk, OnErr};
ghost use Rattle.cpn_definitions.specs.Value.{PlainValue};
ghost use Rattle.cpn_definitions.specs.Order.{same_value};
ghost use Rattle.cpn_core.specs.Views.{value_view};
ghost use Rattle.cpn_mset.specs.MSets.{appearances, IsMSet};
ghost use Rattle.cpn_mset.specs.Views.{counts_view};

use cpn_core::{Memory, Value};
use std::alloc::Global;
use std::collections::BTreeMap;
use std::collections::btree_map::Iter;
use std::marker::Model;

/// A finite multiset of values: each value that appears in it, and how many times.
///
/// Source: multisets of Jensen and Kristensen, chapter 4. A clause sees it as the plain list of its values with
/// their numbers of appearances, in the order of values.
#[derive(Drop)]
pub struct MSet {
    counts: BTreeMap<Value, u64>,
}

impl Model for MSet {
    ghost use Rattle.cpn_mset.specs.MSets.{PlainMSet, IsMSet, mset_code};

    ghost Value = { PlainMSet };

    ghost coded = { mset_code };

    ghost use Rattle.cpn_mset.specs.Views.{counts_view};

    ghost view = { λ m. counts_view m.counts.entries };

    ghost invariant = { λ m. IsMSet (counts_view m.counts.entries) };
}

impl MSet {
    /// The multiset in which nothing appears. It takes no memory yet.
    pub fn new(alloc: Global) -> MSet
        ensures empty { result ≡ [] }
    {
        MSet {
            counts: BTreeMap::new(alloc),
        }
    }

    /// How many times the value appears.
    pub fn count(&self, value: &Value) -> u64
        ensures number { result ≡ appearances (value_view value.now) self.now }
    {
        match self.counts.get(value) {
            Some(number) => *number,
            None => 0,
        }
    }

    /// Adds so many appearances of the value; none changes nothing. After `Memory` the multiset is as it was.
    pub fn add(&mut self, value: Value, number: u64) -> Result<(), Memory>
        requires fits { appearances (value_view value) self.old + number < 2 ^ 64 }
        ensures added { OnOk result ((v : PlainValue) → appearances v self.new ≡ appearances v self.old + (if same_value v (value_view value) then number else 0)) }
        ensures unchanged { OnErr result (self.new ≡ self.old) }
    {
        if number == 0 {
            return Ok(());
        }
        let total = self.count(&value) + number;
        self.counts.insert(value, total)?;
        Ok(())
    }

    /// Whether each value appears here at least as often as in the other.
    pub fn covers(&self, other: &MSet) -> bool
        ensures exact { IsTrue result ↔ ((v : PlainValue) → appearances v other.now ≤ appearances v self.now) }
    {
        for (value, number) in &other.counts {
            if self.count(value) < *number {
                return false;
            }
        }
        true
    }

    /// Takes the other's appearances away. It takes no memory.
    pub fn subtract(&mut self, other: &MSet)
        requires covered { (v : PlainValue) → appearances v other.now ≤ appearances v self.old }
        ensures left { (v : PlainValue) → appearances v self.new ≡ appearances v self.old - appearances v other.now }
    {
        for (value, number) in &other.counts {
            self.take(value, *number);
        }
    }

    /// The values that appear, in their order, each with its number of appearances.
    pub fn iter(&self) -> Iter<'_, Value, u64>
        ensures items { counts_view result ≡ self.now }
        ensures is { IsMSet self.now }
    {
        self.counts.iter()
    }

    // Takes so many appearances of the value away.
    fn take(&mut self, value: &Value, number: u64)
        requires held { number ≤ appearances (value_view value.now) self.old }
        ensures left { (v : PlainValue) → appearances v self.new ≡ appearances v self.old - (if same_value v (value_view value.now) then number else 0) }
    {
        let left = self.count(value) - number;
        if left == 0 {
            self.counts.remove(value);
        } else if let Some(count) = self.counts.get_mut(value) {
            *count = left;
        }
    }
}
