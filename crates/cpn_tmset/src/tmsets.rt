//! The tokens of one place.
ghost use Rattle.std.specs.Prelude.{◌≡◌, ◌+◌, ◌++◌, ◌↔◌, IsTrue, [], length, map, if◌then◌else◌, IfOk, OnOk, OnErr};
ghost use Rattle.std.specs.List.{list_any, slice_get};
ghost use Rattle.std.specs.Ordering.{nat_cmp};
ghost use Rattle.cpn_definitions.specs.Value.{PlainValue};
ghost use Rattle.cpn_definitions.specs.Order.{same_value};
ghost use Rattle.cpn_definitions.specs.Lists.{with_item};
ghost use Rattle.cpn_definitions.specs.Marking.{token_at, add_token, without_token, without_latest, stamps, AreSorted};
ghost use Rattle.cpn_core.specs.Views.{value_view};
ghost use Rattle.cpn_tmset.specs.Limits.{HasRoom};
ghost use Rattle.cpn_tmset.specs.Stamps.{latest_of};
ghost use Rattle.cpn_tmset.specs.TMSets.{stamps_in, AreKept};
ghost use Rattle.cpn_tmset.specs.Views.{entries_view};
ghost use Rattle.cpn_tmset.specs.Listed.{values_of, groups};
ghost use Rattle.cpn_tmset.specs.ListedViews.{pointed_view, groups_view};

use crate::listing::TokenGroup;
use crate::stamps::Stamps;
use cpn_core::{Memory, Value};
use std::alloc::Global;
use std::collections::BTreeMap;
use std::marker::Model;

/// The tokens of one place: each value, and the time stamps of its tokens. A token of an untimed place has stamp 0.
///
/// Source: timed multisets of Jensen and Kristensen, chapter 11. A clause sees them as the plain tokens, sorted by
/// value and then by stamp.
#[derive(Drop)]
pub struct TMSet {
    entries: BTreeMap<Value, Stamps>,
    total: u64,
    alloc: Global,
}

impl Model for TMSet {
    ghost use Rattle.std.specs.Prelude.{◌≡◌, length};
    ghost use Rattle.cpn_definitions.specs.Marking.{Tokens};
    ghost use Rattle.cpn_tmset.specs.Codes.{tokens_code};

    ghost Value = { Tokens };

    ghost coded = { tokens_code };

    ghost use Rattle.cpn_tmset.specs.TMSets.{AreKept};
    ghost use Rattle.cpn_tmset.specs.Views.{entries_view, tokens_view};

    ghost view = { λ p. tokens_view p.entries.entries };

    ghost invariant = { λ p. AreKept (entries_view p.entries.entries) × (p.total ≡ length (tokens_view p.entries.entries)) };
}

impl TMSet {
    /// A place without tokens. It takes no memory yet.
    pub fn new(alloc: Global) -> TMSet
        ensures empty { result ≡ [] }
    {
        TMSet {
            entries: BTreeMap::new(alloc),
            total: 0,
            alloc,
        }
    }

    pub(crate) fn alloc(&self) -> Global
        ensures sorted { AreSorted self.now }
    {
        self.alloc
    }

    /// How many tokens there are.
    pub fn total(&self) -> u64
        ensures number { result ≡ length self.now }
        ensures sorted { AreSorted self.now }
    {
        self.total
    }

    /// Whether there is no token.
    pub fn is_empty(&self) -> bool
        ensures exact { IsTrue result ↔ (self.now ≡ []) }
    {
        self.total == 0
    }

    /// Adds a token of the value with the stamp, at its place in the order. After `Memory` the tokens are as they were.
    pub fn add(&mut self, value: Value, stamp: u64) -> Result<(), Memory>
        requires room { HasRoom self.old }
        ensures added { OnOk result (self.new ≡ add_token (token_at (value_view value) stamp) self.old) }
        ensures unchanged { OnErr result (self.new ≡ self.old) }
    {
        add_stamp(&mut self.entries, self.alloc, value, stamp)?;
        self.total += 1;
        Ok(())
    }

    /// Takes the latest token of the value whose stamp is not above `latest`; where there is none the tokens stay. It
    /// takes no memory.
    pub fn take(&mut self, value: &Value, latest: u64)
        ensures taken { self.new ≡ without_token (value_view value.now) latest self.old }
        ensures sorted { AreSorted self.old }
    {
        self.take_latest(value, latest);
    }

    /// The same, and gives the stamp of the token that it takes.
    pub fn take_latest(&mut self, value: &Value, latest: u64) -> Option<u64>
        ensures stamp { result ≡ latest_of latest (stamps (value_view value.now) self.old) }
        ensures taken { self.new ≡ without_token (value_view value.now) latest self.old }
        ensures sorted { AreSorted self.old }
    {
        let stamp = take_stamp(&mut self.entries, value, latest)?;
        self.total -= 1;
        Some(stamp)
    }

    /// The stamp at a rank, from 0, among those of the value.
    pub fn stamp(&self, value: &Value, rank: u64) -> Option<u64>
        ensures stamp { result ≡ slice_get (stamps (value_view value.now) self.now) rank }
        ensures sorted { AreSorted self.now }
    {
        let stamps = self.entries.get(value)?;
        stamps.at(rank)
    }

    /// Whether a token has the value, whatever its stamp.
    pub fn holds(&self, value: &Value) -> bool
        ensures held { result ≡ list_any (λ token. same_value (value_view value.now) token.value) self.now }
    {
        self.entries.contains_key(value)
    }
}

impl TMSet {
    /// The different values of the tokens, in order.
    pub fn values(&self, alloc: Global) -> Result<Vec<&Value>, Memory>
        ensures values { IfOk result (λ values. pointed_view values.items ≡ values_of self.now) }
        ensures sorted { AreSorted self.now }
    {
        let mut values = Vec::new(alloc);
        for (value, _stamps) in &self.entries {
            values.push(value)?;
        }
        Ok(values)
    }

    /// The tokens, equal ones counted, in order.
    pub fn groups(&self, alloc: Global) -> Result<Vec<TokenGroup<'_>>, Memory>
        ensures groups { IfOk result (λ found. groups_view found.items ≡ groups self.now) }
        ensures sorted { AreSorted self.now }
    {
        let mut found = Vec::new(alloc);
        for (value, stamps) in &self.entries {
            push_groups(&mut found, value, stamps)?;
        }
        Ok(found)
    }

    /// A place of its own with the same tokens.
    pub fn copy(&self) -> Result<TMSet, Memory>
        ensures same { IfOk result (λ place. place ≡ self.now) }
    {
        let mut entries = BTreeMap::new(self.alloc);
        for (value, stamps) in &self.entries {
            entries.insert(value.copy()?, stamps.copy()?)?;
        }
        Ok(TMSet {
            entries,
            total: self.total,
            alloc: self.alloc,
        })
    }
}

// Appends the groups of the tokens of one value.
fn push_groups<'m>(
    found: &mut Vec<TokenGroup<'m>>,
    value: &'m Value,
    stamps: &'m Stamps,
) -> Result<(), Memory>
    ensures pushed { OnOk result (groups_view found.new.items ≡ groups_view found.old.items ++ groups (map (token_at (value_view value.now)) stamps.now)) }
{
    for (stamp, count) in stamps.counts() {
        found.push(TokenGroup {
            value,
            stamp: *stamp,
            count: *count,
        })?;
    }
    Ok(())
}

// Adds a stamp to those of the value.
fn add_stamp(
    entries: &mut BTreeMap<Value, Stamps>,
    alloc: Global,
    value: Value,
    stamp: u64,
) -> Result<(), Memory>
    requires kept { AreKept (entries_view entries.old.entries) }
    requires room { HasRoom (stamps_in (value_view value) (entries_view entries.old.entries)) }
    ensures kept { OnOk result (AreKept (entries_view entries.new.entries)) }
    ensures added { OnOk result ((v : PlainValue) → stamps_in v (entries_view entries.new.entries) ≡ (if same_value v (value_view value) then with_item nat_cmp stamp (stamps_in v (entries_view entries.old.entries)) else stamps_in v (entries_view entries.old.entries))) }
    ensures unchanged { OnErr result (entries.new.entries ≡ entries.old.entries) }
{
    if let Some(stamps) = entries.get_mut(&value) {
        stamps.add(stamp)?;
        return Ok(());
    }
    let mut stamps = Stamps::new(alloc);
    stamps.add(stamp)?;
    entries.insert(value, stamps)?;
    Ok(())
}

// Takes the largest stamp of the value that is not above `latest`, and gives it.
fn take_stamp(entries: &mut BTreeMap<Value, Stamps>, value: &Value, latest: u64) -> Option<u64>
    requires kept { AreKept (entries_view entries.old.entries) }
    ensures stamp { result ≡ latest_of latest (stamps_in (value_view value.now) (entries_view entries.old.entries)) }
    ensures kept { AreKept (entries_view entries.new.entries) }
    ensures taken { (v : PlainValue) → stamps_in v (entries_view entries.new.entries) ≡ (if same_value v (value_view value.now) then without_latest latest (stamps_in v (entries_view entries.old.entries)) else stamps_in v (entries_view entries.old.entries)) }
{
    let stamps = entries.get_mut(value)?;
    let stamp = stamps.take_latest(latest)?;
    if stamps.number() == 0 {
        entries.remove(value);
    }
    Some(stamp)
}
