//! The time stamps of the tokens of one value.
ghost use Rattle.std.specs.Prelude.{◌≡◌, ◌-◌, ◌^◌, ◌<◌, ◌≤◌, ℕ, [], length, slice_get, MatchOption, IfOk, OnOk, OnErr, Some};
ghost use Rattle.std.specs.Option.{unwrap_or};
ghost use Rattle.std.specs.Map.{set_value};
ghost use Rattle.std.specs.BTreeMap.{get, is_at};
ghost use Rattle.std.specs.Ordering.{nat_cmp};
ghost use Rattle.cpn_definitions.specs.Lists.{with_item};
ghost use Rattle.cpn_definitions.specs.Marking.{without_latest};
ghost use Rattle.cpn_tmset.specs.Limits.{HasRoom};
ghost use Rattle.cpn_tmset.specs.Stamps.{latest_of};
ghost use Rattle.cpn_tmset.specs.StampCounts.{repeated, IsCounted, IsLatestEntry, AreAllAbove};

use cpn_core::Memory;
use std::alloc::Global;
use std::collections::BTreeMap;
use std::collections::btree_map::Iter;
use std::marker::Model;

/// The time stamps of the tokens of one value: each stamp, and how many tokens have it.
///
/// Source: timed multisets of Jensen and Kristensen, chapter 11. A clause sees them as the sorted list of numbers,
/// each as often as tokens have it.
#[derive(Drop)]
pub struct Stamps {
    counts: BTreeMap<u64, u64>,
    number: u64,
}

impl Model for Stamps {
    ghost use Rattle.std.specs.Prelude.{◌≡◌, List, ℕ, length};
    ghost use Rattle.cpn_tmset.specs.StampCounts.{repeated, IsCounted};

    ghost Value = { List ℕ };

    ghost view = { λ s. repeated s.counts.entries };

    ghost invariant = { λ s. IsCounted s.counts.entries × (s.number ≡ length (repeated s.counts.entries)) };
}

impl Stamps {
    /// No stamp. It takes no memory yet.
    pub fn new(alloc: Global) -> Stamps
        ensures empty { result ≡ [] }
    {
        Stamps {
            counts: BTreeMap::new(alloc),
            number: 0,
        }
    }

    /// How many tokens there are.
    pub fn number(&self) -> u64
        ensures number { result ≡ length self.now }
    {
        self.number
    }

    /// Adds the stamp of one token more. After `Memory` the stamps are as they were.
    pub fn add(&mut self, stamp: u64) -> Result<(), Memory>
        requires room { HasRoom self.old }
        ensures added { OnOk result (self.new ≡ with_item nat_cmp stamp self.old) }
        ensures unchanged { OnErr result (self.new ≡ self.old) }
    {
        let held = count_at(&self.counts, stamp);
        self.counts.insert(stamp, held + 1)?;
        self.number += 1;
        Ok(())
    }

    /// The stamp at a rank, from 0, among the sorted stamps.
    pub fn at(&self, rank: u64) -> Option<u64>
        ensures stamp { result ≡ slice_get self.now rank }
    {
        let mut left = rank;
        for (stamp, count) in &self.counts {
            if left < *count {
                return Some(*stamp);
            }
            left -= *count;
        }
        None
    }

    /// Takes the largest stamp that is not above `latest`, and gives it; where there is none the stamps stay. It takes
    /// no memory.
    pub fn take_latest(&mut self, latest: u64) -> Option<u64>
        ensures stamp { result ≡ latest_of latest self.old }
        ensures taken { self.new ≡ without_latest latest self.old }
    {
        let (stamp, count) = last_entry(&self.counts, latest)?;
        take_one(&mut self.counts, stamp, count);
        self.number -= 1;
        Some(stamp)
    }

    /// The stamps in order, each with how many tokens have it.
    pub fn counts(&self) -> Iter<'_, u64, u64>
        ensures items { repeated result ≡ self.now }
        ensures counted { IsCounted result }
    {
        self.counts.iter()
    }

    /// Stamps of their own, the same ones.
    pub fn copy(&self) -> Result<Stamps, Memory>
        ensures same { IfOk result (λ stamps. stamps ≡ self.now) }
    {
        Ok(Stamps {
            counts: self.counts.clone()?,
            number: self.number,
        })
    }
}

// The largest stamp that is not above `latest`, with how many tokens have it.
fn last_entry(counts: &BTreeMap<u64, u64>, latest: u64) -> Option<(u64, u64)>
    ensures last { MatchOption result (AreAllAbove latest counts.now.entries) (IsLatestEntry latest counts.now.entries) }
{
    let (stamp, count) = counts.range(..=latest).next_back()?;
    Some((*stamp, *count))
}

// How many tokens have the stamp.
fn count_at(counts: &BTreeMap<u64, u64>, stamp: u64) -> u64
    ensures count { result ≡ unwrap_or (get nat_cmp counts.now stamp) 0 }
{
    match counts.get(&stamp) {
        Some(count) => *count,
        None => 0,
    }
}

// Takes one of the tokens with the stamp, of which there are `count`.
fn take_one(counts: &mut BTreeMap<u64, u64>, stamp: u64, count: u64)
    requires counted { IsCounted counts.old.entries }
    requires held { get nat_cmp counts.old stamp ≡ Some count }
    ensures counted { IsCounted counts.new.entries }
    ensures left { repeated counts.new.entries ≡ repeated (set_value (is_at (nat_cmp stamp)) counts.old.entries (count - 1)) }
{
    if count == 1 {
        counts.remove(&stamp);
    } else if let Some(held) = counts.get_mut(&stamp) {
        *held = count - 1;
    }
}
