//! What a multiset takes from a place, and which tokens it takes.
ghost use Rattle.std.specs.Prelude.{◌≡◌, ◌+◌, ◌++◌, true, [], length, replicate, IfOk, OnOk, OnErr};
ghost use Rattle.cpn_definitions.specs.Value.{PlainValue};
ghost use Rattle.cpn_definitions.specs.Marking.{less, stamps};
ghost use Rattle.cpn_core.specs.Views.{value_view};
ghost use Rattle.cpn_mset.specs.MSets.{appearances, IsMSet};
ghost use Rattle.cpn_tmset.specs.Covering.{covers_need};
ghost use Rattle.cpn_tmset.specs.Picks.{Demand, demands_at, left_after, picked};
ghost use Rattle.cpn_tmset.specs.PicksViews.{picks_view, demands_of};

use crate::tmsets::TMSet;
use cpn_core::{Memory, Value};
use cpn_mset::MSet;
use std::alloc::Global;
use std::marker::Model;

/// A token that was taken.
#[derive(Drop)]
pub struct Pick {
    /// Its value.
    pub value: Value,
    /// The threshold by which it was taken: its stamp is not above it.
    pub threshold: u64,
    /// Its time stamp.
    pub stamp: u64,
}

/// Tokens that were taken, one after another. A clause sees them as the plain list.
#[derive(Drop)]
pub struct Picks {
    pub(crate) picks: Vec<Pick>,
}

impl Model for Picks {
    ghost use Rattle.cpn_tmset.specs.Picks.{PlainPicks, picks_code};

    ghost Value = { PlainPicks };

    ghost coded = { picks_code };

    ghost use Rattle.cpn_tmset.specs.PicksViews.{picks_view};

    ghost view = { λ p. picks_view p.picks.items };
}

impl Picks {
    /// No pick. It takes no memory yet.
    pub fn new(alloc: Global) -> Picks
        ensures empty { result ≡ [] }
    {
        Picks {
            picks: Vec::new(alloc),
        }
    }

    /// The picks, in their order.
    pub fn as_slice(&self) -> &[Pick]
        ensures items { picks_view result.now ≡ self.now }
    {
        self.picks.as_slice()
    }
}

impl TMSet {
    /// Takes the multiset's tokens at the time: for each appearance of a value the latest token of it whose stamp is not
    /// above the time. What is taken is appended to the picks. After `Memory` the tokens and the picks are as they were.
    ///
    /// Source: the timed subtraction of Jensen and Kristensen, chapter 11; which stamp is taken is our own choice.
    pub fn subtract(&mut self, need: &MSet, time: u64, picks: &mut Picks) -> Result<(), Memory>
        requires covered { covers_need self.old need.now time ≡ true }
        ensures left { OnOk result (self.new ≡ left_after (demands_at time need.now) self.old) }
        // The timed subtraction of stamps: each value's lose the time as often as the value appears.
        ensures less { OnOk result ((v : PlainValue) → stamps v self.new ≡ less (stamps v self.old) (replicate (appearances v need.now) time)) }
        // As many tokens leave as the multiset has appearances.
        ensures number { OnOk result (length self.new + length (demands_at time need.now) ≡ length self.old) }
        ensures picked { OnOk result (picks.new ≡ picks.old ++ picked (demands_at time need.now) self.old) }
        ensures unchanged { OnErr result (self.new ≡ self.old) }
        ensures unpicked { OnErr result (picks.new ≡ picks.old) }
    {
        let mut taken = demanded(self.alloc(), need, time)?;
        picks.picks.reserve(taken.len())?;
        self.take_each(&mut taken);
        let _ = picks.picks.append(&mut taken);
        Ok(())
    }

    // Takes a token for each of the picks in turn, and writes its stamp down.
    fn take_each(&mut self, picks: &mut Vec<Pick>)
        ensures left { self.new ≡ left_after (demands_of picks.old.items) self.old }
        ensures picked { picks_view picks.new.items ≡ picked (demands_of picks.old.items) self.old }
        ensures as_many { length picks.new.items ≡ length picks.old.items }
    {
        for pick in picks.iter_mut() {
            let stamp = self.take_latest(&pick.value, pick.threshold);
            pick.stamp = stamp.unwrap_or(0);
        }
    }
}

// Picks for the demands of the multiset at the time, their stamps not yet known.
fn demanded(alloc: Global, need: &MSet, time: u64) -> Result<Vec<Pick>, Memory>
    ensures demands { IfOk result (λ picks. demands_of picks.items ≡ demands_at time need.now) }
    ensures is { IsMSet need.now }
{
    let mut picks = Vec::new(alloc);
    for (value, number) in need.iter() {
        push_demands(&mut picks, value, *number, time)?;
    }
    Ok(picks)
}

// Appends so many picks for the value.
fn push_demands(picks: &mut Vec<Pick>, value: &Value, number: u64, time: u64) -> Result<(), Memory>
    ensures demands { OnOk result (demands_of picks.new.items ≡ demands_of picks.old.items ++ replicate number (record { value = value_view value.now; threshold = time })) }
{
    for _number in 0..number {
        let value = value.copy()?;
        picks.push(Pick {
            value,
            threshold: time,
            stamp: 0,
        })?;
    }
    Ok(())
}
