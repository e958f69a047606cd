//! How a token is put in ahead of picks that were made without it.

ghost use Rattle.std.specs.Prelude.{◌≡◌, if◌then◌else◌, OnOk, OnErr};
ghost use Rattle.cpn_definitions.specs.Marking.{add_token, token_at};
ghost use Rattle.cpn_core.specs.Views.{value_view};
ghost use Rattle.cpn_tmset.specs.Carried.{past_picks, picks_after};
ghost use Rattle.cpn_tmset.specs.Limits.{HasRoom};
ghost use Rattle.cpn_tmset.specs.PicksViews.{picks_view};
ghost use Rattle.cpn_tmset.specs.Stamps.{is_preferred};

use crate::picks::{Pick, Picks};
use crate::tmsets::TMSet;
use cpn_core::{Memory, Value};
use std::mem;

impl TMSet {
    /// Puts a token of the value with the stamp in ahead of the picks, which were made later from these tokens: what is there then is
    /// what the picks would have left if the token had stood there before them, and the picks are what they would have been.
    ///
    /// The stamp is carried past the picks in their order. A pick of the value whose threshold prefers it takes it, and its own stamp is
    /// carried on; the stamp that is carried past the last one is added. After `Memory` the tokens and the picks are as they were.
    ///
    /// Source: own choice.
    pub fn put_after(&mut self, value: &Value, stamp: u64, later: &mut Picks) -> Result<(), Memory>
        requires room { HasRoom self.old }
        ensures added { OnOk result (self.new ≡ add_token (token_at (value_view value.now) (past_picks (value_view value.now) stamp later.old)) self.old) }
        ensures picks { OnOk result (later.new ≡ picks_after (value_view value.now) stamp later.old) }
        ensures unchanged { OnErr result (self.new ≡ self.old) }
        ensures unpicked { OnErr result (later.new ≡ later.old) }
    {
        let left = left_over(later.as_slice(), value, stamp);
        self.add(value.copy()?, left)?;
        later.carry(value, stamp);
        Ok(())
    }
}

impl Picks {
    // Carries the stamp of a token of the value past the picks.
    fn carry(&mut self, value: &Value, stamp: u64)
        ensures picks { self.new ≡ picks_after (value_view value.now) stamp self.old }
    {
        let mut carried = stamp;
        for pick in self.picks.iter_mut() {
            if pick.value == *value {
                carried = carry_past(&mut pick.stamp, pick.threshold, carried);
            }
        }
    }
}

// The stamp that is left over where that of a token of the value is carried past the picks.
fn left_over(picks: &[Pick], value: &Value, stamp: u64) -> u64
    ensures left { result ≡ past_picks (value_view value.now) stamp (picks_view picks.now) }
{
    let mut carried = stamp;
    for pick in picks {
        if pick.value == *value {
            let mut own = pick.stamp;
            carried = carry_past(&mut own, pick.threshold, carried);
        }
    }
    carried
}

/// Carries a stamp past the one that a threshold took: where the threshold prefers it, that is, where it is later and not above the
/// threshold, it is taken in exchange, and the other one is carried on; else the same.
///
/// Source: own choice.
pub fn carry_past(taken: &mut u64, threshold: u64, stamp: u64) -> u64
    ensures taken { taken.new ≡ (if is_preferred threshold taken.old stamp then stamp else taken.old) }
    ensures carried { result ≡ (if is_preferred threshold taken.old stamp then taken.old else stamp) }
{
    if *taken < stamp && stamp <= threshold {
        mem::replace(taken, stamp)
    } else {
        stamp
    }
}
