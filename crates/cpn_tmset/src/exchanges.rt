//! How a marking changes when an element occurs: its needs are taken out, and its outputs are put in.
ghost use Rattle.std.specs.Prelude.{◌≡◌, ◌+◌, ◌<◌, ◌≤◌, ◌^◌, ℕ, true, false, length, MatchOption, IfOk, OnOk, OnErr};
ghost use Rattle.std.specs.Option.{unwrap_or};
ghost use Rattle.std.specs.List.{list_any, slice_get};
ghost use Rattle.cpn_definitions.specs.Lists.{IsInOrder};
ghost use Rattle.cpn_definitions.specs.Order.{same_value};
ghost use Rattle.cpn_definitions.specs.Marking.{add_token, on_place, token_at, tokens_at, stamps, without_token, AreSorted};
ghost use Rattle.cpn_definitions.specs.Occurrence.{add_made, are_covered, needed_cmp, subtract, threshold};
ghost use Rattle.cpn_definitions.specs.Times.{last_time};
ghost use Rattle.cpn_core.specs.NeedsViews.{needed_view, needed_views};
ghost use Rattle.cpn_core.specs.OutputsViews.{made_view};
ghost use Rattle.cpn_core.specs.Views.{value_view};
ghost use Rattle.cpn_tmset.specs.Limits.{HasRoom, HaveRoomFor};
ghost use Rattle.cpn_tmset.specs.NeedPositions.{IsStartOfNeed, need_before};
ghost use Rattle.cpn_tmset.specs.Stamps.{latest_of};
ghost use Rattle.cpn_tmset.specs.StampsTaken.{stamps_taken};
ghost use Rattle.cpn_tmset.specs.Subtracted.{IsSubtracted};

use crate::markings::Marking;
use cpn_core::{Made, Memory, Needed, Needs, Outputs, Value};
use std::alloc::Global;
use std::cmp::Ordering;

impl Marking {
    /// The least time at which the marking covers the needs; `None` where it does so at no time.
    ///
    /// Source: the timed order of Jensen and Kristensen, chapter 11.
    pub fn earliest(&self, needs: &Needs) -> Option<u64>
        ensures earliest { MatchOption result ((time : ℕ) → are_covered (threshold time) self.now needs.now ≡ false)
            (λ least. (are_covered (threshold least) self.now needs.now ≡ true) × ((time : ℕ) → time < least → are_covered (threshold time) self.now needs.now ≡ false)) }
    {
        let tokens = needs.tokens();
        let mut least: u64 = 0;
        for (index, need) in tokens.iter().enumerate() {
            let rank = index - start_of_need(tokens, need);
            let stamp = self.stamp(need.place, &need.value, rank as u64)?;
            least = least.max(stamp.saturating_sub(need.offset));
        }
        Some(least)
    }

    /// Whether a token of the value stands on the place, whatever its stamp; none does past the last place.
    pub fn holds(&self, place: u32, value: &Value) -> bool
        ensures held { result ≡ list_any (λ token. same_value (value_view value.now) token.value) (tokens_at self.now place) }
    {
        match self.get(place as usize) {
            Some(held) => held.holds(value),
            None => false,
        }
    }

    /// Takes the needs out, in their order: for each the token of its value on its place with the latest stamp that
    /// is not above the time plus the need's offset. One that is not there is passed over. It takes no memory.
    ///
    /// Source: the timed subtraction of Jensen and Kristensen, chapter 11; which stamp is taken is our own choice.
    pub fn subtract(&mut self, needs: &Needs, time: u64)
        requires time { time ≤ last_time }
        ensures subtracted { self.new ≡ subtract (threshold time) needs.now self.old }
        // The timed subtraction of stamps: of each value on each place those are left that its thresholds leave.
        ensures left { IsSubtracted time needs.now self.old self.new }
    {
        for need in needs.tokens() {
            self.take_if_there(need.place, &need.value, time + need.offset);
        }
    }

    /// Takes the needs out, as `subtract` does, and gives the stamp of the token that each of them takes; that of one that is not there
    /// is 0. After `Memory` the marking is as it was.
    pub fn take_out(&mut self, alloc: Global, needs: &Needs, time: u64) -> Result<Vec<u64>, Memory>
        requires time { time ≤ last_time }
        ensures subtracted { OnOk result (self.new ≡ subtract (threshold time) needs.now self.old) }
        ensures stamps { IfOk result (λ stamps. stamps.items ≡ stamps_taken time needs.now self.old) }
        ensures unchanged { OnErr result (self.new ≡ self.old) }
    {
        let tokens = needs.tokens();
        let mut stamps = Vec::with_capacity(alloc, tokens.len())?;
        for need in tokens {
            let stamp = self.take_stamp(need.place, &need.value, time + need.offset);
            stamps.push_reserved(stamp);
        }
        Ok(stamps)
    }

    /// Puts the tokens in; one for a place past the last one is lost. After `Memory` some of them may stand in the
    /// marking.
    pub fn add_made(&mut self, outputs: Outputs) -> Result<(), Memory>
        requires room { HaveRoomFor (length outputs) self.old }
        ensures added { OnOk result (self.new ≡ add_made outputs self.old) }
    {
        for made in outputs.into_tokens() {
            self.put(made)?;
        }
        Ok(())
    }

    // The stamp at a rank, from 0, among those of the value on the place.
    fn stamp(&self, place: u32, value: &Value, rank: u64) -> Option<u64>
        ensures stamp { result ≡ slice_get (stamps (value_view value.now) (tokens_at self.now place)) rank }
    {
        let held = self.get(place as usize)?;
        held.stamp(value, rank)
    }

    // Takes the latest token of the value whose stamp is not above `latest`; a place past the last one has none.
    fn take_if_there(&mut self, place: u32, value: &Value, latest: u64)
        ensures taken { self.new ≡ on_place place (without_token (value_view value.now) latest) self.old }
        ensures sorted { AreSorted (tokens_at self.old place) }
    {
        if (place as usize) < self.len() {
            self.take(place, value, latest);
        }
    }

    // The same, and gives the stamp of the token; 0 where there is none.
    fn take_stamp(&mut self, place: u32, value: &Value, latest: u64) -> u64
        ensures stamp { result ≡ unwrap_or (latest_of latest (stamps (value_view value.now) (tokens_at self.old place))) 0 }
        ensures taken { self.new ≡ on_place place (without_token (value_view value.now) latest) self.old }
    {
        if (place as usize) < self.len() {
            let stamp = self.take_latest(place, value, latest);
            stamp.unwrap_or(0)
        } else {
            0
        }
    }

    // Puts the token on its place, if there is that place.
    fn put(&mut self, made: Made) -> Result<(), Memory>
        requires room { HasRoom (tokens_at self.old made.place) }
        ensures added { OnOk result (self.new ≡ on_place made.place (add_token (token_at (value_view made.value) made.stamp)) self.old) }
    {
        if (made.place as usize) < self.len() {
            self.add(made.place, made.value, made.stamp)?;
        }
        Ok(())
    }
}

// Whether the need comes before the other by place and value.
fn comes_first(need: &Needed, other: &Needed) -> bool
    ensures exact { result ≡ need_before (needed_view need.now) (needed_view other.now) }
{
    let by_place = need.place.cmp(&other.place);
    let by_value = need.value.cmp(&other.value);
    by_place.then(by_value) == Ordering::Less
}

// Where the needs for the value of the need on its place begin among needs in order.
fn start_of_need(needs: &[Needed], need: &Needed) -> usize
    requires in_order { IsInOrder needed_cmp (needed_views needs.now) }
    ensures within { result ≤ length needs.now }
    ensures start { IsStartOfNeed (needed_view need.now) (needed_views needs.now) result }
{
    needs.partition_point(|other| comes_first(other, need))
}
