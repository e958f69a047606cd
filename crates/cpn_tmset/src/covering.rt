//! From when on the tokens of a place cover a multiset.
ghost use Rattle.std.specs.Prelude.{◌≡◌, ◌<◌, ◌≤◌, ℕ, true, false, nat_le, replicate, MatchOption};
ghost use Rattle.cpn_definitions.specs.Marking.{covers, stamps};
ghost use Rattle.cpn_core.specs.Views.{value_view};
ghost use Rattle.cpn_tmset.specs.Covering.{covers_need};

use crate::tmsets::TMSet;
use cpn_core::Value;
use cpn_mset::MSet;

impl TMSet {
    /// Whether of each value of the multiset at least as many tokens have a stamp that is not above the time.
    ///
    /// Source: the timed order of Jensen and Kristensen, chapter 11.
    pub fn covers_at(&self, need: &MSet, time: u64) -> bool
        ensures exact { result ≡ covers_need self.now need.now time }
    {
        for (value, number) in need.iter() {
            if !self.has_by(value, *number, time) {
                return false;
            }
        }
        true
    }

    /// The least time from `from` on at which the multiset is covered; `None` where it is covered at no time.
    pub fn earliest(&self, need: &MSet, from: u64) -> Option<u64>
        ensures earliest { MatchOption result ((time : ℕ) → covers_need self.now need.now time ≡ false)
            (λ least. (from ≤ least) × (covers_need self.now need.now least ≡ true) × ((time : ℕ) → from ≤ time → time < least → covers_need self.now need.now time ≡ false)) }
    {
        let mut least = from;
        for (value, number) in need.iter() {
            let ready = self.ready(value, *number)?;
            least = least.max(ready);
        }
        Some(least)
    }

    // Whether so many tokens of the value have a stamp that is not above the time.
    fn has_by(&self, value: &Value, number: u64, time: u64) -> bool
        ensures exact { result ≡ covers (stamps (value_view value.now) self.now) (replicate number time) }
    {
        match self.ready(value, number) {
            Some(ready) => ready <= time,
            None => false,
        }
    }

    // The time from which on so many tokens of the value may be taken; `None` where there are fewer.
    fn ready(&self, value: &Value, number: u64) -> Option<u64>
        ensures ready { MatchOption result ((time : ℕ) → covers (stamps (value_view value.now) self.now) (replicate number time) ≡ false)
            (λ first. (time : ℕ) → covers (stamps (value_view value.now) self.now) (replicate number time) ≡ nat_le first time) }
    {
        if number == 0 {
            return Some(0);
        }
        self.stamp(value, number - 1)
    }
}
