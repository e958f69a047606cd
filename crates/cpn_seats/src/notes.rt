//! What a seat notes of the book and of its own turns. By this it chooses how to wait; no clause speaks of it.

use cpn_book::Claimed;
use cpn_core::Memory;
use std::time::Duration;

// After so many claims one after another that found nothing, or evaluations that were short, a seat stands aside.
const OFTEN: u32 = 4;

// For how many milliseconds it stands aside at first, and at most.
const SHORTEST: u64 = 1;

const LONGEST: u64 = 32;

/// A turn that a seat drew.
#[derive(Clone, Copy, Drop)]
pub(crate) struct Turn {
    /// Its number, modulo 2^64.
    pub number: u64,
    /// How many turns were served before it was drawn, modulo 2^64.
    pub served: u64,
}

/// What others are to know of a call.
#[derive(Clone, Copy, Drop)]
pub(crate) struct News {
    /// Whether the journal may have grown, so that seats that rest have to look.
    pub grown: bool,
    /// Whether more is ready than one seat can claim.
    pub surplus: bool,
    /// Whether there is no more work for a seat that holds no claim.
    pub ended: bool,
}

/// What a seat notes.
#[derive(Drop)]
pub(crate) struct Notes {
    /// How many events the journal had when the seat last held the book, 0 where that was spent.
    pub journal_len: usize,
    /// How often there was a surplus, and an end of the work, before its latest claim.
    pub surplus: u64,
    pub ends: u64,
    // The turn of its latest claim.
    claim: u64,
    // How many of its latest claims found nothing, and how many of its latest evaluations were short.
    idle: u32,
    short: u32,
    // For how many milliseconds it stands aside next.
    millis: u64,
}

impl Notes {
    pub(crate) fn new(journal_len: usize) -> Notes {
        Notes {
            journal_len,
            surplus: 0,
            ends: 0,
            claim: 0,
            idle: 0,
            short: 0,
            millis: SHORTEST,
        }
    }

    /// Notes how a claim was answered that was made at the turn. Where no claim is open the clock is to move, which is work too.
    pub(crate) fn claimed(&mut self, turn: Turn, answer: &Result<Claimed, Memory>) {
        self.claim = turn.number;
        match answer {
            Ok(Claimed::Nothing { held: 0 }) => {}
            Ok(Claimed::Nothing { held: _ }) => self.idle = self.idle.saturating_add(1),
            _ => self.idle = 0,
        }
    }

    /// Notes that an evaluation is brought at the turn. It was short where others wait, and fewer than two turns were served since the claim.
    pub(crate) fn evaluated(&mut self, turn: Turn) {
        let served = turn.served.wrapping_sub(self.claim);
        if turn.served != turn.number && served < 3 {
            self.short = self.short.saturating_add(1);
        } else {
            self.short = 0;
            self.millis = SHORTEST;
        }
    }

    /// For how long the seat stands aside that found nothing time and again.
    pub(crate) fn idle_pause(&mut self) -> Option<Duration> {
        if self.idle < OFTEN {
            return None;
        }
        self.idle = OFTEN - 1;
        Some(self.next_pause())
    }

    /// The same, where its evaluations are short.
    pub(crate) fn short_pause(&mut self) -> Option<Duration> {
        if self.short < OFTEN {
            return None;
        }
        self.short = OFTEN - 1;
        Some(self.next_pause())
    }

    // The pause that comes next; the one after it is twice as long.
    fn next_pause(&mut self) -> Duration {
        let pause = Duration::from_millis(self.millis);
        self.millis = self.millis.saturating_mul(2).min(LONGEST);
        pause
    }
}
