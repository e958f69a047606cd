//! How the seats of a desk wait, and how they are told to go on. None of this is an event, and no view changes by it.
//!
//! A seat that waits for its turn looks for a while, and then sleeps on a word for turns of that number, so that who serves the turn wakes no
//! other. A seat that rests sleeps until the journal has grown. A seat that is of no help stands aside for some milliseconds: one that found
//! nothing ready time and again, until more is ready than one seat can claim; and one whose evaluations take less time than the turns of
//! others, for then each seat more makes the run slower. Who finds that the work has ended calls both back.

ghost use Rattle.std.specs.Prelude.{◌≡◌, ◌<◌, ◌≤◌};

use crate::notes::{News, Notes};
use crate::seats::SeatDesk;
use crate::steps::Count;
use crate::views::Token;
use std::hint;
use std::sync::Wait;

// How often it was told that the journal has grown, and how many seats rest until then.
const GROWTHS: usize = 2;

const RESTING: usize = 3;

// How often more was ready than one seat can claim, and how many seats stand aside until then.
const SURPLUS: usize = 4;

const IDLE: usize = 5;

// How often a seat found that the work has ended.
const ENDS: usize = 6;

// How many seats sleep until their turn is served; and the first of the words that they sleep on, as many as turns may be out.
const WAITING: usize = 7;

const FIRST_OF_TURNS: usize = 8;

const TURNS_OUT: u64 = 64;

// How often a seat looks before it sleeps.
const LOOKS: u32 = 200;

// The word for turns of this number.
fn word_of(turn: u64) -> usize
    ensures counts { (2 ≤ result) × (result < 72) }
{
    FIRST_OF_TURNS + (turn % TURNS_OUT) as usize
}

// What a thread that sleeps on a word compares.
fn low_half(count: u64) -> u32 {
    (count & 0xffff_ffff) as u32
}

impl SeatDesk {
    // Counts one more in a word of which the rule says nothing.
    fn raise(&self, token: &mut Token, word: usize)
        requires own { token.old.table_id ≡ self.now.table.shared.table_id }
        requires counts { (2 ≤ word) × (word < 72) }
        ensures own { token.new.table_id ≡ token.old.table_id }
        ensures same { token.new.me ≡ token.old.me }
    {
        self.table.shared.fetch_add::<Count>(token, word, 1);
    }

    // The same with one less.
    fn lower(&self, token: &mut Token, word: usize)
        requires own { token.old.table_id ≡ self.now.table.shared.table_id }
        requires counts { (2 ≤ word) × (word < 72) }
        ensures own { token.new.table_id ≡ token.old.table_id }
        ensures same { token.new.me ≡ token.old.me }
    {
        self.table.shared.fetch_sub::<Count>(token, word, 1);
    }

    // Waits for a while until the turn is served. It may also return for no reason.
    pub(crate) fn sleep_until<R: Wait>(&self, rt: &R, token: &mut Token, turn: u64)
        requires own { token.old.table_id ≡ self.now.table.shared.table_id }
        ensures own { token.new.table_id ≡ token.old.table_id }
        ensures same { token.new.me ≡ token.old.me }
    {
        for _ in 0..LOOKS {
            if self.table.shared.peek(1) == turn {
                return;
            }
            hint::spin_loop();
        }
        self.raise(token, WAITING);
        let word = word_of(turn);
        let handed_over = self.table.shared.peek(word);
        if self.table.shared.peek(1) != turn {
            self.table.shared.park(rt, word, low_half(handed_over));
        }
        self.lower(token, WAITING);
    }

    // Wakes the seat that sleeps until this turn is served, where one may sleep.
    pub(crate) fn hand_over(&self, token: &mut Token, turn: u64)
        requires own { token.old.table_id ≡ self.now.table.shared.table_id }
        ensures own { token.new.table_id ≡ token.old.table_id }
        ensures same { token.new.me ≡ token.old.me }
    {
        if self.table.shared.peek(WAITING) != 0 {
            let word = word_of(turn);
            self.raise(token, word);
            self.table.shared.wake_one(word);
        }
    }

    // Leaves the book after a call: tells the others of it, and stands aside where the seat's evaluations are short.
    pub(crate) fn leave<R: Wait>(&self, rt: &R, token: &mut Token, notes: &mut Notes, news: News)
        requires own { token.old.table_id ≡ self.now.table.shared.table_id }
        ensures own { token.new.table_id ≡ token.old.table_id }
        ensures same { token.new.me ≡ token.old.me }
    {
        self.tell(token, news);
        if let Some(pause) = notes.short_pause() {
            self.table
                .shared
                .park_timeout(rt, ENDS, low_half(notes.ends), pause);
        }
        notes.surplus = self.table.shared.peek(SURPLUS);
        notes.ends = self.table.shared.peek(ENDS);
    }

    // Tells those that rest and those that stand aside.
    fn tell(&self, token: &mut Token, news: News)
        requires own { token.old.table_id ≡ self.now.table.shared.table_id }
        ensures own { token.new.table_id ≡ token.old.table_id }
        ensures same { token.new.me ≡ token.old.me }
    {
        if news.grown {
            self.raise(token, GROWTHS);
            self.wake_where(RESTING, GROWTHS);
        }
        if news.ended || news.surplus && self.table.shared.peek(IDLE) != 0 {
            self.raise(token, SURPLUS);
            self.table.shared.wake_all(SURPLUS);
        }
        if news.ended {
            self.raise(token, ENDS);
            self.table.shared.wake_all(ENDS);
        }
    }

    // Wakes all that sleep on a word, where another word counts some.
    fn wake_where(&self, count: usize, word: usize)
        requires { (count < 72) × (word < 72) }
    {
        if self.table.shared.peek(count) != 0 {
            self.table.shared.wake_all(word);
        }
    }

    // How often it was told that the journal has grown.
    pub(crate) fn growths(&self) -> u64 {
        self.table.shared.peek(GROWTHS)
    }

    // Sleeps until it was told more often. It may also return for no reason. A seat that found nothing time and again stands aside before.
    pub(crate) fn sleep_until_grown<R: Wait>(
        &self,
        rt: &R,
        token: &mut Token,
        notes: &mut Notes,
        growths: u64,
    )
        requires own { token.old.table_id ≡ self.now.table.shared.table_id }
        ensures own { token.new.table_id ≡ token.old.table_id }
        ensures same { token.new.me ≡ token.old.me }
    {
        if let Some(pause) = notes.idle_pause() {
            self.raise(token, IDLE);
            self.table
                .shared
                .park_timeout(rt, SURPLUS, low_half(notes.surplus), pause);
            self.lower(token, IDLE);
        }
        self.raise(token, RESTING);
        self.table.shared.park(rt, GROWTHS, low_half(growths));
        self.lower(token, RESTING);
    }
}
