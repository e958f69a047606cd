//! The calls of a schedule.

use crate::numbers::{number_in, number_within};
use std::str::SplitWhitespace;

/// Of which run a seat brings an evaluation or a ticket.
#[derive(Clone, Copy)]
pub enum Run {
    /// Of the run itself.
    Own,
    /// Of the run of the net beside.
    Beside,
}

/// A call that leaves the run going on.
#[derive(Clone, Copy)]
pub enum Call {
    /// Nothing is done: it is seen where the run stands.
    Start,
    /// A seat makes the next claim.
    Claim { seat: u32 },
    /// A seat brings the evaluation of the claim of a number of a run.
    Complete { seat: u32, run: Run, number: u64 },
    /// A seat gives the ticket of the claim of a number of a run back.
    GiveBack { seat: u32, run: Run, number: u64 },
    /// The clock moves, where it may.
    Advance,
    /// The transitions are searched in the unclaimed marking, for what is enabled from a time on.
    Search { time: u64 },
}

/// The call that a line of a schedule is: its words with blanks between. `None` where it is none.
pub fn call_in(line: &str) -> Option<Call> {
    let mut words = line.split_whitespace();
    let name = words.next()?;
    let call = call_of(name, &mut words)?;
    match words.next() {
        Some(_) => None,
        None => Some(call),
    }
}

/// The call of a name, with what the next words tell.
fn call_of(name: &str, words: &mut SplitWhitespace<'_>) -> Option<Call> {
    match name {
        "start" => Some(Call::Start),
        "claim" => claim_in(words),
        "complete" => complete_in(words, Run::Own),
        "bring" => complete_in(words, Run::Beside),
        "back" => give_back_in(words, Run::Own),
        "bring_back" => give_back_in(words, Run::Beside),
        "advance" => Some(Call::Advance),
        "search" => search_in(words),
        _ => None,
    }
}

/// The claim of the seat that the next word tells.
fn claim_in(words: &mut SplitWhitespace<'_>) -> Option<Call> {
    let seat = seat_in(words)?;
    Some(Call::Claim { seat })
}

/// The completion of a claim of the run, by the seat and of the number that the next words tell.
fn complete_in(words: &mut SplitWhitespace<'_>, run: Run) -> Option<Call> {
    let seat = seat_in(words)?;
    let number = number_in(words.next()?)?;
    Some(Call::Complete { seat, run, number })
}

/// The ticket of a claim of the run that is given back, by the seat and of the number that the next words tell.
fn give_back_in(words: &mut SplitWhitespace<'_>, run: Run) -> Option<Call> {
    let seat = seat_in(words)?;
    let number = number_in(words.next()?)?;
    Some(Call::GiveBack { seat, run, number })
}

/// The search from the time on that the next word tells.
fn search_in(words: &mut SplitWhitespace<'_>) -> Option<Call> {
    let time = number_in(words.next()?)?;
    Some(Call::Search { time })
}

/// The seat that the next word tells.
fn seat_in(words: &mut SplitWhitespace<'_>) -> Option<u32> {
    let seat = number_within(words.next()?, 0, 4_294_967_295)?;
    Some(seat as u32)
}
