//! Seats, and the desk at which they take turns.

ghost use Rattle.std.specs.Prelude.{◌≡◌};
ghost use Rattle.cpn_seats.specs.Turns.{IsAtRest};

use crate::notes::Notes;
use crate::views::{Token, TurnTable};
use std::alloc::Global;

/// A book that seats share.
///
/// Source: own choice.
#[derive(Drop)]
pub struct SeatDesk {
    pub(crate) alloc: Global,
    pub(crate) table: TurnTable,
    ghost words: { table.shared.table_id.words ≡ 72 },
}

/// A seat at one desk, with a list of seat numbers and what it has seen. It acts under the first of its numbers, and has no turn between two
/// calls. It cannot be copied.
///
/// Source: own choice.
#[derive(Drop)]
pub struct Seat {
    pub(crate) token: Token,
    pub(crate) number: u32,
    pub(crate) notes: Notes,
    ghost at_rest: { IsAtRest token.me number },
}
