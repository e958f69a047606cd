//! The table that the seats of a desk share, and what a seat knows of it.
//!
//! Word 0 counts the turns drawn and word 1 the turns served, both modulo 2^64. Of the 70 words behind them the rule says nothing: by these seats
//! wake each other (`waiting.rt`). The one slot has the book.

use atomic_table::{Seat as TableSeat, Table, TableRule};
use cpn_book::Book;
use cpn_runs::{Event, Setup};
use std::alloc::Global;
use std::collections::LinkedList;
use std::snapshot::Snapshot;

/// What a seat knows. It is for the proofs alone: no value of it is made.
pub struct View {
    /// The setup of the run; none once the seat was joined away.
    pub setup: Option<Setup>,
    /// The seat numbers that are its own.
    pub numbers: LinkedList<u32>,
    /// The journal when it last held the book, or a seat that was joined into it did.
    pub seen: LinkedList<Event>,
    /// What had seen less of two seats that were joined, until it is told that this is a part of `seen`, and the numbers of that seat.
    pub met: LinkedList<Event>,
    pub met_numbers: LinkedList<u32>,
    /// The setup of the seat that was joined into it last, until it is told that this is its own.
    pub met_setup: Option<Setup>,
    /// How many numbers were given when it last held the book, and whether the book was spent.
    pub given: u32,
    pub spent: bool,
    /// Whether it has a turn, and which.
    pub waits: bool,
    pub turn: u64,
    /// Whether its turn was served and it has the slot, and which book lay there.
    pub holds: bool,
    pub found: Option<Book>,
}

/// What the slot has: the book, and nothing only once the desk was closed.
pub type Slot = Option<Book>;

/// The rule of the turns. The key is the book with which the desk was opened, once its first seat has entered.
pub struct TurnRule;

impl TableRule<Slot, View, Snapshot<Book>> for TurnRule {
    ghost use Rattle.cpn_book.specs.Books.{setup_in};
    ghost use Rattle.cpn_seats.specs.Turns.{KeepsTurns, first_view};

    ghost holds = { λ key. KeepsTurns (setup_in key.value) };

    ghost first = { λ key. first_view key.value };
}

/// The table of a desk.
pub type TurnTable = Table<Slot, View, Snapshot<Book>, TurnRule, Global>;

/// By what a seat steps in the table.
pub type Token = TableSeat<Slot, View>;
