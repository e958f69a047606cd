//! A book that several seats share: each call of a seat is made at a turn of its own, and all of them see one journal.
//!
//! The book lies in one slot of a table. A seat draws a turn, waits until it is served, takes the book, makes its one call, puts the book
//! back and serves the next turn. A seat may be split, so that another thread has one, and seats are joined before the desk is closed. The crate
//! starts no threads and evaluates nothing: an evaluation takes no turn.
#![tactic(auto)]

mod calls;
mod desks;
mod handles;
mod laws;
mod notes;
mod seats;
mod sendable;
mod steps;
mod turns;
mod views;
mod waiting;

pub use desks::Split;
pub use handles::SeatHandle;
pub use laws::{calls_are_made_in_a_state, claims_stay_held, want_of_memory_stays};
pub use seats::{Seat, SeatDesk};
