//! The pure state machine of a run: by the calls of its seats, claims and completions change its state one event after another.
//!
//! A seat claims a ready element and gets a ticket; the ticket is evaluated, with no book at hand; and the evaluation completes the
//! claim, in any order with those of other seats. A ticket may be given back, as where memory for its outputs is wanted. The crate has
//! no threads, prints nothing, and knows no document. What a call answers is stated by the definitions of states; the search for enabled
//! elements is the layer's below.
#![tactic(auto)]

mod alone;
mod answers;
mod books;
mod claiming;
mod committing;
mod completing;
mod cutting;
mod desks;
mod ends;
mod entering;
mod following;
mod giving_back;
mod laws;
mod occurring;
mod outlooks;
mod readers;
mod sendable;
mod standings;
mod tickets;

pub use answers::{Advanced, Claimed, Completed, Finish, GivenBack};
pub use books::Book;
pub use desks::{Desk, OneSeat};
pub use laws::{held_claims_stay, one_answer, phases_go_on};
pub use tickets::{Evaluated, Ticket};
