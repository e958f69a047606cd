//! What the calls on a book answer.

use crate::books::Book;
use crate::tickets::{Evaluated, Ticket};
use cpn_jobs::Job;
use cpn_runs::Finished;
use std::sync::Arc;

/// What a seat gets that makes a claim. The refusals are tried from the last to the second.
///
/// Source: own choice.
#[derive(Drop)]
pub enum Claimed {
    /// The claim is made, on the element that the seed's next word draws from the ready ones.
    Ticket(Ticket),
    /// No element is ready.
    Nothing {
        /// How many claims are open.
        held: u64,
    },
    /// The seat has an open claim.
    Busy {
        /// The number of that claim.
        number: u64,
    },
    /// As many claims were made as the run may make.
    StepLimit,
    /// A cut stands: the run makes no further claim.
    Over,
}

/// What becomes of an evaluation that a seat brings. `Void` is tried first, then `Stranger`; after either the book is as it was.
///
/// Source: own choice.
#[derive(Drop)]
pub enum Completed {
    /// The claim is done, with its outputs or with their fault. What can be committed is committed, and a cut that is owed is made.
    Done,
    /// A cut stands at or below the claim's number, and has removed the claim.
    Void {
        /// The number of the cut.
        number: u64,
    },
    /// The seat has no open claim of this number and job.
    Stranger {
        /// The job of the open claim of this number, where there is one.
        kept: Option<Arc<Job>>,
        /// What was brought.
        brought: Evaluated,
    },
}

/// What becomes of a ticket that a seat gives back. `Void` is tried first, then `Stranger`; after either the book is as it was.
///
/// Source: own choice.
#[derive(Drop)]
pub enum GivenBack {
    /// A cut is made at the claim's number, for want of memory: the claim and all after it are removed.
    Cut,
    /// A cut stands at or below the claim's number, and has removed the claim.
    Void {
        /// The number of the cut.
        number: u64,
    },
    /// The seat has no open claim of this number and job.
    Stranger {
        /// The job of the open claim of this number, where there is one.
        kept: Option<Arc<Job>>,
        /// What was brought.
        brought: Ticket,
    },
}

/// Where the clock goes, or why it stays. The refusals are tried from the last to the second.
///
/// Source: own choice.
#[derive(Clone, Copy, Debug, PartialEq, Eq)]
pub enum Advanced {
    /// To this time, the least at which an element is enabled.
    Moved(u64),
    /// The least time at which an element is enabled is this one, which is above the last that the run may reach.
    Until(u64),
    /// No element is enabled at any time.
    Dead,
    /// So many claims are open.
    Open(u64),
    /// An element is ready at the clock.
    Ready,
    /// As many claims were made as the run may make.
    StepLimit,
    /// A cut stands.
    Over,
    /// An earlier call on this book wanted memory.
    Spent,
}

/// What a book gives that is asked to finish.
///
/// Source: own choice.
#[derive(Drop)]
pub enum Finish {
    /// The run has ended, and this is what it shows.
    Ended(Finished),
    /// It has not: a claim is open, or nothing ends it. The book is as it was.
    Running(Book),
    /// An earlier call on this book wanted memory.
    Spent,
}
