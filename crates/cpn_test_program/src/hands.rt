//! What is at hand of the claims of a run.

use cpn_book::{Claimed, Completed, Evaluated, GivenBack, Ticket};
use cpn_core::Memory;
use std::alloc::Global;

/// What is at hand of the claims of a run: the tickets, and the evaluations that came back.
#[derive(Drop)]
pub struct Hand {
    tickets: Vec<Ticket>,
    evaluations: Vec<Evaluated>,
}

impl Hand {
    /// A hand with nothing in it.
    pub fn new(alloc: Global) -> Hand {
        Hand {
            tickets: Vec::new(alloc),
            evaluations: Vec::new(alloc),
        }
    }

    /// The ticket of a claim is at hand, if there is one.
    pub fn keep_claimed(&mut self, claimed: Claimed) -> Result<(), Memory> {
        if let Claimed::Ticket(ticket) = claimed {
            self.tickets.push(ticket)?;
        }
        Ok(())
    }

    /// An evaluation is at hand, if it comes back with the answer.
    pub fn keep_completed(&mut self, completed: Completed) -> Result<(), Memory> {
        if let Some(brought) = evaluation_of(completed) {
            self.evaluations.push(brought)?;
        }
        Ok(())
    }

    /// A ticket is at hand, if it comes back with the answer.
    pub fn keep_given_back(&mut self, given_back: GivenBack) -> Result<(), Memory> {
        if let Some(brought) = ticket_of(given_back) {
            self.tickets.push(brought)?;
        }
        Ok(())
    }

    /// Takes the ticket of the claim of a number, if it is at hand.
    pub fn take_ticket(&mut self, number: u64) -> Option<Ticket> {
        let at = self
            .tickets
            .iter()
            .position(|ticket| ticket.number() == number)?;
        Some(self.tickets.remove(at))
    }

    /// Takes the evaluation of the claim of a number, if it or its ticket is at hand.
    pub fn take_evaluation(&mut self, number: u64) -> Result<Option<Evaluated>, Memory> {
        let found = self
            .evaluations
            .iter()
            .position(|done| done.number() == number);
        if let Some(at) = found {
            return Ok(Some(self.evaluations.remove(at)));
        }
        let Some(ticket) = self.take_ticket(number) else {
            return Ok(None);
        };
        match ticket.evaluate() {
            Ok(done) => Ok(Some(done)),
            Err(_ticket) => Err(Memory),
        }
    }
}

/// The evaluation that comes back with an answer.
fn evaluation_of(completed: Completed) -> Option<Evaluated> {
    match completed {
        Completed::Stranger {
            kept: _kept,
            brought,
        } => Some(brought),
        Completed::Done => None,
        Completed::Void { number: _number } => None,
    }
}

/// The ticket that comes back with an answer.
fn ticket_of(given_back: GivenBack) -> Option<Ticket> {
    match given_back {
        GivenBack::Stranger {
            kept: _kept,
            brought,
        } => Some(brought),
        GivenBack::Cut => None,
        GivenBack::Void { number: _number } => None,
    }
}
