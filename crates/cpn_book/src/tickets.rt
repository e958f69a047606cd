//! Tickets, which stand for open claims, and evaluations of their outputs.

ghost use Rattle.cpn_jobs.specs.Views.{job_view};
ghost use Rattle.cpn_book.specs.Evaluations.{IsReadyToEvaluate, Tells};

use cpn_core::{EvalFault, Memory, Outputs};
use cpn_eval::Refused;
use cpn_jobs::Job;
use std::alloc::Global;
use std::sync::Arc;

/// An open claim of a seat: its number, and its job, whose outputs are to be evaluated. A ticket cannot be copied.
///
/// Source: own choice.
#[derive(Drop)]
pub struct Ticket {
    alloc: Global,
    number: u64,
    job: Arc<Job>,
    ghost ready: { IsReadyToEvaluate (job_view job.value) },
}

impl Ticket {
    ghost use Rattle.std.specs.Prelude.{◌≡◌, IfOk, IfErr};
    ghost use Rattle.cpn_book.specs.Tickets.{number_of, job_of, evaluated_number, evaluated_job};

    /// The ticket of a claim.
    pub(crate) fn new(alloc: Global, number: u64, job: Arc<Job>) -> Ticket
        requires ready { IsReadyToEvaluate (job_view job.value) }
        ensures number { number_of result ≡ number }
        ensures job { job_of result ≡ job_view job.value }
    {
        Ticket { alloc, number, job }
    }

    /// The number of the claim, from 0.
    pub fn number(&self) -> u64
        ensures number { result ≡ number_of self.now }
    {
        self.number
    }

    /// The job of the claim: its element, its time and the work of its transition.
    pub fn job(&self) -> &Job
        ensures job { job_view result.now ≡ job_of self.now }
    {
        &self.job
    }

    /// One owner more of the job.
    pub(crate) fn share_job(&self) -> Result<Arc<Job>, Memory>
        ensures job { IfOk result (λ job. job_view job.value ≡ job_of self.now) }
    {
        Ok(self.job.clone()?)
    }

    /// Evaluates the outputs of the job: to the tokens that it makes, or to their first fault. It needs neither the net nor the
    /// book, so it may run beside the calls of other seats.
    ///
    /// # Errors
    ///
    /// The ticket comes back where memory is wanted, and may be evaluated again, or given back.
    pub fn evaluate(self) -> Result<Evaluated, Ticket>
        ensures number { IfOk result (λ done. evaluated_number done ≡ number_of self) }
        ensures job { IfOk result (λ done. evaluated_job done ≡ job_of self) }
        ensures back { IfErr result (λ ticket. ticket ≡ self) }
    {
        match self.job.outputs(self.alloc) {
            Ok(outputs) => Ok(self.evaluated(Ok(outputs))),
            Err(Refused::Fault(fault)) => Ok(self.evaluated(Err(fault))),
            Err(Refused::Memory) => Err(self),
        }
    }

    // The ticket with what its outputs are.
    fn evaluated(self, outcome: Result<Outputs, EvalFault>) -> Evaluated
        requires tells { Tells outcome (job_of self) }
        ensures number { evaluated_number result ≡ number_of self }
        ensures job { evaluated_job result ≡ job_of self }
    {
        let Ticket { number, job, .. } = self;
        Evaluated {
            number,
            job,
            result: outcome,
        }
    }
}

/// A claim whose outputs are evaluated, and which is to be completed. It cannot be copied.
///
/// Source: own choice.
#[derive(Drop)]
pub struct Evaluated {
    pub(crate) number: u64,
    pub(crate) job: Arc<Job>,
    pub(crate) result: Result<Outputs, EvalFault>,
    ghost tells: { Tells result (job_view job.value) },
}

impl Evaluated {
    ghost use Rattle.std.specs.Prelude.{◌≡◌};
    ghost use Rattle.cpn_book.specs.Tickets.{evaluated_number, evaluated_job};

    /// The number of the claim, from 0.
    pub fn number(&self) -> u64
        ensures number { result ≡ evaluated_number self.now }
    {
        self.number
    }

    /// The job of the claim.
    pub fn job(&self) -> &Job
        ensures job { job_view result.now ≡ evaluated_job self.now }
    {
        &self.job
    }

    /// What the outputs of the job are: the tokens that it makes, or their first fault.
    pub fn result(&self) -> &Result<Outputs, EvalFault>
        ensures { Tells result.now (evaluated_job self.now) }
    {
        &self.result
    }
}
