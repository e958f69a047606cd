//! What the calls on a book answer, as text.

ghost use Rattle.std.specs.Option.{option_map};
ghost use Rattle.cpn_book.specs.Tickets.{job_of};
ghost use Rattle.cpn_core.specs.Nets.{net_view};
ghost use Rattle.cpn_jobs.specs.Views.{job_view};
ghost use Rattle.cpn_report.specs.Printable.{IsPrintableNet};
ghost use Rattle.cpn_test_program.specs.Shown.{HasElement, KeptHasElement, KeepsElement, TellsElement, TicketKeepsElement};

use cpn_book::{Advanced, Claimed, Completed, GivenBack, Ticket};
use cpn_core::{Memory, Net};
use cpn_jobs::Job;
use cpn_report::element_text;
use std::alloc::Global;
use std::fmt::Write;
use std::sync::Arc;

/// Appends the answer to a seat that makes a claim.
pub fn push_claimed(
    out: &mut String,
    alloc: Global,
    net: &Net,
    answer: &Claimed,
) -> Result<(), Memory>
    requires net { IsPrintableNet (net_view net.now) }
    requires element { TellsElement (net_view net.now) answer.now }
{
    match answer {
        Claimed::Ticket(ticket) => push_ticket(out, alloc, net, ticket),
        Claimed::Nothing { held } => push_number(out, "nothing", *held),
        Claimed::Busy { number } => push_number(out, "busy", *number),
        Claimed::StepLimit => push_words(out, "step_limit"),
        Claimed::Over => push_words(out, "over"),
    }
}

/// Appends a ticket: its number and its job.
fn push_ticket(out: &mut String, alloc: Global, net: &Net, ticket: &Ticket) -> Result<(), Memory>
    requires net { IsPrintableNet (net_view net.now) }
    requires element { HasElement (net_view net.now) (job_of ticket.now) }
{
    push_number(out, "ticket", ticket.number())?;
    push_job(out, alloc, net, ticket.job())
}

/// Appends the answer to a seat that brings an evaluation.
pub fn push_completed(
    out: &mut String,
    alloc: Global,
    net: &Net,
    answer: &Completed,
) -> Result<(), Memory>
    requires net { IsPrintableNet (net_view net.now) }
    requires element { KeepsElement (net_view net.now) answer.now }
{
    match answer {
        Completed::Done => push_words(out, "done"),
        Completed::Void { number } => push_number(out, "void", *number),
        Completed::Stranger { kept, .. } => push_stranger(out, alloc, net, kept),
    }
}

/// Appends the answer to a seat that gives a ticket back.
pub fn push_given_back(
    out: &mut String,
    alloc: Global,
    net: &Net,
    answer: &GivenBack,
) -> Result<(), Memory>
    requires net { IsPrintableNet (net_view net.now) }
    requires element { TicketKeepsElement (net_view net.now) answer.now }
{
    match answer {
        GivenBack::Cut => push_words(out, "cut"),
        GivenBack::Void { number } => push_number(out, "void", *number),
        GivenBack::Stranger { kept, .. } => push_stranger(out, alloc, net, kept),
    }
}

/// Appends the answer where the clock is to move.
pub fn push_advanced(out: &mut String, answer: Advanced) -> Result<(), Memory> {
    match answer {
        Advanced::Moved(time) => push_number(out, "moved", time),
        Advanced::Until(time) => push_number(out, "until", time),
        Advanced::Dead => push_words(out, "dead"),
        Advanced::Open(held) => push_number(out, "open", held),
        Advanced::Ready => push_words(out, "ready"),
        Advanced::StepLimit => push_words(out, "step_limit"),
        Advanced::Over => push_words(out, "over"),
        Advanced::Spent => push_words(out, "spent"),
    }
}

/// Appends that a call is not made, and why.
pub fn push_not_made(out: &mut String, why: &str) -> Result<(), Memory> {
    out.push_str("not made: ")?;
    out.push_str(why)?;
    Ok(())
}

/// Appends words.
pub fn push_words(out: &mut String, words: &str) -> Result<(), Memory> {
    out.push_str(words)?;
    Ok(())
}

/// Appends a word and a number.
fn push_number(out: &mut String, word: &str, number: u64) -> Result<(), Memory> {
    write!(out, "{word} {number}")?;
    Ok(())
}

/// Appends that what was brought is a stranger, and the job of the open claim of its number, if there is one.
fn push_stranger(
    out: &mut String,
    alloc: Global,
    net: &Net,
    kept: &Option<Arc<Job>>,
) -> Result<(), Memory>
    requires net { IsPrintableNet (net_view net.now) }
    requires element { KeptHasElement (net_view net.now) (option_map (λ job. job_view job.value) kept.now) }
{
    match kept {
        Some(job) => {
            push_words(out, "stranger")?;
            push_job(out, alloc, net, job)
        }
        None => push_words(out, "stranger none"),
    }
}

/// Appends a job: its time and its element.
fn push_job(out: &mut String, alloc: Global, net: &Net, job: &Job) -> Result<(), Memory>
    requires net { IsPrintableNet (net_view net.now) }
    requires element { HasElement (net_view net.now) (job_view job.now) }
{
    let time = job.time;
    write!(out, " @{time} ")?;
    out.push_str(element_text(alloc, net, &job.element)?.as_str())?;
    Ok(())
}
