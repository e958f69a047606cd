//! How the next claim is drawn, and how a seat makes it.

ghost use Rattle.std.specs.Prelude.{◌≡◌, ◌+◌, ◌<◌, Some, None, List, [], ◌∷◌, ◌++◌, length, map, slice_get, slice_set, IfOk, IfSome, OnOk, vec_len, vec_capacity};
ghost use Rattle.std.specs.Option.{option_map};
ghost use Rattle.cpn_core.specs.Elements.{element_view};
ghost use Rattle.cpn_definitions.specs.Enabled.{ready};
ghost use Rattle.cpn_due.specs.Due.{PlainEnabled, due_at};
ghost use Rattle.cpn_index.specs.Index.{clock_in, kept_in, listed_in, IsIndexOf};
ghost use Rattle.cpn_jobs.specs.Views.{job_view, work_view};
ghost use Rattle.cpn_log.specs.Logs.{claims_made};
ghost use Rattle.cpn_log.specs.LogViews.{log_view, job_in};
ghost use Rattle.cpn_runs.specs.FinishedViews.{setup_view};
ghost use Rattle.cpn_runs.specs.Playable.{IsPlayable};
ghost use Rattle.cpn_runs.specs.State.{PlainEvent, claim_made};
ghost use Rattle.cpn_tmset.specs.ChangedViews.{changes_view};
ghost use Rattle.cpn_book.specs.DrawnClaims.{IsDrawnClaim};
ghost use Rattle.cpn_book.specs.Standings.{IsAt, StillCommitted, events_in, occurrences_in};
ghost use Rattle.cpn_book.specs.Telling.{TellsOn};
ghost use Rattle.cpn_book.specs.Tickets.{number_of, job_of};
ghost use Rattle.cpn_book.specs.Works.{AreWorks};

use crate::standings::Standing;
use crate::tickets::Ticket;
use cpn_core::{Element, Memory, Needed, Needs};
use cpn_index::Index;
use cpn_jobs::{Job, Work};
use cpn_runs::{Event, Setup};
use cpn_tmset::Changes;
use std::alloc::Global;
use std::sync::Arc;

/// A claim that is drawn: its word is taken, and it is still to be made.
#[derive(Drop)]
pub(crate) struct DrawnClaim {
    /// The ticket of the claim.
    pub(crate) ticket: Ticket,
    /// The position of its element among the ready ones, from 0.
    pub(crate) position: u64,
}

/// The next claim, of a seat that holds none, on the element that the next word draws from the ready ones. It leaves room in the
/// journal for one event more, and adds what it takes to what is told.
pub(crate) fn open_claim(
    alloc: Global,
    setup: &Setup,
    works: &[Arc<Work>],
    index: &Index,
    standing: &mut Standing,
    seat: u32,
    told: &mut Changes,
) -> Result<Ticket, Memory>
    requires playable { IsPlayable (setup_view setup.now) }
    requires works { AreWorks (setup_view setup.now).net (map (λ work. work_view work.value) works.now) }
    requires at { IsAt (setup_view setup.now) standing.old }
    requires uncut { standing.old.cut ≡ None }
    requires below { claims_made (log_view standing.old.log) < setup.now.limits.steps }
    requires known { seat < setup.now.limits.seats }
    requires free { slice_get standing.old.held.items seat ≡ Some None }
    requires index { IsIndexOf (setup_view setup.now).net (log_view standing.old.log).unclaimed index.now }
    requires clock { clock_in index.now ≡ standing.old.clock }
    requires some { 0 < length (ready standing.old.clock (listed_in index.now)) }
    ensures at { OnOk result (IsAt (setup_view setup.now) standing.new) }
    ensures clock { standing.new.clock ≡ standing.old.clock }
    ensures number { IfOk result (λ ticket. number_of ticket ≡ claims_made (log_view standing.old.log)) }
    ensures events { IfOk result (λ ticket. events_in standing.new ≡ events_in standing.old ++ claim_made seat (number_of ticket) ∷ []) }
    ensures begins { (more : List PlainEvent) × (events_in standing.new ≡ events_in standing.old ++ more) }
    ensures job { IfOk result (λ ticket. option_map job_view (job_in standing.new.log (number_of ticket)) ≡ Some (job_of ticket)) }
    ensures room { OnOk result (vec_len standing.new.journal < vec_capacity standing.new.journal) }
    ensures told { OnOk result (TellsOn (changes_view told.old) (changes_view told.new) (log_view standing.old.log).unclaimed (log_view standing.new.log).unclaimed) }
    ensures committed { StillCommitted (setup_view setup.now) standing.old standing.new }
    ensures occurrences { occurrences_in standing.new ≡ occurrences_in standing.old }
{
    let DrawnClaim { ticket, position } = draw_claim(alloc, setup, works, index, standing)?;
    let number = ticket.number();
    let job = ticket.share_job()?;
    let needs = copy_needs(alloc, &index.ready(position).needs)?;
    make_claim(setup, standing, seat, number, job, needs, told)?;
    Ok(ticket)
}

/// Draws the next claim: the element that the next word draws from the ready ones of the index. The job shares the element with it.
pub(crate) fn draw_claim(
    alloc: Global,
    setup: &Setup,
    works: &[Arc<Work>],
    index: &Index,
    standing: &mut Standing,
) -> Result<DrawnClaim, Memory>
    requires playable { IsPlayable (setup_view setup.now) }
    requires works { AreWorks (setup_view setup.now).net (map (λ work. work_view work.value) works.now) }
    requires at { IsAt (setup_view setup.now) standing.old }
    requires uncut { standing.old.cut ≡ None }
    requires below { claims_made (log_view standing.old.log) < setup.now.limits.steps }
    requires index { IsIndexOf (setup_view setup.now).net (log_view standing.old.log).unclaimed index.now }
    requires clock { clock_in index.now ≡ standing.old.clock }
    requires some { 0 < length (ready standing.old.clock (listed_in index.now)) }
    ensures within { IfOk result (λ claim. claim.position < length (ready (clock_in index.now) (listed_in index.now))) }
    ensures drawn { IfOk result (λ claim. (x : PlainEnabled) → slice_get (due_at (clock_in index.now) (kept_in index.now)) claim.position ≡ Some x → IsDrawnClaim (setup_view setup.now) standing.new (number_of claim.ticket) (job_of claim.ticket) x.needs) }
    ensures same { standing.new ≡ record standing.old { draw = standing.new.draw } }
{
    let number = standing.log.len();
    let position = standing.draw.pick(index.ready_len());
    let element = index.ready(position).entry.element.clone()?;
    let job = job_of_claim(alloc, works, element, standing.clock)?;
    let ticket = Ticket::new(alloc, number, job);
    Ok(DrawnClaim { ticket, position })
}

/// A copy of needs.
pub(crate) fn copy_needs(alloc: Global, needs: &Needs) -> Result<Needs, Memory>
    ensures copied { IfOk result (λ copied. copied ≡ needs.now) }
{
    let tokens = needs.tokens();
    let mut copied = Needs::new(alloc);
    for need in tokens {
        copied.add(Needed {
            place: need.place,
            value: need.value.copy()?,
            offset: need.offset,
        })?;
    }
    Ok(copied)
}

/// Makes the claim that is drawn, of a seat that holds none. It leaves room in the journal for one event more, and adds what it takes to
/// what is told.
pub(crate) fn make_claim(
    setup: &Setup,
    standing: &mut Standing,
    seat: u32,
    number: u64,
    job: Arc<Job>,
    needs: Needs,
    told: &mut Changes,
) -> Result<(), Memory>
    requires playable { IsPlayable (setup_view setup.now) }
    requires drawn { IsDrawnClaim (setup_view setup.now) standing.old number (job_view job.value) needs }
    requires known { seat < setup.now.limits.seats }
    requires free { slice_get standing.old.held.items seat ≡ Some None }
    ensures at { OnOk result (IsAt (setup_view setup.now) standing.new) }
    ensures clock { standing.new.clock ≡ standing.old.clock }
    ensures uncut { standing.new.cut ≡ None }
    ensures made { OnOk result (claims_made (log_view standing.new.log) ≡ claims_made (log_view standing.old.log) + 1) }
    ensures events { OnOk result (events_in standing.new ≡ events_in standing.old ++ claim_made seat number ∷ []) }
    ensures begins { (more : List PlainEvent) × (events_in standing.new ≡ events_in standing.old ++ more) }
    ensures holds { OnOk result (standing.new.held.items ≡ slice_set standing.old.held.items seat (Some number)) }
    ensures job { OnOk result (option_map job_view (job_in standing.new.log number) ≡ Some (job_view job.value)) }
    ensures room { OnOk result (vec_len standing.new.journal < vec_capacity standing.new.journal) }
    ensures told { OnOk result (TellsOn (changes_view told.old) (changes_view told.new) (log_view standing.old.log).unclaimed (log_view standing.new.log).unclaimed) }
    ensures committed { StillCommitted (setup_view setup.now) standing.old standing.new }
    ensures occurrences { occurrences_in standing.new ≡ occurrences_in standing.old }
{
    standing.journal.reserve(2)?;
    let changes = standing.log.push(seat, job, needs)?;
    told.append(changes)?;
    standing.held[seat as usize] = Some(number);
    standing
        .journal
        .push_reserved(Event::Claim { seat, number });
    Ok(())
}

/// The job of a claim on an element: with the work of its transition.
fn job_of_claim(
    alloc: Global,
    works: &[Arc<Work>],
    element: Arc<Element>,
    time: u64,
) -> Result<Arc<Job>, Memory>
    requires within { element.value.transition < length works.now }
    ensures element { IfOk result (λ job. element_view job.value.element.value ≡ element_view element.value) }
    ensures time { IfOk result (λ job. job.value.time ≡ time) }
    ensures work { IfOk result (λ job. IfSome (slice_get works.now element.value.transition) (λ work. work_view job.value.work.value ≡ work_view work.value)) }
{
    let work = works[element.transition as usize].clone()?;
    Ok(Arc::new(
        alloc,
        Job {
            element,
            time,
            work,
        },
    )?)
}
