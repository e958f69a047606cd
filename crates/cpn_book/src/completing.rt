//! How a claim is completed.

ghost use Rattle.std.specs.Prelude.{◌≡◌, ◌≢◌, ℕ, ◌+◌, ◌-◌, ◌≤◌, ◌<◌, Some, None, List, [], ◌∷◌, ◌++◌, length, map, slice_get, slice_set, OnOk, OnErr, vec_len, vec_capacity};
ghost use Rattle.std.specs.List.{AllByRecursion};
ghost use Rattle.std.specs.Option.{option_map};
ghost use Rattle.cpn_definitions.specs.Bounds.{most_made};
ghost use Rattle.cpn_definitions.specs.Occurrence.{Made};
ghost use Rattle.cpn_definitions.specs.Outcome.{gives};
ghost use Rattle.cpn_jobs.specs.Views.{job_view};
ghost use Rattle.cpn_log.specs.Kept.{IsKept};
ghost use Rattle.cpn_log.specs.Logs.{claims_made, standings, stands_open, with_status};
ghost use Rattle.cpn_log.specs.LogViews.{log_view, job_in, jobs_in};
ghost use Rattle.cpn_tmset.specs.ChangedViews.{changes_view};
ghost use Rattle.cpn_runs.specs.FinishedViews.{setup_view};
ghost use Rattle.cpn_runs.specs.Playable.{IsPlayable};
ghost use Rattle.cpn_runs.specs.State.{PlainEvent, claim_completed};
ghost use Rattle.cpn_runs.specs.GivingBack.{OnlyGivenBack};
ghost use Rattle.cpn_book.specs.Committing.{MayCommit, AddsCompletion};
ghost use Rattle.cpn_book.specs.Evaluations.{outcome_of, status_by};
ghost use Rattle.cpn_book.specs.Standings.{IsAt, StillCommitted, cut_view, events_in};
ghost use Rattle.cpn_book.specs.Telling.{TellsOn};
ghost use Rattle.cpn_book.specs.Tickets.{evaluated_number, evaluated_job};

use crate::committing::commit_all;
use crate::cutting::make_owed_cut;
use crate::standings::Standing;
use crate::tickets::Evaluated;
use cpn_core::{EvalFault, Memory, Outputs};
use cpn_log::Log;
use cpn_runs::{Event, Setup};
use cpn_tmset::Changes;
use std::alloc::Global;

/// Completes the claim that a seat holds: with its outputs, or with their fault. Then what can be committed is committed, and a cut
/// that is owed is made. It leaves room in the journal for one event more, and adds what is added and put back to what is told.
pub(crate) fn complete_claim(
    alloc: Global,
    setup: &Setup,
    standing: &mut Standing,
    seat: u32,
    done: Evaluated,
    told: &mut Changes,
) -> Result<(), Memory>
    requires playable { IsPlayable (setup_view setup.now) }
    requires at { IsAt (setup_view setup.now) standing.old }
    requires held { slice_get standing.old.held.items seat ≡ Some (Some (evaluated_number done)) }
    requires job { option_map job_view (job_in standing.old.log (evaluated_number done)) ≡ Some (evaluated_job done) }
    ensures at { OnOk result (IsAt (setup_view setup.now) standing.new) }
    ensures clock { standing.new.clock ≡ standing.old.clock }
    ensures events { OnOk result (AddsCompletion (setup_view setup.now) seat (evaluated_number done) standing.old standing.new) }
    ensures begins { (more : List PlainEvent) × (events_in standing.new ≡ events_in standing.old ++ more) }
    ensures made { OnOk result (standing.new.cut ≡ None → claims_made (log_view standing.new.log) ≡ claims_made (log_view standing.old.log)) }
    ensures few { OnOk result (claims_made (log_view standing.new.log) ≤ claims_made (log_view standing.old.log)) }
    ensures frees { OnOk result ((s k : ℕ) → slice_get standing.new.held.items s ≡ Some (Some k) → (slice_get standing.old.held.items s ≡ Some (Some k)) × (k ≢ evaluated_number done)) }
    ensures room { OnOk result (vec_len standing.new.journal < vec_capacity standing.new.journal) }
    ensures told { OnOk result (TellsOn (changes_view told.old) (changes_view told.new) (log_view standing.old.log).unclaimed (log_view standing.new.log).unclaimed) }
    ensures committed { StillCommitted (setup_view setup.now) standing.old standing.new }
{
    standing.journal.reserve(3)?;
    fill_claim(setup, standing, seat, done, told)?;
    let stop = commit_all(alloc, setup, standing)?;
    make_owed_cut(standing, stop, told)
}

/// The claim that a seat holds is done, with its outputs or with their fault.
fn fill_claim(
    setup: &Setup,
    standing: &mut Standing,
    seat: u32,
    done: Evaluated,
    told: &mut Changes,
) -> Result<(), Memory>
    requires playable { IsPlayable (setup_view setup.now) }
    requires at { IsAt (setup_view setup.now) standing.old }
    requires held { slice_get standing.old.held.items seat ≡ Some (Some (evaluated_number done)) }
    requires job { option_map job_view (job_in standing.old.log (evaluated_number done)) ≡ Some (evaluated_job done) }
    requires room { vec_len standing.old.journal < vec_capacity standing.old.journal }
    ensures may { OnOk result (MayCommit (setup_view setup.now) standing.new) }
    ensures only_given_back { OnlyGivenBack (option_map cut_view standing.new.cut) }
    ensures held { OnOk result (standing.new.held.items ≡ slice_set standing.old.held.items seat None) }
    ensures clock { standing.new.clock ≡ standing.old.clock }
    ensures events { OnOk result (events_in standing.new ≡ events_in standing.old ++ claim_completed seat (evaluated_number done) ∷ []) }
    ensures stays { OnErr result (standing.new.journal ≡ standing.old.journal) }
    ensures made { OnOk result (claims_made (log_view standing.new.log) ≡ claims_made (log_view standing.old.log)) }
    ensures capacity { vec_capacity standing.new.journal ≡ vec_capacity standing.old.journal }
    ensures len { OnOk result (vec_len standing.new.journal ≡ vec_len standing.old.journal + 1) }
    ensures told { OnOk result (TellsOn (changes_view told.old) (changes_view told.new) (log_view standing.old.log).unclaimed (log_view standing.new.log).unclaimed) }
    ensures committed { StillCommitted (setup_view setup.now) standing.old standing.new }
{
    let Evaluated { number, result, .. } = done;
    complete_in(&mut standing.log, number, result, told)?;
    standing.held[seat as usize] = None;
    standing.journal.push_reserved(Event::Done { seat, number });
    Ok(())
}

/// An open claim of a log is done, with what its outputs are.
fn complete_in(
    log: &mut Log,
    number: u64,
    outcome: Result<Outputs, EvalFault>,
    told: &mut Changes,
) -> Result<(), Memory>
    requires kept { IsKept (log_view log.old) }
    requires open { slice_get (standings (log_view log.old)) number ≡ Some stands_open }
    requires few { (outputs : List Made) → outcome_of outcome ≡ gives outputs → length outputs ≤ most_made }
    requires on_places { (outputs : List Made) → outcome_of outcome ≡ gives outputs → AllByRecursion (λ made. made.place < length (log_view log.old).unclaimed) outputs }
    ensures done { OnOk result ((log_view log.new).claims ≡ with_status (status_by outcome) (number - length (log_view log.old).committed) (log_view log.old).claims) }
    ensures jobs { jobs_in log.new ≡ jobs_in log.old }
    ensures committed { (log_view log.new).committed ≡ (log_view log.old).committed }
    ensures settled { (log_view log.new).settled ≡ (log_view log.old).settled }
    ensures kept { OnOk result (IsKept (log_view log.new)) }
    ensures told { OnOk result (TellsOn (changes_view told.old) (changes_view told.new) (log_view log.old).unclaimed (log_view log.new).unclaimed) }
{
    match outcome {
        Ok(outputs) => {
            let changes = log.fill(number, outputs)?;
            told.append(changes)?;
        }
        Err(fault) => log.fail(number, fault),
    }
    Ok(())
}
