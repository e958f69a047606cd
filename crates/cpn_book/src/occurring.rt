//! How a claim is made and completed at once, where no other one is open.

ghost use Rattle.std.specs.Prelude.{◌≡◌, ◌+◌, ◌<◌, None, List, ◌++◌, [], ◌∷◌, IfOk, OnOk, vec_len, vec_capacity};
ghost use Rattle.std.specs.List.{count_by};
ghost use Rattle.std.specs.Option.{is_some};
ghost use Rattle.cpn_definitions.specs.Outcome.{gives};
ghost use Rattle.cpn_jobs.specs.Views.{job_view};
ghost use Rattle.cpn_log.specs.Logs.{claims_made};
ghost use Rattle.cpn_log.specs.LogViews.{log_view};
ghost use Rattle.cpn_runs.specs.FinishedViews.{setup_view};
ghost use Rattle.cpn_runs.specs.Playable.{IsPlayable};
ghost use Rattle.cpn_runs.specs.State.{PlainEvent, claim_made, claim_completed};
ghost use Rattle.cpn_book.specs.Committing.{CommitsNoMore};
ghost use Rattle.cpn_book.specs.DrawnClaims.{IsDrawnClaim};
ghost use Rattle.cpn_book.specs.Evaluations.{outputs_in};
ghost use Rattle.cpn_book.specs.GoingAlone.{AreRounds, GivesNoneBack};
ghost use Rattle.cpn_book.specs.Standings.{IsAt, StillCommitted, events_in};
ghost use Rattle.cpn_book.specs.Telling.{TellsOn};
ghost use Rattle.cpn_tmset.specs.ChangedViews.{changes_view};
ghost use Rattle.cpn_book.specs.Tickets.{evaluated_number, evaluated_job};

use crate::claiming::{copy_needs, make_claim};
use crate::committing::note_last;
use crate::completing::complete_claim;
use crate::cutting::make_owed_cut;
use crate::standings::Standing;
use crate::tickets::Evaluated;
use cpn_core::{Memory, Needs, Occurrence, Outputs};
use cpn_jobs::Job;
use cpn_runs::{Event, Setup};
use cpn_tmset::Changes;
use std::alloc::Global;
use std::sync::Arc;

/// Makes the claim of seat 0 that is drawn and evaluated, where no claim is open, and completes it. It leaves room in the journal for one
/// event more, and adds what changes in the unclaimed marking to what is told. After `Memory` nothing is known of where the run stands.
pub(crate) fn play_drawn(
    alloc: Global,
    setup: &Setup,
    standing: &mut Standing,
    done: Evaluated,
    needs: &Needs,
    told: &mut Changes,
) -> Result<(), Memory>
    requires playable { IsPlayable (setup_view setup.now) }
    requires drawn { IsDrawnClaim (setup_view setup.now) standing.old (evaluated_number done) (evaluated_job done) needs.now }
    requires none_open { count_by is_some standing.old.held.items ≡ 0 }
    ensures at { OnOk result (IsAt (setup_view setup.now) standing.new) }
    ensures clock { OnOk result (standing.new.clock ≡ standing.old.clock) }
    ensures none_open { OnOk result (count_by is_some standing.new.held.items ≡ 0) }
    ensures made { OnOk result (standing.new.cut ≡ None → claims_made (log_view standing.new.log) ≡ claims_made (log_view standing.old.log) + 1) }
    ensures rounds { OnOk result ((more : List PlainEvent) × (events_in standing.new ≡ events_in standing.old ++ more) × AreRounds more × GivesNoneBack (setup_view setup.now) (events_in standing.old) more) }
    ensures room { OnOk result (vec_len standing.new.journal < vec_capacity standing.new.journal) }
    ensures told { OnOk result (TellsOn (changes_view told.old) (changes_view told.new) (log_view standing.old.log).unclaimed (log_view standing.new.log).unclaimed) }
    ensures committed { OnOk result (StillCommitted (setup_view setup.now) standing.old standing.new) }
{
    let Evaluated {
        number,
        job,
        result,
    } = done;
    match result {
        Ok(outputs) => {
            let stop = occur(alloc, setup, standing, number, job, needs, outputs, told)?;
            make_owed_cut(standing, stop, told)
        }
        Err(fault) => {
            let needs = copy_needs(alloc, needs)?;
            make_claim(setup, standing, 0, number, job.clone()?, needs, told)?;
            let done = Evaluated {
                number,
                job,
                result: Err(fault),
            };
            complete_claim(alloc, setup, standing, 0, done, told)
        }
    }
}

/// Makes the claim of seat 0 that is drawn, where no claim is open, completes it with its outputs and commits it, all at once; the monitors
/// note its occurrence: the number of the first that stops the run after it, if one does. It leaves room in the journal for two events
/// more, and adds what changes to what is told. After `Memory` nothing is known of where the run stands.
fn occur(
    alloc: Global,
    setup: &Setup,
    standing: &mut Standing,
    number: u64,
    job: Arc<Job>,
    needs: &Needs,
    outputs: Outputs,
    told: &mut Changes,
) -> Result<Option<u64>, Memory>
    requires playable { IsPlayable (setup_view setup.now) }
    requires drawn { IsDrawnClaim (setup_view setup.now) standing.old number (job_view job.value) needs.now }
    requires none_open { count_by is_some standing.old.held.items ≡ 0 }
    requires outputs { outputs_in (job_view job.value) ≡ gives outputs }
    ensures no_more { IfOk result (λ stop. CommitsNoMore (setup_view setup.now) standing.new stop) }
    ensures uncut { standing.new.cut ≡ None }
    ensures held { standing.new.held ≡ standing.old.held }
    ensures clock { standing.new.clock ≡ standing.old.clock }
    ensures made { OnOk result (claims_made (log_view standing.new.log) ≡ claims_made (log_view standing.old.log) + 1) }
    ensures events { OnOk result (events_in standing.new ≡ events_in standing.old ++ claim_made 0 number ∷ claim_completed 0 number ∷ []) }
    ensures room { OnOk result (vec_len standing.new.journal + 1 < vec_capacity standing.new.journal) }
    ensures told { OnOk result (TellsOn (changes_view told.old) (changes_view told.new) (log_view standing.old.log).unclaimed (log_view standing.new.log).unclaimed) }
    ensures committed { OnOk result (StillCommitted (setup_view setup.now) standing.old standing.new) }
{
    standing.journal.reserve(4)?;
    standing.occurrences.reserve(1)?;
    let occurrence = Occurrence {
        number,
        time: job.time,
        element: job.element.clone()?,
    };
    let changes = standing.log.occur(0, job, needs, outputs)?;
    told.append(changes)?;
    let stop = note_last(alloc, setup, standing, occurrence)?;
    standing
        .journal
        .push_reserved(Event::Claim { seat: 0, number });
    standing
        .journal
        .push_reserved(Event::Done { seat: 0, number });
    Ok(stop)
}
