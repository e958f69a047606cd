//! How claims are committed: in claim order, and each is told to the monitors.

ghost use Rattle.std.specs.Prelude.{◌≡◌, ◌+◌, ◌<◌, ◌≤◌, [], ◌∷◌, ◌++◌, length, IfOk, OnOk, vec_len, vec_capacity};
ghost use Rattle.cpn_log.specs.Logs.{claims_made};
ghost use Rattle.cpn_log.specs.LogViews.{log_view};
ghost use Rattle.cpn_runs.specs.FinishedViews.{setup_view};
ghost use Rattle.cpn_runs.specs.Playable.{IsPlayable};
ghost use Rattle.cpn_book.specs.Committing.{MayCommit, CommitsNoMore, CommitLeads, MayNoteLast, KeepsLast, FindsLastStop};
ghost use Rattle.cpn_book.specs.Standings.{StillCommitted};

use crate::standings::Standing;
use cpn_core::{Memory, Occurrence};
use cpn_log::ClaimState;
use cpn_runs::Setup;
use std::alloc::Global;

/// What the commit of the next claim leads to.
#[derive(Clone, Copy)]
pub(crate) enum Commit {
    /// There is none that is done with its outputs.
    Nothing,
    /// It is committed, and the one behind it is next.
    Next,
    /// It is committed, and the monitor of this number stops the run.
    Stop(u64),
}

/// Commits each claim that is next and done with its outputs, up to the first after which a monitor stops the run: its number, if one
/// does.
pub(crate) fn commit_all(
    alloc: Global,
    setup: &Setup,
    standing: &mut Standing,
) -> Result<Option<u64>, Memory>
    requires playable { IsPlayable (setup_view setup.now) }
    requires may { MayCommit (setup_view setup.now) standing.old }
    ensures no_more { IfOk result (λ stop. CommitsNoMore (setup_view setup.now) standing.new stop) }
    ensures made { OnOk result (claims_made (log_view standing.new.log) ≡ claims_made (log_view standing.old.log)) }
    ensures unclaimed { OnOk result ((log_view standing.new.log).unclaimed ≡ (log_view standing.old.log).unclaimed) }
    ensures clock { standing.new.clock ≡ standing.old.clock }
    ensures journal { standing.new.journal ≡ standing.old.journal }
    ensures cut { standing.new.cut ≡ standing.old.cut }
    ensures held { standing.new.held ≡ standing.old.held }
    ensures committed { StillCommitted (setup_view setup.now) standing.old standing.new }
{
    for _number in standing.log.committed()..standing.log.len() {
        match commit_next(alloc, setup, standing)? {
            Commit::Nothing => return Ok(None),
            Commit::Next => {}
            Commit::Stop(monitor) => return Ok(Some(monitor)),
        }
    }
    Ok(None)
}

/// Commits the next claim, if it is done with its outputs; the monitors note its occurrence.
fn commit_next(alloc: Global, setup: &Setup, standing: &mut Standing) -> Result<Commit, Memory>
    requires playable { IsPlayable (setup_view setup.now) }
    requires may { MayCommit (setup_view setup.now) standing.old }
    ensures leads { IfOk result (λ commit. CommitLeads (setup_view setup.now) standing.old standing.new commit) }
    ensures made { OnOk result (claims_made (log_view standing.new.log) ≡ claims_made (log_view standing.old.log)) }
    ensures unclaimed { OnOk result ((log_view standing.new.log).unclaimed ≡ (log_view standing.old.log).unclaimed) }
    ensures clock { standing.new.clock ≡ standing.old.clock }
    ensures journal { standing.new.journal ≡ standing.old.journal }
    ensures cut { standing.new.cut ≡ standing.old.cut }
    ensures held { standing.new.held ≡ standing.old.held }
    ensures committed { StillCommitted (setup_view setup.now) standing.old standing.new }
{
    let number = standing.log.committed();
    if number == standing.log.len() {
        return Ok(Commit::Nothing);
    }
    let ClaimState::Done = standing.log.state(number) else {
        return Ok(Commit::Nothing);
    };
    let job = standing.log.job(number);
    let occurrence = Occurrence {
        number,
        time: job.time,
        element: job.element.clone()?,
    };
    standing.occurrences.reserve(1)?;
    standing.log.commit_one()?;
    match note_last(alloc, setup, standing, occurrence)? {
        Some(monitor) => Ok(Commit::Stop(monitor)),
        None => Ok(Commit::Next),
    }
}

/// The monitors note the occurrence of the claim that was committed last, which joins those before: the number of the first monitor that
/// stops the run after it, if one does. It has joined them after `Memory`, too.
pub(crate) fn note_last(
    alloc: Global,
    setup: &Setup,
    standing: &mut Standing,
    occurrence: Occurrence,
) -> Result<Option<u64>, Memory>
    requires may { MayNoteLast (setup_view setup.now) standing.old occurrence }
    requires room { vec_len standing.old.occurrences < vec_capacity standing.old.occurrences }
    ensures measured { OnOk result (KeepsLast (setup_view setup.now) standing.old occurrence standing.new) }
    ensures stop { IfOk result (FindsLastStop (setup_view setup.now) standing.old occurrence) }
    ensures occurrences { standing.new.occurrences.items ≡ standing.old.occurrences.items ++ occurrence ∷ [] }
    ensures others { standing.new ≡ record standing.old { occurrences = standing.new.occurrences; measuring = standing.new.measuring } }
{
    let noted = setup.monitors.note(
        alloc,
        &mut standing.measuring,
        &occurrence,
        standing.log.settled(),
    );
    standing.occurrences.push_reserved(occurrence);
    noted
}
