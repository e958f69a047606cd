//! How claims are cut off: where a monitor stops the run, for a fault, and for want of memory.

ghost use Rattle.std.specs.Prelude.{◌≡◌, ℕ, ◌+◌, ◌≤◌, ◌<◌, true, None, Some, List, [], ◌∷◌, ◌++◌, length, slice_get, IfOk, OnOk, OnErr, vec_len, vec_capacity};
ghost use Rattle.std.specs.Option.{option_map, is_some};
ghost use Rattle.cpn_log.specs.Kept.{IsKept};
ghost use Rattle.cpn_log.specs.Logs.{claims_made};
ghost use Rattle.cpn_log.specs.LogViews.{log_view};
ghost use Rattle.cpn_runs.specs.State.{PlainSetup, PlainEvent, cut_made, wants_memory};
ghost use Rattle.cpn_runs.specs.GivingBack.{OnlyGivenBack};
ghost use Rattle.cpn_runs.specs.Views.{end_view};
ghost use Rattle.cpn_book.specs.Committing.{CommitsNoMore, OwesCut, IsDueAt, AddsOwedCut};
ghost use Rattle.cpn_book.specs.Held.{held_below};
ghost use Rattle.cpn_book.specs.Telling.{TellsOn};
ghost use Rattle.cpn_tmset.specs.ChangedViews.{changes_view};
ghost use Rattle.cpn_book.specs.Standings.{IsToldAt, IsAt, StillCommitted, cut_view, events_in, occurrences_in};

use crate::standings::{Cut, Standing};
use cpn_core::Memory;
use cpn_log::ClaimState;
use cpn_runs::{End, Event};
use cpn_tmset::Changes;

/// Makes the cut that is owed: where a monitor stops the run after the last committed claim, or the next claim is done with a fault. What is
/// put back is added to what is told.
pub(crate) fn make_owed_cut(
    standing: &mut Standing,
    stop: Option<u64>,
    told: &mut Changes,
) -> Result<(), Memory>
    requires kept { IsKept (log_view standing.old.log) }
    requires only_given_back { OnlyGivenBack (option_map cut_view standing.old.cut) }
    requires room { vec_len standing.old.journal + 1 < vec_capacity standing.old.journal }
    ensures at { OnOk result ((setup : PlainSetup) → CommitsNoMore setup standing.old stop → IsAt setup standing.new) }
    ensures clock { standing.new.clock ≡ standing.old.clock }
    ensures events { OnOk result ((setup : PlainSetup) → CommitsNoMore setup standing.old stop → AddsOwedCut setup standing.old standing.new) }
    ensures stays { OnErr result (standing.new.journal ≡ standing.old.journal) }
    ensures made { OnOk result (standing.new.cut ≡ None → claims_made (log_view standing.new.log) ≡ claims_made (log_view standing.old.log)) }
    ensures few { OnOk result (claims_made (log_view standing.new.log) ≤ claims_made (log_view standing.old.log)) }
    ensures frees { OnOk result ((s k : ℕ) → slice_get standing.new.held.items s ≡ Some (Some k) → slice_get standing.old.held.items s ≡ Some (Some k)) }
    ensures room { vec_len standing.new.journal < vec_capacity standing.new.journal }
    ensures told { OnOk result (TellsOn (changes_view told.old) (changes_view told.new) (log_view standing.old.log).unclaimed (log_view standing.new.log).unclaimed) }
    ensures committed { (setup : PlainSetup) → IsToldAt setup standing.old → StillCommitted setup standing.old standing.new }
{
    let Some(cause) = owed_cause(standing, stop)? else {
        return Ok(());
    };
    let number = standing.log.committed();
    cut_off(standing, number, cause, told)
}

/// The cause of the cut that is owed, if one is.
fn owed_cause(standing: &Standing, stop: Option<u64>) -> Result<Option<End>, Memory>
    ensures owed { IfOk result (λ cause. (setup : PlainSetup) → CommitsNoMore setup standing.now stop → OnlyGivenBack (option_map cut_view standing.now.cut) → OwesCut setup standing.now cause) }
{
    if let Some(monitor) = stop {
        return Ok(Some(End::Stop(monitor)));
    }
    let number = standing.log.committed();
    if number == standing.log.len() {
        return Ok(None);
    }
    let ClaimState::Failed(fault) = standing.log.state(number) else {
        return Ok(None);
    };
    let element = standing.log.job(number).element.copy()?;
    Ok(Some(End::Fault(element, fault)))
}

/// Gives the open claim of a number back, for want of memory. It leaves room in the journal for one event more, and adds what is put back to
/// what is told.
pub(crate) fn cut_for_memory(
    standing: &mut Standing,
    number: u64,
    told: &mut Changes,
) -> Result<(), Memory>
    requires kept { IsKept (log_view standing.old.log) }
    requires behind { length (log_view standing.old.log).committed ≤ number }
    requires within { number ≤ claims_made (log_view standing.old.log) }
    ensures at { OnOk result ((setup : PlainSetup) → IsDueAt setup standing.old (record { number = number; cause = wants_memory }) → IsAt setup standing.new) }
    ensures clock { standing.new.clock ≡ standing.old.clock }
    ensures events { OnOk result (events_in standing.new ≡ events_in standing.old ++ cut_made number ∷ []) }
    ensures begins { (more : List PlainEvent) × (events_in standing.new ≡ events_in standing.old ++ more) }
    ensures room { OnOk result (vec_len standing.new.journal < vec_capacity standing.new.journal) }
    ensures told { OnOk result (TellsOn (changes_view told.old) (changes_view told.new) (log_view standing.old.log).unclaimed (log_view standing.new.log).unclaimed) }
    ensures committed { (log_view standing.new.log).committed ≡ (log_view standing.old.log).committed }
    ensures settled { (log_view standing.new.log).settled ≡ (log_view standing.old.log).settled }
    ensures occurrences { occurrences_in standing.new ≡ occurrences_in standing.old }
{
    standing.journal.reserve(2)?;
    cut_off(standing, number, End::Memory, told)
}

/// Cuts off the claims from a number on, none of which is committed, for a cause. What is put back is added to what is told.
fn cut_off(
    standing: &mut Standing,
    number: u64,
    cause: End,
    told: &mut Changes,
) -> Result<(), Memory>
    requires kept { IsKept (log_view standing.old.log) }
    requires behind { length (log_view standing.old.log).committed ≤ number }
    requires within { number ≤ claims_made (log_view standing.old.log) }
    requires room { vec_len standing.old.journal < vec_capacity standing.old.journal }
    ensures at { OnOk result ((setup : PlainSetup) → IsDueAt setup standing.old (record { number = number; cause = end_view cause }) → IsAt setup standing.new) }
    ensures clock { standing.new.clock ≡ standing.old.clock }
    ensures events { OnOk result (events_in standing.new ≡ events_in standing.old ++ cut_made number ∷ []) }
    ensures stays { OnErr result (standing.new.journal ≡ standing.old.journal) }
    ensures cut { OnOk result (is_some standing.new.cut ≡ true) }
    ensures few { OnOk result (claims_made (log_view standing.new.log) ≤ claims_made (log_view standing.old.log)) }
    ensures frees { OnOk result ((s k : ℕ) → slice_get standing.new.held.items s ≡ Some (Some k) → slice_get standing.old.held.items s ≡ Some (Some k)) }
    ensures capacity { vec_capacity standing.new.journal ≡ vec_capacity standing.old.journal }
    ensures len { OnOk result (vec_len standing.new.journal ≡ vec_len standing.old.journal + 1) }
    ensures told { OnOk result (TellsOn (changes_view told.old) (changes_view told.new) (log_view standing.old.log).unclaimed (log_view standing.new.log).unclaimed) }
    ensures committed { (log_view standing.new.log).committed ≡ (log_view standing.old.log).committed }
    ensures settled { (log_view standing.new.log).settled ≡ (log_view standing.old.log).settled }
    ensures occurrences { standing.new.occurrences ≡ standing.old.occurrences }
{
    let changes = standing.log.cut(number)?;
    told.append(changes)?;
    free_from(&mut standing.held, number);
    standing.cut = Some(Cut { number, cause });
    standing.journal.push_reserved(Event::Cut { number });
    Ok(())
}

/// No seat holds a claim from a number on.
fn free_from(held: &mut Vec<Option<u64>>, number: u64)
    ensures freed { (s : ℕ) → slice_get held.new.items s ≡ option_map (held_below number) (slice_get held.old.items s) }
    ensures long { length held.new.items ≡ length held.old.items }
{
    for seat in 0..held.len() {
        if let Some(kept) = held[seat]
            && number <= kept
        {
            held[seat] = None;
        }
    }
}
