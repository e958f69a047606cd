//! From the phases of a document, as they are written, to those whose edits can be made.

ghost use Rattle.std.specs.Prelude.{◌≡◌, map};
ghost use Rattle.cpn_core.specs.Nets.{net_view};
ghost use Rattle.cpn_declared.specs.DeclsViews.{decls_view};
ghost use Rattle.cpn_document.specs.Views.{edit_view as written_view, phase_view as written_phase_view};
ghost use Rattle.cpn_monitor.specs.Views.{monitors_view};
ghost use Rattle.cpn_edit_texts.specs.Answers.{Edits, EditsBy};
ghost use Rattle.cpn_edit_texts.specs.Checked.{edit_so, edits_so, phases_so};
ghost use Rattle.cpn_edit_texts.specs.Ready.{MayBeEdited};
ghost use Rattle.cpn_edit_texts.specs.Texts.{known};
ghost use Rattle.cpn_edit_texts.specs.Views.{edit_view, edits_view, phases_view};

use crate::edits::{Edit, Phase};
use crate::guards::{edited_transition, guard_of};
use crate::initials::tokens_in_text;
use crate::refusals::EditError;
use cpn_core::Net;
use cpn_document::{EditPart, PhasePart, Pointer};
use cpn_module_trees::guard_in;
use cpn_monitor::Monitors;
use cpn_monitor_texts::NamedNet;
use cpn_types::Decls;
use std::alloc::Global;

/// What an edit names, by its number, or the refusal of the edit at a pointer.
fn known_at(at: Pointer, found: Option<u32>) -> Result<u32, EditError>
    ensures known { Edits (λ k. k) result (known at found) }
{
    match found {
        Some(number) => Ok(number),
        None => Err(EditError::UnknownName(at)),
    }
}

/// An edit in a net that has its names, with these monitors, as [`check_edit`] checks it.
fn edit_in(
    alloc: Global,
    decls: &Decls,
    named: &NamedNet,
    monitors: &Monitors,
    whole: Pointer,
    at: Pointer,
    edit: &cpn_document::Edit,
) -> Result<Edit, EditError>
    requires editable { MayBeEdited (decls_view decls.now) (net_view named.now) (monitors_view monitors.now) }
    ensures reads { EditsBy edit_view result (edit_so (decls_view decls.now) (net_view named.now) (monitors_view monitors.now) whole at (written_view edit.now)) }
{
    let net = named.net();
    match edit {
        cpn_document::Edit::Guard { transition, text } => {
            let number = known_at(whole, named.transition_named(transition.as_str()))?;
            let parsing = guard_in(alloc, text.as_str())?;
            let guard = guard_of(alloc, decls, at, &parsing)?;
            let edited = edited_transition(alloc, decls, net, monitors, at, number, guard)?;
            Ok(Edit::Guard(number, edited))
        }
        cpn_document::Edit::Initial { place, text } => {
            let number = known_at(whole, named.place_named(place.as_str()))?;
            let its = &net.places[number as usize];
            let tokens = tokens_in_text(alloc, decls, &net.funs, at, its, text.as_str())?;
            Ok(Edit::Initial(number, tokens))
        }
    }
}

/// Checks an edit in a net with these monitors.
///
/// Its transition, or its place, has to be in the net, under its flattened name; a compound place has one name alone. The text of a guard has
/// to be accepted, the variables that the transition then has have to be bindable, and what monitors measure at its occurrences has to have
/// no other ones. The text of an initial marking has to be accepted at its place, and to have no fault.
///
/// # Errors
///
/// - [`EditError::UnknownName`], at the pointer `whole`: it names a transition, or a place, that is not in the net.
/// - [`EditError::Bad`], at the pointer `at`: its text is not accepted.
/// - [`EditError::Memory`]: memory ran out.
pub fn check_edit(
    alloc: Global,
    decls: &Decls,
    net: &Net,
    monitors: &Monitors,
    whole: Pointer,
    at: Pointer,
    edit: &cpn_document::Edit,
) -> Result<Edit, EditError>
    requires editable { MayBeEdited (decls_view decls.now) (net_view net.now) (monitors_view monitors.now) }
    // What is answered is what the edit is, or its refusal.
    ensures reads { EditsBy edit_view result (edit_so (decls_view decls.now) (net_view net.now) (monitors_view monitors.now) whole at (written_view edit.now)) }
{
    let named = NamedNet::of(alloc, net)?;
    edit_in(alloc, decls, &named, monitors, whole, at, edit)
}

/// The edits of the phase of a number.
fn edits_of(
    alloc: Global,
    decls: &Decls,
    named: &NamedNet,
    monitors: &Monitors,
    phase: usize,
    written: &[cpn_document::Edit],
) -> Result<Vec<Edit>, EditError>
    requires editable { MayBeEdited (decls_view decls.now) (net_view named.now) (monitors_view monitors.now) }
    ensures reads { EditsBy (λ edits. edits_view edits.items) result (edits_so (decls_view decls.now) (monitors_view monitors.now) phase 0 (net_view named.now) (map written_view written.now)) }
{
    let mut edits = Vec::with_capacity(alloc, written.len())?;
    for (number, edit) in written.iter().enumerate() {
        let whole = Pointer::Phase(phase, PhasePart::Edit(number, EditPart::Whole));
        let at = Pointer::Phase(phase, PhasePart::Edit(number, EditPart::Text));
        edits.push(edit_in(alloc, decls, named, monitors, whole, at, edit)?)?;
    }
    Ok(edits)
}

/// Checks the edits of the phases of a document, one after another: each in the net as those before it have left it.
///
/// # Errors
///
/// The first refusal, as [`check_edit`] says, at the pointer of the edit or of its text; or [`EditError::Memory`].
pub fn check_phases(
    alloc: Global,
    decls: &Decls,
    net: &Net,
    monitors: &Monitors,
    written: &[cpn_document::Phase],
) -> Result<Vec<Phase>, EditError>
    requires editable { MayBeEdited (decls_view decls.now) (net_view net.now) (monitors_view monitors.now) }
    // What is answered is what the phases are, or the refusal of the first edit that is refused.
    ensures reads { EditsBy (λ phases. phases_view phases.items) result (phases_so (decls_view decls.now) (monitors_view monitors.now) 0 (net_view net.now) (map written_phase_view written.now)) }
{
    let named = NamedNet::of(alloc, net)?;
    let mut phases = Vec::with_capacity(alloc, written.len())?;
    for (number, phase) in written.iter().enumerate() {
        let edits = edits_of(
            alloc,
            decls,
            &named,
            monitors,
            number,
            phase.edits.as_slice(),
        )?;
        phases.push(Phase {
            start: phase.start,
            edits,
        })?;
    }
    Ok(phases)
}
