//! A net, a marking of it and their index, which follows tokens that are put and taken one at a time, the clock, and guards that are set.
ghost use Rattle.std.specs.Prelude.{◌≡◌, ◌<◌, true, false, [], ◌∷◌, length, IfOk, IfSome, OnOk};
ghost use Rattle.cpn_definitions.specs.Marking.{token_at, tokens_at};
ghost use Rattle.cpn_definitions.specs.Net.{place_at};
ghost use Rattle.cpn_definitions.specs.Sound.{may_hold};
ghost use Rattle.cpn_core.specs.Colours.{colour_view};
ghost use Rattle.cpn_core.specs.Nets.{net_view};
ghost use Rattle.cpn_core.specs.Views.{value_view};
ghost use Rattle.cpn_declared.specs.DeclsViews.{decls_view};
ghost use Rattle.cpn_edit_texts.specs.Ready.{IsReady, IsThere};
ghost use Rattle.cpn_edit_texts.specs.Views.{edit_view};
ghost use Rattle.cpn_monitor.specs.Views.{monitors_view};
ghost use Rattle.cpn_tmset.specs.ChangedViews.{changes_view};
ghost use Rattle.cpn_tmset.specs.Limits.{HasRoom};
ghost use Rattle.cpn_test_program.specs.Editable.{IsAccepted};
ghost use Rattle.cpn_test_program.specs.EditedNets.{IsEditedNet};

use cpn_core::{Colour, Memory, Net, Value};
use cpn_document::Pointer;
use cpn_edit_texts::{Edit, EditError, check_edit};
use cpn_index::Index;
use cpn_model::Model;
use cpn_monitor::Monitors;
use cpn_search::Steps;
use cpn_tmset::{Changes, Marking};
use cpn_types::Decls;
use std::alloc::Global;
use std::sync::ledger::Ledger;

/// The most tokens on a place.
const MOST: u64 = 1_000_000;

/// A net, a marking of it, and the index of both at a clock; and that by which edits of the net are checked.
#[derive(Drop)]
pub struct EditedNet {
    /// What the document of the net declares.
    pub decls: Decls,
    /// The monitors of its document.
    pub monitors: Monitors,
    /// The net.
    pub net: Net,
    /// The marking.
    pub marking: Marking,
    /// What is enabled in it.
    pub index: Index,
    /// The clock of the index.
    pub clock: u64,
}

/// Whether a place of the colour set may hold a token of the value with the stamp.
fn is_held_by(colour: &Colour, value: &Value, stamp: u64) -> bool
    ensures exact { result ≡ may_hold (colour_view colour.now) (token_at (value_view value.now) stamp) }
{
    colour.admits(value) && (colour.timed || stamp == 0)
}

/// Whether the net has the place, and it may hold a token of the value with the stamp.
fn may_be_put(net: &Net, place: u32, value: &Value, stamp: u64) -> bool
    ensures within { result ≡ true → place < length (net_view net.now).places }
    ensures held { result ≡ true → may_hold (place_at (net_view net.now) place).colour (token_at (value_view value.now) stamp) ≡ true }
{
    if place as usize >= net.places.len() {
        return false;
    }
    is_held_by(&net.places[place as usize].colour, value, stamp)
}

/// Whether the place takes no more tokens, or there is no such place.
fn is_full(marking: &Marking, place: u32) -> bool
    ensures room { result ≡ false → HasRoom (tokens_at marking.now place) }
{
    match marking.get(place as usize) {
        Some(tokens) => tokens.total() >= MOST,
        None => true,
    }
}

/// That the stamps of the value on the place change.
fn changes_of(alloc: Global, place: u32, value: &Value) -> Result<Changes, Memory>
    ensures told { IfOk result (λ changes. changes_view changes ≡ record { place = place; value = value_view value.now } ∷ []) }
{
    let mut changes = Changes::new(alloc);
    changes.push(place, value.copy()?)?;
    Ok(changes)
}

/// The edit by which a transition gets another guard.
fn guard_edit(alloc: Global, transition: &str, guard: &str) -> Result<cpn_document::Edit, Memory> {
    let transition = String::from_str(alloc, transition)?;
    let text = String::from_str(alloc, guard)?;
    Ok(cpn_document::Edit::Guard { transition, text })
}

/// That an edit is not accepted, unless memory ran out.
fn no_edit(error: EditError) -> Result<Option<Edit>, Memory>
    ensures none { IfOk result (λ found. IfSome found (λ edit. ⊥)) }
{
    match error {
        EditError::Memory => Err(Memory),
        EditError::UnknownName(_at) => Ok(None),
        EditError::Bad(_at, _trouble) => Ok(None),
        EditError::Monitor(_error) => Ok(None),
    }
}

impl EditedNet {
    /// What is enabled in the net of a model at its start, at clock 0.
    pub fn of(alloc: Global, model: Model) -> Result<EditedNet, Memory>
        requires ready { IsReady (decls_view model.loaded.decls) (net_view model.loaded.net) model.loaded.initial (monitors_view model.monitors) }
        ensures held { IfOk result IsEditedNet }
    {
        let index = Index::build(alloc, &model.loaded.net, &model.loaded.initial, 0)?;
        let loaded = model.loaded;
        Ok(EditedNet {
            decls: loaded.decls,
            monitors: model.monitors,
            net: loaded.net,
            marking: loaded.initial,
            index,
            clock: 0,
        })
    }

    /// Puts a token on a place, where that may hold it.
    pub fn put<L: Ledger>(
        &mut self,
        alloc: Global,
        place: u32,
        number: i64,
        stamp: u64,
        steps: &mut Steps<L>,
    ) -> Result<(), Memory>
        requires held { IsEditedNet self.old }
        ensures held { OnOk result (IsEditedNet self.new) }
    {
        let value = Value::Int(number);
        if !may_be_put(&self.net, place, &value, stamp) {
            return Ok(());
        }
        if is_full(&self.marking, place) {
            return Ok(());
        }
        let changes = changes_of(alloc, place, &value)?;
        self.marking.add(place, value, stamp)?;
        self.index
            .update(&self.net, &self.marking, &changes, steps)?;
        Ok(())
    }

    /// Takes from a place the token of a value with the latest stamp that is not above `latest`.
    pub fn take<L: Ledger>(
        &mut self,
        alloc: Global,
        place: u32,
        value: &Value,
        latest: u64,
        steps: &mut Steps<L>,
    ) -> Result<(), Memory>
        requires held { IsEditedNet self.old }
        ensures held { OnOk result (IsEditedNet self.new) }
    {
        if place as usize >= self.marking.len() {
            return Ok(());
        }
        let changes = changes_of(alloc, place, value)?;
        self.marking.take(place, value, latest);
        self.index
            .update(&self.net, &self.marking, &changes, steps)?;
        Ok(())
    }

    /// Moves the clock, where it does not go back.
    pub fn advance_to(&mut self, clock: u64)
        requires held { IsEditedNet self.old }
        ensures held { IsEditedNet self.new }
    {
        if clock < self.clock {
            return;
        }
        self.index.advance_to(clock);
        self.clock = clock;
    }

    /// Sets the guard of a transition of a name, where it is accepted there.
    pub fn set_guard(&mut self, alloc: Global, transition: &str, guard: &str) -> Result<(), Memory>
        requires held { IsEditedNet self.old }
        ensures held { OnOk result (IsEditedNet self.new) }
    {
        let found = self.checked(alloc, transition, guard)?;
        match found {
            None => Ok(()),
            Some(edit) => self.edit(edit),
        }
    }

    /// The edit that gives a transition of a name another guard, where it is accepted.
    fn checked(&self, alloc: Global, transition: &str, guard: &str) -> Result<Option<Edit>, Memory>
        requires held { IsEditedNet self.now }
        ensures accepted { IfOk result (λ found. IfSome found (λ edit. IsAccepted (decls_view self.now.decls) (net_view self.now.net) (monitors_view self.now.monitors) (edit_view edit))) }
    {
        let written = guard_edit(alloc, transition, guard)?;
        let at = Pointer::Root;
        match check_edit(
            alloc,
            &self.decls,
            &self.net,
            &self.monitors,
            at,
            at,
            &written,
        ) {
            Ok(edit) => Ok(Some(edit)),
            Err(error) => no_edit(error),
        }
    }

    /// Makes an accepted edit, where it is another guard of a transition.
    fn edit(&mut self, edit: Edit) -> Result<(), Memory>
        requires held { IsEditedNet self.old }
        requires accepted { IsAccepted (decls_view self.old.decls) (net_view self.old.net) (monitors_view self.old.monitors) (edit_view edit) }
        requires there { IsThere (length (net_view self.old.net).transitions) (length (net_view self.old.net).places) (edit_view edit) }
        ensures held { OnOk result (IsEditedNet self.new) }
    {
        match edit {
            Edit::Guard(number, edited) => {
                self.net.transitions[number as usize] = edited;
                self.index.set_guard(&self.net, &self.marking, number)?;
                Ok(())
            }
            Edit::Initial(_place, _tokens) => Ok(()),
        }
    }
}
