//! How a script is played.
ghost use Rattle.std.specs.Prelude.{◌≡◌, ◌<◌, OnOk};
ghost use Rattle.cpn_core.specs.Nets.{net_view};
ghost use Rattle.cpn_declared.specs.DeclsViews.{decls_view};
ghost use Rattle.cpn_edit_texts.specs.Ready.{IsReady};
ghost use Rattle.cpn_monitor.specs.Views.{monitors_view};
ghost use Rattle.cpn_test_program.specs.EditedNets.{IsEditedNet};

use crate::commands::{Command, command_in};
use crate::dues::make_due;
use crate::edited_nets::EditedNet;
use crate::telling::{tell_found, tell_index, tell_line};
use cpn_core::{Found, Memory, Value};
use cpn_due::Due;
use cpn_index::Index;
use cpn_model::Model;
use cpn_search::{Plan, Steps, enabled_with};
use std::alloc::Global;
use std::marker::Brand;
use std::sync::ledger::{Blank, Ledger};

/// What the commands of a script tell, which are made one after another in the net of a model.
pub fn played(alloc: Global, model: Model, script: &String) -> Result<String, Memory>
    requires ready { IsReady (decls_view model.loaded.decls) (net_view model.loaded.net) model.loaded.initial (monitors_view model.monitors) }
{
    let mut held = EditedNet::of(alloc, model)?;
    let mut out = String::new(alloc);
    play(alloc, &mut held, script, &mut out)?;
    Ok(out)
}

/// Makes the commands of a script.
fn play(
    alloc: Global,
    held: &mut EditedNet,
    script: &String,
    out: &mut String,
) -> Result<(), Memory>
    requires held { IsEditedNet held.old }
{
    let mut due = Due::new(alloc);
    play_lines::<Brand>(alloc, held, &mut due, script, out, Blank::new(1))
}

/// The same, with steps on a ledger that is dropped.
fn play_lines<L: Ledger>(
    alloc: Global,
    held: &mut EditedNet,
    due: &mut Due,
    script: &String,
    out: &mut String,
    blank: Blank,
) -> Result<(), Memory>
    requires held { IsEditedNet held.old }
    requires name { blank.name ≡ L.name }
    requires parts { blank.parts ≡ L.parts }
    requires some { 0 < blank.parts }
{
    let mut steps = Steps::<L>::none(blank);
    for line in script.as_str().lines() {
        play_line(alloc, held, due, line, out, &mut steps)?;
    }
    Ok(())
}

/// Makes the command of a line, where it is one.
fn play_line<L: Ledger>(
    alloc: Global,
    held: &mut EditedNet,
    due: &mut Due,
    line: &str,
    out: &mut String,
    steps: &mut Steps<L>,
) -> Result<(), Memory>
    requires held { IsEditedNet held.old }
    ensures held { OnOk result (IsEditedNet held.new) }
{
    match command_in(line) {
        Some(command) => make(alloc, held, due, command, out, steps),
        None => tell_line(out, "no command\n"),
    }
}

/// Makes a command.
fn make<L: Ledger>(
    alloc: Global,
    held: &mut EditedNet,
    due: &mut Due,
    command: Command<'_>,
    out: &mut String,
    steps: &mut Steps<L>,
) -> Result<(), Memory>
    requires held { IsEditedNet held.old }
    ensures held { OnOk result (IsEditedNet held.new) }
{
    match command {
        Command::Put {
            place,
            number,
            stamp,
        } => held.put(alloc, place, number, stamp, steps),
        Command::Take {
            place,
            number,
            latest,
        } => held.take(alloc, place, &Value::Int(number), latest, steps),
        Command::Clock { clock } => {
            held.advance_to(clock);
            Ok(())
        }
        Command::Guard { transition, text } => held.set_guard(alloc, transition, text),
        Command::Search {
            transition,
            place,
            number,
        } => search(alloc, held, transition, place, number, out, steps),
        Command::Tell => tell(alloc, held, out),
        Command::Due(command) => make_due(alloc, due, command, out),
    }
}

/// Tells what a search of a transition finds with the number on the place.
fn search<L: Ledger>(
    alloc: Global,
    held: &EditedNet,
    t: u32,
    place: u32,
    number: i64,
    out: &mut String,
    steps: &mut Steps<L>,
) -> Result<(), Memory>
    requires held { IsEditedNet held.now }
{
    let found = found_with(alloc, held, t, place, number, steps)?;
    tell_found(out, &found)
}

/// What a search of a transition finds with the number on the place; nothing, where there is no such transition.
fn found_with<L: Ledger>(
    alloc: Global,
    held: &EditedNet,
    t: u32,
    place: u32,
    number: i64,
    steps: &mut Steps<L>,
) -> Result<Found, Memory>
    requires held { IsEditedNet held.now }
{
    if t as usize >= held.net.transitions.len() {
        return Ok(Vec::new(alloc));
    }
    let plan = Plan::of(alloc, &held.net, t)?;
    let value = Value::Int(number);
    enabled_with(
        alloc,
        &held.net,
        &held.marking,
        t,
        &plan,
        place,
        &value,
        steps,
    )
}

/// Tells the index that is held, and below it the one that is built of the net and the marking.
fn tell(alloc: Global, held: &EditedNet, out: &mut String) -> Result<(), Memory>
    requires held { IsEditedNet held.now }
{
    tell_index(out, &held.index)?;
    let built = Index::build(alloc, &held.net, &held.marking, held.clock)?;
    tell_index(out, &built)
}
