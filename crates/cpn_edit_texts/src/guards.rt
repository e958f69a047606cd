//! Another guard of a transition.

ghost use Rattle.std.specs.Prelude.{◌≡◌, ◌<◌, length, map, IfOk};
ghost use Rattle.std.specs.List.{AllByRecursion};
ghost use Rattle.cpn_core.specs.Inscriptions.{expr_view};
ghost use Rattle.cpn_core.specs.Nets.{arcs_view, net_view, transition_view};
ghost use Rattle.cpn_declared.specs.Answers.{Answers};
ghost use Rattle.cpn_declared.specs.DeclsViews.{decls_view};
ghost use Rattle.cpn_definitions.specs.Net.{transition_at};
ghost use Rattle.cpn_accepted.specs.Completed.{IsCompleted};
ghost use Rattle.cpn_module_trees.specs.TreesViews.{conjuncts_view};
ghost use Rattle.cpn_monitor.specs.Monitors.{PlainMonitor};
ghost use Rattle.cpn_monitor.specs.Views.{measure_view, monitors_view};
ghost use Rattle.cpn_edit_texts.specs.Answers.{Edits, EditsBy};
ghost use Rattle.cpn_edit_texts.specs.Checked.{transition_so};
ghost use Rattle.cpn_edit_texts.specs.Edits.{with_guard as with_this_guard};
ghost use Rattle.cpn_edit_texts.specs.Measured.{measure_over, measured_over, IsDeclared};
ghost use Rattle.cpn_edit_texts.specs.Ready.{MayBeEdited};
ghost use Rattle.cpn_edit_texts.specs.Texts.{guard_of as guard_in_text};

use crate::refusals::{EditError, not_accepted, not_parsed};
use cpn_core::{Guard, Memory, Net, PlaceArc, Transition};
use cpn_document::Pointer;
use cpn_module_trees::Parsing;
use cpn_monitor::{Measure, Monitors};
use cpn_monitor_texts::check_over;
use cpn_types::{Decls, TypeError, check_bindable, check_guard, variables_of};
use std::alloc::Global;
use std::sync::Arc;

/// The guard that a text is, by what it is parsed as.
#[tactic(auto, unfolding(crate::specs::Texts::guard_of))]
pub(crate) fn guard_of(
    alloc: Global,
    decls: &Decls,
    at: Pointer,
    parsing: &Parsing<cpn_syntax::Guard>,
) -> Result<Guard, EditError>
    ensures reads { Edits (λ guard. map expr_view guard.conjuncts.items) result (guard_in_text (decls_view decls.now) at (conjuncts_view parsing.now)) }
{
    match parsing {
        Ok(tree) => match check_guard(alloc, decls, tree) {
            Ok(guard) => Ok(guard),
            Err(error) => Err(not_accepted(at, error)),
        },
        Err(error) => Err(not_parsed(at, *error)),
    }
}

/// The same arcs. They share their inscriptions.
pub(crate) fn shared_arcs(alloc: Global, arcs: &[PlaceArc]) -> Result<Vec<PlaceArc>, Memory>
    ensures same { IfOk result (λ made. arcs_view made.items ≡ arcs_view arcs.now) }
{
    let mut made = Vec::with_capacity(alloc, arcs.len())?;
    for arc in arcs {
        made.push(arc.at_place(arc.place)?)?;
    }
    Ok(made)
}

/// The transition of a number with another guard, and with the variables that it then has. It shares the rest.
fn with_guard(alloc: Global, net: &Net, number: u32, guard: Guard) -> Result<Transition, Memory>
    requires there { number < length net.now.transitions.items }
    ensures completed { IfOk result (λ edited. IsCompleted (with_this_guard (transition_at (net_view net.now) number) (map expr_view guard.conjuncts.items)) (transition_view edited)) }
{
    let transition = &net.transitions[number as usize];
    let name = String::from_str(alloc, transition.name.as_str())?;
    let delay = transition.shared_delay()?;
    let inputs = shared_arcs(alloc, transition.inputs.as_slice())?;
    let outputs = shared_arcs(alloc, transition.outputs.as_slice())?;
    let vars = variables_of(alloc, &guard, &delay, inputs.as_slice(), outputs.as_slice())?;
    Ok(Transition {
        name,
        guard: Arc::new(alloc, guard)?,
        delay,
        inputs,
        outputs,
        vars,
    })
}

/// Whether what is measured has no other variables than these, where it is measured at the occurrences of the transition.
fn check_measure(
    alloc: Global,
    decls: &Decls,
    transition: u32,
    vars: &[u32],
    measure: &Measure,
) -> Result<(), TypeError>
    requires declared { IsDeclared (decls_view decls.now) (measure_view measure.now) }
    ensures exact { Answers (λ _. tt) result (measure_over (decls_view decls.now) transition vars.now (measure_view measure.now)) }
{
    match measure {
        Measure::Value {
            transition: number,
            inscription,
        } => {
            if *number == transition {
                check_over(alloc, decls, vars, inscription)
            } else {
                Ok(())
            }
        }
        Measure::Count { .. }
        | Measure::Size { .. }
        | Measure::StopCount { .. }
        | Measure::StopSize { .. } => Ok(()),
    }
}

/// Whether what each of the monitors measures has no other variables than these, where it is measured at the occurrences of the transition.
#[tactic(auto, unfolding(crate::specs::Measured::measured_over))]
fn check_measured(
    alloc: Global,
    decls: &Decls,
    transition: u32,
    vars: &[u32],
    monitors: &Monitors,
) -> Result<(), TypeError>
    requires declared { AllByRecursion (λ (m : PlainMonitor). IsDeclared (decls_view decls.now) m.measure) (monitors_view monitors.now) }
    ensures exact { Answers (λ _. tt) result (measured_over (decls_view decls.now) transition vars.now (monitors_view monitors.now)) }
{
    for monitor in &monitors.monitors {
        check_measure(alloc, decls, transition, vars, &monitor.measure)?;
    }
    Ok(())
}

/// The transition of a number with another guard.
pub(crate) fn edited_transition(
    alloc: Global,
    decls: &Decls,
    net: &Net,
    monitors: &Monitors,
    at: Pointer,
    number: u32,
    guard: Guard,
) -> Result<Transition, EditError>
    requires there { number < length net.now.transitions.items }
    requires editable { MayBeEdited (decls_view decls.now) (net_view net.now) (monitors_view monitors.now) }
    ensures reads { EditsBy transition_view result (transition_so (decls_view decls.now) (net_view net.now) (monitors_view monitors.now) at number (map expr_view guard.conjuncts.items)) }
{
    let edited = with_guard(alloc, net, number, guard)?;
    match check_bindable(alloc, decls, &edited) {
        Ok(()) => {}
        Err(error) => return Err(not_accepted(at, error)),
    }
    match check_measured(alloc, decls, number, edited.vars.as_slice(), monitors) {
        Ok(()) => Ok(edited),
        Err(error) => Err(not_accepted(at, error)),
    }
}
