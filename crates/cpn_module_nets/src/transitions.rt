//! The transitions of modules, before their arcs are joined to them.

ghost use Rattle.std.specs.Prelude.{map, option_map, Some};
ghost use Rattle.cpn_core.specs.Inscriptions.{expr_view};
ghost use Rattle.cpn_core.specs.Nets.{delay_view, transition_view};
ghost use Rattle.cpn_declared.specs.DeclsViews.{decls_view};
ghost use Rattle.cpn_module_nets.specs.Reading.{each_from};
ghost use Rattle.cpn_module_nets.specs.Accepted.{guard_at, delay_at, bare_transition as bare_transition_in};
ghost use Rattle.cpn_module_trees.specs.TreesViews.{tree_view, conjuncts_view, transition_trees_view};
ghost use Rattle.cpn_module_nets.specs.Answers.{Loads};

use crate::refusals::{NetError, not_accepted, not_parsed};
use cpn_core::{Expr, Guard, Transition};
use cpn_document::{ModulePart, Pointer, TransitionPart};
use cpn_module_trees::{Parsing, TransitionTrees};
use cpn_syntax::Inscription;
use cpn_types::{Decls, check_delay, check_guard};
use std::alloc::Global;
use std::sync::Arc;

/// The guard that is written.
#[tactic(auto, unfolding(crate::specs::Accepted::guard_at))]
fn written_guard(
    alloc: Global,
    decls: &Decls,
    at: Pointer,
    text: &Parsing<cpn_syntax::Guard>,
) -> Result<Guard, NetError>
    ensures reads { Loads (λ guard. map expr_view guard.conjuncts.items) result (guard_at (decls_view decls.now) at (Some (conjuncts_view text.now))) }
{
    match text {
        Ok(tree) => match check_guard(alloc, decls, tree) {
            Ok(guard) => Ok(guard),
            Err(error) => Err(not_accepted(at, error)),
        },
        Err(error) => Err(not_parsed(at, *error)),
    }
}

/// The guard of a transition; without a conjunct where none is written.
#[tactic(auto, unfolding(crate::specs::Accepted::guard_at))]
fn guard_of(
    alloc: Global,
    decls: &Decls,
    at: Pointer,
    text: &Option<Parsing<cpn_syntax::Guard>>,
) -> Result<Guard, NetError>
    ensures reads { Loads (λ guard. map expr_view guard.conjuncts.items) result (guard_at (decls_view decls.now) at (option_map conjuncts_view text.now)) }
{
    match text {
        Some(text) => written_guard(alloc, decls, at, text),
        None => Ok(Guard {
            conjuncts: Vec::new(alloc),
        }),
    }
}

/// The delay that is written.
#[tactic(auto, unfolding(crate::specs::Accepted::delay_at))]
fn written_delay(
    alloc: Global,
    decls: &Decls,
    at: Pointer,
    text: &Parsing<Inscription>,
) -> Result<Expr, NetError>
    ensures reads { Loads (λ delay. Some (expr_view delay)) result (delay_at (decls_view decls.now) at (Some (tree_view text.now))) }
{
    match text {
        Ok(tree) => match check_delay(alloc, decls, tree) {
            Ok(delay) => Ok(delay),
            Err(error) => Err(not_accepted(at, error)),
        },
        Err(error) => Err(not_parsed(at, *error)),
    }
}

/// The delay of a transition, where one is written.
#[tactic(auto, unfolding(crate::specs::Accepted::delay_at))]
fn delay_of(
    alloc: Global,
    decls: &Decls,
    at: Pointer,
    text: &Option<Parsing<Inscription>>,
) -> Result<Option<Arc<Expr>>, NetError>
    ensures reads { Loads delay_view result (delay_at (decls_view decls.now) at (option_map tree_view text.now)) }
{
    match text {
        Some(text) => {
            let delay = written_delay(alloc, decls, at, text)?;
            Ok(Some(Arc::new(alloc, delay)?))
        }
        None => Ok(None),
    }
}

/// A transition of a module, by their numbers, without its arcs and variables.
#[tactic(auto, unfolding(crate::specs::Accepted::bare_transition))]
fn bare_transition(
    alloc: Global,
    decls: &Decls,
    of_module: usize,
    number: usize,
    transition: &TransitionTrees,
) -> Result<Transition, NetError>
    ensures reads { Loads transition_view result (bare_transition_in (decls_view decls.now) of_module number (transition_trees_view transition.now)) }
{
    let name = String::from_str(alloc, transition.name)?;
    let guard_at = Pointer::Module(
        of_module,
        ModulePart::Transition(number, TransitionPart::Guard),
    );
    let delay_at = Pointer::Module(
        of_module,
        ModulePart::Transition(number, TransitionPart::Delay),
    );
    let guard = guard_of(alloc, decls, guard_at, &transition.guard)?;
    let delay = delay_of(alloc, decls, delay_at, &transition.delay)?;
    Ok(Transition {
        name,
        guard: Arc::new(alloc, guard)?,
        delay,
        inputs: Vec::new(alloc),
        outputs: Vec::new(alloc),
        vars: Vec::new(alloc),
    })
}

/// The transitions of a module, without their arcs and variables.
pub(crate) fn bare_transitions(
    alloc: Global,
    decls: &Decls,
    of_module: usize,
    transitions: &[TransitionTrees],
) -> Result<Vec<Transition>, NetError>
    ensures reads { Loads (λ made. map transition_view made.items) result (each_from (bare_transition_in (decls_view decls.now) of_module) 0 (map transition_trees_view transitions.now)) }
{
    let mut made = Vec::with_capacity(alloc, transitions.len())?;
    for (number, transition) in transitions.iter().enumerate() {
        made.push(bare_transition(alloc, decls, of_module, number, transition)?)?;
    }
    Ok(made)
}
