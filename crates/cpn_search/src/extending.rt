//! One stage more: the partial bindings that a trial makes of one.
ghost use Rattle.std.specs.Prelude.{◌≡◌, ◌<◌, ◌++◌, length, map, Some, OnOk, IfOk, IfSome};
ghost use Rattle.cpn_definitions.specs.Colour.{admits};
ghost use Rattle.cpn_definitions.specs.Net.{variable_at};
ghost use Rattle.cpn_definitions.specs.Outcome.{HasMeaning};
ghost use Rattle.cpn_definitions.specs.Inscription.{variable_pattern};
ghost use Rattle.cpn_definitions.specs.Meaning.{meaning};
ghost use Rattle.cpn_core.specs.Views.{value_view};
ghost use Rattle.cpn_core.specs.Inscriptions.{pattern_view, expr_view};
ghost use Rattle.cpn_core.specs.Nets.{net_view};
ghost use Rattle.cpn_stages.specs.Partial.{Extends, bound_in};
ghost use Rattle.cpn_stages.specs.Fitting.{fitted, held};
ghost use Rattle.cpn_stages.specs.Trials.{are_admitted as admitted_values, kept, with_outcome, next, matching, solving};
ghost use Rattle.cpn_tmset.specs.ListedViews.{pointed_view};
ghost use Rattle.cpn_search.specs.ListedTrials.{IsListed};
ghost use Rattle.cpn_search.specs.TrialViews.{trial_view, all_under_way, after};
ghost use Rattle.cpn_search.specs.Searches.{AreDeclared, MeansSomething};

use crate::trials::Trial;
use cpn_core::{Expr, Memory, Net, Pat, Value};
use cpn_eval::{Refused, eval};
use cpn_match::{Partial, match_pat};
use std::alloc::Global;

/// A partial binding that is under way.
#[derive(Drop)]
pub struct UnderWay {
    /// The partial binding.
    pub partial: Partial,
    /// How many trials made it.
    pub tried: usize,
}

/// Whether the colour set of the variable admits the value.
fn is_admitted(net: &Net, variable: u32, value: &Value) -> bool
    requires declared { variable < length net.now.variables.items }
    ensures exact { result ≡ admits (variable_at (net_view net.now) variable).colour (value_view value.now) }
{
    let declared = &net.variables[variable as usize];
    declared.colour.admits(value)
}

/// Whether the colour set of each variable admits its value.
#[tactic(auto, using(crate::proofs::TrialSteps::first_declared, crate::proofs::TrialSteps::others_declared))]
fn are_admitted(net: &Net, partial: &Partial) -> bool
    requires declared { AreDeclared (length net.now.variables.items) partial.now }
    ensures exact { result ≡ admitted_values (net_view net.now) partial.now }
{
    for pair in partial.pairs() {
        if let Some(value) = &pair.value {
            if !is_admitted(net, pair.variable, value) {
                return false;
            }
        }
    }
    true
}

/// Adds the partial binding, if its values are admitted.
fn push_kept(
    net: &Net,
    partial: Partial,
    tried: usize,
    ahead: &mut Vec<UnderWay>,
) -> Result<(), Memory>
    requires declared { AreDeclared (length net.now.variables.items) partial }
    ensures appended { OnOk result (all_under_way ahead.new.items ≡ all_under_way ahead.old.items ++ after tried (kept (net_view net.now) (Some partial))) }
{
    if are_admitted(net, &partial) {
        ahead.push(UnderWay { partial, tried })?;
    }
    Ok(())
}

/// Adds what the pattern and the value make of the partial binding. It takes a copy of the partial binding, and gives
/// it back where they make nothing.
#[tactic(auto, using(crate::proofs::TrialSteps::declared_matched))]
fn push_match(
    net: &Net,
    partial: &Partial,
    mut copy: Partial,
    pattern: &Pat,
    value: &Value,
    tried: usize,
    ahead: &mut Vec<UnderWay>,
) -> Result<Option<Partial>, Memory>
    requires declared { AreDeclared (length net.now.variables.items) partial.now }
    requires same { copy ≡ partial.now }
    ensures same { IfOk result (λ spare. IfSome spare (λ copy. copy ≡ partial.now)) }
    ensures appended { IfOk result (λ _. all_under_way ahead.new.items ≡ all_under_way ahead.old.items ++ after tried (kept (net_view net.now) (fitted (pattern_view pattern.now) (value_view value.now) partial.now))) }
{
    let matched = match_pat(pattern, value, &mut copy)?;
    if !matched {
        return Ok(Some(copy));
    }
    push_kept(net, copy, tried, ahead)?;
    Ok(None)
}

/// The spare copy of the partial binding, where there is one, or else a new one.
fn spare_or_copy(spare: Option<Partial>, partial: &Partial) -> Result<Partial, Memory>
    requires same { IfSome spare (λ copy. copy ≡ partial.now) }
    ensures same { IfOk result (λ copy. copy ≡ partial.now) }
{
    match spare {
        Some(copy) => Ok(copy),
        None => partial.copy(),
    }
}

/// Adds what the pattern and each of the values make of the partial binding.
fn push_matches(
    net: &Net,
    partial: &Partial,
    pattern: &Pat,
    values: &[&Value],
    tried: usize,
    ahead: &mut Vec<UnderWay>,
) -> Result<(), Memory>
    requires declared { AreDeclared (length net.now.variables.items) partial.now }
    ensures appended { OnOk result (all_under_way ahead.new.items ≡ all_under_way ahead.old.items ++ after tried (next (net_view net.now) (matching (pattern_view pattern.now) (pointed_view values.now)) partial.now)) }
{
    let mut spare = None;
    for value in values {
        let copy = spare_or_copy(spare, partial)?;
        spare = push_match(net, partial, copy, pattern, value, tried, ahead)?;
    }
    Ok(())
}

/// Adds what the variable and each of the values make of the partial binding.
#[tactic(auto, using(crate::proofs::TrialSteps::declared_too))]
fn push_choices(
    net: &Net,
    partial: &Partial,
    variable: u32,
    values: &[Value],
    tried: usize,
    ahead: &mut Vec<UnderWay>,
) -> Result<(), Memory>
    requires declared { AreDeclared (length net.now.variables.items) partial.now }
    ensures appended { OnOk result (all_under_way ahead.new.items ≡ all_under_way ahead.old.items ++ after tried (next (net_view net.now) (matching (variable_pattern variable) (map value_view values.now)) partial.now)) }
{
    for value in values {
        let mut longer = partial.copy()?;
        if longer.hold(variable, value)? {
            push_kept(net, longer, tried, ahead)?;
        }
    }
    Ok(())
}

/// The partial binding in which the variable has the value, if it may have it.
fn with_value(partial: &Partial, variable: u32, value: Value) -> Result<Option<Partial>, Memory>
    ensures held { IfOk result (λ longer. longer ≡ held variable (value_view value) partial.now) }
    ensures extends { IfOk result (λ longer. IfSome longer (Extends partial.now)) }
{
    let mut longer = partial.copy()?;
    match longer.hold_own(variable, value) {
        true => Ok(Some(longer)),
        false => Ok(None),
    }
}

/// The partial binding in which the variable has the value of the inscription, if there is one.
fn solved(
    alloc: Global,
    net: &Net,
    partial: &Partial,
    variable: u32,
    inscription: &Expr,
) -> Result<Option<Partial>, Memory>
    requires meaning { HasMeaning (meaning (net_view net.now).functions (expr_view inscription.now) (bound_in partial.now) 0) }
    ensures solved { IfOk result (λ longer. with_outcome (net_view net.now) (variable_pattern variable) partial.now (meaning (net_view net.now).functions (expr_view inscription.now) (bound_in partial.now) 0) ≡ kept (net_view net.now) longer) }
    ensures extends { IfOk result (λ longer. IfSome longer (Extends partial.now)) }
{
    let binding = partial.bound()?;
    match eval(alloc, &net.funs, inscription, &binding, 0) {
        Ok(value) => with_value(partial, variable, value),
        Err(Refused::Fault(_)) => Ok(None),
        Err(Refused::Memory) => Err(Memory),
    }
}

/// Adds what the variable and the value of the inscription make of the partial binding; a fault makes nothing.
#[tactic(auto, using(crate::proofs::TrialSteps::declared_too))]
fn push_solution(
    alloc: Global,
    net: &Net,
    partial: &Partial,
    variable: u32,
    inscription: &Expr,
    tried: usize,
    ahead: &mut Vec<UnderWay>,
) -> Result<(), Memory>
    requires declared { AreDeclared (length net.now.variables.items) partial.now }
    requires meaning { HasMeaning (meaning (net_view net.now).functions (expr_view inscription.now) (bound_in partial.now) 0) }
    ensures appended { OnOk result (all_under_way ahead.new.items ≡ all_under_way ahead.old.items ++ after tried (next (net_view net.now) (solving variable (expr_view inscription.now)) partial.now)) }
{
    match solved(alloc, net, partial, variable, inscription)? {
        Some(longer) => push_kept(net, longer, tried, ahead),
        None => Ok(()),
    }
}

/// Adds what the trial, whose values are listed, makes of the partial binding.
pub fn push_next(
    alloc: Global,
    net: &Net,
    trial: &Trial,
    partial: &Partial,
    tried: usize,
    ahead: &mut Vec<UnderWay>,
) -> Result<(), Memory>
    requires declared { AreDeclared (length net.now.variables.items) partial.now }
    requires meaning { MeansSomething (net_view net.now) (trial_view trial.now) partial.now }
    requires listed { IsListed trial.now }
    ensures appended { OnOk result (all_under_way ahead.new.items ≡ all_under_way ahead.old.items ++ after tried (next (net_view net.now) (trial_view trial.now) partial.now)) }
{
    match trial {
        Trial::Unlisted { .. } => unreachable!(),
        Trial::Matching { pattern, values } => {
            push_matches(net, partial, pattern, values, tried, ahead)
        }
        Trial::Solving {
            variable,
            inscription,
        } => push_solution(alloc, net, partial, *variable, inscription, tried, ahead),
        Trial::Choosing { variable, values } => {
            push_choices(net, partial, *variable, values, tried, ahead)
        }
    }
}
