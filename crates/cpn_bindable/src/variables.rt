//! The variables of inscriptions, as they stand in them.

ghost use Rattle.std.specs.Prelude.{◌≡◌, ◌↔◌, ◌++◌, ℕ, List, map, Contains, IfOk};
ghost use Rattle.std.specs.List.{flat_map};
ghost use Rattle.std.specs.Ordering.{nat_cmp};
ghost use Rattle.cpn_definitions.specs.Lists.{Rises};
ghost use Rattle.cpn_definitions.specs.Inscription.{arms_from, inscriptions_from, arc_arms_from};
ghost use Rattle.cpn_definitions.specs.Bindable as definition;
ghost use Rattle.cpn_definitions.specs.Bindable.{variables_of_each, variables_of_arms, pattern_variables, patterns_variables};
ghost use Rattle.cpn_typing.specs.InscriptionVariables.{inscription_variables, each_variables, arms_variables};
ghost use Rattle.cpn_typing.specs.AcceptedTransitions.{delay_variables, arcs_variables, HasItsVariables};
ghost use Rattle.cpn_core.specs.Inscriptions.{pattern_view, patterns_view, expr_view, exprs_view, arm_view, multiset_view, arc_arm_view, term_view};
ghost use Rattle.cpn_core.specs.Nets.{arcs_view, delay_view};
ghost use Rattle.cpn_bindable.specs.Known.{carried_variables};
ghost use Rattle.cpn_bindable.specs.Transitions.{transition_with};

use cpn_core::{
    Arm, BindingTerm, Expr, Exprs, Guard, MArm, MExpr, MExprs, Memory, Pat, Pats, PlaceArc,
};
use std::alloc::Global;
use std::sync::Arc;

/// Adds the variables of an inscription of a value behind those that were found.
#[cycle(variables)]
pub(crate) fn push_variables(expr: &Expr, found: &mut Vec<u32>) -> Result<(), Memory>
    ensures all { IfOk result (λ _. found.new.items ≡ found.old.items ++ definition.variables_of (expr_view expr.now)) }
{
    match expr {
        Expr::Lit(_) => Ok(()),
        Expr::Var(number) => {
            found.push(*number)?;
            Ok(())
        }
        Expr::Local(_) => Ok(()),
        Expr::Time => Ok(()),
        Expr::Op(_, parts) => push_of_each(parts, found),
        Expr::And(first, second) => {
            push_variables(first, found)?;
            push_variables(second, found)
        }
        Expr::Or(first, second) => {
            push_variables(first, found)?;
            push_variables(second, found)
        }
        Expr::If(condition, first, second) => {
            push_variables(condition, found)?;
            push_variables(first, found)?;
            push_variables(second, found)
        }
        Expr::Case(subject, arms) => {
            push_variables(subject, found)?;
            push_of_arms(arms, found)
        }
        Expr::Let(value, body) => {
            push_variables(value, found)?;
            push_variables(body, found)
        }
        Expr::Fold { list, start, body } => {
            push_variables(list, found)?;
            push_variables(start, found)?;
            push_variables(body, found)
        }
        Expr::Tuple(parts) => push_of_each(parts, found),
        Expr::List(parts) => push_of_each(parts, found),
        Expr::Con(_, argument) => match argument {
            None => Ok(()),
            Some(part) => push_variables(part, found),
        },
        Expr::Call(_, parts) => push_of_each(parts, found),
    }
}

/// Adds those of each of several inscriptions.
#[cycle(variables)]
fn push_of_each(parts: &Exprs, found: &mut Vec<u32>) -> Result<(), Memory>
    ensures all { IfOk result (λ _. found.new.items ≡ found.old.items ++ variables_of_each (exprs_view parts.now.items)) }
{
    for part in parts {
        push_variables(part, found)?;
    }
    Ok(())
}

/// Adds those of the results of the arms of a `case`.
#[cycle(variables)]
fn push_of_arms(arms: &Vec<Arm>, found: &mut Vec<u32>) -> Result<(), Memory>
    ensures all { IfOk result (λ _. found.new.items ≡ found.old.items ++ variables_of_arms (arms_from (map arm_view arms.now.items))) }
{
    for arm in arms {
        push_variables(&arm.result, found)?;
    }
    Ok(())
}

/// Adds the variables of an inscription of an arc.
#[cycle(arc_variables)]
fn push_arc_variables(inscription: &MExpr, found: &mut Vec<u32>) -> Result<(), Memory>
    ensures all { IfOk result (λ _. found.new.items ≡ found.old.items ++ inscription_variables (multiset_view inscription.now)) }
{
    match inscription {
        MExpr::Empty => Ok(()),
        MExpr::One(value) => push_variables(value, found),
        MExpr::Times(count, value) => {
            push_variables(count, found)?;
            push_variables(value, found)
        }
        MExpr::Sum(parts) => push_of_sum(parts, found),
        MExpr::Later(tokens, delay) => {
            push_arc_variables(tokens, found)?;
            push_variables(delay, found)
        }
        MExpr::At(tokens, _) => push_arc_variables(tokens, found),
        MExpr::If(condition, first, second) => {
            push_variables(condition, found)?;
            push_arc_variables(first, found)?;
            push_arc_variables(second, found)
        }
        MExpr::Case(subject, arms) => {
            push_variables(subject, found)?;
            push_of_arc_arms(arms, found)
        }
        MExpr::Let(value, tokens) => {
            push_variables(value, found)?;
            push_arc_variables(tokens, found)
        }
    }
}

/// Adds those of the parts of a sum.
#[cycle(arc_variables)]
fn push_of_sum(parts: &MExprs, found: &mut Vec<u32>) -> Result<(), Memory>
    ensures all { IfOk result (λ _. found.new.items ≡ found.old.items ++ each_variables (inscriptions_from (map multiset_view parts.now.items))) }
{
    for part in parts {
        push_arc_variables(part, found)?;
    }
    Ok(())
}

/// Adds those of the results of the arms of a `case` over tokens.
#[cycle(arc_variables)]
fn push_of_arc_arms(arms: &Vec<MArm>, found: &mut Vec<u32>) -> Result<(), Memory>
    ensures all { IfOk result (λ _. found.new.items ≡ found.old.items ++ arms_variables (arc_arms_from (map arc_arm_view arms.now.items))) }
{
    for arm in arms {
        push_arc_variables(&arm.result, found)?;
    }
    Ok(())
}

/// Adds those of the inscriptions of arcs.
fn push_of_arcs(arcs: &[PlaceArc], found: &mut Vec<u32>) -> Result<(), Memory>
    ensures all { IfOk result (λ _. found.new.items ≡ found.old.items ++ arcs_variables (arcs_view arcs.now)) }
{
    for arc in arcs {
        push_arc_variables(&arc.inscription.expr, found)?;
    }
    Ok(())
}

/// Adds those of an inscription that may be missing.
fn push_of_delay(delay: &Option<Arc<Expr>>, found: &mut Vec<u32>) -> Result<(), Memory>
    ensures all { IfOk result (λ _. found.new.items ≡ found.old.items ++ delay_variables (delay_view delay.now)) }
{
    match delay {
        None => Ok(()),
        Some(expr) => push_variables(expr, found),
    }
}

/// Adds the variables of a pattern of a binding term.
#[cycle(pattern_variables)]
fn push_pattern_variables(pattern: &Pat, found: &mut Vec<u32>) -> Result<(), Memory>
    ensures all { IfOk result (λ _. found.new.items ≡ found.old.items ++ pattern_variables (pattern_view pattern.now)) }
{
    match pattern {
        Pat::Any => Ok(()),
        Pat::Var(number) => {
            found.push(*number)?;
            Ok(())
        }
        Pat::Lit(_) => Ok(()),
        Pat::Tuple(parts) => push_of_patterns(parts, found),
        Pat::List(parts) => push_of_patterns(parts, found),
        Pat::Cons(first, rest) => {
            push_pattern_variables(first, found)?;
            push_pattern_variables(rest, found)
        }
        Pat::Con(_, argument) => match argument {
            None => Ok(()),
            Some(part) => push_pattern_variables(part, found),
        },
    }
}

/// Adds those of several patterns.
#[cycle(pattern_variables)]
fn push_of_patterns(patterns: &Pats, found: &mut Vec<u32>) -> Result<(), Memory>
    ensures all { IfOk result (λ _. found.new.items ≡ found.old.items ++ patterns_variables (patterns_view patterns.now.items)) }
{
    for pattern in patterns {
        push_pattern_variables(pattern, found)?;
    }
    Ok(())
}

/// Adds those of the patterns of binding terms.
fn push_of_terms(terms: &[BindingTerm], found: &mut Vec<u32>) -> Result<(), Memory>
    ensures all { IfOk result (λ _. found.new.items ≡ found.old.items ++ flat_map (λ term. pattern_variables term.pattern) (map term_view terms.now)) }
{
    for term in terms {
        push_pattern_variables(&term.pattern, found)?;
    }
    Ok(())
}

/// Adds the variables of the binding terms that arcs carry behind those that were found, term by term, as they stand in them.
///
/// # Errors
///
/// [`Memory`]: memory ran out.
pub fn push_carried(arcs: &[PlaceArc], found: &mut Vec<u32>) -> Result<(), Memory>
    ensures all { IfOk result (λ _. found.new.items ≡ found.old.items ++ carried_variables (arcs_view arcs.now)) }
{
    for arc in arcs {
        push_of_terms(&arc.inscription.terms, found)?;
    }
    Ok(())
}

/// The numbers in rising order, each once.
fn rising(mut numbers: Vec<u32>) -> Vec<u32>
    ensures rises { Rises nat_cmp result.items }
    ensures same { (x : ℕ) → Contains result.items x ↔ Contains numbers.items x }
{
    numbers.sort_unstable();
    numbers.dedup();
    numbers
}

/// The variables of a transition with these parts: each once, in declaration order.
///
/// # Errors
///
/// Memory is wanted.
pub fn variables_of(
    alloc: Global,
    guard: &Guard,
    delay: &Option<Arc<Expr>>,
    inputs: &[PlaceArc],
    outputs: &[PlaceArc],
) -> Result<Vec<u32>, Memory>
    ensures exact { IfOk result (λ vars. (name : List ℕ) → HasItsVariables (transition_with guard.now delay.now inputs.now outputs.now vars.items name)) }
{
    let mut found = Vec::new(alloc);
    push_of_each(&guard.conjuncts, &mut found)?;
    push_of_delay(delay, &mut found)?;
    push_of_arcs(inputs, &mut found)?;
    push_of_arcs(outputs, &mut found)?;
    Ok(rising(found))
}
