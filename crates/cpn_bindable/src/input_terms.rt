//! The binding terms of an inscription of an input arc: the patterns that its tokens fit.

ghost use Rattle.std.specs.Prelude.{◌≡◌, ◌++◌, map, option_map, Some, IfOk};
ghost use Rattle.std.specs.Option.{option_and_then};
ghost use Rattle.cpn_definitions.specs.Inscription.{applied_pattern, inscriptions_from, list_pattern, literal_pattern, tuple_pattern};
ghost use Rattle.cpn_definitions.specs.Bindable as bindable;
ghost use Rattle.cpn_core.specs.Views.{value_view};
ghost use Rattle.cpn_core.specs.Inscriptions.{op_view, pattern_view, patterns_view, expr_view, exprs_view, multiset_view, term_view};
ghost use Rattle.cpn_bindable.specs.TermForms as forms;

use cpn_core::{BindingTerm, Expr, Exprs, MExpr, MExprs, Memory, Op, Pat, Pats, Value};
use std::alloc::Global;

/// The inscription read as a pattern, if it is made of variables, literals, constants, constructors, tuples, lists and
/// `::` alone.
#[cycle(patterns)]
#[tactic(auto, using(crate::proofs::BindingTermForms::pattern_of_operation))]
fn pattern_of(alloc: Global, expr: &Expr) -> Result<Option<Pat>, Memory>
    ensures exact { IfOk result (λ pattern. option_map pattern_view pattern ≡ bindable.pattern_of (expr_view expr.now)) }
{
    match expr {
        Expr::Lit(value) => literal_of(value),
        Expr::Var(number) => Ok(Some(Pat::Var(*number))),
        Expr::Op(operation, parts) => match is_cons(*operation) {
            true => cons_of(alloc, parts),
            false => Ok(None),
        },
        Expr::Tuple(parts) => tuple_of(alloc, parts),
        Expr::List(parts) => list_of(alloc, parts),
        Expr::Con(position, argument) => match argument {
            None => Ok(Some(Pat::Con(*position, None))),
            Some(part) => constructor_of(alloc, *position, part),
        },
        Expr::Local(_) => Ok(None),
        Expr::Time => Ok(None),
        Expr::And(_, _) => Ok(None),
        Expr::Or(_, _) => Ok(None),
        Expr::If(_, _, _) => Ok(None),
        Expr::Case(_, _) => Ok(None),
        Expr::Let(_, _) => Ok(None),
        Expr::Fold {
            list: _,
            start: _,
            body: _,
        } => Ok(None),
        Expr::Call(_, _) => Ok(None),
    }
}

/// The pattern of a literal.
fn literal_of(value: &Value) -> Result<Option<Pat>, Memory>
    ensures exact { IfOk result (λ pattern. option_map pattern_view pattern ≡ Some (literal_pattern (value_view value.now))) }
{
    let value = value.copy()?;
    Ok(Some(Pat::Lit(value)))
}

/// The pattern of a head and a tail, if both parts are read as patterns.
#[cycle(patterns)]
fn cons_of(alloc: Global, parts: &Exprs) -> Result<Option<Pat>, Memory>
    ensures exact { IfOk result (λ pattern. option_map pattern_view pattern ≡ option_and_then bindable.list_of_two (bindable.patterns_of (exprs_view parts.now.items))) }
{
    match patterns_of(alloc, parts)? {
        None => Ok(None),
        Some(patterns) => head_and_tail(alloc, patterns),
    }
}

/// The pattern of a tuple, if its parts are read as patterns.
#[cycle(patterns)]
fn tuple_of(alloc: Global, parts: &Exprs) -> Result<Option<Pat>, Memory>
    ensures exact { IfOk result (λ pattern. option_map pattern_view pattern ≡ option_map tuple_pattern (bindable.patterns_of (exprs_view parts.now.items))) }
{
    match patterns_of(alloc, parts)? {
        None => Ok(None),
        Some(patterns) => Ok(Some(Pat::Tuple(patterns))),
    }
}

/// The pattern of a list, if its items are read as patterns.
#[cycle(patterns)]
fn list_of(alloc: Global, items: &Exprs) -> Result<Option<Pat>, Memory>
    ensures exact { IfOk result (λ pattern. option_map pattern_view pattern ≡ option_map list_pattern (bindable.patterns_of (exprs_view items.now.items))) }
{
    match patterns_of(alloc, items)? {
        None => Ok(None),
        Some(patterns) => Ok(Some(Pat::List(patterns))),
    }
}

/// The pattern of a constructor with its argument, if that is read as a pattern.
#[cycle(patterns)]
#[tactic(auto, using(cpn_core::proofs::InscriptionLevels::view_con_pattern))]
fn constructor_of(alloc: Global, position: u32, argument: &Expr) -> Result<Option<Pat>, Memory>
    ensures exact { IfOk result (λ pattern. option_map pattern_view pattern ≡ option_map (applied_pattern position) (bindable.pattern_of (expr_view argument.now))) }
{
    match pattern_of(alloc, argument)? {
        None => Ok(None),
        Some(pattern) => Ok(Some(Pat::Con(position, Some(Box::new(alloc, pattern)?)))),
    }
}

/// The patterns of the parts, if each is one.
#[cycle(patterns)]
fn patterns_of(alloc: Global, parts: &Exprs) -> Result<Option<Pats>, Memory>
    ensures exact { IfOk result (λ patterns. option_map (λ ps. patterns_view ps.items) patterns ≡ bindable.patterns_of (exprs_view parts.now.items)) }
{
    let mut patterns = Vec::with_capacity(alloc, parts.len())?;
    for part in parts {
        match pattern_of(alloc, part)? {
            None => return Ok(None),
            Some(pattern) => patterns.push(pattern)?,
        }
    }
    Ok(Some(patterns))
}

/// Whether the operation is `::`.
fn is_cons(operation: Op) -> bool
    ensures exact { result ≡ forms.is_cons (op_view operation) }
{
    match operation {
        Op::Cons => true,
        _ => false,
    }
}

/// The pattern of a head and a tail, where there are two patterns.
fn head_and_tail(alloc: Global, mut patterns: Pats) -> Result<Option<Pat>, Memory>
    ensures exact { IfOk result (λ pattern. option_map pattern_view pattern ≡ bindable.list_of_two (patterns_view patterns.items)) }
{
    if patterns.len() != 2 {
        return Ok(None);
    }
    let tail = patterns.remove(1);
    let head = patterns.remove(0);
    Ok(Some(Pat::Cons(Box::new(alloc, head)?, Box::new(alloc, tail)?)))
}

/// The number that the coefficient is, where it is a literal from 1; else 0.
fn literal_count(coefficient: &Expr) -> u64
    ensures exact { result ≡ forms.literal_count (expr_view coefficient.now) }
{
    match coefficient {
        Expr::Lit(value) => match value {
            Value::Int(number) => { if *number > 0 { *number as u64 } else { 0 } }
            _ => 0,
        },
        _ => 0,
    }
}

/// Adds the term of so many tokens of an inscription, if it is read as a pattern.
fn push_term(
    alloc: Global,
    count: u64,
    value: &Expr,
    terms: &mut Vec<BindingTerm>,
) -> Result<(), Memory>
    ensures added { IfOk result (λ _. map term_view terms.new.items ≡ map term_view terms.old.items ++ bindable.term_with count (bindable.pattern_of (expr_view value.now))) }
{
    match pattern_of(alloc, value)? {
        None => Ok(()),
        Some(pattern) => {
            terms.push(BindingTerm { count, pattern })?;
            Ok(())
        }
    }
}

/// Adds the binding term of a part of the root sum, if it is one.
#[tactic(auto, using(crate::proofs::BindingTermForms::counted_term))]
fn push_of_part(alloc: Global, part: &MExpr, terms: &mut Vec<BindingTerm>) -> Result<(), Memory>
    ensures added { IfOk result (λ _. map term_view terms.new.items ≡ map term_view terms.old.items ++ bindable.binding_term (multiset_view part.now)) }
{
    match part {
        MExpr::One(value) => push_term(alloc, 1, value, terms),
        MExpr::Times(coefficient, value) => {
            let count = literal_count(coefficient);
            if count == 0 {
                return Ok(());
            }
            push_term(alloc, count, value, terms)
        }
        _ => Ok(()),
    }
}

/// The binding terms of the parts of a sum.
fn terms_of_sum(alloc: Global, parts: &MExprs) -> Result<Vec<BindingTerm>, Memory>
    ensures exact { IfOk result (λ terms. map term_view terms.items ≡ bindable.binding_terms_of_each (inscriptions_from (map multiset_view parts.now.items))) }
{
    let mut terms = Vec::new(alloc);
    for part in parts {
        push_of_part(alloc, part, &mut terms)?;
    }
    Ok(terms)
}

/// The binding terms of an inscription of an arc, in their order.
///
/// # Errors
///
/// Memory is wanted.
pub fn binding_terms(alloc: Global, inscription: &MExpr) -> Result<Vec<BindingTerm>, Memory>
    ensures exact { IfOk result (λ terms. map term_view terms.items ≡ bindable.binding_terms (multiset_view inscription.now)) }
{
    match inscription {
        MExpr::Sum(parts) => terms_of_sum(alloc, parts),
        _ => {
            let mut terms = Vec::new(alloc);
            push_of_part(alloc, inscription, &mut terms)?;
            Ok(terms)
        }
    }
}
