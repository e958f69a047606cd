//! The equations of a guard between a variable and an inscription.

ghost use Rattle.std.specs.Prelude.{◌≡◌, ◌≤◌, ◌++◌, map, length, Some, IfOk, MatchOption, slice_get};
ghost use Rattle.std.specs.Option.{option_map};
ghost use Rattle.std.specs.List.{flat_map, AllByRecursion};
ghost use Rattle.cpn_definitions.specs.Bindable.{variables_of, conjuncts_of};
ghost use Rattle.cpn_core.specs.Inscriptions.{op_view, expr_view, exprs_view};
ghost use Rattle.cpn_typing.specs.Closure.{equation_with, equations_of_part};
ghost use Rattle.cpn_typing.specs.Closure as closure;
ghost use Rattle.cpn_definitions.specs.Inscription.{equality, apply, operation};
ghost use Rattle.cpn_stages.specs.Stages.{equation_between, equations_at};
ghost use Rattle.cpn_bindable.specs.Equations.{is_equality, equation_view, equations_view, equation_pair, HasItsSources, equations_in_guard, inscriptions_of, IsReached};

use crate::variables::push_variables;
use cpn_core::{Expr, Exprs, Guard, Memory, Op};
use std::alloc::Global;

/// An equation of a guard: a variable, and the inscription that it is equal to.
#[derive(Drop)]
pub struct Equation<'n> {
    /// The variable.
    pub variable: u32,
    /// The inscription.
    pub inscription: &'n Expr,
    /// The variables of the inscription, as they stand in it.
    pub sources: Vec<u32>,
}

/// Whether the operation is `=`.
fn is_equality(operation: Op) -> bool
    ensures exact { result ≡ is_equality (op_view operation) }
{
    match operation {
        Op::Eq => true,
        _ => false,
    }
}

/// Adds the equation, where the first part is a variable.
fn push_equation<'n>(
    alloc: Global,
    first: &'n Expr,
    second: &'n Expr,
    equations: &mut Vec<Equation<'n>>,
) -> Result<(), Memory>
    ensures added { IfOk result (λ _. equations_view equations.new.items ≡ equations_view equations.old.items ++ equation_with (expr_view first.now) (expr_view second.now)) }
    ensures equations { IfOk result (λ _. map equation_pair equations.new.items ≡ map equation_pair equations.old.items ++ equation_between (expr_view first.now) (expr_view second.now)) }
    ensures sources { IfOk result (λ _. AllByRecursion HasItsSources equations.old.items → AllByRecursion HasItsSources equations.new.items) }
{
    match first {
        Expr::Var(number) => {
            let mut sources = Vec::new(alloc);
            push_variables(second, &mut sources)?;
            equations.push(Equation {
                variable: *number,
                inscription: second,
                sources,
            })?;
            Ok(())
        }
        _ => Ok(()),
    }
}

/// Adds the equation of two parts, both ways round; other than two make none.
fn push_both<'n>(
    alloc: Global,
    parts: &'n Exprs,
    equations: &mut Vec<Equation<'n>>,
) -> Result<(), Memory>
    ensures added { IfOk result (λ _. equations_view equations.new.items ≡ equations_view equations.old.items ++ equations_of_part (apply (operation equality) (exprs_view parts.now.items))) }
    ensures equations { IfOk result (λ _. map equation_pair equations.new.items ≡ map equation_pair equations.old.items ++ equations_at (apply (operation equality) (exprs_view parts.now.items))) }
    ensures sources { IfOk result (λ _. AllByRecursion HasItsSources equations.old.items → AllByRecursion HasItsSources equations.new.items) }
{
    if parts.len() != 2 {
        return Ok(());
    }
    push_equation(alloc, &parts[0], &parts[1], equations)?;
    push_equation(alloc, &parts[1], &parts[0], equations)
}

/// Adds the equations of a conjunct of a guard, which is split where `andalso` stands at its root.
fn push_equations<'n>(
    alloc: Global,
    conjunct: &'n Expr,
    equations: &mut Vec<Equation<'n>>,
) -> Result<(), Memory>
    ensures added { IfOk result (λ _. equations_view equations.new.items ≡ equations_view equations.old.items ++ flat_map equations_of_part (conjuncts_of (expr_view conjunct.now))) }
    ensures equations { IfOk result (λ _. map equation_pair equations.new.items ≡ map equation_pair equations.old.items ++ flat_map equations_at (conjuncts_of (expr_view conjunct.now))) }
    ensures sources { IfOk result (λ _. AllByRecursion HasItsSources equations.old.items → AllByRecursion HasItsSources equations.new.items) }
{
    match conjunct {
        Expr::And(first, second) => {
            push_equations(alloc, first, equations)?;
            push_equations(alloc, second, equations)
        }
        Expr::Op(operation, parts) => match is_equality(*operation) {
            true => push_both(alloc, parts, equations),
            false => Ok(()),
        },
        Expr::Lit(_) => Ok(()),
        Expr::Var(_) => Ok(()),
        Expr::Local(_) => Ok(()),
        Expr::Time => Ok(()),
        Expr::Or(_, _) => Ok(()),
        Expr::If(_, _, _) => Ok(()),
        Expr::Case(_, _) => Ok(()),
        Expr::Let(_, _) => Ok(()),
        Expr::Fold {
            list: _,
            start: _,
            body: _,
        } => Ok(()),
        Expr::Tuple(_) => Ok(()),
        Expr::List(_) => Ok(()),
        Expr::Con(_, argument) => match argument {
            None => Ok(()),
            Some(_) => Ok(()),
        },
        Expr::Call(_, _) => Ok(()),
    }
}

/// The equations of a guard, in the order of its conjuncts, which are split where `andalso` stands at their root: an equality
/// makes one for each side of it that is a lone variable, first for the left one.
///
/// # Errors
///
/// [`Memory`]: memory ran out.
pub fn equations_of<'n>(alloc: Global, guard: &'n Guard) -> Result<Vec<Equation<'n>>, Memory>
    ensures exact { IfOk result (λ equations. equations_view equations.items ≡ closure.equations_of (map expr_view guard.now.conjuncts.items)) }
    ensures equations { IfOk result (λ equations. map equation_pair equations.items ≡ flat_map equations_at (flat_map conjuncts_of (map expr_view guard.now.conjuncts.items))) }
    ensures sources { IfOk result (λ equations. AllByRecursion (λ q. q.sources.items ≡ variables_of (expr_view q.inscription.now)) equations.items) }
{
    let mut equations = Vec::new(alloc);
    for conjunct in &guard.conjuncts {
        push_equations(alloc, conjunct, &mut equations)?;
    }
    Ok(equations)
}

/// The second part, where the first is a variable and no equation is to be passed.
fn inscription_between<'g>(
    first: &'g Expr,
    second: &'g Expr,
    passed: &mut usize,
) -> Option<&'g Expr>
    ensures reached { IsReached (inscriptions_of (equation_between (expr_view first.now) (expr_view second.now))) passed.old passed.new (option_map (λ e. expr_view e.now) result) }
{
    match first {
        Expr::Var(_) => {
            if *passed == 0 {
                return Some(second);
            }
            *passed -= 1;
            None
        }
        _ => None,
    }
}

/// The same of two parts, both ways round; other than two make no equation.
#[tactic(auto, using(crate::proofs::NumberedEquations::reached_both, crate::proofs::NumberedEquations::reached_first))]
fn inscription_of_both<'g>(parts: &'g Exprs, passed: &mut usize) -> Option<&'g Expr>
    ensures reached { IsReached (inscriptions_of (equations_at (apply (operation equality) (exprs_view parts.now.items)))) passed.old passed.new (option_map (λ e. expr_view e.now) result) }
{
    if parts.len() != 2 {
        return None;
    }
    match inscription_between(&parts[0], &parts[1], passed) {
        Some(inscription) => Some(inscription),
        None => inscription_between(&parts[1], &parts[0], passed),
    }
}

/// The same of a conjunct of a guard, which is split where `andalso` stands at its root.
fn inscription_in<'g>(conjunct: &'g Expr, passed: &mut usize) -> Option<&'g Expr>
    ensures reached { IsReached (inscriptions_of (flat_map equations_at (conjuncts_of (expr_view conjunct.now)))) passed.old passed.new (option_map (λ e. expr_view e.now) result) }
{
    match conjunct {
        Expr::And(first, second) => match inscription_in(first, passed) {
            Some(inscription) => Some(inscription),
            None => inscription_in(second, passed),
        },
        Expr::Op(operation, parts) => match is_equality(*operation) {
            true => inscription_of_both(parts, passed),
            false => None,
        },
        Expr::Lit(_) => None,
        Expr::Var(_) => None,
        Expr::Local(_) => None,
        Expr::Time => None,
        Expr::Or(_, _) => None,
        Expr::If(_, _, _) => None,
        Expr::Case(_, _) => None,
        Expr::Let(_, _) => None,
        Expr::Fold {
            list: _,
            start: _,
            body: _,
        } => None,
        Expr::Tuple(_) => None,
        Expr::List(_) => None,
        Expr::Con(_, argument) => match argument {
            None => None,
            Some(_) => None,
        },
        Expr::Call(_, _) => None,
    }
}

/// The inscription of the equation of a number of a guard, as `equations_of` lists them; `None` past the last one. It takes no memory.
pub fn inscription_at<'g>(guard: &'g Guard, number: usize) -> Option<&'g Expr>
    ensures exact { MatchOption result (length (equations_in_guard guard.now) ≤ number) (λ e. slice_get (inscriptions_of (equations_in_guard guard.now)) number ≡ Some (expr_view e.now)) }
{
    let mut passed = number;
    for conjunct in &guard.conjuncts {
        if let Some(inscription) = inscription_in(conjunct, &mut passed) {
            return Some(inscription);
        }
    }
    None
}
