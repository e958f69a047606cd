//! Guards, delays and what monitors measure.

ghost use Rattle.std.specs.Prelude.{◌≡◌, IfOk, Some, [], map};
ghost use Rattle.cpn_core.specs.Inscriptions.{expr_view};
ghost use Rattle.cpn_trees.specs.AstViews.{ast_view};
ghost use Rattle.cpn_trees.specs.Trees.{asts_from};
ghost use Rattle.cpn_trees.specs.ParsedViews.{inscription_view, guard_view};
ghost use Rattle.cpn_typing.specs.Expressions.{typed};
ghost use Rattle.cpn_typing.specs.GuardsAndDelays.{checked_guard, checked_delay, checked_value};
ghost use Rattle.cpn_types.specs.Accepted.{GuardHasMeaning, IntegerHasMeaning};
ghost use Rattle.cpn_declared.specs.Answers.{Answers};
ghost use Rattle.cpn_declared.specs.DeclsViews.{decls_view};
ghost use Rattle.cpn_forms.specs.ContextViews.{context_view};
ghost use Rattle.cpn_declared.specs.TypeViews.{ty_view};
ghost use Rattle.cpn_forms.specs.TypedViews.{typed_view};

use crate::expressions::check_expr;
use cpn_core::{Expr, Exprs, Guard};
use cpn_declared::{Decls, Ty, TypeError};
use cpn_forms::{Context, Typed};
use cpn_trees::{Ast, Inscription};
use std::alloc::Global;

/// The typed inscription of a tree in a context without locals.
fn check_alone(
    alloc: Global,
    decls: &Decls,
    context: Context,
    tree: &Ast,
    wanted: &Ty,
) -> Result<Typed, TypeError>
    ensures exact { Answers typed_view result (typed (decls_view decls.now) (context_view context) (ast_view tree.now) [] (Some (ty_view wanted.now))) }
{
    let mut scope = Vec::new(alloc);
    let typed = check_expr(alloc, decls, context, tree, &mut scope, Some(wanted))?;
    Ok(typed)
}

/// The conjuncts of a guard.
#[tactic(auto, using(crate::proofs::Conjuncts::none_in_front))]
fn check_conjuncts(alloc: Global, decls: &Decls, trees: &[Ast]) -> Result<Exprs, TypeError>
    ensures exact { Answers (λ conjuncts. map expr_view conjuncts.items) result (checked_guard (decls_view decls.now) (asts_from (map ast_view trees.now))) }
{
    let mut conjuncts = Vec::new(alloc);
    for tree in trees {
        let conjunct = check_alone(alloc, decls, Context::Guard, tree, &Ty::Bool)?;
        conjuncts.push(conjunct.expr)?;
    }
    Ok(conjuncts)
}

/// The guard that is written: each of its conjuncts is a truth value.
///
/// # Errors
///
/// The first reason why it is not accepted, as the rules of guards say, or [`TypeError::Memory`].
pub fn check_guard(
    alloc: Global,
    decls: &Decls,
    written: &cpn_trees::Guard,
) -> Result<Guard, TypeError>
    ensures exact { Answers (λ guard. map expr_view guard.conjuncts.items) result (checked_guard (decls_view decls.now) (guard_view written.now)) }
    ensures means { IfOk result (λ guard. GuardHasMeaning (decls_view decls.now) (map expr_view guard.conjuncts.items)) }
{
    let conjuncts = check_conjuncts(alloc, decls, &written.conjuncts)?;
    Ok(Guard { conjuncts })
}

/// The delay that is written behind `@+` or alone: an integer.
///
/// # Errors
///
/// The first reason why it is not accepted, as the rules of delays say, or [`TypeError::Memory`].
pub fn check_delay(alloc: Global, decls: &Decls, written: &Inscription) -> Result<Expr, TypeError>
    ensures exact { Answers expr_view result (checked_delay (decls_view decls.now) (inscription_view written.now)) }
    ensures means { IfOk result (λ delay. IntegerHasMeaning (decls_view decls.now) (expr_view delay)) }
{
    let delay = check_alone(alloc, decls, Context::Delay, &written.tree, &Ty::Int)?;
    Ok(delay.expr)
}

/// What a monitor measures: an integer over the variables of a transition.
///
/// # Errors
///
/// The first reason why it is not accepted, as the rules of monitors say, or [`TypeError::Memory`].
pub fn check_value(alloc: Global, decls: &Decls, written: &Inscription) -> Result<Expr, TypeError>
    ensures exact { Answers expr_view result (checked_value (decls_view decls.now) (inscription_view written.now)) }
    ensures means { IfOk result (λ value. IntegerHasMeaning (decls_view decls.now) (expr_view value)) }
{
    let value = check_alone(alloc, decls, Context::Monitor, &written.tree, &Ty::Int)?;
    Ok(value.expr)
}
