//! What typed parts make: `if`, `case`, `let` and `foldl`, tuples and lists.

ghost use Rattle.std.specs.Prelude.{◌≡◌, [], ◌∷◌, map, IfOk};
ghost use Rattle.cpn_definitions.specs.Inscription.{choose, accumulate, apply, tupling};
ghost use Rattle.cpn_core.specs.Inscriptions.{expr_view};
ghost use Rattle.cpn_typing.specs.Names.{ok, local_of};
ghost use Rattle.cpn_typing.specs.Rules.{list_rule, case_rule, meets as meets_rule};
ghost use Rattle.cpn_typing.specs.Types.{tuples};
ghost use Rattle.cpn_declared.specs.Answers.{Answers};
ghost use Rattle.cpn_forms.specs.ScopeViews.{scope_view};
ghost use Rattle.cpn_declared.specs.TypeViews.{ty_view};
ghost use Rattle.cpn_forms.specs.TypedViews.{typed_view};
ghost use Rattle.cpn_forms.specs.FormViews.{arms_view, items_view, parts_view, spot_view, wanted_view};
ghost use Rattle.cpn_typing.specs.Bindings.{bind_all};

use crate::forms::{Arms, Branches, Items, Parts, Spot, meets};
use crate::scopes::Local;
use crate::typed::Typed;
use cpn_core::{Expr, Exprs, Memory};
use cpn_declared::{Ty, TypeError};
use std::alloc::Global;
use std::sync::Arc;

/// An `if` of a condition and its two parts.
fn choice(alloc: Global, condition: Expr, left: Expr, right: Expr) -> Result<Expr, Memory>
    ensures exact { IfOk result (λ expr. expr_view expr ≡ choose (expr_view condition) (expr_view left) (expr_view right)) }
{
    let condition = Box::new(alloc, condition)?;
    let left = Box::new(alloc, left)?;
    let right = Box::new(alloc, right)?;
    Ok(Expr::If(condition, left, right))
}

/// A typed `if`.
///
/// # Errors
///
/// [`TypeError::Memory`].
pub fn chosen(alloc: Global, condition: Typed, branches: Branches) -> Result<Typed, TypeError>
    ensures exact { Answers typed_view result (ok (record { expr = choose (expr_view condition.expr) (expr_view branches.left) (expr_view branches.right); type_of = ty_view branches.ty })) }
{
    let expr = choice(alloc, condition.expr, branches.left, branches.right)?;
    Ok(Typed {
        expr,
        ty: branches.ty,
    })
}

/// A `foldl` of a list, a start and a body.
fn accumulation(alloc: Global, list: Expr, start: Expr, body: Expr) -> Result<Expr, Memory>
    ensures exact { IfOk result (λ expr. expr_view expr ≡ accumulate (expr_view list) (expr_view start) (expr_view body)) }
{
    let list = Box::new(alloc, list)?;
    let start = Box::new(alloc, start)?;
    let body = Box::new(alloc, body)?;
    Ok(Expr::Fold { list, start, body })
}

/// A typed `foldl`.
///
/// # Errors
///
/// [`TypeError::Memory`].
pub fn folded(alloc: Global, list: Typed, start: Typed, body: Typed) -> Result<Typed, TypeError>
    ensures exact { Answers typed_view result (ok (record { expr = accumulate (expr_view list.expr) (expr_view start.expr) (expr_view body.expr); type_of = ty_view start.ty })) }
{
    let expr = accumulation(alloc, list.expr, start.expr, body.expr)?;
    Ok(Typed { expr, ty: start.ty })
}

/// The locals of the body of a `foldl`.
///
/// # Errors
///
/// Memory is wanted.
pub fn two_locals<'t>(
    alloc: Global,
    item: &'t str,
    item_type: Ty,
    total: &'t str,
    total_type: &Ty,
) -> Result<Vec<Local<'t>>, Memory>
    ensures locals { IfOk result (λ locals. scope_view locals.items ≡ local_of item.now (ty_view item_type) ∷ local_of total.now (ty_view total_type.now) ∷ []) }
{
    let mut locals = Vec::new(alloc);
    locals.push(Local {
        name: item,
        ty: item_type,
    })?;
    locals.push(Local {
        name: total,
        ty: total_type.copy()?,
    })?;
    Ok(locals)
}

/// A `let` with several values around a body.
///
/// # Errors
///
/// [`TypeError::Memory`].
pub fn nested(alloc: Global, values: Exprs, body: Typed) -> Result<Typed, TypeError>
    ensures exact { Answers typed_view result (ok (record { expr = bind_all (map expr_view values.items) (expr_view body.expr); type_of = ty_view body.ty })) }
{
    let mut values = values;
    let Typed { mut expr, ty } = body;
    'values: loop {
        match values.pop() {
            Some(value) => expr = Expr::Let(Box::new(alloc, value)?, Box::new(alloc, expr)?),
            None => return Ok(Typed { expr, ty }),
        }
    }
}

/// A tuple of its parts.
///
/// # Errors
///
/// [`TypeError::Mismatch`] at the form, where its context wants another type; [`TypeError::Memory`].
pub fn tupled(parts: Parts, spot: Spot<'_>) -> Result<Typed, TypeError>
    ensures exact { Answers typed_view result (meets_rule (wanted_view spot.entry.wanted) spot.entry.at (apply tupling (parts_view parts).exprs) (tuples (parts_view parts).types)) }
{
    let Parts { exprs, types } = parts;
    let alloc = *types.allocator();
    let ty = Ty::Tuple(Arc::new(alloc, types)?);
    meets(spot.wanted, spot.at, Expr::Tuple(exprs), ty)
}

/// A list whose items have one type.
///
/// # Errors
///
/// [`TypeError::Mismatch`] at the form, where there is neither an item nor a wanted type (`[]` alone), or where its context wants another
/// type; [`TypeError::Memory`].
pub fn listed(alloc: Global, items: Items, spot: Spot<'_>) -> Result<Typed, TypeError>
    ensures exact { Answers typed_view result (list_rule (spot_view spot.entry) (items_view items).item_type (items_view items).items) }
{
    let Items { exprs, ty } = items;
    match ty {
        Some(ty) => {
            let ty = Ty::List(Arc::new(alloc, ty)?);
            meets(spot.wanted, spot.at, Expr::List(exprs), ty)
        }
        None => Err(TypeError::Mismatch(spot.at)),
    }
}

/// A typed `case`: its arms have one type.
///
/// # Errors
///
/// [`TypeError::Mismatch`] at the form, where no arm has a type; [`TypeError::Memory`].
pub fn selected(alloc: Global, at: usize, subject: Typed, arms: Arms) -> Result<Typed, TypeError>
    ensures exact { Answers typed_view result (case_rule at (expr_view subject.expr) (arms_view arms).arm_type (arms_view arms).arms) }
{
    let Arms { arms, ty } = arms;
    match ty {
        Some(ty) => {
            let subject = Box::new(alloc, subject.expr)?;
            Ok(Typed {
                expr: Expr::Case(subject, arms),
                ty,
            })
        }
        None => Err(TypeError::Mismatch(at)),
    }
}
