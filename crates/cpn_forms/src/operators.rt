//! The rules of the operators: what is wanted of their operands, and what these make.

ghost use Rattle.std.specs.Prelude.{◌≡◌, ◌<◌, pos, IfOk, option_map, not, ◌&&◌};
ghost use Rattle.cpn_definitions.specs.Inscription.{operation as of_operation, apply, no_exprs, more_exprs};
ghost use Rattle.cpn_core.specs.Inscriptions.{expr_view, op_view};
ghost use Rattle.cpn_trees.specs.AstViews.{ast_view, form_view};
ghost use Rattle.cpn_trees.specs.declared.operators.Infix.TheVariants as between;
ghost use Rattle.cpn_trees.specs.declared.operators.Prefix.TheVariants as front;
ghost use Rattle.cpn_typing.specs.Rules.{is_empty_list as empty_list, is_empty_form as empty_form, list_wanted as wanted_list, item_wanted as wanted_item, ordered, a_list, two, meets as meets_rule, part_of as part_type};
ghost use Rattle.cpn_declared.specs.TypeViews.{ty_view, tys_view};
ghost use Rattle.cpn_typing.specs.Types.{tuples};
ghost use Rattle.cpn_forms.specs.TypedViews.{typed_view};
ghost use Rattle.cpn_forms.specs.FormViews.{wanted_view, spot_view, sides_view};
ghost use Rattle.cpn_forms.specs.Operators as rules;
ghost use Rattle.cpn_declared.specs.Answers.{Answers};

use crate::forms::{Spot, copy_wanted, meets};
use crate::typed::Typed;
use cpn_core::{Expr, Memory, Op};
use cpn_declared::{Ty, TypeError};
use cpn_trees::{Ast, Form, Infix, Prefix};
use std::alloc::Global;
use std::sync::Arc;

/// The typed operands of an operator, with the types of the one that came first and of the one that came last.
#[derive(Drop)]
pub struct Sides {
    /// The left operand.
    pub left: Expr,
    /// The right operand.
    pub right: Expr,
    /// The type of the one that was checked first.
    pub first: Ty,
    /// The type of the one that was checked last.
    pub last: Ty,
}

impl Sides {
    /// The operands in the order in which they were checked.
    pub fn of(first: Typed, last: Typed) -> Sides
        ensures exact { sides_view result ≡ record { left = expr_view first.expr; right = expr_view last.expr; first = ty_view first.ty; last = ty_view last.ty } }
    {
        Sides {
            left: first.expr,
            right: last.expr,
            first: first.ty,
            last: last.ty,
        }
    }

    /// The same operands, exchanged.
    pub fn turned(self) -> Sides
        ensures exact { sides_view result ≡ rules.turned (sides_view self) }
    {
        let Sides {
            left,
            right,
            first,
            last,
        } = self;
        Sides {
            left: right,
            right: left,
            first,
            last,
        }
    }
}

/// Whether the left operand takes the type of the right one: it alone is `[]`.
pub fn waits(left: &Ast, right: &Ast) -> bool
    ensures exact { result ≡ (empty_list (ast_view left.now) && not (empty_list (ast_view right.now))) }
{
    is_empty_list(left) && !is_empty_list(right)
}

/// Whether the tree is `[]`.
fn is_empty_list(tree: &Ast) -> bool
    ensures exact { result ≡ empty_list (ast_view tree.now) }
{
    is_empty_form(&tree.form)
}

#[tactic(auto, using(crate::proofs::TreeLevels::empty_form))]
fn is_empty_form(form: &Form) -> bool
    ensures exact { result ≡ empty_form (form_view form.now) }
{
    match form {
        Form::List(items) => items.is_empty(),
        _ => false,
    }
}

/// The wanted type, where it is that of a list.
fn list_wanted(wanted: Option<&Ty>) -> Option<&Ty>
    ensures exact { wanted_view result ≡ wanted_list (wanted_view wanted.entry) }
{
    match wanted {
        Some(ty) => match ty {
            Ty::List(_) => Some(ty),
            _ => None,
        },
        None => None,
    }
}

/// The type of the items of a list that is wanted.
pub fn item_wanted(wanted: Option<&Ty>) -> Option<&Ty>
    ensures exact { wanted_view result ≡ wanted_item (wanted_view wanted.entry) }
{
    match wanted {
        Some(ty) => match ty {
            Ty::List(item) => Some(item),
            _ => None,
        },
        None => None,
    }
}

/// Whether the right operand comes first.
pub fn is_right_first(operator: Infix, wanted: Option<&Ty>, waiting: bool) -> bool
    ensures exact { result ≡ rules.right_first operator (wanted_view wanted.entry) waiting }
{
    match operator {
        Infix::Equal | Infix::NotEqual => waiting,
        Infix::Append => list_wanted(wanted).is_none() && waiting,
        Infix::Later
        | Infix::Times
        | Infix::Orelse
        | Infix::Andalso
        | Infix::Less
        | Infix::LessOrEqual
        | Infix::Greater
        | Infix::GreaterOrEqual
        | Infix::Cons
        | Infix::Add
        | Infix::Subtract
        | Infix::Concatenate
        | Infix::Multiply
        | Infix::Div
        | Infix::Mod => false,
    }
}

/// What is wanted of the operand that comes first.
///
/// # Errors
///
/// Memory is wanted.
pub fn side_wanted(operator: Infix, wanted: Option<&Ty>) -> Result<Option<Ty>, Memory>
    ensures exact { IfOk result (λ side. option_map ty_view side ≡ rules.side_wanted operator (wanted_view wanted.entry)) }
{
    match operator {
        Infix::Add | Infix::Subtract | Infix::Multiply | Infix::Div | Infix::Mod | Infix::Times =>
            Ok(Some(Ty::Int)),
        Infix::Concatenate => Ok(Some(Ty::Text)),
        Infix::Andalso | Infix::Orelse => Ok(Some(Ty::Bool)),
        Infix::Cons => {
            let item = copy_wanted(item_wanted(wanted))?;
            Ok(item)
        }
        Infix::Append => {
            let list = copy_wanted(list_wanted(wanted))?;
            Ok(list)
        }
        Infix::Equal
        | Infix::NotEqual
        | Infix::Less
        | Infix::LessOrEqual
        | Infix::Greater
        | Infix::GreaterOrEqual
        | Infix::Later => Ok(None),
    }
}

/// The type of the operand that comes first is one that the operator has.
///
/// # Errors
///
/// [`TypeError::Mismatch`] at the operand, where it is not ordered or no list and the operator wants that; [`TypeError::Memory`].
pub fn check_side(operator: Infix, ty: &Ty, at: usize) -> Result<(), TypeError>
    ensures exact { Answers (λ _. ty_view ty.now) result (rules.side_test operator (ty_view ty.now) at) }
{
    match operator {
        Infix::Less | Infix::LessOrEqual | Infix::Greater | Infix::GreaterOrEqual => {
            check_ordered(ty, at)
        }
        Infix::Append => check_list(ty, at),
        Infix::Equal
        | Infix::NotEqual
        | Infix::Later
        | Infix::Times
        | Infix::Orelse
        | Infix::Andalso
        | Infix::Cons
        | Infix::Add
        | Infix::Subtract
        | Infix::Concatenate
        | Infix::Multiply
        | Infix::Div
        | Infix::Mod => Ok(()),
    }
}

/// An order is there on integers and on strings.
fn check_ordered(ty: &Ty, at: usize) -> Result<(), TypeError>
    ensures exact { Answers (λ _. ty_view ty.now) result (ordered (ty_view ty.now) at) }
{
    match ty {
        Ty::Int => Ok(()),
        Ty::Text => Ok(()),
        Ty::Unit | Ty::Bool | Ty::Enum(_) | Ty::Tuple(_) | Ty::Union(_) | Ty::List(_) => Err(
            TypeError::Mismatch(at),
        ),
    }
}

/// The type is that of a list.
fn check_list(ty: &Ty, at: usize) -> Result<(), TypeError>
    ensures exact { Answers (λ _. ty_view ty.now) result (a_list (ty_view ty.now) at) }
{
    match ty {
        Ty::List(_) => Ok(()),
        Ty::Unit | Ty::Bool | Ty::Int | Ty::Text | Ty::Enum(_) | Ty::Tuple(_) | Ty::Union(_) => Err(
            TypeError::Mismatch(at),
        ),
    }
}

/// What is wanted of the other operand, where the first one has a type.
///
/// # Errors
///
/// Memory is wanted.
pub fn other_wanted(alloc: Global, operator: Infix, first: &Ty) -> Result<Option<Ty>, Memory>
    ensures exact { IfOk result (λ other. option_map ty_view other ≡ rules.other_wanted operator (ty_view first.now)) }
{
    match operator {
        Infix::Add | Infix::Subtract | Infix::Multiply | Infix::Div | Infix::Mod | Infix::Later =>
            Ok(Some(Ty::Int)),
        Infix::Concatenate => Ok(Some(Ty::Text)),
        Infix::Andalso | Infix::Orelse => Ok(Some(Ty::Bool)),
        Infix::Cons => {
            let item = first.copy()?;
            let list = Arc::new(alloc, item)?;
            Ok(Some(Ty::List(list)))
        }
        Infix::Equal
        | Infix::NotEqual
        | Infix::Less
        | Infix::LessOrEqual
        | Infix::Greater
        | Infix::GreaterOrEqual
        | Infix::Append => {
            let same = first.copy()?;
            Ok(Some(same))
        }
        Infix::Times => Ok(None),
    }
}

/// An operation on two operands.
fn applied(
    alloc: Global,
    operation: Op,
    left: Expr,
    right: Expr,
    ty: Ty,
    spot: Spot<'_>,
) -> Result<Typed, TypeError>
    ensures exact { Answers typed_view result (meets_rule (wanted_view spot.entry.wanted) spot.entry.at (apply (of_operation (op_view operation)) (two (expr_view left) (expr_view right))) (ty_view ty)) }
{
    let mut operands = Vec::new(alloc);
    operands.push(left)?;
    operands.push(right)?;
    meets(spot.wanted, spot.at, Expr::Op(operation, operands), ty)
}

/// An operation on both operands, which gives a value of the type.
fn operated(
    alloc: Global,
    operation: Op,
    sides: Sides,
    ty: Ty,
    spot: Spot<'_>,
) -> Result<Typed, TypeError>
    ensures exact { Answers typed_view result (rules.applied (op_view operation) (spot_view spot.entry) (sides_view sides) (ty_view ty)) }
{
    applied(alloc, operation, sides.left, sides.right, ty, spot)
}

/// Two operands, each in a box of its own.
fn boxed(alloc: Global, left: Expr, right: Expr) -> Result<(Box<Expr>, Box<Expr>), Memory>
    ensures same { IfOk result (λ both. (both.0.value ≡ left) × (both.1.value ≡ right)) }
{
    let left = Box::new(alloc, left)?;
    let right = Box::new(alloc, right)?;
    Ok((left, right))
}

/// `andalso` of two operands.
fn conjoined(alloc: Global, sides: Sides, spot: Spot<'_>) -> Result<Typed, TypeError>
    ensures exact { Answers typed_view result (rules.sides_make between.Andalso (spot_view spot.entry) 0 (sides_view sides)) }
{
    let (left, right) = boxed(alloc, sides.left, sides.right)?;
    meets(spot.wanted, spot.at, Expr::And(left, right), Ty::Bool)
}

/// `orelse` of two operands.
fn disjoined(alloc: Global, sides: Sides, spot: Spot<'_>) -> Result<Typed, TypeError>
    ensures exact { Answers typed_view result (rules.sides_make between.Orelse (spot_view spot.entry) 0 (sides_view sides)) }
{
    let (left, right) = boxed(alloc, sides.left, sides.right)?;
    meets(spot.wanted, spot.at, Expr::Or(left, right), Ty::Bool)
}

/// An item in front of a list, `::`.
fn prepended(alloc: Global, sides: Sides, spot: Spot<'_>) -> Result<Typed, TypeError>
    ensures exact { Answers typed_view result (rules.sides_make between.Cons (spot_view spot.entry) 0 (sides_view sides)) }
{
    let list = Ty::List(Arc::new(alloc, sides.first)?);
    applied(alloc, Op::Cons, sides.left, sides.right, list, spot)
}

/// Two lists as one, `^^`.
fn appended(alloc: Global, sides: Sides, spot: Spot<'_>) -> Result<Typed, TypeError>
    ensures exact { Answers typed_view result (rules.sides_make between.Append (spot_view spot.entry) 0 (sides_view sides)) }
{
    applied(alloc, Op::Append, sides.left, sides.right, sides.last, spot)
}

/// What two operands make.
///
/// # Errors
///
/// [`TypeError::Mismatch`] at the form, where the two types do not fit or its context wants another type, and at a backtick or `@+` as
/// its context says; [`TypeError::Memory`].
pub fn sides_make(
    alloc: Global,
    operator: Infix,
    spot: Spot<'_>,
    sign: usize,
    sides: Sides,
) -> Result<Typed, TypeError>
    ensures exact { Answers typed_view result (rules.sides_make operator (spot_view spot.entry) sign (sides_view sides)) }
{
    match operator {
        Infix::Add => operated(alloc, Op::Add, sides, Ty::Int, spot),
        Infix::Subtract => operated(alloc, Op::Sub, sides, Ty::Int, spot),
        Infix::Multiply => operated(alloc, Op::Mul, sides, Ty::Int, spot),
        Infix::Div => operated(alloc, Op::Div, sides, Ty::Int, spot),
        Infix::Mod => operated(alloc, Op::Mod, sides, Ty::Int, spot),
        Infix::Concatenate => operated(alloc, Op::Cat, sides, Ty::Text, spot),
        Infix::Equal => operated(alloc, Op::Eq, sides, Ty::Bool, spot),
        Infix::NotEqual => operated(alloc, Op::Ne, sides, Ty::Bool, spot),
        Infix::Less => operated(alloc, Op::Lt, sides, Ty::Bool, spot),
        Infix::LessOrEqual => operated(alloc, Op::Le, sides, Ty::Bool, spot),
        Infix::Greater => operated(alloc, Op::Gt, sides, Ty::Bool, spot),
        Infix::GreaterOrEqual => operated(alloc, Op::Ge, sides, Ty::Bool, spot),
        Infix::Andalso => conjoined(alloc, sides, spot),
        Infix::Orelse => disjoined(alloc, sides, spot),
        Infix::Cons => prepended(alloc, sides, spot),
        Infix::Append => appended(alloc, sides, spot),
        Infix::Later => Err(spot.context.misplaced_delay(spot.at, sign)),
        Infix::Times => Err(TypeError::Mismatch(spot.at)),
    }
}

/// What is wanted of the operand behind an operator.
pub fn operand_wanted(operator: Prefix) -> Option<Ty>
    ensures exact { option_map ty_view result ≡ rules.operand_wanted operator }
{
    match operator {
        Prefix::Not => Some(Ty::Bool),
        Prefix::Negate => Some(Ty::Int),
        Prefix::Component(_) => None,
    }
}

/// An operation on one operand.
fn applied_to(
    alloc: Global,
    operation: Op,
    operand: Expr,
    ty: Ty,
    spot: Spot<'_>,
) -> Result<Typed, TypeError>
    ensures exact { Answers typed_view result (meets_rule (wanted_view spot.entry.wanted) spot.entry.at (apply (of_operation (op_view operation)) (more_exprs (expr_view operand) no_exprs)) (ty_view ty)) }
{
    let mut operands = Vec::new(alloc);
    operands.push(operand)?;
    meets(spot.wanted, spot.at, Expr::Op(operation, operands), ty)
}

/// The type of the part of a product at a number from 1, if it has one.
fn part_of(ty: &Ty, number: i64) -> Option<&Ty>
    ensures exact { wanted_view result ≡ part_type (ty_view ty.now) number }
{
    match ty {
        Ty::Tuple(parts) => {
            if number < 1 {
                return None;
            }
            match usize::try_from(number) {
                Ok(number) => part_at(parts, number),
                Err(_) => None,
            }
        }
        Ty::Unit | Ty::Bool | Ty::Int | Ty::Text | Ty::Enum(_) | Ty::Union(_) | Ty::List(_) => None,
    }
}

/// The type at a number from 1.
#[tactic(auto, using(crate::proofs::PartTypes::part_there, crate::proofs::PartTypes::no_part))]
fn part_at(parts: &[Ty], number: usize) -> Option<&Ty>
    requires { 0 < number }
    ensures exact { wanted_view result ≡ part_type (tuples (tys_view parts.now)) (pos number) }
{
    if number <= parts.len() {
        Some(&parts[number - 1])
    } else {
        None
    }
}

/// What an operand makes.
///
/// # Errors
///
/// [`TypeError::Mismatch`] at the operand, where it has not the component, or at the form, where its context wants another type;
/// [`TypeError::Memory`].
pub fn operand_makes(
    alloc: Global,
    operator: Prefix,
    spot: Spot<'_>,
    at: usize,
    operand: Typed,
) -> Result<Typed, TypeError>
    ensures exact { Answers typed_view result (rules.operand_makes operator (spot_view spot.entry) at (typed_view operand)) }
{
    match operator {
        Prefix::Not => applied_to(alloc, Op::Not, operand.expr, Ty::Bool, spot),
        Prefix::Negate => applied_to(alloc, Op::Neg, operand.expr, Ty::Int, spot),
        Prefix::Component(number) => component_of(alloc, number, spot, at, operand),
    }
}

/// `#k` of a product.
fn component_of(
    alloc: Global,
    number: i64,
    spot: Spot<'_>,
    at: usize,
    operand: Typed,
) -> Result<Typed, TypeError>
    ensures exact { Answers typed_view result (rules.operand_makes (front.Component number) (spot_view spot.entry) at (typed_view operand)) }
{
    let Typed { expr, ty } = operand;
    let Some(part) = part_of(&ty, number) else {
        return Err(TypeError::Mismatch(at));
    };
    let part = part.copy()?;
    let Ok(position) = u32::try_from(number) else {
        return Err(TypeError::Memory);
    };
    applied_to(alloc, Op::Nth(position), expr, part, spot)
}
