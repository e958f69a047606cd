//! Whether two inscriptions of values are the same.

ghost use Rattle.std.specs.Prelude.{◌≡◌, ◌↔◌, IsTrue};
ghost use Rattle.cpn_core.specs.Inscriptions.{arm_view, expr_view, exprs_view};
ghost use Rattle.cpn_same.specs.Constructed.{constructed_expr};
ghost use Rattle.cpn_same.specs.Rows.{arms_view, same_arm};
ghost use Rattle.cpn_same.specs.SameInscriptions.{same_arms, same_expr, same_exprs};

use crate::same_operations::same_operation;
use crate::same_patterns::same_pattern;
use cpn_core::{Arm, Expr, Exprs};

/// Whether both inscriptions are the same: of one form, with the same numbers, values and parts.
///
/// Source: own choice; two inscriptions are one where they are written alike, but for the names of their locals.
pub fn same_expr(expr: &Expr, other: &Expr) -> bool
    ensures exact { result ≡ same_expr (expr_view expr.now) (expr_view other.now) }
    ensures same { IsTrue result ↔ (expr_view expr.now ≡ expr_view other.now) }
{
    same_form(expr, other)
}

#[cycle(same)]
#[tactic(auto, using(cpn_core::proofs::InscriptionLevels::view_op, cpn_core::proofs::InscriptionLevels::view_and, cpn_core::proofs::InscriptionLevels::view_or, cpn_core::proofs::InscriptionLevels::view_if, cpn_core::proofs::InscriptionLevels::view_case, cpn_core::proofs::InscriptionLevels::view_let, cpn_core::proofs::InscriptionLevels::view_fold, cpn_core::proofs::InscriptionLevels::view_tuple, cpn_core::proofs::InscriptionLevels::view_list, crate::proofs::ConstructorLevels::view_expr, cpn_core::proofs::InscriptionLevels::view_call))]
fn same_form(expr: &Expr, other: &Expr) -> bool
    ensures exact { result ≡ same_expr (expr_view expr.now) (expr_view other.now) }
{
    match expr {
        Expr::Lit(value) => match other {
            Expr::Lit(second) => *value == *second,
            _ => false,
        },
        Expr::Var(number) => match other {
            Expr::Var(second) => *number == *second,
            _ => false,
        },
        Expr::Local(number) => match other {
            Expr::Local(second) => *number == *second,
            _ => false,
        },
        Expr::Time => match other {
            Expr::Time => true,
            _ => false,
        },
        Expr::Op(operation, operands) => match other {
            Expr::Op(second, others) => same_operation(*operation, *second)
                && same_each(operands, others),
            _ => false,
        },
        Expr::And(left, right) => match other {
            Expr::And(first, second) => same_form(left, first) && same_form(right, second),
            _ => false,
        },
        Expr::Or(left, right) => match other {
            Expr::Or(first, second) => same_form(left, first) && same_form(right, second),
            _ => false,
        },
        Expr::If(condition, consequence, alternative) => match other {
            Expr::If(first, second, third) => same_form(condition, first)
                && (same_form(consequence, second) && same_form(alternative, third)),
            _ => false,
        },
        Expr::Case(subject, arms) => match other {
            Expr::Case(second, others) => same_form(subject, second) && same_arms(arms, others),
            _ => false,
        },
        Expr::Let(value, body) => match other {
            Expr::Let(first, second) => same_form(value, first) && same_form(body, second),
            _ => false,
        },
        Expr::Fold { list, start, body } => match other {
            Expr::Fold {
                list: first,
                start: second,
                body: third,
            } => same_form(list, first) && (same_form(start, second) && same_form(body, third)),
            _ => false,
        },
        Expr::Tuple(parts) => match other {
            Expr::Tuple(others) => same_each(parts, others),
            _ => false,
        },
        Expr::List(items) => match other {
            Expr::List(others) => same_each(items, others),
            _ => false,
        },
        Expr::Con(position, argument) => match other {
            Expr::Con(place, second) => same_constructed(*position, argument, *place, second),
            _ => false,
        },
        Expr::Call(function, arguments) => match other {
            Expr::Call(second, others) => *function == *second && same_each(arguments, others),
            _ => false,
        },
    }
}

// Whether both constructors are of one position, without an argument or with the same one.
#[cycle(same)]
fn same_constructed(
    position: u32,
    argument: &Option<Box<Expr>>,
    place: u32,
    other: &Option<Box<Expr>>,
) -> bool
    ensures exact { result ≡ same_expr (constructed_expr position argument.now) (constructed_expr place other.now) }
{
    match argument {
        None => match other {
            None => position == place,
            Some(_) => false,
        },
        Some(part) => match other {
            None => false,
            Some(second) => position == place && same_form(part, second),
        },
    }
}

#[cycle(same)]
#[tactic(auto, using(crate::proofs::Rows::exprs_more, crate::proofs::Rows::exprs_end))]
fn same_each(exprs: &Exprs, others: &Exprs) -> bool
    ensures exact { result ≡ same_exprs (exprs_view exprs.now.items) (exprs_view others.now.items) }
{
    let shorter = exprs.len().min(others.len());
    for i in 0..shorter {
        if !same_form(&exprs[i], &others[i]) {
            return false;
        }
    }
    exprs.len() == others.len()
}

#[cycle(same)]
#[tactic(auto, using(cpn_core::proofs::InscriptionLevels::view_arm))]
fn same_arm(arm: &Arm, other: &Arm) -> bool
    ensures exact { result ≡ same_arm (arm_view arm.now) (arm_view other.now) }
{
    same_pattern(&arm.pat, &other.pat) && same_form(&arm.result, &other.result)
}

#[cycle(same)]
#[tactic(auto, using(crate::proofs::Rows::arms_more, crate::proofs::Rows::arms_end))]
fn same_arms(arms: &Vec<Arm>, others: &Vec<Arm>) -> bool
    ensures exact { result ≡ same_arms (arms_view arms.now.items) (arms_view others.now.items) }
{
    let shorter = arms.len().min(others.len());
    for i in 0..shorter {
        if !same_arm(&arms[i], &others[i]) {
            return false;
        }
    }
    arms.len() == others.len()
}
