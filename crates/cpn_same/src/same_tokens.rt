//! Whether two inscriptions of tokens are the same.

ghost use Rattle.std.specs.Prelude.{◌≡◌};
ghost use Rattle.cpn_core.specs.Inscriptions.{arc_arm_view, multiset_view};
ghost use Rattle.cpn_same.specs.Rows.{arc_arms_view, same_arc_arm, sums_view};
ghost use Rattle.cpn_same.specs.SameTokens.{same_arc_arms, same_sums, same_tokens};

use crate::same_inscriptions::same_expr;
use crate::same_patterns::same_pattern;
use cpn_core::{MArm, MExpr, MExprs};

/// Whether both inscriptions of tokens are of one form, with the same stamp, inscriptions and parts.
#[cycle(same)]
#[tactic(auto, using(cpn_core::proofs::InscriptionLevels::tokens_one, cpn_core::proofs::InscriptionLevels::tokens_times, cpn_core::proofs::InscriptionLevels::tokens_sum, cpn_core::proofs::InscriptionLevels::tokens_later, cpn_core::proofs::InscriptionLevels::tokens_at, cpn_core::proofs::InscriptionLevels::tokens_if, cpn_core::proofs::InscriptionLevels::tokens_case, cpn_core::proofs::InscriptionLevels::tokens_let))]
pub fn same_tokens(tokens: &MExpr, other: &MExpr) -> bool
    ensures exact { result ≡ same_tokens (multiset_view tokens.now) (multiset_view other.now) }
{
    match tokens {
        MExpr::Empty => match other {
            MExpr::Empty => true,
            _ => false,
        },
        MExpr::One(value) => match other {
            MExpr::One(second) => same_expr(value, second),
            _ => false,
        },
        MExpr::Times(count, value) => match other {
            MExpr::Times(first, second) => same_expr(count, first) && same_expr(value, second),
            _ => false,
        },
        MExpr::Sum(parts) => match other {
            MExpr::Sum(others) => same_each(parts, others),
            _ => false,
        },
        MExpr::Later(inner, delay) => match other {
            MExpr::Later(first, second) => same_tokens(inner, first) && same_expr(delay, second),
            _ => false,
        },
        MExpr::At(inner, stamp) => match other {
            MExpr::At(first, second) => same_tokens(inner, first) && *stamp == *second,
            _ => false,
        },
        MExpr::If(condition, consequence, alternative) => match other {
            MExpr::If(first, second, third) => same_expr(condition, first)
                && (same_tokens(consequence, second) && same_tokens(alternative, third)),
            _ => false,
        },
        MExpr::Case(subject, arms) => match other {
            MExpr::Case(second, others) => same_expr(subject, second) && same_arms(arms, others),
            _ => false,
        },
        MExpr::Let(value, inner) => match other {
            MExpr::Let(first, second) => same_expr(value, first) && same_tokens(inner, second),
            _ => false,
        },
    }
}

#[cycle(same)]
#[tactic(auto, using(crate::proofs::Rows::sums_more, crate::proofs::Rows::sums_end))]
fn same_each(parts: &MExprs, others: &MExprs) -> bool
    ensures exact { result ≡ same_sums (sums_view parts.now.items) (sums_view others.now.items) }
{
    let shorter = parts.len().min(others.len());
    for i in 0..shorter {
        if !same_tokens(&parts[i], &others[i]) {
            return false;
        }
    }
    parts.len() == others.len()
}

#[cycle(same)]
#[tactic(auto, using(cpn_core::proofs::InscriptionLevels::tokens_arm))]
fn same_arm(arm: &MArm, other: &MArm) -> bool
    ensures exact { result ≡ same_arc_arm (arc_arm_view arm.now) (arc_arm_view other.now) }
{
    same_pattern(&arm.pat, &other.pat) && same_tokens(&arm.result, &other.result)
}

#[cycle(same)]
#[tactic(auto, using(crate::proofs::Rows::arc_arms_more, crate::proofs::Rows::arc_arms_end))]
fn same_arms(arms: &Vec<MArm>, others: &Vec<MArm>) -> bool
    ensures exact { result ≡ same_arc_arms (arc_arms_view arms.now.items) (arc_arms_view others.now.items) }
{
    let shorter = arms.len().min(others.len());
    for i in 0..shorter {
        if !same_arm(&arms[i], &others[i]) {
            return false;
        }
    }
    arms.len() == others.len()
}
