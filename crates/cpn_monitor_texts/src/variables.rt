//! The variables of an inscription that are none of a transition's.

ghost use Rattle.std.specs.Prelude.{◌≡◌, [], ◌∷◌, map};
ghost use Rattle.std.specs.Option.{option_or};
ghost use Rattle.cpn_core.specs.Inscriptions.{arm_view, expr_view, exprs_view};
ghost use Rattle.cpn_definitions.specs.Bindable.{variables_of, variables_of_each, variables_of_arms};
ghost use Rattle.cpn_definitions.specs.Inscription.{arms_from};
ghost use Rattle.cpn_monitor_texts.specs.Variables.{is_among as is_one_of, first_outside as first_of};

use cpn_core::{Arm, Expr, Exprs};

/// Whether a variable is one of these.
fn is_among(vars: &[u32], variable: u32) -> bool
    ensures exact { result ≡ is_one_of vars.now variable }
{
    vars.contains(&variable)
}

/// A variable, unless it is one of these.
fn outside(vars: &[u32], variable: u32) -> Option<u32>
    ensures first { result ≡ first_of vars.now (variable ∷ []) }
{
    if is_among(vars, variable) {
        return None;
    }
    Some(variable)
}

/// The first of two finds.
fn earlier(first: Option<u32>, second: Option<u32>) -> Option<u32>
    ensures earlier { result ≡ option_or first second }
{
    match first {
        Some(variable) => Some(variable),
        None => second,
    }
}

/// The first variable of an inscription, as they stand in it, that is none of these.
#[cycle(first_outside)]
pub(crate) fn first_outside(expr: &Expr, vars: &[u32]) -> Option<u32>
    ensures first { result ≡ first_of vars.now (variables_of (expr_view expr.now)) }
{
    match expr {
        Expr::Lit(_) => None,
        Expr::Var(number) => outside(vars, *number),
        Expr::Local(_) => None,
        Expr::Time => None,
        Expr::Op(_, parts) => first_of_each(parts, vars),
        Expr::And(first, second) => earlier(
            first_outside(first, vars),
            first_outside(second, vars),
        ),
        Expr::Or(first, second) => earlier(first_outside(first, vars), first_outside(second, vars)),
        Expr::If(condition, first, second) => earlier(
            earlier(first_outside(condition, vars), first_outside(first, vars)),
            first_outside(second, vars),
        ),
        Expr::Case(subject, arms) => earlier(
            first_outside(subject, vars),
            first_of_arms(arms, vars),
        ),
        Expr::Let(value, body) => earlier(first_outside(value, vars), first_outside(body, vars)),
        Expr::Fold { list, start, body } => earlier(
            earlier(first_outside(list, vars), first_outside(start, vars)),
            first_outside(body, vars),
        ),
        Expr::Tuple(parts) => first_of_each(parts, vars),
        Expr::List(parts) => first_of_each(parts, vars),
        Expr::Con(_, argument) => match argument {
            None => None,
            Some(part) => first_outside(part, vars),
        },
        Expr::Call(_, parts) => first_of_each(parts, vars),
    }
}

/// The first of those of several inscriptions.
#[cycle(first_outside)]
fn first_of_each(parts: &Exprs, vars: &[u32]) -> Option<u32>
    ensures first { result ≡ first_of vars.now (variables_of_each (exprs_view parts.now.items)) }
{
    let mut found = None;
    for part in parts {
        found = earlier(found, first_outside(part, vars));
    }
    found
}

/// The first of those of the results of the arms of a `case`.
#[cycle(first_outside)]
fn first_of_arms(arms: &Vec<Arm>, vars: &[u32]) -> Option<u32>
    ensures first { result ≡ first_of vars.now (variables_of_arms (arms_from (map arm_view arms.now.items))) }
{
    let mut found = None;
    for arm in arms {
        found = earlier(found, first_outside(&arm.result, vars));
    }
    found
}
