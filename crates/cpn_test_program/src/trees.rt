//! Trees of inscriptions as text of JSON: a list of the offset of the first token, the name of the form, what the form has beside its
//! parts, and its parts.

use crate::forms::{tell_begin, tell_form, tell_name, tell_number, tell_text, tell_truth};
use crate::patterns::tell_pattern;
use cpn_syntax::{Arm, Ast, Form, Infix, LocalValue, Prefix};
use std::alloc::AllocError;

/// Writes an inscription.
#[cycle(tell)]
pub fn tell(out: &mut String, tree: &Ast) -> Result<(), AllocError> {
    tell_begin(out, tree.at)?;
    tell_head(out, &tree.form)?;
    tell_parts(out, &tree.form)?;
    out.push_str("]")
}

/// Writes the name of a form, and what it has beside its parts.
fn tell_head(out: &mut String, form: &Form) -> Result<(), AllocError> {
    match form {
        Form::Number(number) => tell_number(out, "number", *number),
        Form::Text(text) => tell_text(out, "text", text),
        Form::Truth(truth) => tell_truth(out, "truth", *truth),
        Form::Empty => tell_form(out, "empty"),
        Form::Time => tell_form(out, "time"),
        Form::Name(name) => tell_text(out, "name", name),
        Form::Call { function, .. } => tell_text(out, "call", function),
        Form::Unit => tell_form(out, "unit"),
        Form::Tuple(_) => tell_form(out, "tuple"),
        Form::List(_) => tell_form(out, "list"),
        Form::Let { .. } => tell_form(out, "let"),
        Form::Prefix { operator, .. } => tell_prefix(out, *operator),
        Form::Infix { operator, sign, .. } => tell_infix(out, *operator, *sign),
        Form::Stamped { sign, stamp, .. } => tell_stamped(out, *sign, *stamp),
        Form::Sum(_) => tell_form(out, "sum"),
        Form::If { .. } => tell_form(out, "if"),
        Form::Case { .. } => tell_form(out, "case"),
        Form::Fold { item, sum, .. } => tell_fold(out, item, sum),
    }
}

fn tell_prefix(out: &mut String, operator: Prefix) -> Result<(), AllocError> {
    write!(out, "\"prefix\",\"{operator:?}\"")
}

/// Writes an operator between two operands, and where it stands.
fn tell_infix(out: &mut String, operator: Infix, sign: usize) -> Result<(), AllocError> {
    write!(out, "\"infix\",\"{operator:?}\",{sign}")
}

/// Writes where the sign of a time stamp stands, and the time stamp.
fn tell_stamped(out: &mut String, sign: usize, stamp: i64) -> Result<(), AllocError> {
    write!(out, "\"stamped\",{sign},{stamp}")
}

/// Writes the names of the item and of the sum of a fold.
fn tell_fold(out: &mut String, item: &str, sum: &str) -> Result<(), AllocError> {
    tell_text(out, "fold", item)?;
    tell_name(out, sum)
}

/// Writes the parts of a form, each behind a comma.
#[cycle(tell)]
fn tell_parts(out: &mut String, form: &Form) -> Result<(), AllocError> {
    match form {
        Form::Call { arguments, .. } => tell_each(out, arguments),
        Form::Tuple(parts) => tell_each(out, parts),
        Form::List(items) => tell_each(out, items),
        Form::Sum(terms) => tell_each(out, terms),
        Form::Let { values, body } => {
            tell_values(out, values)?;
            tell_part(out, body)
        }
        Form::Prefix { operand, .. } => tell_part(out, operand),
        Form::Infix { left, right, .. } => {
            tell_part(out, left)?;
            tell_part(out, right)
        }
        Form::Stamped { term, .. } => tell_part(out, term),
        Form::If {
            condition,
            consequence,
            alternative,
        } => {
            tell_part(out, condition)?;
            tell_part(out, consequence)?;
            tell_part(out, alternative)
        }
        Form::Case { subject, arms } => {
            tell_part(out, subject)?;
            tell_arms(out, arms)
        }
        Form::Fold {
            list,
            start,
            body,
            ..
        } => {
            tell_part(out, list)?;
            tell_part(out, start)?;
            tell_part(out, body)
        }
        _ => Ok(()),
    }
}

#[cycle(tell)]
fn tell_part(out: &mut String, part: &Ast) -> Result<(), AllocError> {
    out.push_str(",")?;
    tell(out, part)
}

/// Writes several parts.
#[cycle(tell)]
pub fn tell_each(out: &mut String, parts: &[Ast]) -> Result<(), AllocError> {
    for part in parts {
        tell_part(out, part)?;
    }
    Ok(())
}

/// Writes the arms of a `case`, each as its pattern and its result.
#[cycle(tell)]
fn tell_arms(out: &mut String, arms: &[Arm]) -> Result<(), AllocError> {
    for arm in arms {
        out.push_str(",")?;
        tell_pattern(out, &arm.pattern)?;
        tell_part(out, &arm.result)?;
    }
    Ok(())
}

/// Writes the values of a `let`, each as its name and itself.
#[cycle(tell)]
fn tell_values(out: &mut String, values: &[LocalValue]) -> Result<(), AllocError> {
    for local in values {
        tell_name(out, &local.name)?;
        tell_part(out, &local.value)?;
    }
    Ok(())
}
