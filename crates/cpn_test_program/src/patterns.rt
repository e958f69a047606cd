//! Trees of patterns as text of JSON, in the way of those of inscriptions.

use crate::forms::{tell_begin, tell_form, tell_number, tell_text, tell_truth};
use cpn_syntax::{Pat, PatForm};
use std::alloc::AllocError;

/// Writes a pattern.
#[cycle(tell_pattern)]
pub fn tell_pattern(out: &mut String, pattern: &Pat) -> Result<(), AllocError> {
    tell_begin(out, pattern.at)?;
    tell_head(out, &pattern.form)?;
    tell_parts(out, &pattern.form)?;
    out.push_str("]")
}

/// Writes the name of a form, and what it has beside its parts.
fn tell_head(out: &mut String, form: &PatForm) -> Result<(), AllocError> {
    match form {
        PatForm::Any => tell_form(out, "any"),
        PatForm::Name(name) => tell_text(out, "name", name),
        PatForm::Number(number) => tell_number(out, "number", *number),
        PatForm::Text(text) => tell_text(out, "text", text),
        PatForm::Truth(truth) => tell_truth(out, "truth", *truth),
        PatForm::Call { constructor, .. } => tell_text(out, "call", constructor),
        PatForm::Unit => tell_form(out, "unit"),
        PatForm::Tuple(_) => tell_form(out, "tuple"),
        PatForm::List(_) => tell_form(out, "list"),
        PatForm::Cons { .. } => tell_form(out, "cons"),
    }
}

/// Writes the parts of a form, each behind a comma.
#[cycle(tell_pattern)]
fn tell_parts(out: &mut String, form: &PatForm) -> Result<(), AllocError> {
    match form {
        PatForm::Call { arguments, .. } => tell_each(out, arguments),
        PatForm::Tuple(parts) => tell_each(out, parts),
        PatForm::List(items) => tell_each(out, items),
        PatForm::Cons { head, tail } => {
            tell_part(out, head)?;
            tell_part(out, tail)
        }
        _ => Ok(()),
    }
}

#[cycle(tell_pattern)]
fn tell_part(out: &mut String, part: &Pat) -> Result<(), AllocError> {
    out.push_str(",")?;
    tell_pattern(out, part)
}

#[cycle(tell_pattern)]
fn tell_each(out: &mut String, parts: &[Pat]) -> Result<(), AllocError> {
    for part in parts {
        tell_part(out, part)?;
    }
    Ok(())
}
