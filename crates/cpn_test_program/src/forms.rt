//! Forms of trees as text of JSON: where the first token stands, the name of a form, and what it has beside its parts.

use std::alloc::AllocError;

/// Writes the bracket that opens a form, and where its first token stands.
pub fn tell_begin(out: &mut String, at: usize) -> Result<(), AllocError> {
    write!(out, "[{at},")
}

/// Writes the name of a form.
pub fn tell_form(out: &mut String, form: &str) -> Result<(), AllocError> {
    out.push_str("\"")?;
    out.push_str(form)?;
    out.push_str("\"")
}

/// Writes the name of a form, and a text.
pub fn tell_text(out: &mut String, form: &str, text: &str) -> Result<(), AllocError> {
    tell_form(out, form)?;
    tell_name(out, text)
}

/// Writes the name of a form, and a number.
pub fn tell_number(out: &mut String, form: &str, number: i64) -> Result<(), AllocError> {
    write!(out, "\"{form}\",{number}")
}

/// Writes the name of a form, and a truth value.
pub fn tell_truth(out: &mut String, form: &str, truth: bool) -> Result<(), AllocError> {
    tell_form(out, form)?;
    out.push_str(if truth { ",true" } else { ",false" })
}

/// Writes a name, behind a comma.
pub fn tell_name(out: &mut String, name: &str) -> Result<(), AllocError> {
    write!(out, ",{name:?}")
}
