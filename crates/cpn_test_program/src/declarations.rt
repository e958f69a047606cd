//! Trees of declarations as text of JSON, in the way of those of inscriptions.

use crate::forms::{tell_begin, tell_form, tell_name, tell_text};
use crate::trees::tell;
use cpn_syntax::{Alternative, Ast, Body, Decl, DeclForm, Parameter};
use std::alloc::AllocError;

/// Writes a declaration.
pub fn tell_declaration(out: &mut String, declaration: &Decl) -> Result<(), AllocError> {
    tell_begin(out, declaration.at)?;
    tell_declared(out, &declaration.form)?;
    out.push_str("]")
}

/// Writes the form of a declaration: what it declares, and its parts.
fn tell_declared(out: &mut String, form: &DeclForm) -> Result<(), AllocError> {
    match form {
        DeclForm::ColourSet { name, body, timed } => tell_colour_set(out, name, *timed, body),
        DeclForm::Variables { names, colour } => {
            tell_text(out, "var", colour)?;
            tell_names(out, names)
        }
        DeclForm::Value { name, value } => {
            tell_text(out, "val", name)?;
            out.push_str(",")?;
            tell(out, value)
        }
        DeclForm::Function {
            name,
            parameters,
            result,
            body,
        } => {
            tell_text(out, "fun", name)?;
            tell_name(out, result)?;
            out.push_str(",")?;
            tell(out, body)?;
            tell_parameters(out, parameters)
        }
    }
}

/// Writes a colour set: its name, whether its tokens carry time stamps, and its body.
fn tell_colour_set(
    out: &mut String,
    name: &str,
    timed: bool,
    body: &Body,
) -> Result<(), AllocError> {
    tell_text(out, "colset", name)?;
    out.push_str(if timed { ",true," } else { ",false," })?;
    tell_body(out, body)
}

/// Writes the body of a colour set: its form, and the names or the numbers that it has.
fn tell_body(out: &mut String, body: &Body) -> Result<(), AllocError> {
    match body {
        Body::Unit => tell_form(out, "unit"),
        Body::Bool => tell_form(out, "bool"),
        Body::Int => tell_form(out, "int"),
        Body::IntRange { low, high } => tell_range(out, *low, *high),
        Body::String => tell_form(out, "string"),
        Body::Enumeration(names) => {
            tell_form(out, "with")?;
            tell_names(out, names)
        }
        Body::Product(names) => {
            tell_form(out, "product")?;
            tell_names(out, names)
        }
        Body::List(name) => tell_text(out, "list", name),
        Body::Union(alternatives) => {
            tell_form(out, "union")?;
            tell_alternatives(out, alternatives)
        }
        Body::Named(name) => tell_text(out, "named", name),
    }
}

/// Writes the least and the greatest number of a range.
fn tell_range(out: &mut String, low: i64, high: i64) -> Result<(), AllocError> {
    write!(out, "\"int with\",{low},{high}")
}

/// Writes names, each behind a comma.
fn tell_names(out: &mut String, names: &[String]) -> Result<(), AllocError> {
    for name in names {
        tell_name(out, name)?;
    }
    Ok(())
}

/// Writes alternatives, each as a list of its constructor and of the colour set of its argument, if it has one.
fn tell_alternatives(out: &mut String, alternatives: &[Alternative]) -> Result<(), AllocError> {
    for alternative in alternatives {
        tell_pair(
            out,
            &alternative.constructor,
            alternative.argument.as_deref(),
        )?;
    }
    Ok(())
}

/// Writes parameters, each as a list of its name and of its colour set.
fn tell_parameters(out: &mut String, parameters: &[Parameter]) -> Result<(), AllocError> {
    for parameter in parameters {
        tell_pair(out, &parameter.name, Some(&parameter.colour))?;
    }
    Ok(())
}

/// Writes a list of a name and of a colour set, if there is one, behind a comma.
fn tell_pair(out: &mut String, name: &str, colour: Option<&str>) -> Result<(), AllocError> {
    write!(out, ",[{name:?}")?;
    if let Some(colour) = colour {
        tell_name(out, colour)?;
    }
    out.push_str("]")
}
