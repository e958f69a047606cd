//! Declarations, one after another.

ghost use Rattle.std.specs.Prelude.{◌≡◌, OnErr};
ghost use Rattle.cpn_trees.specs.DeclTrees.{form_view};
ghost use Rattle.cpn_trees.specs.ParsedViews.{declaration_view};
ghost use Rattle.cpn_typing.specs.Consistency.{IsConsistent};
ghost use Rattle.cpn_typing.specs.Declarations.{declared, declared_form};
ghost use Rattle.cpn_declared.specs.Additions.{Grows};
ghost use Rattle.cpn_declared.specs.Answers.{Answers};
ghost use Rattle.cpn_declared.specs.DeclsViews.{decls_view};

use crate::functions::{declare_function, declare_value};
use cpn_colour_sets::{declare_colour_set, declare_variables};
use cpn_declared::{Decls, TypeError};
use cpn_trees::{DeclForm, Declaration};
use std::alloc::Global;

/// Adds a declaration to what has been declared. After an error all is as it was.
///
/// # Errors
///
/// The first reason why it is not accepted, as the rules of declarations say, or [`TypeError::Memory`], also where a kind of
/// thing has 2^32 declarations already.
pub fn declare(alloc: Global, decls: &mut Decls, declaration: &Declaration) -> Result<(), TypeError>
    ensures exact { Answers (λ _. decls_view decls.new) result (declared (decls_view decls.old) (declaration_view declaration.now)) }
    ensures unchanged { OnErr result (decls_view decls.new ≡ decls_view decls.old) }
    ensures consistent { IsConsistent (decls_view decls.old) → IsConsistent (decls_view decls.new) }
{
    let before = decls.counts();
    match declare_form(alloc, decls, &declaration.tree.form) {
        Ok(()) => Ok(()),
        Err(error) => {
            decls.cut(&before);
            Err(error)
        }
    }
}

// Adds a declaration. After an error some of it may be there, behind all that was there before.
fn declare_form(alloc: Global, decls: &mut Decls, form: &DeclForm) -> Result<(), TypeError>
    ensures exact { Answers (λ _. decls_view decls.new) result (declared_form (decls_view decls.old) (form_view form.now)) }
    ensures grown { Grows (decls_view decls.old) (decls_view decls.new) }
{
    match form {
        DeclForm::ColourSet { name, body, timed } => {
            declare_colour_set(alloc, decls, name.as_str(), body, *timed)
        }
        DeclForm::Variables { names, colour } => {
            declare_variables(alloc, decls, names.as_slice(), colour.as_str())
        }
        DeclForm::Value { name, value } => declare_value(alloc, decls, name.as_str(), value),
        DeclForm::Function {
            name,
            parameters,
            result,
            body,
        } => declare_function(
            alloc,
            decls,
            name.as_str(),
            parameters.as_slice(),
            result.as_str(),
            body,
        ),
    }
}
