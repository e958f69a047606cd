//! Values and functions that are declared.

ghost use Rattle.std.specs.Prelude.{◌≡◌, map, length, true, [], None, IfOk, IfErr, OnOk};
ghost use Rattle.cpn_trees.specs.AstViews.{ast_view};
ghost use Rattle.cpn_trees.specs.DeclTrees.{parameter_view, value, function};
ghost use Rattle.cpn_typing.specs.ColourSets.{is_new as may_be_declared, other_names};
ghost use Rattle.cpn_typing.specs.Declarations.{declared_form, scope_of as scope_of_rules, with_function};
ghost use Rattle.cpn_typing.specs.Names.{types_of_scope};
ghost use Rattle.cpn_declared.specs.Additions.{Grows};
ghost use Rattle.cpn_declared.specs.Answers.{Answers, refusal_of};
ghost use Rattle.cpn_declared.specs.DeclsViews.{decls_view};
ghost use Rattle.cpn_forms.specs.ScopeViews.{scope_view};
ghost use Rattle.cpn_declared.specs.TypeViews.{tys_view};
ghost use Rattle.cpn_forms.specs.TypedViews.{typed_view};

use crate::expressions::check_expr;
use cpn_colour_sets::type_named;
use cpn_core::{Function, Memory};
use cpn_declared::{Decls, Meaning, TypeError, Tys, number_of};
use cpn_forms::{Context, Local, Typed, is_local};
use cpn_trees::{Ast, Parameter};
use std::alloc::Global;
use std::sync::Arc;

/// The parameters as locals, from left to right, each of which has another name than those before it.
fn scope_of<'t>(
    alloc: Global,
    decls: &Decls,
    parameters: &'t [Parameter],
) -> Result<Vec<Local<'t>>, TypeError>
    ensures exact { Answers (λ scope. scope_view scope.items) result (scope_of_rules (decls_view decls.now) (map parameter_view parameters.now) []) }
{
    let mut scope = Vec::with_capacity(alloc, parameters.len())?;
    for parameter in parameters {
        let name = parameter.name.as_str();
        if is_local(scope.as_slice(), name) {
            return Err(TypeError::Duplicate(String::from_str(alloc, name)?));
        }
        let ty = type_named(alloc, decls, parameter.colour.as_str())?;
        scope.push(Local { name, ty })?;
    }
    Ok(scope)
}

/// The types of locals.
fn types_of(alloc: Global, scope: &[Local]) -> Result<Tys, Memory>
    ensures exact { IfOk result (λ types. tys_view types.items ≡ types_of_scope (scope_view scope.now)) }
{
    let mut types = Vec::with_capacity(alloc, scope.len())?;
    for local in scope {
        types.push(local.ty.copy()?)?;
    }
    Ok(types)
}

/// Adds a function under a new name.
fn add_call(
    alloc: Global,
    decls: &mut Decls,
    name: &str,
    scope: &[Local],
    body: Typed,
) -> Result<(), TypeError>
    requires new { may_be_declared name.now (other_names (decls_view decls.old)) ≡ true }
    ensures added { OnOk result (decls_view decls.new ≡ with_function (decls_view decls.old) name.now (scope_view scope.now) (typed_view body)) }
    ensures memory { IfErr result (λ e. refusal_of e ≡ None) }
    ensures grown { Grows (decls_view decls.old) (decls_view decls.new) }
{
    let number = decls.next_function()?;
    let parameters = number_of(scope.len())?;
    let types = types_of(alloc, scope)?;
    let Typed { expr, ty } = body;
    let meaning = Meaning::Function {
        number,
        parameters: types,
        result: ty,
    };
    let body = Arc::new(alloc, expr)?;
    decls.add_name(alloc, name, meaning)?;
    decls.add_function(Function { parameters, body })?;
    Ok(())
}

/// Declares a value.
pub(crate) fn declare_value(
    alloc: Global,
    decls: &mut Decls,
    name: &str,
    tree: &Ast,
) -> Result<(), TypeError>
    ensures exact { Answers (λ _. decls_view decls.new) result (declared_form (decls_view decls.old) (value name.now (ast_view tree.now))) }
    ensures grown { Grows (decls_view decls.old) (decls_view decls.new) }
{
    if !decls.is_new_name(name) {
        return Err(TypeError::Duplicate(String::from_str(alloc, name)?));
    }
    let mut scope = Vec::new(alloc);
    let body = check_expr(alloc, decls, Context::Function, tree, &mut scope, None)?;
    add_call(alloc, decls, name, scope.as_slice(), body)
}

/// Declares a function.
pub(crate) fn declare_function(
    alloc: Global,
    decls: &mut Decls,
    name: &str,
    parameters: &[Parameter],
    result_name: &str,
    tree: &Ast,
) -> Result<(), TypeError>
    ensures exact { Answers (λ _. decls_view decls.new) result (declared_form (decls_view decls.old) (function name.now (map parameter_view parameters.now) result_name.now (ast_view tree.now))) }
    ensures grown { Grows (decls_view decls.old) (decls_view decls.new) }
{
    if !decls.is_new_name(name) {
        return Err(TypeError::Duplicate(String::from_str(alloc, name)?));
    }
    let mut scope = scope_of(alloc, decls, parameters)?;
    let wanted = type_named(alloc, decls, result_name)?;
    let body = check_expr(
        alloc,
        decls,
        Context::Function,
        tree,
        &mut scope,
        Some(&wanted),
    )?;
    add_call(alloc, decls, name, scope.as_slice(), body)
}
