//! The rules of calls: what is wanted of their arguments, and what these make.

ghost use Rattle.std.specs.Prelude.{◌≡◌, option_map, IfOk};
ghost use Rattle.cpn_definitions.specs.Inscription.{apply, constructing, more_exprs, no_exprs};
ghost use Rattle.cpn_core.specs.Inscriptions.{expr_view};
ghost use Rattle.cpn_typing.specs.Types.{same_types, union as of_union};
ghost use Rattle.cpn_typing.specs.Names.{declared, found};
ghost use Rattle.cpn_typing.specs.Rules.{called_as, meets as meets_rule, parts_wanted as wanted_parts, item_of as item_type};
ghost use Rattle.cpn_declared.specs.DeclsViews.{decls_view, meaning_view};
ghost use Rattle.cpn_forms.specs.ScopeViews.{scope_view};
ghost use Rattle.cpn_declared.specs.TypeViews.{ty_view, tys_view};
ghost use Rattle.cpn_forms.specs.TypedViews.{typed_view};
ghost use Rattle.cpn_forms.specs.FormViews.{wanted_view, spot_view, parts_view};
ghost use Rattle.cpn_forms.specs.CalledViews.{called_view};
ghost use Rattle.cpn_forms.specs.Calls as rules;
ghost use Rattle.cpn_declared.specs.Answers.{Answers};

use crate::forms::{Parts, Spot, meets};
use crate::lookups::{Found, Predeclared, find};
use crate::scopes::Local;
use crate::typed::Typed;
use cpn_core::{Expr, Memory};
use cpn_declared::{Decls, Meaning, Ty, TypeError, Tys, are_same};
use std::alloc::Global;

/// What a name in front of a parenthesis means.
#[derive(Clone, Copy)]
pub enum Called<'d> {
    /// A predeclared function.
    Predeclared(Predeclared),
    /// A constructor with an argument.
    Constructor {
        /// The number of its union.
        union: u32,
        /// Its position there.
        position: u32,
        /// The type of its argument.
        argument: &'d Ty,
    },
    /// A function with parameters.
    Function {
        /// Its number.
        number: u32,
        /// The types of its parameters.
        parameters: &'d Tys,
        /// The type of what it gives.
        result: &'d Ty,
    },
    /// Nothing that may be called.
    Nothing,
}

/// What the name in front of a parenthesis means.
pub fn find_called<'d>(name: &str, scope: &[Local<'_>], decls: &'d Decls) -> Called<'d>
    ensures exact { called_view result ≡ called_as (found name.now (scope_view scope.now) (decls_view decls.now)) }
{
    match find(name, scope, decls) {
        Found::Local(_, _) => Called::Nothing,
        Found::Predeclared(function) => Called::Predeclared(function),
        Found::Declared(meaning) => called_meaning(meaning),
        Found::Nothing => Called::Nothing,
    }
}

/// What a declared name in front of a parenthesis means.
#[tactic(auto, using(crate::proofs::NamesAlone::value_uncalled, crate::proofs::NamesAlone::function_called))]
fn called_meaning(meaning: &Meaning) -> Called<'_>
    ensures exact { called_view result ≡ called_as (declared (meaning_view meaning.now)) }
{
    match meaning {
        Meaning::Variable { number: _, ty: _ } => Called::Nothing,
        Meaning::Constant {
            enumeration: _,
            position: _,
        } => Called::Nothing,
        Meaning::Constructor {
            union,
            position,
            argument,
        } => match argument {
            None => Called::Nothing,
            Some(argument) => Called::Constructor {
                union: *union,
                position: *position,
                argument,
            },
        },
        Meaning::Function {
            number,
            parameters,
            result,
        } => {
            if parameters.is_empty() {
                Called::Nothing
            } else {
                Called::Function {
                    number: *number,
                    parameters,
                    result,
                }
            }
        }
    }
}

/// What a predeclared function wants of its first argument.
pub fn first_wanted_by(function: Predeclared) -> Option<Ty>
    ensures exact { option_map ty_view result ≡ rules.first_wanted_by function }
{
    match function {
        Predeclared::Size => Some(Ty::Text),
        Predeclared::Head
        | Predeclared::Tail
        | Predeclared::Length
        | Predeclared::Rev
        | Predeclared::Mem => None,
    }
}

/// What a predeclared function wants of the arguments behind the first one, by its type.
///
/// # Errors
///
/// [`TypeError::Mismatch`] at the first argument, where a list is wanted and it is none; [`TypeError::Memory`].
pub fn others_wanted_by(
    alloc: Global,
    function: Predeclared,
    first: &Ty,
    at: usize,
) -> Result<Tys, TypeError>
    ensures exact { Answers (λ types. tys_view types.items) result (rules.others_wanted_by function (ty_view first.now) at) }
{
    match function {
        Predeclared::Size => Ok(Vec::new(alloc)),
        Predeclared::Mem => {
            let item = item_of(first, at)?;
            let mut others = Vec::new(alloc);
            others.push(item.copy()?)?;
            Ok(others)
        }
        Predeclared::Head | Predeclared::Tail | Predeclared::Length | Predeclared::Rev => {
            let _item = item_of(first, at)?;
            Ok(Vec::new(alloc))
        }
    }
}

/// The type of a list's items.
///
/// # Errors
///
/// [`TypeError::Mismatch`] at the offset exactly where the type is no list's; [`TypeError::Memory`].
pub fn item_of(ty: &Ty, at: usize) -> Result<&Ty, TypeError>
    ensures exact { Answers (λ item. ty_view item.now) result (item_type (ty_view ty.now) at) }
{
    match ty {
        Ty::List(item) => Ok(item),
        Ty::Unit | Ty::Bool | Ty::Int | Ty::Text | Ty::Enum(_) | Ty::Tuple(_) | Ty::Union(_) => Err(
            TypeError::Mismatch(at),
        ),
    }
}

/// The type of what a predeclared function gives, by the type of its first argument.
fn result_of(function: Predeclared, first: Ty) -> Result<Ty, Memory>
    ensures exact { IfOk result (λ ty. ty_view ty ≡ rules.result_of function (ty_view first)) }
{
    match function {
        Predeclared::Head => match &first {
            Ty::List(item) => item.copy(),
            Ty::Unit | Ty::Bool | Ty::Int | Ty::Text | Ty::Enum(_) | Ty::Tuple(_) | Ty::Union(_) =>
                Ok(first),
        },
        Predeclared::Tail | Predeclared::Rev => Ok(first),
        Predeclared::Length | Predeclared::Size => Ok(Ty::Int),
        Predeclared::Mem => Ok(Ty::Bool),
    }
}

/// What a predeclared function makes of its first argument and those behind it.
///
/// # Errors
///
/// [`TypeError::Mismatch`] at the call, where the arguments behind the first are not of the types that are wanted of them, or not as
/// many, or where its context wants another type; [`TypeError::Memory`].
#[tactic(auto, using(crate::proofs::Heads::exprs_headed))]
pub fn operation_makes(
    function: Predeclared,
    spot: Spot<'_>,
    first: Typed,
    others: &Tys,
    rest: Parts,
) -> Result<Typed, TypeError>
    ensures exact { Answers typed_view result (rules.operation_makes function (spot_view spot.entry) (typed_view first) (tys_view others.now.items) (parts_view rest)) }
{
    let Parts { mut exprs, types } = rest;
    if !are_same(&types, others) {
        return Err(TypeError::Mismatch(spot.at));
    }
    let Typed { expr, ty } = first;
    exprs.insert(0, expr)?;
    let result = result_of(function, ty)?;
    meets(
        spot.wanted,
        spot.at,
        Expr::Op(function.operation(), exprs),
        result,
    )
}

/// Several arguments of a constructor are the parts of a tuple.
///
/// # Errors
///
/// [`TypeError::Mismatch`] at the first argument, where the constructor's argument is no tuple of just these types; [`TypeError::Memory`].
pub fn tuple_made(argument: &Ty, at: usize, parts: Parts) -> Result<Expr, TypeError>
    ensures exact { Answers expr_view result (rules.tuple_made (ty_view argument.now) at (parts_view parts)) }
{
    match argument {
        Ty::Tuple(types) => {
            if are_same(&parts.types, types) {
                return Ok(Expr::Tuple(parts.exprs));
            }
        }
        Ty::Unit | Ty::Bool | Ty::Int | Ty::Text | Ty::Enum(_) | Ty::Union(_) | Ty::List(_) => {}
    }
    Err(TypeError::Mismatch(at))
}

/// The types that are wanted of a tuple's parts.
pub fn parts_wanted(wanted: Option<&Ty>) -> &[Ty]
    ensures exact { tys_view result.now ≡ wanted_parts (wanted_view wanted.entry) }
{
    match wanted {
        Some(ty) => match ty {
            Ty::Tuple(parts) => parts.as_slice(),
            _ => &[],
        },
        None => &[],
    }
}

/// A constructor with its argument.
///
/// # Errors
///
/// [`TypeError::Mismatch`] at the call, where its context wants another type; [`TypeError::Memory`].
pub fn constructed(
    alloc: Global,
    union: u32,
    position: u32,
    argument: Expr,
    spot: Spot<'_>,
) -> Result<Typed, TypeError>
    ensures exact { Answers typed_view result (meets_rule (wanted_view spot.entry.wanted) spot.entry.at (apply (constructing position) (more_exprs (expr_view argument) no_exprs)) (of_union union)) }
{
    let argument = Box::new(alloc, argument)?;
    meets(
        spot.wanted,
        spot.at,
        Expr::Con(position, Some(argument)),
        Ty::Union(union),
    )
}

/// A call of a function with its arguments.
///
/// # Errors
///
/// [`TypeError::Mismatch`] at the call, where the arguments are not of the parameters' types, or not as many, or where its context wants
/// another type; [`TypeError::Memory`].
pub fn function_called(
    number: u32,
    parameters: &Tys,
    given: &Ty,
    arguments: Parts,
    spot: Spot<'_>,
) -> Result<Typed, TypeError>
    ensures exact { Answers typed_view result (rules.function_makes number (spot_view spot.entry) (tys_view parameters.now.items) (ty_view given.now) (parts_view arguments)) }
{
    if !are_same(&arguments.types, parameters) {
        return Err(TypeError::Mismatch(spot.at));
    }
    let ty = given.copy()?;
    let call = Expr::Call(number, arguments.exprs);
    meets(spot.wanted, spot.at, call, ty)
}
