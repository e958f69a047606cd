//! Forms without parts: literals, `time` and names alone.

ghost use Rattle.std.specs.Prelude.{◌≡◌, string_bytes};
ghost use Rattle.cpn_definitions.specs.Value.{text as plain_text};
ghost use Rattle.cpn_definitions.specs.Inscription.{literal};
ghost use Rattle.cpn_typing.specs.Names.{declared, found};
ghost use Rattle.cpn_typing.specs.Contexts.{may_tell_time};
ghost use Rattle.cpn_typing.specs.Rules.{meets as meets_rule, name_rule, time_rule};
ghost use Rattle.cpn_typing.specs.Types.{text_type};
ghost use Rattle.cpn_declared.specs.DeclsViews.{decls_view, meaning_view};
ghost use Rattle.cpn_forms.specs.ScopeViews.{scope_view};
ghost use Rattle.cpn_forms.specs.ContextViews.{context_view};
ghost use Rattle.cpn_forms.specs.TypedViews.{typed_view};
ghost use Rattle.cpn_forms.specs.FormViews.{spot_view};
ghost use Rattle.cpn_declared.specs.Answers.{Answers};

use crate::forms::{Spot, meets};
use crate::lookups::{Found, find};
use crate::scopes::Local;
use crate::typed::Typed;
use cpn_core::{Expr, Text, Value};
use cpn_declared::{Decls, Meaning, Ty, TypeError};
use std::alloc::Global;

/// A string.
///
/// # Errors
///
/// [`TypeError::Mismatch`] where its context wants another type; [`TypeError::Memory`].
pub fn text_literal(alloc: Global, text: &str, spot: Spot<'_>) -> Result<Typed, TypeError>
    ensures exact { Answers typed_view result (meets_rule (spot_view spot.entry).wanted spot.entry.at (literal (plain_text text.now)) text_type) }
{
    let mut bytes = Text::new(alloc);
    bytes.push(text.as_bytes())?;
    meets(
        spot.wanted,
        spot.at,
        Expr::Lit(Value::Text(bytes)),
        Ty::Text,
    )
}

/// `time`.
///
/// # Errors
///
/// [`TypeError::TimeNotAllowed`] where the context may not tell the time; [`TypeError::Mismatch`] where it wants another type;
/// [`TypeError::Memory`].
pub fn check_time(spot: Spot<'_>) -> Result<Typed, TypeError>
    ensures exact { Answers typed_view result (time_rule (may_tell_time (context_view spot.entry.context)) (spot_view spot.entry)) }
{
    if spot.context.may_tell_time() {
        meets(spot.wanted, spot.at, Expr::Time, Ty::Int)
    } else {
        Err(TypeError::TimeNotAllowed(spot.at))
    }
}

/// A name alone: a local, a variable, a constant, a constructor without argument, a function without parameters.
///
/// # Errors
///
/// [`TypeError::Unknown`] where the name is not there or needs arguments, [`TypeError::NotClosed`] at a variable in a closed text,
/// [`TypeError::Mismatch`] where its context wants another type; [`TypeError::Memory`].
pub fn check_name(
    alloc: Global,
    decls: &Decls,
    name: &str,
    scope: &[Local<'_>],
    spot: Spot<'_>,
) -> Result<Typed, TypeError>
    ensures exact { Answers typed_view result (name_rule (found name.now (scope_view scope.now) (decls_view decls.now)) (spot_view spot.entry) name.now) }
{
    match find(name, scope, decls) {
        Found::Local(number, ty) => match u32::try_from(number) {
            Ok(local) => {
                let ty = ty.copy()?;
                meets(spot.wanted, spot.at, Expr::Local(local), ty)
            }
            Err(_) => Err(TypeError::Memory),
        },
        Found::Predeclared(_) => Err(TypeError::Unknown(String::from_str(alloc, name)?)),
        Found::Declared(meaning) => check_declared(alloc, meaning, name, spot),
        Found::Nothing => Err(TypeError::Unknown(String::from_str(alloc, name)?)),
    }
}

/// A declared name alone.
#[tactic(auto, using(crate::proofs::NamesAlone::function_unknown))]
fn check_declared(
    alloc: Global,
    meaning: &Meaning,
    name: &str,
    spot: Spot<'_>,
) -> Result<Typed, TypeError>
    ensures exact { Answers typed_view result (name_rule (declared (meaning_view meaning.now)) (spot_view spot.entry) name.now) }
{
    match meaning {
        Meaning::Variable { number, ty } => {
            if spot.context.is_closed() {
                return Err(TypeError::NotClosed(String::from_str(alloc, name)?));
            }
            let ty = ty.copy()?;
            meets(spot.wanted, spot.at, Expr::Var(*number), ty)
        }
        Meaning::Constant {
            enumeration,
            position,
        } => meets(
            spot.wanted,
            spot.at,
            Expr::Lit(Value::Enum(*position)),
            Ty::Enum(*enumeration),
        ),
        Meaning::Constructor {
            union,
            position,
            argument,
        } => match argument {
            None => meets(
                spot.wanted,
                spot.at,
                Expr::Con(*position, None),
                Ty::Union(*union),
            ),
            Some(_) => Err(TypeError::Unknown(String::from_str(alloc, name)?)),
        },
        Meaning::Function {
            number,
            parameters,
            result,
        } => {
            if parameters.is_empty() {
                let ty = result.copy()?;
                let call = Expr::Call(*number, Vec::new(alloc));
                meets(spot.wanted, spot.at, call, ty)
            } else {
                Err(TypeError::Unknown(String::from_str(alloc, name)?))
            }
        }
    }
}
