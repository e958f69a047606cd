//! The typed parts of a form, and where a form stands.

ghost use Rattle.std.specs.Prelude.{◌≡◌, IfOk, option_map};
ghost use Rattle.cpn_core.specs.Inscriptions.{expr_view};
ghost use Rattle.cpn_typing.specs.Rules.{meets as meets_rule};
ghost use Rattle.cpn_declared.specs.TypeViews.{ty_view};
ghost use Rattle.cpn_forms.specs.TypedViews.{typed_view};
ghost use Rattle.cpn_forms.specs.FormViews.{branches_view, wanted_view};
ghost use Rattle.cpn_declared.specs.Answers.{Answers};

use crate::contexts::Context;
use crate::typed::Typed;
use cpn_core::{Arm, Expr, Exprs, Memory};
use cpn_declared::{Ty, TypeError, Tys};

/// The parts of a form, with their types.
#[derive(Drop)]
pub struct Parts {
    /// The parts.
    pub exprs: Exprs,
    /// Their types, one for one.
    pub types: Tys,
}

/// The items of a list, with the one type of all; none where there are none and none is wanted.
#[derive(Drop)]
pub struct Items {
    /// The items.
    pub exprs: Exprs,
    /// Their type.
    pub ty: Option<Ty>,
}

/// The arms of a `case`, with the one type of all.
#[derive(Drop)]
pub struct Arms {
    /// The arms.
    pub arms: Vec<Arm>,
    /// Their type.
    pub ty: Option<Ty>,
}

/// Two parts of one type.
#[derive(Drop)]
pub struct Branches {
    /// The left one.
    pub left: Expr,
    /// The right one.
    pub right: Expr,
    /// Their type.
    pub ty: Ty,
}

impl Branches {
    /// Two typed parts, with the type of the one on the right.
    pub fn of(left: Typed, right: Typed) -> Branches
        ensures exact { branches_view result ≡ record { left = expr_view left.expr; right = expr_view right.expr; side = ty_view right.ty } }
    {
        Branches {
            left: left.expr,
            right: right.expr,
            ty: right.ty,
        }
    }

    /// The same parts, exchanged.
    pub fn turned(self) -> Branches
        ensures exact { branches_view result ≡ record { left = expr_view self.right; right = expr_view self.left; side = ty_view self.ty } }
    {
        let Branches { left, right, ty } = self;
        Branches {
            left: right,
            right: left,
            ty,
        }
    }
}

/// Where a form stands: its context, the offset of its first token, and the type that is wanted of it, if one is.
#[derive(Clone, Copy)]
pub struct Spot<'w> {
    /// The context of the inscription.
    pub context: Context,
    /// The offset of the form's first token.
    pub at: usize,
    /// The wanted type.
    pub wanted: Option<&'w Ty>,
}

/// A form with its type, at the wanted type.
///
/// # Errors
///
/// [`TypeError::Mismatch`] at the form exactly where another type is wanted; [`TypeError::Memory`].
pub fn meets(wanted: Option<&Ty>, at: usize, expr: Expr, ty: Ty) -> Result<Typed, TypeError>
    ensures exact { Answers typed_view result (meets_rule (wanted_view wanted.entry) at (expr_view expr) (ty_view ty)) }
{
    let Some(wanted) = wanted else {
        return Ok(Typed { expr, ty });
    };
    if ty.is_same(wanted) {
        return Ok(Typed { expr, ty });
    }
    Err(TypeError::Mismatch(at))
}

/// A wanted type of its own.
///
/// # Errors
///
/// Memory is wanted.
pub fn copy_wanted(wanted: Option<&Ty>) -> Result<Option<Ty>, Memory>
    ensures same { IfOk result (λ copied. option_map ty_view copied ≡ wanted_view wanted.entry) }
{
    match wanted {
        Some(ty) => {
            let copied = ty.copy()?;
            Ok(Some(copied))
        }
        None => Ok(None),
    }
}

/// The type, if there is one, lent.
pub fn lent(ty: &Option<Ty>) -> Option<&Ty>
    ensures same { wanted_view result ≡ option_map ty_view ty.now }
{
    match ty {
        Some(ty) => Some(ty),
        None => None,
    }
}
