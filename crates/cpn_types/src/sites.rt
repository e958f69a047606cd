//! What is around an inscription of tokens, and which times may be told there.

ghost use Rattle.std.specs.Prelude.{◌≡◌};
ghost use Rattle.cpn_definitions.specs.Inscription.{later, stamped};
ghost use Rattle.cpn_core.specs.Inscriptions.{expr_view, multiset_view};
ghost use Rattle.cpn_typing.specs.Multisets.{delay_rule, stamp_rule};
ghost use Rattle.cpn_typing.specs.Multisets as multisets;
ghost use Rattle.cpn_declared.specs.Answers.{Answers};
ghost use Rattle.cpn_forms.specs.ContextViews.{side_view, context_view};

use cpn_core::MExpr;
use cpn_declared::{Decls, Ty, TypeError};
use cpn_forms::{Context, Side, Typed};
use std::alloc::Global;

/// What is around an inscription of tokens.
#[derive(Clone, Copy)]
pub(crate) struct Site<'d> {
    /// Where memory comes from.
    pub(crate) alloc: Global,
    /// What is declared.
    pub(crate) decls: &'d Decls,
    /// Where the inscription stands.
    pub(crate) side: Side,
    /// The type of the place's tokens.
    pub(crate) ty: &'d Ty,
    /// Whether they carry time stamps.
    pub(crate) timed: bool,
}

/// The context of what stands inside the inscription.
pub(crate) fn inside(side: Side) -> Context
    ensures exact { context_view result ≡ multisets.inside (side_view side) }
{
    match side {
        Side::Input => Context::Input,
        Side::Output => Context::Output,
        Side::Initial => Context::Initial,
    }
}

/// Tokens with a delay, where it may stand.
pub(crate) fn delayed(
    side: Side,
    timed: bool,
    sign: usize,
    tokens: Box<MExpr>,
    delay: Typed,
) -> Result<MExpr, TypeError>
    ensures exact { Answers multiset_view result (delay_rule (side_view side) timed sign (later (multiset_view tokens.value) (expr_view delay.expr))) }
{
    match side {
        Side::Input => Err(TypeError::InputDelay(sign)),
        Side::Output => {
            if !timed {
                return Err(TypeError::TimeNotAllowed(sign));
            }
            Ok(MExpr::Later(tokens, delay.expr))
        }
        Side::Initial => Err(TypeError::TimeNotAllowed(sign)),
    }
}

/// Tokens with a time stamp, where it may stand.
pub(crate) fn at_time(
    side: Side,
    timed: bool,
    sign: usize,
    tokens: Box<MExpr>,
    stamp: i64,
) -> Result<MExpr, TypeError>
    ensures exact { Answers multiset_view result (stamp_rule (side_view side) timed sign (stamped (multiset_view tokens.value) stamp)) }
{
    match side {
        Side::Input => Err(TypeError::TimeNotAllowed(sign)),
        Side::Initial => {
            if !timed {
                return Err(TypeError::TimeNotAllowed(sign));
            }
            Ok(MExpr::At(tokens, stamp))
        }
        Side::Output => Err(TypeError::TimeNotAllowed(sign)),
    }
}
