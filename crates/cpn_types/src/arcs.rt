//! The inscriptions of arcs, and initial markings.

ghost use Rattle.std.specs.Prelude.{◌≡◌, [], IfOk, map};
ghost use Rattle.cpn_core.specs.Colours.{colour_view};
ghost use Rattle.cpn_core.specs.Inscriptions.{multiset_view, term_view};
ghost use Rattle.cpn_trees.specs.AstViews.{ast_view};
ghost use Rattle.cpn_trees.specs.ParsedViews.{inscription_view};
ghost use Rattle.cpn_typing.specs.Multisets.{site_of, marked, checked_arc, checked_init};
ghost use Rattle.cpn_types.specs.Accepted.{ArcHasMeaning, InitHasMeaning, terms_on};
ghost use Rattle.cpn_declared.specs.Answers.{Answers};
ghost use Rattle.cpn_declared.specs.DeclsViews.{decls_view};
ghost use Rattle.cpn_forms.specs.ContextViews.{side_view};

use crate::sites::Site;
use cpn_bindable::binding_terms;
use cpn_core::{ArcExpr, BindingTerm, Colour, MExpr, Memory};
use cpn_declared::{Decls, Ty, TypeError};
use cpn_forms::Side;
use cpn_trees::{Ast, Inscription};
use std::alloc::Global;

/// The inscription of tokens of a tree at a place of a colour set.
fn check_tokens(
    alloc: Global,
    decls: &Decls,
    colour: &Colour,
    side: Side,
    tree: &Ast,
) -> Result<MExpr, TypeError>
    ensures exact { Answers multiset_view result (marked (site_of (decls_view decls.now) (side_view side) (colour_view colour.now)) (ast_view tree.now) []) }
{
    let ty = Ty::of_shape(alloc, &colour.shape)?;
    let site = Site {
        alloc,
        decls,
        side,
        ty: &ty,
        timed: colour.timed,
    };
    let mut scope = Vec::new(alloc);
    let tokens = site.tokens(tree, &mut scope)?;
    Ok(tokens)
}

/// The binding terms that an inscription carries: on the input side its own, elsewhere none.
fn terms_for(alloc: Global, side: Side, tokens: &MExpr) -> Result<Vec<BindingTerm>, Memory>
    ensures exact { IfOk result (λ terms. map term_view terms.items ≡ terms_on (side_view side) (multiset_view tokens.now)) }
{
    match side {
        Side::Input => binding_terms(alloc, tokens),
        Side::Output => Ok(Vec::new(alloc)),
        Side::Initial => Ok(Vec::new(alloc)),
    }
}

/// The inscription of an arc at a place of a colour set. On the input side it carries its binding terms.
///
/// # Errors
///
/// The first reason why it is not accepted, as the rules of arcs say, or [`TypeError::Memory`].
pub fn check_arc(
    alloc: Global,
    decls: &Decls,
    colour: &Colour,
    side: Side,
    written: &Inscription,
) -> Result<ArcExpr, TypeError>
    ensures exact { Answers (λ arc. multiset_view arc.expr) result (checked_arc (decls_view decls.now) (side_view side) (colour_view colour.now) (inscription_view written.now)) }
    ensures colour { IfOk result (λ arc. colour_view arc.colour ≡ colour_view colour.now) }
    ensures terms { IfOk result (λ arc. map term_view arc.terms.items ≡ terms_on (side_view side) (multiset_view arc.expr)) }
    ensures means { IfOk result (λ arc. ArcHasMeaning (decls_view decls.now) (multiset_view arc.expr)) }
{
    let colour_of_place = colour.copy()?;
    let expr = check_tokens(alloc, decls, colour, side, &written.tree)?;
    let terms = terms_for(alloc, side, &expr)?;
    Ok(ArcExpr {
        colour: colour_of_place,
        expr,
        terms,
    })
}

/// The initial marking of a place of a colour set.
///
/// # Errors
///
/// The first reason why it is not accepted, as the rules of initial markings say, or [`TypeError::Memory`].
pub fn check_init(
    alloc: Global,
    decls: &Decls,
    colour: &Colour,
    written: &Inscription,
) -> Result<ArcExpr, TypeError>
    ensures exact { Answers (λ arc. multiset_view arc.expr) result (checked_init (decls_view decls.now) (colour_view colour.now) (inscription_view written.now)) }
    ensures colour { IfOk result (λ arc. colour_view arc.colour ≡ colour_view colour.now) }
    ensures terms { IfOk result (λ arc. arc.terms.items ≡ []) }
    ensures means { IfOk result (λ arc. InitHasMeaning (decls_view decls.now) (colour_view colour.now) (multiset_view arc.expr)) }
{
    let colour_of_place = colour.copy()?;
    let expr = check_tokens(alloc, decls, colour, Side::Initial, &written.tree)?;
    Ok(ArcExpr {
        colour: colour_of_place,
        expr,
        terms: Vec::new(alloc),
    })
}
