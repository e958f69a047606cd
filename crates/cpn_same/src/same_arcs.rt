//! Whether two inscriptions of arcs are the same.

ghost use Rattle.std.specs.Prelude.{◌≡◌, ◌↔◌, IsTrue, map};
ghost use lib.Pointwise.{pointwise};
ghost use Rattle.cpn_core.specs.Inscriptions.{term_view};
ghost use Rattle.cpn_same.specs.SameArcs.{arc_expr_view, same_arc_expr, same_term};

use crate::same_colours::same_colour;
use crate::same_patterns::same_pattern;
use crate::same_tokens::same_tokens;
use cpn_core::{ArcExpr, BindingTerm};

/// Whether both inscriptions are the same: of one colour set, with the same tokens and the same binding terms.
///
/// Source: own choice.
pub fn same_arc_expr(arc: &ArcExpr, other: &ArcExpr) -> bool
    ensures exact { result ≡ same_arc_expr (arc_expr_view arc.now) (arc_expr_view other.now) }
    ensures same { IsTrue result ↔ (arc_expr_view arc.now ≡ arc_expr_view other.now) }
{
    same_parts(arc, other)
}

fn same_parts(arc: &ArcExpr, other: &ArcExpr) -> bool
    ensures exact { result ≡ same_arc_expr (arc_expr_view arc.now) (arc_expr_view other.now) }
{
    same_colour(&arc.colour, &other.colour)
        && (same_tokens(&arc.expr, &other.expr) && same_terms(&arc.terms, &other.terms))
}

#[tactic(auto, using(crate::proofs::Rows::terms_more, crate::proofs::Rows::terms_end))]
fn same_terms(terms: &Vec<BindingTerm>, others: &Vec<BindingTerm>) -> bool
    ensures exact { result ≡ pointwise same_term (map term_view terms.now.items) (map term_view others.now.items) }
{
    let shorter = terms.len().min(others.len());
    for i in 0..shorter {
        if !same_term(&terms[i], &others[i]) {
            return false;
        }
    }
    terms.len() == others.len()
}

fn same_term(term: &BindingTerm, other: &BindingTerm) -> bool
    ensures exact { result ≡ same_term (term_view term.now) (term_view other.now) }
{
    term.count == other.count && same_pattern(&term.pattern, &other.pattern)
}
