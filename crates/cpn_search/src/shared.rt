//! What a plan shares with its net: binding terms of arcs, and equations of guards.
ghost use Rattle.std.specs.Prelude.{◌<◌, length};
ghost use Rattle.cpn_bindable.specs.Equations.{equations_in_guard};

use cpn_bindable::inscription_at;
use cpn_core::{ArcExpr, Expr, Guard, Memory, Pat};
use std::sync::Arc;

/// A binding term of an arc, by its number. It shares the inscription of the arc.
#[derive(Drop)]
pub struct SharedTerm {
    inscription: Arc<ArcExpr>,
    number: usize,
    ghost in_range: { number < length inscription.value.terms.items },
}

impl SharedTerm {
    ghost use Rattle.std.specs.Prelude.{◌≡◌, map, IfOk};
    ghost use Rattle.cpn_core.specs.Inscriptions.{pattern_view, term_view};
    ghost use Rattle.cpn_search.specs.SharedViews.{pattern_at, term_pattern};

    /// The binding term of a number of an arc.
    pub(crate) fn of(inscription: &Arc<ArcExpr>, number: usize) -> Result<SharedTerm, Memory>
        requires in_range { number < length inscription.now.value.terms.items }
        ensures pattern { IfOk result (λ term. term_pattern term ≡ pattern_at (map term_view inscription.now.value.terms.items) number) }
    {
        Ok(SharedTerm {
            inscription: inscription.clone()?,
            number,
        })
    }

    /// Its pattern.
    #[tactic(auto, using(crate::proofs::SharedParts::pattern_is))]
    pub(crate) fn pattern(&self) -> &Pat
        ensures pattern { pattern_view result.now ≡ term_pattern self.now }
    {
        &self.inscription.terms[self.number].pattern
    }
}

/// An equation of a guard, by its number. It shares the guard.
#[derive(Drop)]
pub struct SharedEquation {
    guard: Arc<Guard>,
    number: usize,
    ghost in_range: { number < length (equations_in_guard guard.value) },
}

impl SharedEquation {
    ghost use Rattle.std.specs.Prelude.{◌≡◌, IfOk};
    ghost use Rattle.cpn_core.specs.Inscriptions.{expr_view};
    ghost use Rattle.cpn_search.specs.SharedViews.{inscription_at, equation_inscription};

    /// The equation of a number of a guard.
    pub(crate) fn of(guard: &Arc<Guard>, number: usize) -> Result<SharedEquation, Memory>
        requires in_range { number < length (equations_in_guard guard.now.value) }
        ensures inscription { IfOk result (λ equation. equation_inscription equation ≡ inscription_at (equations_in_guard guard.now.value) number) }
    {
        Ok(SharedEquation {
            guard: guard.clone()?,
            number,
        })
    }

    /// What it makes its variable equal to.
    #[tactic(auto, using(crate::proofs::SharedParts::inscription_is))]
    pub(crate) fn inscription(&self) -> &Expr
        ensures inscription { expr_view result.now ≡ equation_inscription self.now }
    {
        match inscription_at(&self.guard, self.number) {
            Some(inscription) => inscription,
            None => unreachable!(),
        }
    }
}
