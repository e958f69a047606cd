//! The tokens that a binding element needs.

ghost use Rattle.std.specs.Prelude.{◌≡◌, [], replicate, OnOk};
ghost use Rattle.cpn_definitions.specs.Lists.{with_items};
ghost use Rattle.cpn_definitions.specs.Outcome.{HasMeaning};
ghost use Rattle.cpn_definitions.specs.Occurrence.{gather, needed_cmp, needed_by, needs_of};
ghost use Rattle.cpn_core.specs.Inscriptions.{funs_view};
ghost use Rattle.cpn_core.specs.Nets.{arc_view, arcs_view, net_view};
ghost use Rattle.cpn_eval.specs.Answers.{Answers};
ghost use Rattle.cpn_eval.specs.Terms.{term_view, terms_view};
ghost use Rattle.cpn_elements.specs.Summed.{and_these, tokens_of};
ghost use Rattle.cpn_elements.specs.Needs.{needed_of};

use cpn_core::{Binding, Funs, Memory, Needed, Needs, Net, PlaceArc};
use cpn_eval::{Refused, Term, eval_mset};
use std::alloc::Global;

/// The tokens that the input arcs of the transition need under the binding, summed over the arcs;
/// `Refused::Fault` with the first fault of an input inscription, in document order. A transition past the last
/// one needs nothing.
///
/// Source: Jensen and Kristensen, chapter 11; the order of the tokens is our own choice.
#[tactic(auto, unfolding(cpn_definitions::specs::Occurrence::needs_of))]
pub fn needs_of(
    alloc: Global,
    net: &Net,
    transition: u32,
    binding: &Binding,
) -> Result<Needs, Refused>
    requires meaning { HasMeaning (needs_of (net_view net.now) (record { transition = transition; binding = binding.now })) }
    ensures needs { Answers (λ needs. needs) result (needs_of (net_view net.now) (record { transition = transition; binding = binding.now })) }
{
    match net.transitions.get(transition as usize) {
        None => Ok(Needs::new(alloc)),
        Some(transition) => needs_among(alloc, &net.funs, &transition.inputs, binding),
    }
}

fn needs_among(
    alloc: Global,
    funs: &Funs,
    arcs: &[PlaceArc],
    binding: &Binding,
) -> Result<Needs, Refused>
    requires meaning { HasMeaning (and_these needed_cmp [] (gather (needed_by (funs_view funs.now) binding.now) (arcs_view arcs.now))) }
    ensures needs { Answers (λ needs. needs) result (and_these needed_cmp [] (gather (needed_by (funs_view funs.now) binding.now) (arcs_view arcs.now))) }
{
    let mut needs = Needs::new(alloc);
    for arc in arcs {
        add_needs(alloc, &mut needs, funs, arc, binding)?;
    }
    Ok(needs)
}

// Adds the tokens that the arc needs.
fn add_needs(
    alloc: Global,
    needs: &mut Needs,
    funs: &Funs,
    arc: &PlaceArc,
    binding: &Binding,
) -> Result<(), Refused>
    requires meaning { HasMeaning (needed_by (funs_view funs.now) binding.now (arc_view arc.now)) }
    ensures added { Answers (λ _. needs.new) result (and_these needed_cmp needs.old (needed_by (funs_view funs.now) binding.now (arc_view arc.now))) }
{
    let terms = eval_mset(alloc, funs, &arc.inscription, binding, 0)?;
    for term in terms {
        add_needed(needs, arc.place, term)?;
    }
    Ok(())
}

// Adds as many tokens as the term's count says.
fn add_needed(needs: &mut Needs, place: u32, term: Term) -> Result<(), Memory>
    ensures added { OnOk result (needs.new ≡ with_items needed_cmp (replicate term.count (needed_of place (term_view term))) needs.old) }
{
    let Term {
        value,
        count,
        delay,
    } = term;
    for _token in 1..count {
        let copy = value.copy()?;
        needs.add(Needed {
            place,
            value: copy,
            offset: delay,
        })?;
    }
    if count > 0 {
        needs.add(Needed {
            place,
            value,
            offset: delay,
        })?;
    }
    Ok(())
}
