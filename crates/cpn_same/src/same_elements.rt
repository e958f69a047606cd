//! Whether two binding elements are the same.

ghost use Rattle.std.specs.Prelude.{◌≡◌, ◌↔◌, IsTrue};
ghost use lib.Pointwise.{pointwise};
ghost use Rattle.cpn_core.specs.Elements.{element_view};
ghost use Rattle.cpn_core.specs.Pairs.{pairs_view};
ghost use Rattle.cpn_core.specs.Views.{value_view};
ghost use Rattle.cpn_same.specs.SameElements.{same_element, same_pair};

use cpn_core::{Element, Pair};

/// Whether both are the same element: of one transition, with the same binding.
///
/// Source: Jensen and Kristensen, chapter 4.
pub fn same_element(element: &Element, other: &Element) -> bool
    ensures exact { result ≡ same_element (element_view element.now) (element_view other.now) }
    ensures same { IsTrue result ↔ (element_view element.now ≡ element_view other.now) }
{
    same_parts(element, other)
}

fn same_parts(element: &Element, other: &Element) -> bool
    ensures exact { result ≡ same_element (element_view element.now) (element_view other.now) }
{
    element.transition == other.transition
        && same_pairs(element.binding.pairs(), other.binding.pairs())
}

#[tactic(auto, using(crate::proofs::Rows::pairs_more, crate::proofs::Rows::pairs_end))]
fn same_pairs(pairs: &[Pair], others: &[Pair]) -> bool
    ensures exact { result ≡ pointwise same_pair (pairs_view pairs.now) (pairs_view others.now) }
{
    let shorter = pairs.len().min(others.len());
    for i in 0..shorter {
        if !is_same_pair(&pairs[i], &others[i]) {
            return false;
        }
    }
    pairs.len() == others.len()
}

fn is_same_pair(pair: &Pair, other: &Pair) -> bool
    ensures exact { result ≡ same_pair (pair.now.variable, value_view pair.now.value) (other.now.variable, value_view other.now.value) }
{
    pair.variable == other.variable && pair.value == other.value
}
