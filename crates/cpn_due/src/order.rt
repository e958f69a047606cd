//! The order of elements.
ghost use Rattle.std.specs.Prelude.{◌≡◌};
ghost use Rattle.cpn_definitions.specs.Enabled.{binding_cmp, element_cmp};
ghost use Rattle.cpn_core.specs.Elements.{element_view};

use cpn_core::{Binding, Element};
use std::cmp::Ordering;

/// How two elements compare: by transition, then by the values of its variables in declaration order.
pub fn compare_elements(element: &Element, other: &Element) -> Ordering
    ensures exact { result ≡ element_cmp (element_view element.now) (element_view other.now) }
{
    let by_transition = element.transition.cmp(&other.transition);
    if by_transition != Ordering::Equal {
        return by_transition;
    }
    compare_bindings(&element.binding, &other.binding)
}

#[tactic(auto, using(crate::proofs::BindingEnds::order_ends))]
fn compare_bindings(binding: &Binding, other: &Binding) -> Ordering
    ensures exact { result ≡ binding_cmp binding.now other.now }
{
    let left = binding.pairs();
    let right = other.pairs();
    for i in 0..left.len().min(right.len()) {
        let by_value = left[i].value.cmp(&right[i].value);
        if by_value != Ordering::Equal {
            return by_value;
        }
    }
    left.len().cmp(&right.len())
}
