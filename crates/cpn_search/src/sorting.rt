//! The order of what a search found.
ghost use Rattle.std.specs.Prelude.{◌≡◌, IsPermutation, IsSortedBy, IfOk};
ghost use Rattle.std.specs.Ordering.{is_lt};
ghost use Rattle.cpn_definitions.specs.Enabled.{binding_cmp};
ghost use Rattle.cpn_search.specs.FoundViews.{found_view};

use cpn_core::{Binding, Found, Memory};
use std::cmp::Ordering;

/// How two bindings of the same variables compare: by the values of the variables, in declaration order.
#[tactic(auto, using(crate::proofs::BindingOrder::order_ends))]
pub(crate) fn compare(binding: &Binding, other: &Binding) -> Ordering
    ensures exact { result ≡ binding_cmp binding.now other.now }
{
    let left = binding.pairs();
    let right = other.pairs();
    for i in 0..left.len().min(right.len()) {
        let by_value = left[i].value.cmp(&right[i].value);
        if by_value != Ordering::Equal {
            return by_value;
        }
    }
    left.len().cmp(&right.len())
}

/// What was found, in the order of the bindings.
pub fn in_order(mut found: Found) -> Result<Found, Memory>
    ensures same { IfOk result (λ sorted. IsPermutation found.items sorted.items) }
    ensures rises { IfOk result (λ sorted. IsSortedBy (λ x y. is_lt (binding_cmp (found_view x).binding (found_view y).binding)) sorted.items) }
{
    found.sort_by(|one, another| compare(
        &one.entry.element.binding,
        &another.entry.element.binding,
    ))?;
    Ok(found)
}
