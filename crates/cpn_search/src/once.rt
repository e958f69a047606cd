//! What was found, each binding once.
ghost use Rattle.std.specs.Prelude.{◌≡◌, [], IfOk, OnOk};
ghost use Rattle.cpn_search.specs.FoundViews.{repeats, once_more, once_of};

use crate::sorting::compare;
use cpn_core::{EnabledElement, Found, Memory};
use std::alloc::Global;
use std::cmp::Ordering;

/// Whether the last of those that were found has the binding of the element.
fn repeats(found: &[EnabledElement], element: &EnabledElement) -> bool
    ensures exact { result ≡ repeats found.now element.now }
{
    let count = found.len();
    if count == 0 {
        return false;
    }
    let last = &found[count - 1];
    compare(&last.entry.element.binding, &element.entry.element.binding) == Ordering::Equal
}

/// Appends the element, unless the last one has its binding.
fn push_once(found: &mut Found, element: EnabledElement) -> Result<(), Memory>
    ensures appended { OnOk result (found.new.items ≡ once_more found.old.items element) }
{
    if !repeats(found, &element) {
        found.push(element)?;
    }
    Ok(())
}

/// Of those that were found, in order, the first of each binding.
#[tactic(auto, using(crate::proofs::OnceFound::once_at_end))]
pub fn each_once(alloc: Global, found: Found) -> Result<Found, Memory>
    ensures once { IfOk result (λ kept. kept.items ≡ once_of [] found.items) }
{
    if found.len() <= 1 {
        return Ok(found);
    }
    let mut kept = Vec::new(alloc);
    for element in found {
        push_once(&mut kept, element)?;
    }
    Ok(kept)
}
