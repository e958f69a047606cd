//! The initial marking of the flat net.

ghost use Rattle.std.specs.Prelude.{◌≡◌, ◌<◌, ◌^◌, length};
ghost use Rattle.cpn_core.specs.Nets.{net_view};
ghost use Rattle.cpn_flat.specs.InitialMarking.{AreAllMeant, started};
ghost use Rattle.cpn_flat.specs.WrittenViews.{lists_view};
ghost use Rattle.cpn_flat.specs.Answers.{GivesBy};

use crate::refusals::FlatError;
use crate::sharing::shared_marking;
use crate::values::all_values;
use cpn_core::{ArcExpr, Net};
use cpn_tmset::Marking;
use std::alloc::Global;

/// The initial marking of the net, given the written initial markings of the members of each compound place.
pub(crate) fn marking_of(
    alloc: Global,
    net: &Net,
    written: &[Vec<&ArcExpr>],
) -> Result<Marking, FlatError>
    requires as_many { length written.now ≡ length net.now.places.items }
    requires few { length written.now < 2 ^ 32 }
    requires meant { AreAllMeant (net_view net.now).functions (lists_view written.now) }
    ensures started { GivesBy (λ marking. marking) result (started (net_view net.now) (lists_view written.now)) }
{
    let values = all_values(alloc, net, written)?;
    let marking = shared_marking(alloc, net, values.as_slice())?;
    Ok(marking)
}
