//! The marking that claims leave, made anew.

ghost use Rattle.std.specs.Prelude.{◌≡◌, IfOk};
ghost use Rattle.std.specs.List.{AllByRecursion};
ghost use Rattle.cpn_tmset.specs.Limits.{HaveRoomFor};
ghost use Rattle.cpn_log.specs.Kept.{IsInRange};
ghost use Rattle.cpn_log.specs.Exchanges.{after_claims, number_added};
ghost use Rattle.cpn_log.specs.ClaimViews.{claim_views};

use crate::claims::Claim;
use cpn_core::Memory;
use cpn_tmset::Marking;

/// The marking that the claims leave, one after another, from the marking.
pub(crate) fn replayed(start: &Marking, claims: &[Claim]) -> Result<Marking, Memory>
    requires in_range { AllByRecursion IsInRange (claim_views claims.now) }
    requires room { HaveRoomFor (number_added (claim_views claims.now)) start.now }
    ensures left { IfOk result (λ left. left ≡ after_claims (claim_views claims.now) start.now) }
{
    let mut left = start.copy()?;
    for claim in claims {
        claim.happen(&mut left)?;
    }
    Ok(left)
}
