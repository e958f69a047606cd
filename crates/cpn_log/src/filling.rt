//! How outputs are put in ahead of claims that were made without them.

ghost use Rattle.std.specs.Prelude.{◌≡◌, map, length, OnOk};
ghost use Rattle.std.specs.List.{AllByRecursion};
ghost use Rattle.cpn_definitions.specs.Occurrence.{add_made};
ghost use Rattle.cpn_core.specs.OutputsViews.{made_view};
ghost use Rattle.cpn_tmset.specs.Limits.{HaveRoomFor};
ghost use Rattle.cpn_runs.specs.Filling.{carried_past, claims_after, past_claims, picks_after};
ghost use Rattle.cpn_log.specs.ClaimViews.{claim_views, jobs_of, taken_views};
ghost use Rattle.cpn_log.specs.Kept.{IsInRange};
ghost use Rattle.cpn_log.specs.MarkingViews.{settled_in, unclaimed_in};

use crate::claims::Claim;
use crate::markings::Markings;
use cpn_core::{Made, Memory, Outputs};

/// Puts outputs in ahead of the later claims, one after another: each is carried past what these took, and what is left over for it is
/// put into the unclaimed marking. After `Memory` the settled marking stands, and nothing else is known.
pub(crate) fn put_ahead(
    later: &mut [Claim],
    markings: &mut Markings,
    outputs: &Outputs,
) -> Result<(), Memory>
    requires in_range { AllByRecursion IsInRange (claim_views later.old) }
    requires room { HaveRoomFor (length outputs.now) (unclaimed_in markings.old) }
    ensures unclaimed { OnOk result (unclaimed_in markings.new ≡ add_made (carried_past outputs.now (taken_views later.old)) (unclaimed_in markings.old)) }
    ensures taken { OnOk result (taken_views later.new ≡ picks_after outputs.now (taken_views later.old)) }
    ensures settled { settled_in markings.new ≡ settled_in markings.old }
    ensures same { claim_views later.new ≡ claim_views later.old }
    ensures jobs { jobs_of later.new ≡ jobs_of later.old }
{
    let tokens = outputs.tokens();
    for made in tokens {
        let stamp = carry_past_claims(later, made);
        markings.put(made, stamp)?;
    }
    Ok(())
}

/// Carries a token that was made past what the claims took, one after another: the stamp that is left over.
fn carry_past_claims(claims: &mut [Claim], made: &Made) -> u64
    requires in_range { AllByRecursion IsInRange (claim_views claims.old) }
    ensures left { result ≡ (past_claims (made_view made.now) (taken_views claims.old)).stamp }
    ensures taken { taken_views claims.new ≡ claims_after (made_view made.now) (taken_views claims.old) }
    ensures same { claim_views claims.new ≡ claim_views claims.old }
    ensures jobs { jobs_of claims.new ≡ jobs_of claims.old }
{
    let mut stamp = made.stamp;
    for claim in claims.iter_mut() {
        stamp = claim.carry(made, stamp);
    }
    stamp
}
