//! Laws of the calls of a seat: of the state in which each is made, of the claims that it holds, and of want of memory.

ghost use Rattle.cpn_seats.specs.CallStates.{CallsAreMadeInAState};
ghost use Rattle.cpn_seats.specs.StillHeld.{ClaimsKeepHeld, CompletionsKeepOthersHeld, RefusedCompletionsKeepHeld, GivingBackKeepsHeld, MovesKeepHeld, LooksKeepHeld, WantsOfMemoryKeepHeld};
ghost use Rattle.cpn_seats.specs.WantsOfMemory.{WantsOfMemoryAreSeen, SpentStaysSeen, SplitSeatsSeeSpent, SpentClaims, SpentCompletions, SpentGivingBack, SpentMoves};

/// The laws that a seat holds what it has held, under each of its numbers, open as it was or cut off: after each of its calls but a completion
/// that is made, and after that under each other number. A call does nothing: it is there for what it ensures.
#[tactic(auto, using(crate::proofs::StillHeld::claims_keep_held, crate::proofs::StillHeld::completions_keep_others_held, crate::proofs::StillHeld::refused_completions_keep_held, crate::proofs::StillHeld::giving_back_keeps_held, crate::proofs::StillHeld::moves_keep_held, crate::proofs::StillHeld::looks_keep_held, crate::proofs::StillHeld::wants_of_memory_keep_held))]
pub fn claims_stay_held()
    ensures claims { ClaimsKeepHeld }
    ensures completions { CompletionsKeepOthersHeld }
    ensures refused { RefusedCompletionsKeepHeld }
    ensures giving_back { GivingBackKeepsHeld }
    ensures moves { MovesKeepHeld }
    ensures looks { LooksKeepHeld }
    ensures memory { WantsOfMemoryKeepHeld }
{}

/// The law that the journal at which a seat's call was made leads to a state, so that its answer is that of a state. A call does nothing.
#[tactic(auto, using(crate::proofs::CallStates::calls_are_made_in_a_state))]
pub fn calls_are_made_in_a_state()
    ensures states { CallsAreMadeInAState }
{}

/// The laws that want of memory stays: a seat whose call wants memory has seen that the book is spent, it and each seat that is split from it see
/// that from then on, and each later call of theirs wants memory too. A call does nothing.
#[tactic(auto, using(crate::proofs::WantsOfMemory::wants_of_memory_are_seen, crate::proofs::WantsOfMemory::spent_stays_seen, crate::proofs::WantsOfMemory::split_seats_see_spent, crate::proofs::WantsOfMemory::spent_claims, crate::proofs::WantsOfMemory::spent_completions, crate::proofs::WantsOfMemory::spent_giving_back, crate::proofs::WantsOfMemory::spent_moves))]
pub fn want_of_memory_stays()
    ensures seen { WantsOfMemoryAreSeen }
    ensures stays { SpentStaysSeen }
    ensures split { SplitSeatsSeeSpent }
    ensures claims { SpentClaims }
    ensures completions { SpentCompletions }
    ensures giving_back { SpentGivingBack }
    ensures moves { SpentMoves }
{}
