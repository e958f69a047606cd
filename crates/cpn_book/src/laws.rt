// Laws of books, of claims that are held, and of runs one after another.

ghost use Rattle.cpn_book.specs.OneAnswers.{BooksHaveOneState, ClaimsHaveOneAnswer, CompletionsHaveOneAnswer, GivingBackHasOneAnswer, MovesHaveOneAnswer, FinishesHaveOneAnswer};
ghost use Rattle.cpn_book.specs.HeldTickets.{HeldAreNoStrangers};
ghost use Rattle.cpn_runs.specs.HeldClaims.{HeldClaimsStay, OwnEventsStandOnce};
ghost use Rattle.cpn_runs.specs.Phases.{PhasesGoOn};

/// The laws that a book has one state, and a call on it one answer in that state. So each answer comes exactly where what it says holds. A
/// call does nothing: it is there for what it ensures.
#[tactic(auto, using(crate::proofs::OneAnswers::books_have_one_state, crate::proofs::OneAnswers::claims_have_one_answer, crate::proofs::OneAnswers::completions_have_one_answer, crate::proofs::OneAnswers::giving_back_has_one_answer, crate::proofs::OneAnswers::moves_have_one_answer, crate::proofs::OneAnswers::finishes_have_one_answer))]
pub fn one_answer()
    ensures state { BooksHaveOneState }
    ensures claims { ClaimsHaveOneAnswer }
    ensures completions { CompletionsHaveOneAnswer }
    ensures giving_back { GivingBackHasOneAnswer }
    ensures moves { MovesHaveOneAnswer }
    ensures finishes { FinishesHaveOneAnswer }
{}

/// The laws of claims that seats hold while others act. Such a claim stays open until a cut removes it, so its seat is never answered that it
/// has no such claim; and the claims and completions of a seat stand in the journal that it sees each once. A call does nothing: it is there
/// for what it ensures.
#[tactic(auto, using(cpn_runs::proofs::HeldClaims::held_claims_stay, crate::proofs::HeldTickets::held_are_no_strangers, cpn_runs::proofs::HeldClaims::own_events_stand_once))]
pub fn held_claims_stay()
    ensures stay { HeldClaimsStay }
    ensures no_strangers { HeldAreNoStrangers }
    ensures once { OwnEventsStandOnce }
{}

/// The law of phases: after runs one after another, each from an initial marking or from where the one before it ended, a run may start from
/// each setup of the next. A call does nothing: it is there for what it ensures.
#[tactic(auto, using(cpn_runs::proofs::GrownRuns::phases_go_on))]
pub fn phases_go_on()
    ensures phases { PhasesGoOn }
{}
