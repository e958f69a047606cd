//! Coefficients, delays and numbers of tokens, each with its check.

ghost use Rattle.std.specs.Prelude.{◌≡◌, ◌<◌, ◌-◌, ◌^◌, min, IfOk};
ghost use Rattle.cpn_definitions.specs.Terms.{coefficient_of, written_delay, tokens_in, counted, all_delayed};
ghost use Rattle.cpn_core.specs.Views.{value_view};
ghost use Rattle.cpn_eval.specs.Answers.{Tells};
ghost use Rattle.cpn_eval.specs.Terms.{terms_view, items_view};

use crate::kinds::integer_in;
use crate::refusals::NoValue;
use crate::term::{Term, Terms};
use cpn_core::{EvalFault, Value};
use std::alloc::Global;

/// The last time, 2^62.
const LAST_TIME: u64 = 4_611_686_018_427_387_904;

/// The most tokens of one inscription.
const MOST_TOKENS: u64 = 65_536;

/// The coefficient that the value is: a whole number from 0.
#[tactic(auto, using(crate::proofs::TermAmounts::coefficient_by_integer))]
pub fn coefficient_of(value: &Value) -> Result<u64, NoValue>
    ensures coefficient { Tells (λ n. n) result (coefficient_of (value_view value.now)) }
{
    let number = integer_in(value)?;
    if number < 0 {
        return Err(NoValue::Fault(EvalFault::BadCoefficient));
    }
    Ok(number as u64)
}

/// The written delay that the value is: a whole number from 0.
#[tactic(auto, using(crate::proofs::TermAmounts::delay_by_integer))]
pub fn written_delay(value: &Value) -> Result<u64, NoValue>
    ensures delay { Tells (λ n. n) result (written_delay (value_view value.now)) }
    ensures small { IfOk result (λ n. n < 2 ^ 63) }
{
    let number = integer_in(value)?;
    if number < 0 {
        return Err(NoValue::Fault(EvalFault::BadDelay));
    }
    Ok(number as u64)
}

/// How many tokens the terms are; a number past the greatest `u64` is given as that one.
pub fn tokens_in(terms: &[Term]) -> u64
    ensures tokens { result ≡ min (tokens_in (terms_view terms.now)) (2 ^ 64 - 1) }
{
    let mut tokens: u64 = 0;
    for term in terms {
        tokens = tokens.saturating_add(term.count);
    }
    tokens
}

/// The terms, where they are not too many behind so many tokens.
pub fn counted(before: u64, terms: Terms) -> Result<Terms, NoValue>
    ensures terms { Tells items_view result (counted before (items_view terms)) }
{
    if before.saturating_add(tokens_in(&terms)) <= MOST_TOKENS {
        Ok(terms)
    } else {
        Err(NoValue::Fault(EvalFault::TooLarge))
    }
}

/// Each of the terms with a delay more; none of them may come to more than the last time.
pub fn all_delayed(alloc: Global, terms: Terms, delay: u64) -> Result<Terms, NoValue>
    requires small { delay < 2 ^ 63 }
    ensures terms { Tells items_view result (all_delayed (items_view terms) delay) }
{
    let mut delayed = Vec::with_capacity(alloc, terms.len())?;
    for term in terms {
        let later = term.delay + delay;
        if later > LAST_TIME {
            return Err(NoValue::Fault(EvalFault::BadDelay));
        }
        delayed.push(Term {
            value: term.value,
            count: term.count,
            delay: later,
        })?;
    }
    Ok(delayed)
}
