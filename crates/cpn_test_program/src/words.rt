//! The options that the words of the program give.

ghost use Rattle.std.specs.Prelude.{IfSome};
ghost use Rattle.cpn_runs.specs.Views.{limits_view};
ghost use Rattle.cpn_test_program.specs.Shown.{AreLimits};

use crate::numbers::{number_in, number_within};
use cpn_runs::Limits;

/// The options of a play.
#[derive(Drop)]
pub struct Options<'a> {
    /// Whether an index follows the run.
    pub is_indexed: bool,
    /// The limits of the run.
    pub limits: Limits,
    /// The seed of its draws.
    pub seed: u64,
    /// The file of the schedule.
    pub schedule: &'a str,
    /// The file of its net.
    pub net: &'a str,
    /// The file of the net beside it, from whose run evaluations and tickets may be brought.
    pub beside: Option<&'a str>,
    ghost within: { AreLimits (limits_view limits) },
}

/// The options that the words give, in this order: `plain` or `indexed`, the numbers of seats and of steps, the last time and the seed,
/// the schedule, the net, and the net beside, if there is one.
pub fn options_from<'a>(words: &'a [String]) -> Option<Options<'a>> {
    if words.len() < 7 {
        return None;
    }
    Some(Options {
        is_indexed: words[0].as_str() == "indexed",
        limits: limits_from(words[1].as_str(), words[2].as_str(), words[3].as_str())?,
        seed: number_in(words[4].as_str())?,
        schedule: words[5].as_str(),
        net: words[6].as_str(),
        beside: words.get(7).map(String::as_str),
    })
}

/// The limits that the words give, where each is in its range.
fn limits_from(seats: &str, steps: &str, until: &str) -> Option<Limits>
    ensures within { IfSome result (λ limits. AreLimits (limits_view limits)) }
{
    let seats = number_within(seats, 1, 64)?;
    let steps = number_within(steps, 1, 1_000_000)?;
    let until = number_within(until, 0, 1 << 62)?;
    Some(Limits {
        steps,
        until,
        seats: seats as u32,
    })
}
