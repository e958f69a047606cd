//! A term of a multiset of tokens.

ghost use Rattle.std.specs.Prelude.{◌≤◌};
ghost use Rattle.cpn_definitions.specs.Times.{last_time};

use cpn_core::Value;

/// A term of the inscription of an arc: so many tokens of a value, each with a delay.
#[derive(Drop)]
pub struct Term {
    /// The value, one of the place's colour set.
    pub value: Value,
    /// How many tokens.
    pub count: u64,
    /// By how much their stamps are later: 0 to 2^62; 0 where none is written.
    pub delay: u64,
    ghost within_range: { delay ≤ last_time },
}

/// Several terms, one after another.
pub type Terms = Vec<Term>;
