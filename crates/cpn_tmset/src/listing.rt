//! Equal tokens of a place, counted.
use cpn_core::Value;

/// Tokens of one value with one stamp, and how many there are.
#[derive(Drop)]
pub struct TokenGroup<'m> {
    /// The value.
    pub value: &'m Value,
    /// The time stamp; 0 on an untimed place.
    pub stamp: u64,
    /// How many tokens.
    pub count: u64,
}
