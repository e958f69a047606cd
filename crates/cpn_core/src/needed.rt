//! A token that a binding element needs.

ghost use Rattle.std.specs.Prelude.{◌≤◌, ◌^◌};
ghost use Rattle.cpn_definitions.specs.Times.{last_time};

use crate::values::Value;

/// A token that an element needs.
#[derive(Drop)]
pub struct Needed {
    /// The number of the place.
    pub place: u32,
    /// The token's value.
    pub value: Value,
    /// By how much the token's stamp may be above the time: 0 to 2^62; 0 without delays on input arcs.
    pub offset: u64,
    ghost within_range: { offset ≤ last_time },
}
