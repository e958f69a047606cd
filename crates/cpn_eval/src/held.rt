//! The values of an evaluation that is under way.

ghost use Rattle.std.specs.Prelude.{◌≡◌, reverse};
ghost use Rattle.cpn_definitions.specs.Value.{list, nodes_of};
ghost use Rattle.cpn_core.specs.Views.{values_view};

use cpn_core::{Value, Values};

/// A list that is kept backwards, so that an item is put before it at its end.
#[derive(Drop)]
pub struct Backwards {
    /// How many nodes the list has.
    pub nodes: u64,
    /// Its items, the last one first.
    pub items: Values,
    ghost counted: { nodes ≡ nodes_of (list (values_view (reverse items.items))) },
}

/// A value.
#[derive(Drop)]
pub enum Held {
    /// A value as it is.
    Plain(Value),
    /// A list that `::` has made.
    Backwards(Backwards),
}
