//! The tokens that a binding element needs.

ghost use Rattle.std.specs.Prelude.{◌≡◌, ◌≤◌, [], length, OnOk, OnErr, IfOk};
ghost use Rattle.std.specs.Ordering.{is_lt};
ghost use Rattle.cpn_definitions.specs.Lists.{with_item, IsInOrder};
ghost use Rattle.cpn_definitions.specs.Occurrence.{needed_cmp};
ghost use Rattle.cpn_core.specs.Views.{value_view};
ghost use Rattle.cpn_definitions.specs.InsertIndexes.{IsInsertIndex};
ghost use Rattle.cpn_core.specs.NeedsViews.{needed_view, needed_views};

use crate::needed::Needed;
use cpn_memory::Memory;
use std::alloc::Global;
use std::cmp::Ordering;
use std::marker::Model;

/// The tokens that an element needs, summed over its input arcs: place by place, on each place by value, and of
/// each value by offset.
///
/// A clause sees them as the plain list. Source: own choice.
#[derive(Drop)]
pub struct Needs {
    tokens: Vec<Needed>,
}

impl Model for Needs {
    ghost use Rattle.cpn_core.specs.Code.{PlainNeeds, needs_code};
    ghost use Rattle.cpn_definitions.specs.Lists.{IsInOrder};
    ghost use Rattle.cpn_definitions.specs.Occurrence.{needed_cmp};

    ghost Value = { PlainNeeds };

    ghost coded = { needs_code };

    ghost use Rattle.cpn_core.specs.NeedsViews.{needed_views};

    ghost view = { λ xs. needed_views xs.tokens.items };

    ghost invariant = { λ xs. IsInOrder needed_cmp (needed_views xs.tokens.items) };
}

impl Needs {
    /// No need. It takes no memory yet.
    pub fn new(alloc: Global) -> Needs
        ensures empty { result ≡ [] }
    {
        Needs {
            tokens: Vec::new(alloc),
        }
    }

    /// The tokens, in their order.
    pub fn tokens(&self) -> &[Needed]
        ensures items { needed_views result.now ≡ self.now }
        ensures in_order { IsInOrder needed_cmp self.now }
    {
        self.tokens.as_slice()
    }

    /// Adds a token, where the order has it. After `Memory` they are as they were.
    pub fn add(&mut self, needed: Needed) -> Result<(), Memory>
        ensures added { OnOk result (self.new ≡ with_item needed_cmp (needed_view needed) self.old) }
        ensures unchanged { OnErr result (self.new ≡ self.old) }
    {
        let at = index_among(self.tokens.as_slice(), &needed);
        self.tokens.insert(at, needed)?;
        Ok(())
    }
}

// Whether the token comes before the other: by place, then by value, then by offset.
fn comes_before(needed: &Needed, other: &Needed) -> bool
    ensures exact { result ≡ is_lt (needed_cmp (needed_view needed.now) (needed_view other.now)) }
{
    let by_place = needed.place.cmp(&other.place);
    let by_value = needed.value.cmp(&other.value);
    let by_offset = needed.offset.cmp(&other.offset);
    by_place.then(by_value.then(by_offset)) == Ordering::Less
}

// Where the token stands among tokens in order, after those that are equal to it.
fn index_among(tokens: &[Needed], needed: &Needed) -> usize
    requires in_order { IsInOrder needed_cmp (needed_views tokens.now) }
    ensures within { result ≤ length tokens.now }
    ensures index { IsInsertIndex needed_cmp (needed_view needed.now) (needed_views tokens.now) result }
{
    tokens.partition_point(|other| !comes_before(needed, other))
}
