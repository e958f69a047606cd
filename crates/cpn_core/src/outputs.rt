//! The tokens that a binding element makes.

ghost use Rattle.std.specs.Prelude.{◌≡◌, ◌≤◌, [], length, OnOk, OnErr, IfOk};
ghost use Rattle.std.specs.Ordering.{is_lt};
ghost use Rattle.cpn_definitions.specs.Lists.{with_item, IsInOrder};
ghost use Rattle.cpn_definitions.specs.Occurrence.{made_cmp};
ghost use Rattle.cpn_core.specs.Views.{value_view};
ghost use Rattle.cpn_definitions.specs.InsertIndexes.{IsInsertIndex};
ghost use Rattle.cpn_core.specs.OutputsViews.{made_view, made_views};

use crate::values::Value;
use cpn_memory::Memory;
use std::alloc::Global;
use std::cmp::Ordering;
use std::marker::Model;

/// A token that an element makes.
#[derive(Drop)]
pub struct Made {
    /// The number of the place.
    pub place: u32,
    /// The token's value.
    pub value: Value,
    /// The token's time stamp; 0 on an untimed place.
    pub stamp: u64,
}

/// The tokens that an element makes: place by place, on each place by value, and of each value by stamp.
///
/// A clause sees them as the plain list. Source: own choice.
#[derive(Drop)]
pub struct Outputs {
    tokens: Vec<Made>,
}

impl Model for Outputs {
    ghost use Rattle.cpn_core.specs.Code.{PlainOutputs, outputs_code};
    ghost use Rattle.cpn_definitions.specs.Lists.{IsInOrder};
    ghost use Rattle.cpn_definitions.specs.Occurrence.{made_cmp};

    ghost Value = { PlainOutputs };

    ghost coded = { outputs_code };

    ghost use Rattle.cpn_core.specs.OutputsViews.{made_views};

    ghost view = { λ xs. made_views xs.tokens.items };

    ghost invariant = { λ xs. IsInOrder made_cmp (made_views xs.tokens.items) };
}

impl Outputs {
    /// No token. It takes no memory yet.
    pub fn new(alloc: Global) -> Outputs
        ensures empty { result ≡ [] }
    {
        Outputs {
            tokens: Vec::new(alloc),
        }
    }

    /// The tokens, in their order.
    pub fn tokens(&self) -> &[Made]
        ensures items { made_views result.now ≡ self.now }
        ensures in_order { IsInOrder made_cmp self.now }
    {
        self.tokens.as_slice()
    }

    /// The tokens themselves, in their order.
    pub fn into_tokens(self) -> Vec<Made>
        ensures items { made_views result.items ≡ self }
    {
        self.tokens
    }

    /// Adds a token, where the order has it. After `Memory` they are as they were.
    pub fn add(&mut self, made: Made) -> Result<(), Memory>
        ensures added { OnOk result (self.new ≡ with_item made_cmp (made_view made) self.old) }
        ensures unchanged { OnErr result (self.new ≡ self.old) }
    {
        let at = index_among(self.tokens.as_slice(), &made);
        self.tokens.insert(at, made)?;
        Ok(())
    }
}

// Whether the token comes before the other: by place, then by value, then by stamp.
fn comes_before(made: &Made, other: &Made) -> bool
    ensures exact { result ≡ is_lt (made_cmp (made_view made.now) (made_view other.now)) }
{
    let by_place = made.place.cmp(&other.place);
    let by_value = made.value.cmp(&other.value);
    let by_stamp = made.stamp.cmp(&other.stamp);
    by_place.then(by_value.then(by_stamp)) == Ordering::Less
}

// Where the token stands among tokens in order, after those that are equal to it.
fn index_among(tokens: &[Made], made: &Made) -> usize
    requires in_order { IsInOrder made_cmp (made_views tokens.now) }
    ensures within { result ≤ length tokens.now }
    ensures index { IsInsertIndex made_cmp (made_view made.now) (made_views tokens.now) result }
{
    tokens.partition_point(|other| !comes_before(made, other))
}
