// The order of values, and when two are the same.
ghost use Rattle.std.specs.Prelude.{◌≡◌, Some};
ghost use Rattle.std.specs.Ordering.{nat_cmp, as_partial_cmp};
ghost use Rattle.cpn_definitions.specs.Order.{kind_of, value_cmp, values_cmp};
ghost use Rattle.cpn_core.specs.Views.{value_view, values_view, constructor_view};

use crate::values::{Value, Values};
use std::cmp::Ordering;

impl PartialEq for Value {
    ghost use Rattle.cpn_core.specs.Same.{same_values, same_values_laws};

    ghost eq = { same_values };

    ghost laws = { same_values_laws };

    fn eq(&self, other: &Value) -> bool {
        compare(self, other) == Ordering::Equal
    }
}

impl Eq for Value {
    ghost use Rattle.cpn_core.specs.Same.{same_values_equiv};

    ghost laws = { same_values_equiv };
}

impl PartialOrd for Value {
    ghost use Rattle.std.specs.Ordering.{as_partial_cmp};
    ghost use Rattle.cpn_core.specs.Same.{value_order, value_order_laws};

    ghost partial_cmp = { as_partial_cmp value_order };

    ghost laws = { value_order_laws };

    fn partial_cmp(&self, other: &Value) -> Option<Ordering> {
        Some(compare(self, other))
    }
}

impl Ord for Value {
    ghost use Rattle.std.proofs.Common.{refl};
    ghost use Rattle.cpn_core.specs.Same.{value_order, value_order_total};

    ghost cmp = { value_order };

    ghost total = { value_order_total };

    ghost matches_partial_cmp = { λ v w. refl };

    ghost matches_eq = { λ v w. refl };

    /// How the two values compare, exactly as the plain values that they stand for.
    fn cmp(&self, other: &Value) -> Ordering {
        compare(self, other)
    }
}

// The place of the value's kind among the kinds.
fn kind(value: &Value) -> u8
    ensures kind { result ≡ kind_of (value_view value.now) }
{
    match value {
        Value::Unit => 0,
        Value::Bool(_) => 1,
        Value::Int(_) => 2,
        Value::Enum(_) => 3,
        Value::Text(_) => 4,
        Value::Tuple(_) => 5,
        Value::Con(_, argument) => match argument {
            None => 6,
            Some(_) => 6,
        },
        Value::List(_) => 7,
    }
}

// Two values by their kinds.
fn by_kind(left: &Value, right: &Value) -> Ordering
    ensures order { result ≡ nat_cmp (kind_of (value_view left.now)) (kind_of (value_view right.now)) }
{
    kind(left).cmp(&kind(right))
}

// Two values of one kind by what they hold, and others by their kinds.
#[cycle(compare)]
#[tactic(auto, using(crate::proofs::ValueLevels::view_con))]
fn compare(left: &Value, right: &Value) -> Ordering
    ensures order { result ≡ value_cmp (value_view left.now) (value_view right.now) }
{
    match left {
        Value::Unit => by_kind(left, right),
        Value::Bool(a) => match right {
            Value::Bool(b) => a.cmp(b),
            _ => by_kind(left, right),
        },
        Value::Int(a) => match right {
            Value::Int(b) => a.cmp(b),
            _ => by_kind(left, right),
        },
        Value::Enum(a) => match right {
            Value::Enum(b) => a.cmp(b),
            _ => by_kind(left, right),
        },
        Value::Text(a) => match right {
            Value::Text(b) => a.bytes().cmp(&b.bytes()),
            _ => by_kind(left, right),
        },
        Value::Tuple(a) => match right {
            Value::Tuple(b) => compare_each(a, b),
            _ => by_kind(left, right),
        },
        Value::Con(a, argument) => match right {
            Value::Con(b, other) => compare_constructors(*a, argument, *b, other),
            _ => by_kind(left, right),
        },
        Value::List(a) => match right {
            Value::List(b) => compare_each(a, b),
            _ => by_kind(left, right),
        },
    }
}

// Two constructors, by position, then without an argument before with one, then by argument.
#[cycle(compare)]
fn compare_constructors(
    left: u32,
    argument: &Option<Box<Value>>,
    right: u32,
    other: &Option<Box<Value>>,
) -> Ordering
    ensures order { result ≡ value_cmp (constructor_view left argument.now) (constructor_view right other.now) }
{
    let by_position = left.cmp(&right);
    match argument {
        None => match other {
            None => by_position,
            Some(_) => by_position.then(Ordering::Less),
        },
        Some(a) => match other {
            None => by_position.then(Ordering::Greater),
            Some(b) => by_position.then(compare(a, b)),
        },
    }
}

// Two rows of values, item by item, a proper prefix first.
#[cycle(compare)]
#[tactic(auto, using(crate::proofs::Items::compared_more, crate::proofs::Items::compared_all))]
fn compare_each(left: &Values, right: &Values) -> Ordering
    ensures order { result ≡ values_cmp (values_view left.now.items) (values_view right.now.items) }
{
    let shorter = left.len().min(right.len());
    for i in 0..shorter {
        let found = compare(&left[i], &right[i]);
        if found != Ordering::Equal {
            return found;
        }
    }
    left.len().cmp(&right.len())
}
