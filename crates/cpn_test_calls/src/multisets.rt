//! Whether a multiset covers another one, and what that takes from it.

use cpn_core::{Memory, Value};
use cpn_mset::MSet;
use std::alloc::Global;

/// More than any of these multisets, places and markings has.
pub const MANY: u64 = 1_000_000;

/// The multiset of these numbers, each with how often it appears.
pub fn multiset_of(alloc: Global, counts: &[(i64, u64)]) -> Result<MSet, Memory> {
    let mut multiset = MSet::new(alloc);
    for (number, count) in counts {
        add(&mut multiset, *number, *count)?;
    }
    Ok(multiset)
}

fn add(multiset: &mut MSet, number: i64, count: u64) -> Result<(), Memory> {
    let value = Value::Int(number);
    if multiset.count(&value) < MANY && count < MANY {
        multiset.add(value, count)?;
    }
    Ok(())
}

/// The number that a value is, or -1.
pub fn number_of(value: &Value) -> i64 {
    if let Value::Int(number) = value {
        *number
    } else {
        -1
    }
}

/// Writes whether the first multiset covers the second, and what is left without it.
pub fn tell_multisets(
    text: &mut String,
    alloc: Global,
    first: &[(i64, u64)],
    second: &[(i64, u64)],
) -> Result<(), Memory> {
    let mut first = multiset_of(alloc, first)?;
    let second = multiset_of(alloc, second)?;
    tell_difference(text, &mut first, &second)
}

fn tell_difference(text: &mut String, first: &mut MSet, second: &MSet) -> Result<(), Memory> {
    if !first.covers(second) {
        text.push_str("not covered")?;
        return Ok(());
    }
    first.subtract(second);
    text.push_str("covered, left")?;
    push_counts(text, first)
}

/// Writes the numbers of a multiset, each behind a blank with how often it appears.
fn push_counts(text: &mut String, multiset: &MSet) -> Result<(), Memory> {
    for (value, count) in multiset.iter() {
        let number = number_of(value);
        write!(text, " {number}x{count}")?;
    }
    Ok(())
}
