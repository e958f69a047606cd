//! From when on a marking covers needs, and what stands there when they are taken.
ghost use Rattle.std.specs.Prelude.{◌≡◌, length, IfOk};

use crate::multisets::{MANY, number_of};
use cpn_core::{Memory, Needed, Needs, Value};
use cpn_tmset::Marking;
use std::alloc::Global;

/// The marking of two places with these tokens on the second.
fn marking_of(alloc: Global, tokens: &[(i64, u64)]) -> Result<Marking, Memory>
    ensures { IfOk result (λ marking. length marking ≡ 2) }
{
    let mut marking = Marking::new(alloc, 2)?;
    for (number, stamp) in tokens {
        if marking.place(1).total() < MANY {
            marking.add(1, Value::Int(*number), *stamp)?;
        }
    }
    Ok(marking)
}

/// Needs of the second place, each by its number and offset.
fn needs_of(alloc: Global, needed: &[(i64, u64)]) -> Result<Needs, Memory> {
    let mut needs = Needs::new(alloc);
    for (number, offset) in needed {
        needs.add(Needed {
            place: 1,
            value: Value::Int(*number),
            offset: (*offset).min(100),
        })?;
    }
    Ok(needs)
}

/// Writes the tokens of the second place, each as its number and its stamp behind a blank.
fn push_tokens(text: &mut String, alloc: Global, marking: &Marking) -> Result<(), Memory> {
    if let Some(tokens) = marking.get(1) {
        for group in &tokens.groups(alloc)? {
            for _token in 0..group.count {
                let number = number_of(group.value);
                let stamp = group.stamp;
                write!(text, " {number}@{stamp}")?;
            }
        }
    }
    Ok(())
}

/// Writes what is told of a marking with these tokens on its second place, and of these needs, which are taken at the time 10.
pub fn tell_marking(
    text: &mut String,
    alloc: Global,
    tokens: &[(i64, u64)],
    needed: &[(i64, u64)],
) -> Result<(), Memory> {
    let mut marking = marking_of(alloc, tokens)?;
    let needs = needs_of(alloc, needed)?;
    push_start(text, &marking, &needs)?;
    marking.subtract(&needs, 10);
    push_tokens(text, alloc, &marking)
}

/// Writes whether a 7 stands on the second place, and from when on the marking covers the needs.
fn push_start(text: &mut String, marking: &Marking, needs: &Needs) -> Result<(), Memory> {
    if marking.holds(1, &Value::Int(7)) {
        text.push_str("held ")?;
    }
    match marking.earliest(needs) {
        Some(time) => write!(text, "from {time}")?,
        None => text.push_str("never")?,
    }
    Ok(())
}
