//! The classes of joined items, in rows that were filled in by hand, and of many items.
ghost use Rattle.std.specs.Prelude.{◌<◌, ◌↔◌, IsTrue, All};

use cpn_classes::Classes;
use cpn_memory::Memory;
use std::alloc::Global;
use std::test::Fail;

/// Whether each number of each pair is an item.
fn are_items(count: u32, pairs: &[(u32, u32)]) -> bool
    ensures { IsTrue result ↔ All (λ p. (p.0 < count) × (p.1 < count)) pairs.now }
{
    pairs
        .iter()
        .all(|(one, other)| *one < count && *other < count)
}

/// Writes the number of each item's class, and behind a bar the first member of each class.
fn tell(text: &mut String, classes: &Classes) -> Result<(), Memory> {
    for item in 0..classes.items() {
        let number = classes.number(item);
        write!(text, "{number} ")?;
    }
    text.push_str("|")?;
    for class in 0..classes.classes() {
        let first = classes.first(class);
        write!(text, " {first}")?;
    }
    Ok(())
}

/// What is told of the classes of so many items that the pairs join; nothing where one of the pairs is none of items.
fn told(alloc: Global, count: u32, pairs: &[(u32, u32)]) -> Result<String, Memory> {
    let mut text = String::new(alloc);
    if are_items(count, pairs) {
        tell(&mut text, &Classes::of(alloc, count, pairs)?)?;
    }
    Ok(text)
}

/// How many items there are, the pairs, and what is told of their classes.
const ROWS: &[(u32, &[(u32, u32)], &str)] = &[
    (0, &[], "|"),
    (1, &[(0, 0)], "0 | 0"),
    (3, &[], "0 1 2 | 0 1 2"),
    (6, &[(0, 3), (3, 5), (1, 2)], "0 1 1 0 2 0 | 0 1 4"),
    (6, &[(5, 4), (3, 1), (5, 3), (3, 5)], "0 1 2 1 1 1 | 0 1 2"),
    (5, &[(4, 0), (3, 1), (1, 4)], "0 0 1 0 0 | 0 2"),
];

#[test]
fn joined_items_have_one_class(rt: HostRuntime) -> Result<(), Fail> {
    for (count, pairs, wanted) in ROWS {
        assert_eq!(rt; told(rt.alloc(), *count, pairs)?.as_str(), *wanted);
    }
    Ok(())
}

const MANY: u32 = 16_384;

/// The pairs of many items, each with the next one, from the first on.
fn chain(alloc: Global) -> Result<Vec<(u32, u32)>, Memory> {
    let mut pairs = Vec::new(alloc);
    for item in 1..MANY {
        pairs.push((item - 1, item))?;
    }
    Ok(pairs)
}

/// The pairs that join classes of one item, then of two, of four and so on, each with one as large.
fn tree(alloc: Global) -> Result<Vec<(u32, u32)>, Memory> {
    let mut pairs = Vec::new(alloc);
    let mut size = 1u32;
    for _ in 0..14 {
        push_level(&mut pairs, size)?;
        size = size.saturating_mul(2);
    }
    Ok(pairs)
}

/// Appends the pairs that join classes of so many items, by the first item of each.
fn push_level(pairs: &mut Vec<(u32, u32)>, size: u32) -> Result<(), Memory> {
    let both = size.saturating_mul(2);
    for item in size..MANY {
        if item.checked_rem(both) == Some(size) {
            pairs.push((item - size, item))?;
        }
    }
    Ok(())
}

/// How many classes many items have that the pairs join; none where one of the pairs is none of items.
fn classes_of(alloc: Global, pairs: &[(u32, u32)]) -> Result<u32, Memory> {
    if !are_items(MANY, pairs) {
        return Ok(0);
    }
    Ok(Classes::of(alloc, MANY, pairs)?.classes())
}

/// How many classes a chain of many items has, from the first pair on and from the last one on.
fn classes_of_chain(alloc: Global) -> Result<(u32, u32), Memory> {
    let mut pairs = chain(alloc)?;
    let forward = classes_of(alloc, &pairs)?;
    pairs.reverse();
    let back = classes_of(alloc, &pairs)?;
    Ok((forward, back))
}

/// How many pairs join many items class by class, and how many classes there are then.
fn classes_of_tree(alloc: Global) -> Result<(usize, u32), Memory> {
    let pairs = tree(alloc)?;
    let classes = classes_of(alloc, &pairs)?;
    Ok((pairs.len(), classes))
}

#[test]
fn many_items_come_into_one_class_or_stay_alone(rt: HostRuntime) -> Result<(), Fail> {
    assert!(rt; classes_of_chain(rt.alloc())? == (1, 1));
    assert!(rt; classes_of_tree(rt.alloc())? == (16_383, 1));
    assert!(rt; classes_of(rt.alloc(), &[])? == MANY);
    Ok(())
}
