//! Names and what stands under them, in rows that were filled in by hand, and many names.

use cpn_memory::Memory;
use cpn_names::{Named, Names};
use std::alloc::Global;
use std::test::Fail;

/// Appends the number of a thing, or a dash where there is none, each behind a blank.
fn tell_number(text: &mut String, number: Option<usize>) -> Result<(), Memory> {
    match number {
        Some(number) => write!(text, " {number}")?,
        None => text.push_str(" -")?,
    }
    Ok(())
}

/// Appends the numbers that names have among others.
fn tell_names(
    text: &mut String,
    alloc: Global,
    names: &[&str],
    sought: &[&str],
) -> Result<(), Memory> {
    let mut list = Vec::with_capacity(alloc, names.len())?;
    for name in names {
        list.push(*name)?;
    }
    let names = Names::of(alloc, list)?;
    for name in sought {
        tell_number(text, names.number(name))?;
    }
    Ok(())
}

/// Adds the number that each thing then has, under its name.
fn add_things(things: &mut Named<usize>, alloc: Global, names: &[&str]) -> Result<(), Memory> {
    for name in names {
        let number = things.len();
        things.push(alloc, name, number)?;
    }
    Ok(())
}

/// Appends what stands under names.
fn tell_things(text: &mut String, things: &Named<usize>, sought: &[&str]) -> Result<(), Memory> {
    for name in sought {
        tell_number(text, things.get(name).copied())?;
    }
    Ok(())
}

/// What is told of names: their numbers in the list, and what stands under them where the first so many things of the list are kept, and
/// others added.
fn told(
    alloc: Global,
    names: &[&str],
    kept: usize,
    more: &[&str],
    sought: &[&str],
) -> Result<String, Memory> {
    let mut text = String::new(alloc);
    tell_names(&mut text, alloc, names, sought)?;
    let mut things = Named::new(alloc);
    add_things(&mut things, alloc, names)?;
    things.truncate(kept);
    add_things(&mut things, alloc, more)?;
    text.push_str(" |")?;
    tell_things(&mut text, &things, sought)?;
    Ok(text)
}

/// Names, how many of them are kept, the names that are added then, those that are sought, and what is told.
const ROWS: &[(&[&str], usize, &[&str], &[&str], &str)] = &[
    (&[], 0, &[], &["a"], " - | -"),
    (
        &["a", "b", "a"],
        3,
        &[],
        &["a", "b", "c", ""],
        " 0 1 - - | 0 1 - -",
    ),
    (&["a", "b", "a"], 2, &[], &["a", "b"], " 0 1 | 0 1"),
    (
        &["a", "b", "a"],
        1,
        &["c", "b"],
        &["a", "b", "c"],
        " 0 1 - | 0 2 1",
    ),
    (&["b", "a", "b"], 0, &["a"], &["a", "b"], " 1 0 | 0 -"),
    (&["ab", "a", ""], 9, &[], &["", "a", "ab"], " 2 1 0 | 2 1 0"),
];

#[test]
fn the_first_of_a_name_is_found(rt: HostRuntime) -> Result<(), Fail> {
    for (names, kept, more, sought, wanted) in ROWS {
        assert_eq!(rt;
            told(rt.alloc(), names, *kept, more, sought)?.as_str(),
            *wanted
        );
    }
    Ok(())
}

const MANY: usize = 16_384;

/// Numbers, each under its numeral.
fn numerals(alloc: Global) -> Result<Named<usize>, Memory> {
    let mut numbers = Named::new(alloc);
    for number in 0..MANY {
        let name = format!(in alloc; "{number}")?;
        numbers.push(alloc, name.as_str(), number)?;
    }
    Ok(numbers)
}

/// How many numbers there are, and two that are found: first of all, then of the first half of them.
fn found_among_many(alloc: Global) -> Result<String, Memory> {
    let mut text = String::new(alloc);
    let mut numbers = numerals(alloc)?;
    tell_number(&mut text, Some(numbers.len()))?;
    tell_things(&mut text, &numbers, &["8191", "16383"])?;
    numbers.truncate(MANY / 2);
    tell_number(&mut text, Some(numbers.len()))?;
    tell_things(&mut text, &numbers, &["8191", "16383"])?;
    Ok(text)
}

#[test]
fn many_names_are_kept_and_taken_back(rt: HostRuntime) -> Result<(), Fail> {
    assert_eq!(rt;
        found_among_many(rt.alloc())?.as_str(),
        " 16384 8191 16383 8192 8191 -"
    );
    Ok(())
}
