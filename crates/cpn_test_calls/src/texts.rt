//! Texts that grow: that the calls succeed where memory is left, and that a copy stays as it is.

use cpn_memory::{Memory, Text};
use std::alloc::Global;
use std::test::Fail;

/// Pushes bytes to a text so many times, and then a byte more.
fn push(text: &mut Text, bytes: &[u8], times: usize) -> Result<(), Memory> {
    for _ in 0..times {
        text.push(bytes)?;
    }
    text.push(b"b")
}

/// How long the copy of a text is that was pushed to so many times, so many bytes at once, and then a byte more.
fn length(alloc: Global, times: usize, count: usize) -> Result<usize, Memory> {
    let bytes = vec![in alloc; b'a'; count]?;
    let mut text = Text::new(alloc);
    push(&mut text, &bytes, times)?;
    Ok(text.copy()?.len())
}

/// How often a text is pushed to, how many bytes at once, and how long it is then.
const LENGTHS: &[(usize, usize, usize)] = &[
    (1, 0, 1),
    (1, 4_096, 4_097),
    (1, 65_536, 65_537),
    (1, 1_048_576, 1_048_577),
    (1, 16_777_216, 16_777_217),
    (100_000, 3, 300_001),
];

/// Whether a copy stays as it is when the text is pushed to.
fn copy_stays(alloc: Global) -> Result<bool, Memory> {
    let mut text = Text::new(alloc);
    let is_empty = text.is_empty();
    text.push(b"dead ")?;
    let copy = text.copy()?;
    text.push(b"at 3")?;
    let is_longer = text.bytes() == b"dead at 3".as_slice() && text.len() == 9;
    Ok(is_empty && is_longer && copy.bytes() == b"dead ".as_slice())
}

#[test]
fn a_text_has_any_length_and_its_copy_stays(rt: HostRuntime) -> Result<(), Fail> {
    for (times, count, wanted) in LENGTHS {
        assert_eq!(rt; length(rt.alloc(), *times, *count)?, *wanted);
    }
    assert!(rt; copy_stays(rt.alloc())?);
    Ok(())
}
