//! The table of multisets, places and markings.

use crate::markings::tell_marking;
use crate::multisets::tell_multisets;
use crate::places::{tell_place, tell_put_after};
use cpn_core::Memory;
use std::alloc::Global;
use std::test::Fail;

/// The pair of a word, a number and a count with a sign between them: `7@3`.
fn pair_in(word: &str, sign: char) -> Option<(i64, u64)> {
    let (number, count) = word.split_once(sign)?;
    Some((number.parse().ok()?, count.parse().ok()?))
}

/// The pairs of a text: `7@3 -1@0`.
fn pairs_in(alloc: Global, text: &str, sign: char) -> Result<Vec<(i64, u64)>, Memory> {
    let mut pairs = Vec::new(alloc);
    for word in text.split(' ') {
        if let Some(pair) = pair_in(word, sign) {
            pairs.push(pair)?;
        }
    }
    Ok(pairs)
}

/// The signs in the pairs of what there is and of what is asked for, by the word for what a row is of.
fn signs_of(kind: &str) -> (char, char) {
    match kind {
        "place" => ('@', 'x'),
        "behind" => ('@', '@'),
        "marking" => ('@', '+'),
        _ => ('x', 'x'),
    }
}

/// Writes what is told of a row: a word for what it is of, what there is, a bar, and what is asked for.
fn tell(text: &mut String, alloc: Global, asked: &str) -> Result<(), Memory> {
    let (kind, asked) = asked.split_once(' ').unwrap_or((asked, ""));
    let (there, needed) = asked.split_once('|').unwrap_or((asked, ""));
    let (sign, needed_sign) = signs_of(kind);
    let there = pairs_in(alloc, there, sign)?;
    let needed = pairs_in(alloc, needed, needed_sign)?;
    tell_pairs(text, alloc, kind, &there, &needed)
}

fn tell_pairs(
    text: &mut String,
    alloc: Global,
    kind: &str,
    there: &[(i64, u64)],
    needed: &[(i64, u64)],
) -> Result<(), Memory> {
    match kind {
        "place" => tell_place(text, alloc, there, needed),
        "behind" => tell_put_after(text, alloc, there, needed),
        "marking" => tell_marking(text, alloc, there, needed),
        _ => tell_multisets(text, alloc, there, needed),
    }
}

/// Whether a row holds: what is asked, an arrow, and what is told of it.
fn holds(alloc: Global, row: &str) -> Result<bool, Memory> {
    match row.split_once(" -> ") {
        Some((asked, wanted)) => {
            let mut text = String::new(alloc);
            tell(&mut text, alloc, asked)?;
            Ok(text.as_str() == wanted)
        }
        None => Ok(false),
    }
}

/// Of a place: tokens, each a number and a stamp; a need, each number with how many; then the tokens, equal ones counted, how many
/// there are of how many values, from when on they cover the need, which are taken at the time 10, and what is left. Of a marking:
/// tokens of its second place; needs, each a number and an offset; then whether a 7 stands there, from when on it covers the needs, and
/// what is left when they are taken at the time 10. Of a multiset: numbers, each with how many; the numbers of another one; then
/// whether the first covers the second, and what is left without it.
const TABLE: &str =
    "place 7@4 8@2 7@1 7@4 6@9 | 7x2 8x1 -> 6@9x1 7@1x1 7@4x2 8@2x1 = 5 of 3 from 4 took 7@4 7@4 8@2 left 6@9x1 7@1x1 = 2 of 2
place 7@3 7@12 | 7x2 -> 7@3x1 7@12x1 = 2 of 1 from 12 took left 7@3x1 7@12x1 = 2 of 1
place 7@3 7@12 | 7x1 -> 7@3x1 7@12x1 = 2 of 1 from 3 took 7@3 left 7@12x1 = 1 of 1
place 7@3 7@9 | 7x1 8x1 -> 7@3x1 7@9x1 = 2 of 1 never took left 7@3x1 7@9x1 = 2 of 1
place 7@3 | 7x1 7x1 -> 7@3x1 = 1 of 1 never took left 7@3x1 = 1 of 1
place 7@3 7@3 7@3 | 7x0 8x0 -> 7@3x3 = 3 of 1 from 0 took left 7@3x3 = 3 of 1
place 7@10 7@11 6@0 | 7x1 6x1 -> 6@0x1 7@10x1 7@11x1 = 3 of 2 from 10 took 6@0 7@10 left 7@11x1 = 1 of 1
behind 7@0 7@3 | -> took 7@3 7@0 left = 0 of 0
behind 7@0 7@3 | 7@5 -> took 7@5 7@3 left 7@0x1 = 1 of 1
behind 7@0 7@3 | 7@4 -> took 7@4 7@3 left 7@0x1 = 1 of 1
behind 7@0 7@3 | 7@6 -> took 7@3 7@0 left 7@6x1 = 1 of 1
behind 7@0 7@3 | 7@2 -> took 7@3 7@2 left 7@0x1 = 1 of 1
behind 7@0 7@3 | 7@0 -> took 7@3 7@0 left 7@0x1 = 1 of 1
behind 7@0 7@3 | 8@5 -> took 7@3 7@0 left 8@5x1 = 1 of 1
behind 7@0 7@3 | 7@4 7@5 -> took 7@5 7@4 left 7@0x1 7@3x1 = 2 of 1
behind 7@0 7@3 7@9 | 7@5 -> took 7@5 7@3 left 7@0x1 7@9x1 = 2 of 1
behind 7@5 | 7@5 -> took 7@5 left 7@5x1 = 1 of 1
behind 8@0 | 7@5 -> took left 7@5x1 8@0x1 = 2 of 2
place  | -> = 0 of 0 from 0 took left = 0 of 0
place 7@3 | 7x1 -> 7@3x1 = 1 of 1 from 3 took 7@3 left = 0 of 0
place 7@3 | 7x2 -> 7@3x1 = 1 of 1 never took left 7@3x1 = 1 of 1
place 7@3 | 7x3 -> 7@3x1 = 1 of 1 never took left 7@3x1 = 1 of 1
place 7@10 | 7x1 -> 7@10x1 = 1 of 1 from 10 took 7@10 left = 0 of 0
place 7@10 | 7x2 -> 7@10x1 = 1 of 1 never took left 7@10x1 = 1 of 1
place 7@11 | 7x1 -> 7@11x1 = 1 of 1 from 11 took left 7@11x1 = 1 of 1
place 7@11 | 7x2 -> 7@11x1 = 1 of 1 never took left 7@11x1 = 1 of 1
place 7@3 7@3 | 7x1 -> 7@3x2 = 2 of 1 from 3 took 7@3 left 7@3x1 = 1 of 1
place 7@3 7@3 | 7x2 -> 7@3x2 = 2 of 1 from 3 took 7@3 7@3 left = 0 of 0
place 7@3 7@3 | 7x3 -> 7@3x2 = 2 of 1 never took left 7@3x2 = 2 of 1
place 7@10 7@3 | 7x1 -> 7@3x1 7@10x1 = 2 of 1 from 3 took 7@10 left 7@3x1 = 1 of 1
place 7@10 7@3 | 7x2 -> 7@3x1 7@10x1 = 2 of 1 from 10 took 7@10 7@3 left = 0 of 0
place 7@10 7@3 | 7x3 -> 7@3x1 7@10x1 = 2 of 1 never took left 7@3x1 7@10x1 = 2 of 1
place 7@3 7@11 | 7x1 -> 7@3x1 7@11x1 = 2 of 1 from 3 took 7@3 left 7@11x1 = 1 of 1
place 7@3 7@11 | 7x2 -> 7@3x1 7@11x1 = 2 of 1 from 11 took left 7@3x1 7@11x1 = 2 of 1
place 7@3 7@11 | 7x3 -> 7@3x1 7@11x1 = 2 of 1 never took left 7@3x1 7@11x1 = 2 of 1
place 7@10 7@10 | 7x1 -> 7@10x2 = 2 of 1 from 10 took 7@10 left 7@10x1 = 1 of 1
place 7@10 7@10 | 7x2 -> 7@10x2 = 2 of 1 from 10 took 7@10 7@10 left = 0 of 0
place 7@10 7@10 | 7x3 -> 7@10x2 = 2 of 1 never took left 7@10x2 = 2 of 1
place 7@11 7@10 | 7x1 -> 7@10x1 7@11x1 = 2 of 1 from 10 took 7@10 left 7@11x1 = 1 of 1
place 7@11 7@10 | 7x2 -> 7@10x1 7@11x1 = 2 of 1 from 11 took left 7@10x1 7@11x1 = 2 of 1
place 7@11 7@10 | 7x3 -> 7@10x1 7@11x1 = 2 of 1 never took left 7@10x1 7@11x1 = 2 of 1
place 7@11 7@11 | 7x1 -> 7@11x2 = 2 of 1 from 11 took left 7@11x2 = 2 of 1
place 7@11 7@11 | 7x2 -> 7@11x2 = 2 of 1 from 11 took left 7@11x2 = 2 of 1
place 7@11 7@11 | 7x3 -> 7@11x2 = 2 of 1 never took left 7@11x2 = 2 of 1
place 7@9 7@0 7@3 | 7x1 -> 7@0x1 7@3x1 7@9x1 = 3 of 1 from 0 took 7@9 left 7@0x1 7@3x1 = 2 of 1
place 7@9 7@0 7@3 | 7x2 -> 7@0x1 7@3x1 7@9x1 = 3 of 1 from 3 took 7@9 7@3 left 7@0x1 = 1 of 1
place 7@9 7@0 7@3 | 7x3 -> 7@0x1 7@3x1 7@9x1 = 3 of 1 from 9 took 7@9 7@3 7@0 left = 0 of 0
place 7@3 7@10 7@9 | 7x1 -> 7@3x1 7@9x1 7@10x1 = 3 of 1 from 3 took 7@10 left 7@3x1 7@9x1 = 2 of 1
place 7@3 7@10 7@9 | 7x2 -> 7@3x1 7@9x1 7@10x1 = 3 of 1 from 9 took 7@10 7@9 left 7@3x1 = 1 of 1
place 7@3 7@10 7@9 | 7x3 -> 7@3x1 7@9x1 7@10x1 = 3 of 1 from 10 took 7@10 7@9 7@3 left = 0 of 0
place 7@11 7@9 7@10 | 7x1 -> 7@9x1 7@10x1 7@11x1 = 3 of 1 from 9 took 7@10 left 7@9x1 7@11x1 = 2 of 1
place 7@11 7@9 7@10 | 7x2 -> 7@9x1 7@10x1 7@11x1 = 3 of 1 from 10 took 7@10 7@9 left 7@11x1 = 1 of 1
place 7@11 7@9 7@10 | 7x3 -> 7@9x1 7@10x1 7@11x1 = 3 of 1 from 11 took left 7@9x1 7@10x1 7@11x1 = 3 of 1
place 7@3 7@10 7@3 7@10 | 7x1 -> 7@3x2 7@10x2 = 4 of 1 from 3 took 7@10 left 7@3x2 7@10x1 = 3 of 1
place 7@3 7@10 7@3 7@10 | 7x2 -> 7@3x2 7@10x2 = 4 of 1 from 3 took 7@10 7@10 left 7@3x2 = 2 of 1
place 7@3 7@10 7@3 7@10 | 7x3 -> 7@3x2 7@10x2 = 4 of 1 from 10 took 7@10 7@10 7@3 left 7@3x1 = 1 of 1
place 7@20 7@0 7@11 | 7x1 -> 7@0x1 7@11x1 7@20x1 = 3 of 1 from 0 took 7@0 left 7@11x1 7@20x1 = 2 of 1
place 7@20 7@0 7@11 | 7x2 -> 7@0x1 7@11x1 7@20x1 = 3 of 1 from 11 took left 7@0x1 7@11x1 7@20x1 = 3 of 1
place 7@20 7@0 7@11 | 7x3 -> 7@0x1 7@11x1 7@20x1 = 3 of 1 from 20 took left 7@0x1 7@11x1 7@20x1 = 3 of 1
place 7@3 8@3 | 7x1 8x1 -> 7@3x1 8@3x1 = 2 of 2 from 3 took 7@3 8@3 left = 0 of 0
place 8@11 7@3 | 7x1 8x1 -> 7@3x1 8@11x1 = 2 of 2 from 11 took left 7@3x1 8@11x1 = 2 of 2
place 7@11 8@3 | 8x1 -> 7@11x1 8@3x1 = 2 of 2 from 3 took 8@3 left 7@11x1 = 1 of 1
place 7@10 8@10 7@3 8@9 8@11 | 7x2 8x1 -> 7@3x1 7@10x1 8@9x1 8@10x1 8@11x1 = 5 of 2 from 10 took 7@10 7@3 8@10 left 8@9x1 8@11x1 = 2 of 1
place 7@10 8@10 7@3 8@9 8@11 | 7x1 8x3 -> 7@3x1 7@10x1 8@9x1 8@10x1 8@11x1 = 5 of 2 from 11 took left 7@3x1 7@10x1 8@9x1 8@10x1 8@11x1 = 5 of 2
place 7@10 8@10 7@3 8@9 8@11 | 8x2 7x1 -> 7@3x1 7@10x1 8@9x1 8@10x1 8@11x1 = 5 of 2 from 10 took 7@10 8@10 8@9 left 7@3x1 8@11x1 = 2 of 2
place 7@4 8@5 | 7x0 8x1 -> 7@4x1 8@5x1 = 2 of 2 from 5 took 8@5 left 7@4x1 = 1 of 1
place 7@4 8@5 | 6x1 7x1 -> 7@4x1 8@5x1 = 2 of 2 never took left 7@4x1 8@5x1 = 2 of 2
place 7@4 8@5 | -> 7@4x1 8@5x1 = 2 of 2 from 0 took left 7@4x1 8@5x1 = 2 of 2
place 9@1 8@1 7@1 | 9x1 7x1 -> 7@1x1 8@1x1 9@1x1 = 3 of 3 from 1 took 7@1 9@1 left 8@1x1 = 1 of 1
place -1@5 7@5 -1@2 | -1x2 -> -1@2x1 -1@5x1 7@5x1 = 3 of 2 from 5 took -1@5 -1@2 left 7@5x1 = 1 of 1
place -1@5 7@5 -1@2 | -1x1 7x1 -> -1@2x1 -1@5x1 7@5x1 = 3 of 2 from 5 took -1@5 7@5 left -1@2x1 = 1 of 1
place 7@4611686018427387904 | 7x1 -> 7@4611686018427387904x1 = 1 of 1 from 4611686018427387904 took left 7@4611686018427387904x1 = 1 of 1
place 7@18446744073709551615 7@0 | 7x1 -> 7@0x1 7@18446744073709551615x1 = 2 of 1 from 0 took 7@0 left 7@18446744073709551615x1 = 1 of 1
place 7@18446744073709551615 7@0 | 7x2 -> 7@0x1 7@18446744073709551615x1 = 2 of 1 from 18446744073709551615 took left 7@0x1 7@18446744073709551615x1 = 2 of 1
place 7@2 7@2 7@2 7@9 7@9 | 7x4 -> 7@2x3 7@9x2 = 5 of 1 from 9 took 7@9 7@9 7@2 7@2 left 7@2x1 = 1 of 1
place 7@2 7@2 7@2 7@9 7@9 | 7x1 7x2 -> 7@2x3 7@9x2 = 5 of 1 from 2 took 7@9 7@9 7@2 left 7@2x2 = 2 of 1
marking 7@3 | 7+0 -> held from 3
marking 7@3 7@9 | 7+0 7+4 -> held from 5
marking 7@9 7@3 | 7+4 7+0 -> held from 5
marking 7@3 | 7+0 7+0 -> held never
marking 6@1 8@1 | 7+0 -> never 6@1 8@1
marking 7@2 | 7+5 -> held from 0
marking 5@10 7@4 7@6 | 7+0 5+0 -> held from 10 7@4
marking 7@12 | 7+0 -> held from 12 7@12
marking 7@9 7@9 7@3 | 7+0 7+0 -> held from 9 7@3
marking 7@1 7@14 6@0 | 7+0 7+3 6+0 -> held from 11 7@14
marking  | -> from 0
marking 7@4 8@2 7@1 6@9 | 7+0 -> held from 1 6@9 7@1 8@2
multiset 7x3 8x1 | 7x2 8x1 -> covered, left 7x1
multiset 7x2 8x1 | 7x3 8x1 -> not covered
multiset 7x1 | 7x2 8x1 -> not covered
multiset 7x2 | 7x2 -> covered, left
multiset 7x1 7x1 8x0 | 7x2 -> covered, left
multiset  | -> covered, left";

#[test]
fn each_row_holds(rt: HostRuntime) -> Result<(), Fail> {
    for row in TABLE.lines() {
        assert!(rt; holds(rt.alloc(), row)?, "{row}");
    }
    Ok(())
}
