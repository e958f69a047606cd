//! Whether two patterns are the same.

ghost use Rattle.std.specs.Prelude.{◌≡◌};
ghost use Rattle.cpn_core.specs.Inscriptions.{pattern_view, patterns_view};
ghost use Rattle.cpn_same.specs.SamePatterns.{same_pattern, same_patterns};
ghost use Rattle.cpn_same.specs.Constructed.{constructed_pattern};

use cpn_core::{Pat, Pats};

/// Whether both patterns are of one form, with the same numbers, values and parts.
#[cycle(same)]
#[tactic(auto, using(crate::proofs::ConstructorLevels::view_pattern, cpn_core::proofs::InscriptionLevels::view_cons_pattern))]
pub fn same_pattern(pattern: &Pat, other: &Pat) -> bool
    ensures exact { result ≡ same_pattern (pattern_view pattern.now) (pattern_view other.now) }
{
    match pattern {
        Pat::Any => match other {
            Pat::Any => true,
            _ => false,
        },
        Pat::Var(number) => match other {
            Pat::Var(second) => *number == *second,
            _ => false,
        },
        Pat::Lit(value) => match other {
            Pat::Lit(second) => *value == *second,
            _ => false,
        },
        Pat::Tuple(parts) => match other {
            Pat::Tuple(others) => same_patterns(parts, others),
            _ => false,
        },
        Pat::List(items) => match other {
            Pat::List(others) => same_patterns(items, others),
            _ => false,
        },
        Pat::Cons(first, rest) => match other {
            Pat::Cons(head, tail) => same_pattern(first, head) && same_pattern(rest, tail),
            _ => false,
        },
        Pat::Con(position, argument) => match other {
            Pat::Con(place, second) => same_constructed(*position, argument, *place, second),
            _ => false,
        },
    }
}

// Whether both constructors are of one position, without an argument or with the same one.
#[cycle(same)]
fn same_constructed(
    position: u32,
    argument: &Option<Box<Pat>>,
    place: u32,
    other: &Option<Box<Pat>>,
) -> bool
    ensures exact { result ≡ same_pattern (constructed_pattern position argument.now) (constructed_pattern place other.now) }
{
    match argument {
        None => match other {
            None => position == place,
            Some(_) => false,
        },
        Some(part) => match other {
            None => false,
            Some(second) => position == place && same_pattern(part, second),
        },
    }
}

#[cycle(same)]
#[tactic(auto, using(crate::proofs::Rows::patterns_more, crate::proofs::Rows::patterns_end))]
fn same_patterns(patterns: &Pats, others: &Pats) -> bool
    ensures exact { result ≡ same_patterns (patterns_view patterns.now.items) (patterns_view others.now.items) }
{
    let shorter = patterns.len().min(others.len());
    for i in 0..shorter {
        if !same_pattern(&patterns[i], &others[i]) {
            return false;
        }
    }
    patterns.len() == others.len()
}
