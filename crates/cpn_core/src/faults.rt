//! The faults of inscriptions.

/// Why an inscription that is typed has no value. The numbers, from 1, are those of a report.
///
/// Source: own choice.
#[derive(Clone, Copy, Debug, PartialEq, Eq)]
pub enum EvalFault {
    /// An integer is beyond 64 bits.
    Overflow,
    /// A division by zero.
    DivideByZero,
    /// The head or the tail of an empty list.
    EmptyList,
    /// No arm of a `case` matches.
    NoCase,
    /// A token's value is not one of the place's colour set.
    NotInColour,
    /// A coefficient is negative.
    BadCoefficient,
    /// A delay is negative or beyond 2^62.
    BadDelay,
    /// A value has more than 65,536 nodes, or an arc more than 65,536 tokens.
    TooLarge,
}
