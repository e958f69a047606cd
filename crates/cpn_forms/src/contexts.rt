//! Where an inscription stands.

/// The context of a multiset inscription.
#[derive(Clone, Copy, Debug, PartialEq, Eq)]
pub enum Side {
    /// An arc into its transition.
    Input,
    /// An arc out of its transition.
    Output,
    /// The initial marking of a place.
    Initial,
}

/// The context of an inscription of one value.
#[derive(Clone, Copy, Debug, PartialEq, Eq)]
pub enum Context {
    /// The text of a `val` or a `fun`.
    Function,
    /// Within the inscription of an arc into its transition.
    Input,
    /// Within the inscription of an arc out of its transition.
    Output,
    /// Within an initial marking.
    Initial,
    /// A guard.
    Guard,
    /// A delay.
    Delay,
    /// What a monitor measures.
    Monitor,
}
