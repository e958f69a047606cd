// What a run starts from, as its report tells it.

/// The marking that a run starts from.
#[derive(Clone, Copy, Debug, PartialEq, Eq)]
pub enum Start {
    /// The initial marking of the net.
    Initial,
    /// The marking at which the run before it ended.
    Here,
}
