//! What a frame has to do with a local.

/// What a frame has to do with the locals from a number on.
#[derive(Clone, Copy, Debug, PartialEq, Eq)]
pub enum Reach {
    /// It evaluates nothing more among them, and leaves them to the frames below it.
    Passes,
    /// It forgets them.
    Forgets,
    /// It may evaluate something among them.
    Reads,
}
