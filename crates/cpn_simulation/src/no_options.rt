//! Why words give no options.

/// Why words give no options.
#[derive(Clone, Copy, Debug, PartialEq, Eq)]
pub enum NoOptions {
    /// They are not of the form that the command line has.
    Refused,
    /// Memory ran out.
    Memory,
}
