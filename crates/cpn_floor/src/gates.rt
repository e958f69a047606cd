//! What a worker passes between its claim and the evaluation.

/// A gate that a worker passes with the number of each of its claims, before it evaluates the ticket. So a caller may watch the workers, or
/// hold one up.
///
/// Source: own choice.
pub trait Gate {
    /// Passes with the claim of this number. It may wait.
    fn pass(&self, claim: u64);
}

/// A gate that does nothing.
///
/// Source: own choice.
#[derive(Drop)]
pub struct Open;

impl Gate for Open {
    fn pass(&self, _claim: u64) {}
}
