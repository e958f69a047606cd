//! Tickets, evaluations and books may cross threads.

use crate::books::Book;
use crate::tickets::{Evaluated, Ticket};

/// Asks of a type that its values may cross threads, whole and shared.
fn is_sendable<T: Send + Sync>() {}

/// Tickets, evaluations and books may cross threads, whole and shared.
fn books_are_sendable() {
    is_sendable::<Ticket>();
    is_sendable::<Evaluated>();
    is_sendable::<Book>();
}
