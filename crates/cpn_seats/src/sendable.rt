//! Seats, their desk and the handles of workers may cross threads.

use crate::handles::SeatHandle;
use crate::seats::{Seat, SeatDesk};
use std::sync::Wait;

/// Asks of a type that its values may cross threads.
fn is_sendable<T: Send>() {}

/// Asks of a type that threads may share its values.
fn is_shareable<T: Sync>() {}

/// A seat and a desk may go to another thread, and threads may share a desk.
fn seats_are_sendable() {
    is_sendable::<Seat>();
    is_sendable::<SeatDesk>();
    is_shareable::<SeatDesk>();
}

/// A handle may go to another thread, where threads may share what it waits by.
fn handles_are_sendable<'a, R: Wait + Sync + 'a>() {
    is_sendable::<SeatHandle<'a, R>>();
}
