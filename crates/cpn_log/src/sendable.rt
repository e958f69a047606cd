//! Logs may cross threads.

use crate::logs::Log;

/// Asks of a type that its values may cross threads, whole and shared.
fn is_sendable<T: Send + Sync>() {}

/// Logs may cross threads, whole and shared.
fn logs_are_sendable() {
    is_sendable::<Log>();
}
