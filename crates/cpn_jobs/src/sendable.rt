//! Jobs and the work that they share may cross threads.

use crate::work::{Job, Work};

/// Asks of a type that its values may cross threads, whole and shared.
fn is_sendable<T: Send + Sync>() {}

/// Jobs and the work that they share may cross threads, whole and shared.
fn jobs_are_sendable() {
    is_sendable::<Work>();
    is_sendable::<Job>();
}
