//! What a run starts from may cross threads.

use crate::runs::Setup;

/// Asks of a type that its values may cross threads, whole and shared.
fn is_sendable<T: Send + Sync>() {}

/// What a run starts from may cross threads, whole and shared.
fn setups_are_sendable() {
    is_sendable::<Setup>();
}
