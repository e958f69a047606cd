//! Inscriptions and nets may cross threads.

use crate::inscriptions::ArcExpr;
use crate::nets::Net;

/// Asks of a type that its values may cross threads, whole and shared.
fn is_sendable<T: Send + Sync>() {}

/// Inscriptions and nets may cross threads, whole and shared.
fn nets_are_sendable() {
    is_sendable::<ArcExpr>();
    is_sendable::<Net>();
}
