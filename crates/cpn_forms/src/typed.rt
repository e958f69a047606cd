//! A typed inscription with its type.

use cpn_core::Expr;
use cpn_declared::Ty;

/// A typed inscription with its type.
#[derive(Drop)]
pub struct Typed {
    /// The inscription.
    pub expr: Expr,
    /// The type of its values.
    pub ty: Ty,
}
