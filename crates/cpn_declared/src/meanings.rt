//! What declared names mean.

use crate::types::{Ty, Tys};

/// What a declared name means.
#[derive(Drop)]
pub enum Meaning {
    /// A variable.
    Variable {
        /// Its number.
        number: u32,
        /// The type of its values.
        ty: Ty,
    },
    /// A constant of `with`.
    Constant {
        /// The number of its enumeration.
        enumeration: u32,
        /// Its position there.
        position: u32,
    },
    /// A constructor of `union`.
    Constructor {
        /// The number of its union.
        union: u32,
        /// Its position there.
        position: u32,
        /// The type of its argument, if it takes one.
        argument: Option<Ty>,
    },
    /// A function; a `val` is one without parameters.
    Function {
        /// Its number.
        number: u32,
        /// The types of its parameters.
        parameters: Tys,
        /// The type of what it gives.
        result: Ty,
    },
}
