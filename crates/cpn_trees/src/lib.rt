//! The trees of declarations and inscriptions, as the grammar shapes them.
//!
//! The crate knows no text: what spells a tree, what a name in it stands for, and which types its parts have, is not its
//! matter. Trees are as deep as they are written; they are let go, and asked how deep they are, with little of the
//! machine's stack.
#![tactic(auto)]

mod declaration_trees;
mod depths;
mod operators;
mod parsed;
mod patterns;
mod trees;

pub use declaration_trees::{Alternative, Body, Decl, DeclForm, Parameter};
pub use depths::{is_any_deeper, is_declaration_deeper, is_deeper};
pub use operators::{Infix, Prefix};
pub use parsed::{Declaration, Guard, Inscription};
pub use patterns::{Pat, PatForm, Pats};
pub use trees::{Arm, Ast, Asts, Form, LocalValue};
