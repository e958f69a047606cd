//! The parsers of the inscription language: from the tokens of a text to its tree, or to the first token
//! that fits no text of the grammar.
//!
//! The crate knows tokens and trees alone: what a name stands for, and which types its parts have, is not
//! its matter. It keeps the forms that are open in a list of its own and calls nothing recursively while it
//! reads, so a text may nest as deeply as its length allows. The trees are those of `cpn_trees`, which are passed on.
#![tactic(auto)]

mod declarations;
mod first_tokens;
mod following_tokens;
mod inscriptions;
mod open_forms;
mod open_patterns;
mod operators;
mod parsers;
mod pattern_parser;
mod readers;
mod refusals;

pub use cpn_trees::{
    Alternative, Arm, Ast, Asts, Body, Decl, DeclForm, Declaration, Form, Guard, Infix,
    Inscription, LocalValue, Parameter, Pat, PatForm, Pats, Prefix,
};
pub use parsers::{parse_decl, parse_delay, parse_expr, parse_guard, parse_mset};
pub use refusals::SyntaxError;
