//! The trees of declarations.

use crate::trees::Ast;

/// A declaration, with the offset of its first token.
#[derive(Drop)]
pub struct Decl {
    /// The offset of its first token in the text.
    pub at: usize,
    /// What is declared.
    pub form: DeclForm,
}

/// What is declared: one form for each line of the grammar. Source: the declarations of CPN ML, in a
/// first-order profile.
#[derive(Drop)]
pub enum DeclForm {
    /// `colset N = body [timed] ;`
    ColourSet {
        /// The name of the colour set.
        name: String,
        /// Its body.
        body: Body,
        /// Whether its tokens carry time stamps.
        timed: bool,
    },
    /// `var N {, N} : N ;`
    Variables {
        /// The names of the variables, at least one.
        names: Vec<String>,
        /// The name of their colour set.
        colour: String,
    },
    /// `val N = e ;`
    Value {
        /// The name of the value.
        name: String,
        /// The value.
        value: Ast,
    },
    /// `fun N ( N : N {, N : N} ) : N = e ;`
    Function {
        /// The name of the function.
        name: String,
        /// The parameters, at least one.
        parameters: Vec<Parameter>,
        /// The name of the colour set of what it gives.
        result: String,
        /// What it gives.
        body: Ast,
    },
}

/// A parameter of a function.
#[derive(Drop)]
pub struct Parameter {
    /// The name of the parameter.
    pub name: String,
    /// The name of its colour set.
    pub colour: String,
}

/// The body of a colour set: one form for each line of the grammar.
#[derive(Drop)]
pub enum Body {
    /// `unit`
    Unit,
    /// `bool`
    Bool,
    /// `int`
    Int,
    /// `int with num .. num`
    IntRange {
        /// The least number.
        low: i64,
        /// The greatest number.
        high: i64,
    },
    /// `string`
    String,
    /// `with N {"|" N}`, the names of its constants.
    Enumeration(Vec<String>),
    /// `product N * N {* N}`, the names of the colour sets of its components, at least two.
    Product(Vec<String>),
    /// `list N`, the name of the colour set of its items.
    List(String),
    /// `union alt {+ alt}`
    Union(Vec<Alternative>),
    /// The name of another colour set.
    Named(String),
}

/// An alternative of a union: `N [: N]`.
#[derive(Drop)]
pub struct Alternative {
    /// The name of the constructor.
    pub constructor: String,
    /// The name of the colour set of its argument, if it takes one.
    pub argument: Option<String>,
}
