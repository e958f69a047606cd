//! What has been declared.

ghost use Rattle.std.specs.Prelude.{◌≡◌, map, option_map};
ghost use Rattle.cpn_core.specs.Colours.{colour_view};
ghost use Rattle.cpn_core.specs.Nets.{variable_view};
ghost use Rattle.cpn_typing.specs.Consistency.{IsConsistent};
ghost use Rattle.cpn_typing.specs.Names.{nothing_declared, colour_named, meant_among};
ghost use Rattle.cpn_declared.specs.DeclsViews.{decls_view, meaning_view};

use crate::meanings::Meaning;
use crate::types::Ty;
use cpn_core::{Colour, Funs, Variable};
use cpn_names::Named;
use std::alloc::Global;

/// A constructor of a union.
#[derive(Drop)]
pub struct Constructor {
    /// Its name.
    pub name: String,
    /// The type of its argument, if it takes one.
    pub argument: Option<Ty>,
}

/// What has been declared: colour sets, variables, constants, constructors, values and functions, each under its name. It
/// keeps the allocator that it was made with.
///
/// Colour sets have names of their own; all others share one space of names.
#[derive(Drop)]
pub struct Decls {
    pub(crate) colours: Named<Colour>,
    pub(crate) names: Named<Meaning>,
    pub(crate) variables: Vec<Variable>,
    pub(crate) enumerations: Vec<Vec<String>>,
    pub(crate) unions: Vec<Vec<Constructor>>,
    pub(crate) funs: Funs,
}

impl Decls {
    /// Nothing declared yet. It takes no memory yet.
    pub fn new(alloc: Global) -> Decls
        ensures empty { decls_view result ≡ nothing_declared }
        ensures consistent { IsConsistent (decls_view result) }
    {
        Decls {
            colours: Named::new(alloc),
            names: Named::new(alloc),
            variables: Vec::new(alloc),
            enumerations: Vec::new(alloc),
            unions: Vec::new(alloc),
            funs: Funs {
                functions: Vec::new(alloc),
            },
        }
    }

    /// The colour set of a name. None exactly where no colour set has the name.
    pub fn colour(&self, name: &str) -> Option<&Colour>
        ensures exact { option_map (λ colour. colour_view colour.now) result ≡ colour_named name.now (decls_view self.now) }
    {
        self.colours.get(name)
    }

    /// What a name means, if it is declared.
    pub fn meaning(&self, name: &str) -> Option<&Meaning>
        ensures exact { option_map (λ meaning. meaning_view meaning.now) result ≡ meant_among name.now (decls_view self.now).names }
    {
        self.names.get(name)
    }

    /// The variables; a variable's number is its position.
    pub fn variables(&self) -> &[Variable]
        ensures exact { map variable_view result.now ≡ (decls_view self.now).variables }
    {
        self.variables.as_slice()
    }
}
