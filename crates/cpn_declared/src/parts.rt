//! What a net takes of what has been declared.

ghost use Rattle.std.specs.Prelude.{◌≡◌, map, string_bytes, IfOk};
ghost use Rattle.cpn_core.specs.Inscriptions.{funs_view};
ghost use Rattle.cpn_core.specs.Nets.{variable_view, names_view};
ghost use Rattle.cpn_declared.specs.DeclsViews.{decls_view, constructor_names, constructor_view};

use crate::decls::{Constructor, Decls};
use cpn_core::{Funs, Memory, Variable};
use std::alloc::Global;

/// What a net takes of what has been declared.
#[derive(Drop)]
pub struct DeclaredParts {
    /// The variables in the order of their declarations; a variable's number is its position.
    pub variables: Vec<Variable>,
    /// The names of the constants of each enumeration, by its number.
    pub constants: Vec<Vec<String>>,
    /// The names of the constructors of each union, by its number.
    pub constructors: Vec<Vec<String>>,
    /// The functions, in the order of their declarations.
    pub funs: Funs,
}

impl Decls {
    /// What a net takes of what has been declared. Names and colour sets are copied, and the bodies of functions are shared.
    ///
    /// # Errors
    ///
    /// Memory is wanted.
    pub fn parts(&self, alloc: Global) -> Result<DeclaredParts, Memory>
        ensures variables { IfOk result (λ parts. map variable_view parts.variables.items ≡ (decls_view self.now).variables) }
        ensures constants { IfOk result (λ parts. names_view parts.constants.items ≡ (decls_view self.now).enumerations) }
        ensures constructors { IfOk result (λ parts. names_view parts.constructors.items ≡ map constructor_names (decls_view self.now).unions) }
        ensures functions { IfOk result (λ parts. funs_view parts.funs ≡ (decls_view self.now).functions) }
    {
        let variables = variables_of(alloc, self.variables.as_slice())?;
        let constants = copies_of(alloc, self.enumerations.as_slice())?;
        let constructors = names_of_all(alloc, self.unions.as_slice())?;
        let funs = self.funs.share(alloc)?;
        Ok(DeclaredParts {
            variables,
            constants,
            constructors,
            funs,
        })
    }
}

// Variables of their own.
fn variables_of(alloc: Global, variables: &[Variable]) -> Result<Vec<Variable>, Memory>
    ensures exact { IfOk result (λ copies. map variable_view copies.items ≡ map variable_view variables.now) }
{
    let mut copies = Vec::with_capacity(alloc, variables.len())?;
    for variable in variables {
        let name = String::from_str(alloc, variable.name.as_str())?;
        let colour = variable.colour.copy()?;
        copies.push(Variable { name, colour })?;
    }
    Ok(copies)
}

// Lists of names of their own.
fn copies_of(alloc: Global, lists: &[Vec<String>]) -> Result<Vec<Vec<String>>, Memory>
    ensures exact { IfOk result (λ copies. names_view copies.items ≡ names_view lists.now) }
{
    let mut copies = Vec::with_capacity(alloc, lists.len())?;
    for names in lists {
        copies.push(copy_of(alloc, names.as_slice())?)?;
    }
    Ok(copies)
}

// Names of their own.
fn copy_of(alloc: Global, names: &[String]) -> Result<Vec<String>, Memory>
    ensures exact { IfOk result (λ copies. map string_bytes copies.items ≡ map string_bytes names.now) }
{
    let mut copies = Vec::with_capacity(alloc, names.len())?;
    for name in names {
        copies.push(String::from_str(alloc, name.as_str())?)?;
    }
    Ok(copies)
}

// The names of the constructors of each union.
fn names_of_all(alloc: Global, unions: &[Vec<Constructor>]) -> Result<Vec<Vec<String>>, Memory>
    ensures exact { IfOk result (λ all. names_view all.items ≡ map (λ union. constructor_names (map constructor_view union.items)) unions.now) }
{
    let mut all = Vec::with_capacity(alloc, unions.len())?;
    for union in unions {
        let names = names_of(alloc, union.as_slice())?;
        all.push(names)?;
    }
    Ok(all)
}

// The names of constructors.
fn names_of(alloc: Global, constructors: &[Constructor]) -> Result<Vec<String>, Memory>
    ensures exact { IfOk result (λ names. map string_bytes names.items ≡ constructor_names (map constructor_view constructors.now)) }
{
    let mut names = Vec::with_capacity(alloc, constructors.len())?;
    for constructor in constructors {
        names.push(String::from_str(alloc, constructor.name.as_str())?)?;
    }
    Ok(names)
}
