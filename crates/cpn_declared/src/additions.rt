//! What has been declared, with one thing more, and as it was before.

ghost use Rattle.std.specs.Prelude.{◌≡◌, ◌∷◌, [], length, map, option_map, string_bytes, Bool, true, OnOk, OnErr, IfOk};
ghost use Rattle.cpn_core.specs.Colours.{colour_view};
ghost use Rattle.cpn_core.specs.Inscriptions.{function_view};
ghost use Rattle.cpn_core.specs.Nets.{variable_view};
ghost use Rattle.cpn_typing.specs.ColourSets.{is_there, is_new as may_be_declared, with_new, colour_names, other_names};
ghost use Rattle.cpn_typing.specs.Names.{predeclared_named};
ghost use Rattle.cpn_declared.specs.Additions.{with_names, with_one_colour, with_more_variables, with_one_enumeration, with_one_union, with_one_function, counts_of, first_of};
ghost use Rattle.cpn_declared.specs.Answers.{Answers};
ghost use Rattle.cpn_declared.specs.DeclsViews.{decls_view, meaning_view, constructor_view};

use crate::decls::{Constructor, Decls};
use crate::meanings::Meaning;
use crate::refusals::TypeError;
use cpn_core::{Colour, Function, Memory, Variable};
use std::alloc::Global;

/// Whether a predeclared function has the name.
pub(crate) fn is_predeclared(name: &str) -> bool
    ensures exact { result ≡ is_there (predeclared_named name.now) }
{
    name == "hd"
        || name == "tl"
        || name == "length"
        || name == "rev"
        || name == "mem"
        || name == "size"
}

/// A number of 32 bits. Past the greatest there is none, and memory is wanted.
pub fn number_of(position: usize) -> Result<u32, Memory>
    ensures same { IfOk result (λ number. number ≡ position) }
{
    match u32::try_from(position) {
        Ok(number) => Ok(number),
        Err(_) => Err(Memory),
    }
}

/// How many things of each kind are declared: what [`Decls::cut`] goes back to.
#[derive(Drop)]
pub struct Counts {
    /// Colour sets.
    pub colours: usize,
    /// Names of all others: of variables, constants, constructors, values and functions.
    pub names: usize,
    /// Variables.
    pub variables: usize,
    /// Enumerations.
    pub enumerations: usize,
    /// Unions.
    pub unions: usize,
    /// Functions.
    pub functions: usize,
}

impl Decls {
    /// Whether a colour set may be declared under the name.
    pub fn is_new_colour(&self, name: &str) -> bool
        ensures exact { result ≡ may_be_declared name.now (colour_names (decls_view self.now)) }
    {
        !is_predeclared(name) && !self.colours.has(name)
    }

    /// Whether anything but a colour set may be declared under the name.
    pub fn is_new_name(&self, name: &str) -> bool
        ensures exact { result ≡ may_be_declared name.now (other_names (decls_view self.now)) }
    {
        !is_predeclared(name) && !self.names.has(name)
    }

    /// Adds a name with what it means, unless the name is not new.
    ///
    /// # Errors
    ///
    /// [`TypeError::Duplicate`] exactly where the name is predeclared, or stands among the others already; [`TypeError::Memory`]. Nothing is
    /// changed then.
    pub fn add_name(&mut self, alloc: Global, name: &str, meaning: Meaning) -> Result<(), TypeError>
        ensures exact { Answers (λ _. name.now ∷ other_names (decls_view self.old)) result (with_new name.now (other_names (decls_view self.old))) }
        ensures added { OnOk result (decls_view self.new ≡ with_names (decls_view self.old) (record { name = name.now; meant = meaning_view meaning } ∷ [])) }
        ensures unchanged { OnErr result (decls_view self.new ≡ decls_view self.old) }
    {
        if !self.is_new_name(name) {
            return Err(TypeError::Duplicate(String::from_str(alloc, name)?));
        }
        self.names.push(alloc, name, meaning)?;
        Ok(())
    }

    /// Adds a colour set under a name that is new ([`Decls::is_new_colour`]).
    ///
    /// # Errors
    ///
    /// Memory is wanted. Nothing is changed then.
    pub fn add_colour(&mut self, alloc: Global, name: &str, colour: Colour) -> Result<(), Memory>
        requires new { may_be_declared name.now (colour_names (decls_view self.old)) ≡ true }
        ensures added { OnOk result (decls_view self.new ≡ with_one_colour (decls_view self.old) name.now (colour_view colour)) }
        ensures unchanged { OnErr result (decls_view self.new ≡ decls_view self.old) }
    {
        self.colours.push(alloc, name, colour)?;
        Ok(())
    }

    /// Adds a variable.
    ///
    /// # Errors
    ///
    /// Memory is wanted. Nothing is changed then.
    pub fn add_variable(&mut self, alloc: Global, name: &str, colour: Colour) -> Result<(), Memory>
        ensures added { OnOk result (decls_view self.new ≡ with_more_variables (decls_view self.old) (record { name = name.now; colour = colour_view colour } ∷ [])) }
        ensures unchanged { OnErr result (decls_view self.new ≡ decls_view self.old) }
    {
        let name = String::from_str(alloc, name)?;
        self.variables.push(Variable { name, colour })?;
        Ok(())
    }

    /// Adds the names of the constants of an enumeration.
    ///
    /// # Errors
    ///
    /// Memory is wanted. Nothing is changed then.
    pub fn add_enumeration(&mut self, constants: Vec<String>) -> Result<(), Memory>
        ensures added { OnOk result (decls_view self.new ≡ with_one_enumeration (decls_view self.old) (map string_bytes constants.items)) }
        ensures unchanged { OnErr result (decls_view self.new ≡ decls_view self.old) }
    {
        self.enumerations.push(constants)?;
        Ok(())
    }

    /// Adds the constructors of a union.
    ///
    /// # Errors
    ///
    /// Memory is wanted. Nothing is changed then.
    pub fn add_union(&mut self, constructors: Vec<Constructor>) -> Result<(), Memory>
        ensures added { OnOk result (decls_view self.new ≡ with_one_union (decls_view self.old) (map constructor_view constructors.items)) }
        ensures unchanged { OnErr result (decls_view self.new ≡ decls_view self.old) }
    {
        self.unions.push(constructors)?;
        Ok(())
    }

    /// Adds a function.
    ///
    /// # Errors
    ///
    /// Memory is wanted. Nothing is changed then.
    pub fn add_function(&mut self, function: Function) -> Result<(), Memory>
        ensures added { OnOk result (decls_view self.new ≡ with_one_function (decls_view self.old) (function_view function)) }
        ensures unchanged { OnErr result (decls_view self.new ≡ decls_view self.old) }
    {
        self.funs.functions.push(function)?;
        Ok(())
    }

    /// The number of the next variable.
    ///
    /// # Errors
    ///
    /// Memory is wanted past the greatest number of 32 bits.
    pub fn next_variable(&self) -> Result<u32, Memory>
        ensures number { IfOk result (λ number. number ≡ length (decls_view self.now).variables) }
    {
        let number = number_of(self.variables.len())?;
        Ok(number)
    }

    /// The number of the next enumeration.
    ///
    /// # Errors
    ///
    /// Memory is wanted past the greatest number of 32 bits.
    pub fn next_enumeration(&self) -> Result<u32, Memory>
        ensures number { IfOk result (λ number. number ≡ length (decls_view self.now).enumerations) }
    {
        let number = number_of(self.enumerations.len())?;
        Ok(number)
    }

    /// The number of the next union.
    ///
    /// # Errors
    ///
    /// Memory is wanted past the greatest number of 32 bits.
    pub fn next_union(&self) -> Result<u32, Memory>
        ensures number { IfOk result (λ number. number ≡ length (decls_view self.now).unions) }
    {
        let number = number_of(self.unions.len())?;
        Ok(number)
    }

    /// The number of the next function.
    ///
    /// # Errors
    ///
    /// Memory is wanted past the greatest number of 32 bits.
    pub fn next_function(&self) -> Result<u32, Memory>
        ensures number { IfOk result (λ number. number ≡ length (decls_view self.now).functions) }
    {
        let number = number_of(self.funs.functions.len())?;
        Ok(number)
    }

    /// How many things of each kind are declared.
    pub fn counts(&self) -> Counts
        ensures exact { record { colours = result.colours; names = result.names; variables = result.variables; enumerations = result.enumerations; unions = result.unions; functions = result.functions } ≡ counts_of (decls_view self.now) }
    {
        Counts {
            colours: self.colours.len(),
            names: self.names.len(),
            variables: self.variables.len(),
            enumerations: self.enumerations.len(),
            unions: self.unions.len(),
            functions: self.funs.functions.len(),
        }
    }

    /// Keeps the first so many things of each kind, in the order of their declaration; where there are fewer, all of them.
    pub fn cut(&mut self, counts: &Counts)
        ensures first { decls_view self.new ≡ first_of (record { colours = counts.now.colours; names = counts.now.names; variables = counts.now.variables; enumerations = counts.now.enumerations; unions = counts.now.unions; functions = counts.now.functions }) (decls_view self.old) }
    {
        self.colours.truncate(counts.colours);
        self.names.truncate(counts.names);
        self.variables.truncate(counts.variables);
        self.enumerations.truncate(counts.enumerations);
        self.unions.truncate(counts.unions);
        self.funs.functions.truncate(counts.functions);
    }
}
