//! The kinds of names that are declared several at a time.

ghost use Rattle.std.specs.Prelude.{◌≡◌, ℕ, IfOk};
ghost use Rattle.cpn_declared.specs.DeclsViews.{meaning_view};
ghost use Rattle.cpn_colour_sets.specs.Kinds.{kind_view};

use cpn_core::Memory;
use cpn_declared::{Meaning, Ty, number_of};

/// A kind of names that are declared several at a time.
#[derive(Drop)]
pub(crate) enum Kind<'a> {
    /// The constants of an enumeration, by its number.
    Constants(u32),
    /// Variables of a type, from a number on.
    Variables {
        /// The number of the first.
        first: u32,
        /// The type of their values.
        ty: &'a Ty,
    },
}

impl<'a> Kind<'a> {
    /// What the name at a position means. Where that has no number of 32 bits, memory is wanted.
    pub(crate) fn meaning_at(&self, position: usize) -> Result<Meaning, Memory>
        ensures exact { IfOk result (λ meaning. meaning_view meaning ≡ kind_view self.now position) }
    {
        let position = number_of(position)?;
        match self {
            Kind::Constants(enumeration) => Ok(Meaning::Constant {
                enumeration: *enumeration,
                position,
            }),
            Kind::Variables { first, ty } => match first.checked_add(position) {
                Some(number) => {
                    let ty = ty.copy()?;
                    Ok(Meaning::Variable { number, ty })
                }
                None => Err(Memory),
            },
        }
    }
}
