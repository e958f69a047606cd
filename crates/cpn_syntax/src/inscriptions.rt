//! The reading of an inscription.

ghost use Rattle.std.specs.Prelude.{◌≢◌, IfOk, IfErr};
ghost use Rattle.cpn_trees.specs.AstViews.{ast_view};
ghost use Rattle.cpn_syntax.specs.Readings.{IsReadAs, BreaksOffAt};
ghost use Rattle.cpn_syntax.specs.Unread.{unread};
ghost use Rattle.cpn_syntax.specs.declared.refusals.SyntaxError.TheVariants as errors;

use crate::first_tokens::begin;
use crate::following_tokens::{Step, go_on};
use crate::open_forms::{Next, OpenForms};
use crate::readers::Reader;
use crate::refusals::SyntaxError;
use cpn_trees::Ast;
use std::alloc::Global;

/// Reads an inscription as far as it reaches.
pub fn inscription(alloc: Global, reader: &mut Reader) -> Result<Ast, SyntaxError>
    ensures read { IfOk result (λ a. IsReadAs (unread reader.old) (unread reader.new) (ast_view a)) }
    ensures stops { IfErr result (λ e. e ≢ errors.Memory → BreaksOffAt (unread reader.old) e) }
{
    let mut open = OpenForms::new(alloc);
    let mut next = begin(alloc, reader, 0)?;
    'reading: loop {
        next = match next {
            Next::Form(form) => {
                open.push(form)?;
                begin(alloc, reader, open.wanted())?
            }
            Next::Part(part) => match go_on(alloc, reader, &mut open, part)? {
                Step::Next(next) => next,
                Step::Whole(tree) => return Ok(tree),
            },
        };
    }
}
