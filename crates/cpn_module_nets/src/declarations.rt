//! The declarations of a document, one after another.

ghost use Rattle.std.specs.Prelude.{map};
ghost use Rattle.cpn_typing.specs.Names.{nothing_declared};
ghost use Rattle.cpn_declared.specs.DeclsViews.{decls_view};
ghost use Rattle.cpn_module_nets.specs.Accepted.{declared_with, declared_from};
ghost use Rattle.cpn_module_trees.specs.TreesViews.{declared_view};
ghost use Rattle.cpn_module_nets.specs.Answers.{Loads};

use crate::refusals::{NetError, not_accepted, not_parsed};
use cpn_document::Pointer;
use cpn_module_trees::Parsing;
use cpn_syntax::Declaration;
use cpn_types::{Decls, declare};
use std::alloc::Global;

/// Adds a declaration, by its number, to what is declared.
#[tactic(auto, unfolding(crate::specs::Accepted::declared_with))]
fn declare_next(
    alloc: Global,
    decls: &mut Decls,
    number: usize,
    text: &Parsing<Declaration>,
) -> Result<(), NetError>
    ensures reads { Loads (λ _. decls_view decls.new) result (declared_with number (decls_view decls.old) (declared_view text.now)) }
{
    let place = Pointer::Declaration(number);
    match text {
        Ok(tree) => match declare(alloc, decls, tree) {
            Ok(()) => Ok(()),
            Err(error) => Err(not_accepted(place, error)),
        },
        Err(error) => Err(not_parsed(place, *error)),
    }
}

/// What is declared after all the declarations.
pub(crate) fn declared(alloc: Global, texts: &[Parsing<Declaration>]) -> Result<Decls, NetError>
    ensures reads { Loads decls_view result (declared_from 0 nothing_declared (map declared_view texts.now)) }
{
    let mut decls = Decls::new(alloc);
    for (number, text) in texts.iter().enumerate() {
        declare_next(alloc, &mut decls, number, text)?;
    }
    Ok(decls)
}
