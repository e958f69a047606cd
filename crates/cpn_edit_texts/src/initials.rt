//! Other tokens of a place in the initial marking.

ghost use Rattle.std.specs.Prelude.{◌≡◌, ◌≤◌, [], IfOk};
ghost use Rattle.cpn_core.specs.Colours.{colour_view};
ghost use Rattle.cpn_core.specs.Inscriptions.{funs_view};
ghost use Rattle.cpn_core.specs.Nets.{place_view};
ghost use Rattle.cpn_declared.specs.DeclsViews.{decls_view};
ghost use Rattle.cpn_definitions.specs.Outcome.{HasMeaning};
ghost use Rattle.cpn_definitions.specs.Terms.{most_tokens, tokens_in, terms_of as terms_of_inscription};
ghost use Rattle.cpn_eval.specs.Terms.{items_view};
ghost use Rattle.cpn_flat.specs.InitialMarking.{tokens_of as tokens_of_terms};
ghost use Rattle.cpn_accepted.specs.Views.{initial_view};
ghost use Rattle.cpn_module_trees.specs.TreesViews.{tree_view};
ghost use Rattle.cpn_types.specs.Accepted.{InitHasMeaning};
ghost use Rattle.cpn_typing.specs.Consistency.{IsConsistent};
ghost use Rattle.cpn_edit_texts.specs.Answers.{Edits, EditsBy};
ghost use Rattle.cpn_edit_texts.specs.Checked.{tokens_so};
ghost use Rattle.cpn_edit_texts.specs.Texts.{initial_of as initial_in_text, terms_so};

use crate::refusals::{EditError, Trouble, not_accepted, not_parsed};
use cpn_core::{ArcExpr, Binding, Colour, Funs, Memory, Place};
use cpn_document::Pointer;
use cpn_eval::{Refused, Terms, eval_mset};
use cpn_flat::add_terms;
use cpn_module_trees::{Parsing, inscription_in};
use cpn_syntax::Inscription;
use cpn_tmset::{Marking, TMSet};
use cpn_types::{Decls, check_init};
use std::alloc::Global;

/// The initial marking that a text is at a place of a colour set, by what it is parsed as.
#[tactic(auto, unfolding(crate::specs::Texts::initial_of))]
fn initial_of(
    alloc: Global,
    decls: &Decls,
    at: Pointer,
    colour: &Colour,
    parsing: &Parsing<Inscription>,
) -> Result<ArcExpr, EditError>
    ensures reads { Edits (λ initial. (initial_view initial).expr) result (initial_in_text (decls_view decls.now) at (colour_view colour.now) (tree_view parsing.now)) }
    ensures colour { IfOk result (λ initial. colour_view initial.colour ≡ colour_view colour.now) }
    ensures means { IfOk result (λ initial. InitHasMeaning (decls_view decls.now) (colour_view colour.now) (initial_view initial).expr) }
{
    match parsing {
        Ok(tree) => match check_init(alloc, decls, colour, tree) {
            Ok(initial) => Ok(initial),
            Err(error) => Err(not_accepted(at, error)),
        },
        Err(error) => Err(not_parsed(at, *error)),
    }
}

/// Its terms, at time 0 under no binding.
fn terms_of(alloc: Global, funs: &Funs, at: Pointer, initial: &ArcExpr) -> Result<Terms, EditError>
    requires meant { HasMeaning (terms_of_inscription (funs_view funs.now) (initial_view initial.now).expr (initial_view initial.now).colour [] 0) }
    ensures reads { EditsBy items_view result (terms_so at (terms_of_inscription (funs_view funs.now) (initial_view initial.now).expr (initial_view initial.now).colour [] 0)) }
{
    let binding = Binding::new(alloc);
    match eval_mset(alloc, funs, initial, &binding, 0) {
        Ok(terms) => Ok(terms),
        Err(Refused::Memory) => Err(EditError::Memory),
        Err(Refused::Fault(fault)) => Err(EditError::Bad(at, Trouble::Eval(fault))),
    }
}

/// The tokens of terms on a place.
fn tokens_of(alloc: Global, timed: bool, terms: &Terms) -> Result<TMSet, Memory>
    requires few { tokens_in (items_view terms.now) ≤ most_tokens }
    ensures tokens { IfOk result (λ tokens. tokens ≡ tokens_of_terms timed (items_view terms.now)) }
{
    let mut alone = Marking::new(alloc, 1)?;
    add_terms(&mut alone, 0, timed, terms.as_slice())?;
    let tokens = alone.place(0).copy()?;
    Ok(tokens)
}

/// The tokens that a text puts on a place in the initial marking.
pub(crate) fn tokens_in_text(
    alloc: Global,
    decls: &Decls,
    funs: &Funs,
    at: Pointer,
    place: &Place,
    text: &str,
) -> Result<TMSet, EditError>
    requires consistent { IsConsistent (decls_view decls.now) }
    requires functions { funs_view funs.now ≡ (decls_view decls.now).functions }
    ensures reads { EditsBy (λ tokens. tokens) result (tokens_so (decls_view decls.now) (funs_view funs.now) at (place_view place.now) text.now) }
{
    let parsing = inscription_in(alloc, text)?;
    let initial = initial_of(alloc, decls, at, &place.colour, &parsing)?;
    let terms = terms_of(alloc, funs, at, &initial)?;
    let tokens = tokens_of(alloc, place.colour.timed, &terms)?;
    Ok(tokens)
}
