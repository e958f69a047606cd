//! Texts of the inscription language, lexed and parsed.

ghost use Rattle.std.specs.Prelude.{IfOk};
ghost use Rattle.cpn_trees.specs.ParsedViews.{inscription_view, guard_view, declaration_view};
ghost use Rattle.cpn_module_trees.specs.Parsing.{IsDeclaration, IsInscription, IsGuard, IsDelay};
ghost use Rattle.cpn_module_trees.specs.ParsingViews.{parsing_view, IsUnlexed, IsSpelled};

use cpn_lex::{LexError, lex};
use cpn_memory::Memory;
use cpn_syntax::{
    Declaration, Guard, Inscription, SyntaxError, parse_decl, parse_delay, parse_expr, parse_guard,
};
use std::alloc::Global;

/// Why a text has no tree.
#[derive(Clone, Copy, Debug)]
pub enum Unparsed {
    /// It has no tokens.
    Lex(LexError),
    /// Its tokens have no tree.
    Syntax(SyntaxError),
}

/// A text's tree, or why it has none.
pub type Parsing<T> = Result<T, Unparsed>;

fn unlexed<T>(error: LexError) -> Result<Parsing<T>, Memory>
    ensures { IfOk result (λ parsing. IsUnlexed error parsing) }
{
    match error {
        LexError::Memory => Err(Memory),
        LexError::BadByte(_)
        | LexError::OpenString(_)
        | LexError::NumberTooLarge(_)
        | LexError::TooLong => Ok(Err(Unparsed::Lex(error))),
    }
}

fn spelled<T>(tree: Result<T, SyntaxError>) -> Result<Parsing<T>, Memory>
    ensures { IfOk result (λ parsing. IsSpelled tree parsing) }
{
    match tree {
        Ok(tree) => Ok(Ok(tree)),
        Err(error) => match error {
            SyntaxError::Memory => Err(Memory),
            SyntaxError::Unexpected(_) | SyntaxError::EndOfText | SyntaxError::TooDeep => {
                Ok(Err(Unparsed::Syntax(error)))
            }
        },
    }
}

/// What the text of a declaration is parsed as.
///
/// # Errors
///
/// Memory is wanted. A text that is refused is an answer: the offset and the reason ([`Parsing`]).
pub fn declaration_in(alloc: Global, text: &str) -> Result<Parsing<Declaration>, Memory>
    ensures parsed { IfOk result (λ parsing. IsDeclaration text.now (parsing_view declaration_view parsing)) }
{
    match lex(alloc, text.as_bytes()) {
        Ok(tokens) => spelled(parse_decl(alloc, &tokens)),
        Err(error) => unlexed(error),
    }
}

/// What the text of an arc's inscription, or of an initial marking, is parsed as.
///
/// # Errors
///
/// Memory is wanted. A text that is refused is an answer: the offset and the reason ([`Parsing`]).
pub fn inscription_in(alloc: Global, text: &str) -> Result<Parsing<Inscription>, Memory>
    ensures parsed { IfOk result (λ parsing. IsInscription text.now (parsing_view inscription_view parsing)) }
{
    match lex(alloc, text.as_bytes()) {
        Ok(tokens) => spelled(parse_expr(alloc, &tokens)),
        Err(error) => unlexed(error),
    }
}

/// What the text of a guard is parsed as.
///
/// # Errors
///
/// Memory is wanted. A text that is refused is an answer: the offset and the reason ([`Parsing`]).
pub fn guard_in(alloc: Global, text: &str) -> Result<Parsing<Guard>, Memory>
    ensures parsed { IfOk result (λ parsing. IsGuard text.now (parsing_view guard_view parsing)) }
{
    match lex(alloc, text.as_bytes()) {
        Ok(tokens) => spelled(parse_guard(alloc, &tokens)),
        Err(error) => unlexed(error),
    }
}

/// What the text of a delay is parsed as.
///
/// # Errors
///
/// Memory is wanted. A text that is refused is an answer: the offset and the reason ([`Parsing`]).
pub fn delay_in(alloc: Global, text: &str) -> Result<Parsing<Inscription>, Memory>
    ensures parsed { IfOk result (λ parsing. IsDelay text.now (parsing_view inscription_view parsing)) }
{
    match lex(alloc, text.as_bytes()) {
        Ok(tokens) => spelled(parse_delay(alloc, &tokens)),
        Err(error) => unlexed(error),
    }
}
