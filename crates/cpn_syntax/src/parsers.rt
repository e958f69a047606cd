//! The parsers of whole texts.

ghost use Rattle.std.specs.Prelude.{◌≡◌, ◌≢◌, ◌<◌, ◌≤◌, ◌⊎◌, Bool, true, false, IfOk, IfErr, MatchResult, [], map};
ghost use Rattle.cpn_lex.specs.Token.{tokens_view};
ghost use Rattle.cpn_lex.specs.declared.symbols.Symbol.TheVariants as sign;
ghost use Rattle.cpn_trees.specs.AstViews.{ast_view, asts_view};
ghost use Rattle.cpn_syntax.specs.Completions.{Closes, nothing_more};
ghost use Rattle.cpn_trees.specs.DeclTrees.{PlainDecl, decl_view};
ghost use Rattle.cpn_syntax.specs.Declarations.{SpellsDecl};
ghost use Rattle.cpn_syntax.specs.Delays.{SpellsDelay};
ghost use Rattle.cpn_trees.specs.Depth.{depth, deepest, decl_depth};
ghost use Rattle.cpn_syntax.specs.Faults.{fault_at};
ghost use Rattle.cpn_syntax.specs.Fragments.{Halts};
ghost use Rattle.cpn_syntax.specs.Guards.{SpellsGuard, conjuncts_of};
ghost use Rattle.cpn_syntax.specs.Inscriptions.{Spells};
ghost use Rattle.cpn_trees.specs.ParsedViews.{inscription_view, guard_view, declaration_view};
ghost use Rattle.cpn_syntax.specs.Parses.{SpellsOnly, Parses};
ghost use Rattle.cpn_syntax.specs.Texts.{Is};
ghost use Rattle.cpn_trees.specs.Trees.{PlainAst, PlainAsts, no_ast, more_asts, asts_from};
ghost use Rattle.cpn_syntax.specs.Unread.{unread, Begins};
ghost use Rattle.cpn_syntax.specs.declared.refusals.SyntaxError.TheVariants as errors;

use crate::declarations::declaration;
use crate::inscriptions::inscription;
use crate::readers::Reader;
use crate::refusals::SyntaxError;
use cpn_lex::{Symbol, Token, Tokens};
use cpn_trees::{
    Ast, Asts, Decl, Declaration, Form, Guard, Inscription, is_any_deeper, is_declaration_deeper,
    is_deeper,
};
use std::alloc::{AllocError, Global};

/// How deep a tree may be.
const MOST_LEVELS: u8 = 64;

/// The declaration that the tokens are, up to its semicolon.
///
/// It stands one level over its inscription, if it has one.
///
/// # Errors
///
/// - [`SyntaxError::Unexpected`]: the first token after whose reading no declaration can follow, by its offset.
/// - [`SyntaxError::EndOfText`]: the tokens begin a declaration, and are none themselves.
/// - [`SyntaxError::TooDeep`]: the tokens are a declaration, but its tree is deeper than 64.
/// - [`SyntaxError::Memory`]: memory ran out.
pub fn parse_decl(alloc: Global, tokens: &Tokens) -> Result<Declaration, SyntaxError>
    ensures { Parses declaration_view SpellsDecl decl_depth (tokens_view tokens.now.items) result }
{
    let found = whole_declaration(alloc, tokens.as_slice())?;
    if is_declaration_deeper(&found, MOST_LEVELS) {
        return Err(SyntaxError::TooDeep);
    }
    Ok(Declaration { tree: found })
}

/// The inscription that the tokens are, as it stands on an arc.
///
/// # Errors
///
/// - [`SyntaxError::Unexpected`]: the first token after whose reading no inscription can follow, by its offset.
/// - [`SyntaxError::EndOfText`]: the tokens begin an inscription, and are none themselves.
/// - [`SyntaxError::TooDeep`]: the tokens are an inscription, but its tree is deeper than 64.
/// - [`SyntaxError::Memory`]: memory ran out.
pub fn parse_expr(alloc: Global, tokens: &Tokens) -> Result<Inscription, SyntaxError>
    ensures { Parses inscription_view (Spells 0) depth (tokens_view tokens.now.items) result }
{
    let found = whole_inscription(alloc, tokens.as_slice())?;
    if is_deeper(&found, MOST_LEVELS) {
        return Err(SyntaxError::TooDeep);
    }
    Ok(Inscription { tree: found })
}

/// The inscription of a multiset that the tokens are, as it stands for an initial marking.
///
/// The grammar of multisets is that of inscriptions: [`parse_expr`] answers the same.
///
/// # Errors
///
/// - [`SyntaxError::Unexpected`]: the first token after whose reading no inscription can follow, by its offset.
/// - [`SyntaxError::EndOfText`]: the tokens begin an inscription, and are none themselves.
/// - [`SyntaxError::TooDeep`]: the tokens are an inscription, but its tree is deeper than 64.
/// - [`SyntaxError::Memory`]: memory ran out.
pub fn parse_mset(alloc: Global, tokens: &Tokens) -> Result<Inscription, SyntaxError>
    ensures { Parses inscription_view (Spells 0) depth (tokens_view tokens.now.items) result }
{
    parse_expr(alloc, tokens)
}

/// The conjuncts of the guard that the tokens are: the items of its brackets, or else the one inscription.
///
/// Where one pair of brackets with an item encloses the whole text, they are the guard's, and no list.
///
/// # Errors
///
/// - [`SyntaxError::Unexpected`]: the first token after whose reading no guard can follow, by its offset.
/// - [`SyntaxError::EndOfText`]: the tokens begin a guard, and are none themselves.
/// - [`SyntaxError::TooDeep`]: the tokens are a guard, but a conjunct is deeper than 64.
/// - [`SyntaxError::Memory`]: memory ran out.
pub fn parse_guard(alloc: Global, tokens: &Tokens) -> Result<Guard, SyntaxError>
    ensures { Parses guard_view SpellsGuard deepest (tokens_view tokens.now.items) result }
{
    let found = whole_guard(alloc, tokens.as_slice())?;
    if is_any_deeper(found.as_slice(), MOST_LEVELS) {
        return Err(SyntaxError::TooDeep);
    }
    Ok(Guard { conjuncts: found })
}

/// The inscription of the delay that the tokens are, without the `@+` that may stand in front of it.
///
/// # Errors
///
/// - [`SyntaxError::Unexpected`]: the first token after whose reading no delay can follow, by its offset.
/// - [`SyntaxError::EndOfText`]: the tokens begin a delay, and are none themselves.
/// - [`SyntaxError::TooDeep`]: the tokens are a delay, but its tree is deeper than 64.
/// - [`SyntaxError::Memory`]: memory ran out.
pub fn parse_delay(alloc: Global, tokens: &Tokens) -> Result<Inscription, SyntaxError>
    ensures { Parses inscription_view SpellsDelay depth (tokens_view tokens.now.items) result }
{
    let found = whole_delay(alloc, tokens.as_slice())?;
    if is_deeper(&found, MOST_LEVELS) {
        return Err(SyntaxError::TooDeep);
    }
    Ok(Inscription { tree: found })
}

/// The inscription that the tokens are, however deep.
fn whole_inscription(alloc: Global, tokens: &[Token]) -> Result<Ast, SyntaxError>
    ensures read { IfOk result (λ found. SpellsOnly (Spells 0) (tokens_view tokens.now) (ast_view found)) }
    ensures stops { IfErr result (λ e. e ≢ errors.Memory → Halts (Spells 0) (Closes nothing_more) (tokens_view tokens.now) e) }
{
    let mut reader = Reader::new(tokens);
    let found = inscription(alloc, &mut reader)?;
    nothing_left(&mut reader)?;
    Ok(found)
}

/// The declaration that the tokens are, however deep.
fn whole_declaration(alloc: Global, tokens: &[Token]) -> Result<Decl, SyntaxError>
    ensures read { IfOk result (λ found. SpellsOnly SpellsDecl (tokens_view tokens.now) (decl_view found)) }
    ensures stops { IfErr result (λ e. e ≢ errors.Memory → Halts SpellsDecl (Closes nothing_more) (tokens_view tokens.now) e) }
{
    let mut reader = Reader::new(tokens);
    let found = declaration(alloc, &mut reader)?;
    nothing_left(&mut reader)?;
    Ok(found)
}

/// The inscription of the delay that the tokens are, however deep.
fn whole_delay(alloc: Global, tokens: &[Token]) -> Result<Ast, SyntaxError>
    ensures read { IfOk result (λ found. SpellsOnly SpellsDelay (tokens_view tokens.now) (ast_view found)) }
    ensures stops { IfErr result (λ e. e ≢ errors.Memory → Halts SpellsDelay (Closes nothing_more) (tokens_view tokens.now) e) }
{
    let mut reader = Reader::new(tokens);
    reader.accept(Symbol::AtPlus);
    let found = inscription(alloc, &mut reader)?;
    nothing_left(&mut reader)?;
    Ok(found)
}

/// The conjuncts of the guard that the tokens are, however deep.
fn whole_guard(alloc: Global, tokens: &[Token]) -> Result<Asts, SyntaxError>
    ensures read { IfOk result (λ found. SpellsOnly SpellsGuard (tokens_view tokens.now) (asts_view found)) }
    ensures stops { IfErr result (λ e. e ≢ errors.Memory → Halts SpellsGuard (Closes nothing_more) (tokens_view tokens.now) e) }
{
    let tree = whole_inscription(alloc, tokens)?;
    let bracketed = begins_with_bracket(tokens);
    let found = conjuncts(alloc, tree, bracketed)?;
    Ok(found)
}

/// Refuses a token that is left.
fn nothing_left(reader: &mut Reader) -> Result<(), SyntaxError>
    ensures done { IfOk result (λ _. unread reader.old ≡ []) }
    ensures left { IfErr result (λ e. (e ≡ fault_at (unread reader.old)) × (unread reader.old ≢ [])) }
{
    match reader.next() {
        Some(token) => Err(SyntaxError::Unexpected(token.at)),
        None => Ok(()),
    }
}

/// Whether the first token is an open bracket.
fn begins_with_bracket(tokens: &[Token]) -> bool
    ensures yes { result ≡ true → Begins (Is sign.OpenBracket) (tokens_view tokens.now) }
    ensures no { result ≡ false → Begins (Is sign.OpenBracket) (tokens_view tokens.now) → ⊥ }
{
    let mut reader = Reader::new(tokens);
    reader.accept(Symbol::OpenBracket)
}

/// The conjuncts of a guard, of which the tree was read.
fn conjuncts(alloc: Global, tree: Ast, bracketed: bool) -> Result<Asts, AllocError>
    ensures { IfOk result (λ found. asts_view found ≡ conjuncts_of (ast_view tree) bracketed) }
{
    if !bracketed {
        return alone(alloc, tree);
    }
    let (at, form) = tree.into_parts();
    match form {
        Form::List(parts) => {
            if parts.is_empty() {
                let form = Form::List(parts);
                return alone(alloc, Ast { at, form });
            }
            Ok(parts)
        }
        form => alone(alloc, Ast { at, form }),
    }
}

/// The one inscription.
fn alone(alloc: Global, tree: Ast) -> Result<Asts, AllocError>
    ensures { IfOk result (λ found. asts_view found ≡ more_asts (ast_view tree) no_ast) }
{
    let mut found = Vec::new(alloc);
    found.push(tree)?;
    Ok(found)
}
