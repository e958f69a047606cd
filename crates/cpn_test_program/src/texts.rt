//! What a text of the inscription language is answered: its tokens, its tree, or why it is refused. The answers are those of the lexer,
//! the parsers and the checks.

use crate::declarations::tell_declaration;
use crate::trees::{tell, tell_each};
use crate::values::tell_value;
use cpn_lex::{Tokens, lex};
use cpn_syntax::{SyntaxError, parse_decl, parse_delay, parse_expr, parse_guard, parse_mset};
use std::alloc::{AllocError, Global};

/// What a text is read as.
#[derive(Clone, Copy)]
pub enum Kind {
    /// Tokens.
    Tokens,
    /// An inscription.
    Inscription,
    /// A multiset, as an arc or an initial marking may have.
    Multiset,
    /// A declaration.
    Declaration,
    /// A guard.
    Guard,
    /// The delay of a transition.
    Delay,
    /// What a monitor measures.
    Value,
}

/// The kind of text that a word names. `None` where it names none.
pub fn kind_in(word: &str) -> Option<Kind> {
    let kind = match word {
        "tokens" => Kind::Tokens,
        "inscription" => Kind::Inscription,
        "multiset" => Kind::Multiset,
        "declaration" => Kind::Declaration,
        "guard" => Kind::Guard,
        "delay" => Kind::Delay,
        "value" => Kind::Value,
        _ => return None,
    };
    Some(kind)
}

/// What the text is answered, as one of the kind: what is made of it, or why it is refused. A value is checked over the declarations.
pub fn answered(
    alloc: Global,
    kind: Kind,
    declarations: &[String],
    text: &[u8],
) -> Result<String, AllocError> {
    let tokens = match lex(alloc, text) {
        Ok(tokens) => tokens,
        Err(error) => return format!(in alloc; "{error:?}"),
    };
    let mut out = String::new(alloc);
    match tell_read(&mut out, alloc, kind, declarations, &tokens) {
        Ok(()) => Ok(out),
        Err(error) => format!(in alloc; "{error:?}"),
    }
}

/// Writes what is made of the tokens.
fn tell_read(
    out: &mut String,
    alloc: Global,
    kind: Kind,
    declarations: &[String],
    tokens: &Tokens,
) -> Result<(), SyntaxError> {
    match kind {
        Kind::Tokens => Ok(tell_tokens(out, tokens)?),
        Kind::Inscription => tell_inscription(out, alloc, tokens),
        Kind::Multiset => tell_multiset(out, alloc, tokens),
        Kind::Declaration => tell_declared(out, alloc, tokens),
        Kind::Guard => tell_guard(out, alloc, tokens),
        Kind::Delay => tell_delay(out, alloc, tokens),
        Kind::Value => Ok(tell_value(out, alloc, declarations, tokens)?),
    }
}

/// Writes the tokens, each with its place.
fn tell_tokens(out: &mut String, tokens: &Tokens) -> Result<(), AllocError> {
    for token in tokens {
        let kind = &token.kind;
        let at = token.at;
        let blank = if out.is_empty() { "" } else { " " };
        write!(out, "{blank}{kind:?}@{at}")?;
    }
    Ok(())
}

fn tell_inscription(out: &mut String, alloc: Global, tokens: &Tokens) -> Result<(), SyntaxError> {
    let read = parse_expr(alloc, tokens)?;
    Ok(tell(out, &read.tree)?)
}

fn tell_multiset(out: &mut String, alloc: Global, tokens: &Tokens) -> Result<(), SyntaxError> {
    let read = parse_mset(alloc, tokens)?;
    Ok(tell(out, &read.tree)?)
}

fn tell_delay(out: &mut String, alloc: Global, tokens: &Tokens) -> Result<(), SyntaxError> {
    let read = parse_delay(alloc, tokens)?;
    Ok(tell(out, &read.tree)?)
}

/// Writes the conjuncts of a guard, as those of a list.
fn tell_guard(out: &mut String, alloc: Global, tokens: &Tokens) -> Result<(), SyntaxError> {
    let read = parse_guard(alloc, tokens)?;
    out.push_str("[0,\"guard\"")?;
    tell_each(out, &read.conjuncts)?;
    Ok(out.push_str("]")?)
}

fn tell_declared(out: &mut String, alloc: Global, tokens: &Tokens) -> Result<(), SyntaxError> {
    let read = parse_decl(alloc, tokens)?;
    Ok(tell_declaration(out, &read.tree)?)
}
