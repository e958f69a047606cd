//! The reading of a declaration.

ghost use Rattle.std.specs.Prelude.{◌≡◌, ◌≢◌, IfOk, IfErr, ◌∷◌, map, string_bytes};
ghost use Rattle.cpn_lex.specs.Token.{PlainToken};
ghost use Rattle.cpn_lex.specs.Token as token;
ghost use Rattle.cpn_lex.specs.declared.symbols.Symbol.TheVariants as sign;
ghost use Rattle.cpn_syntax.specs.Completions.{Closes, nothing_more, semicolon};
ghost use Rattle.cpn_trees.specs.DeclTrees.{decl, alternative_view, parameter_view, body_view, form_view, decl_view};
ghost use Rattle.cpn_syntax.specs.Declarations.{SpellsAlternative, SpellsParameter, SpellsBody, SpellsForm, SpellsDecl};
ghost use Rattle.cpn_syntax.specs.Endings.{Anything, No, EndsBody};
ghost use Rattle.cpn_syntax.specs.Fragments.{ReadsAs, Halts};
ghost use Rattle.cpn_syntax.specs.Phrases.{Each, Names};
ghost use Rattle.cpn_syntax.specs.Texts.{Is};
ghost use Rattle.cpn_syntax.specs.Unread.{unread};
ghost use Rattle.cpn_syntax.specs.declared.refusals.SyntaxError.TheVariants as errors;

use crate::inscriptions::inscription;
use crate::readers::Reader;
use crate::refusals::SyntaxError;
use cpn_lex::{Kind, Symbol};
use cpn_trees::{Alternative, Body, Decl, DeclForm, Parameter};
use std::alloc::Global;

/// Reads a declaration with its semicolon.
pub fn declaration(alloc: Global, reader: &mut Reader) -> Result<Decl, SyntaxError>
    ensures read { IfOk result (λ d. ReadsAs SpellsDecl (Closes nothing_more) (unread reader.old) (unread reader.new) (decl_view d)) }
    ensures stops { IfErr result (λ e. e ≢ errors.Memory → Halts SpellsDecl (Closes nothing_more) (unread reader.old) e) }
{
    let Some(token) = reader.next() else {
        return Err(SyntaxError::EndOfText);
    };
    let at = token.at;
    let Kind::Symbol(symbol) = token.kind else {
        return Err(SyntaxError::Unexpected(at));
    };
    let form = form(alloc, reader, at, symbol)?;
    reader.take(Symbol::Semicolon)?;
    Ok(Decl { at, form })
}

/// What is declared behind a symbol.
fn form(
    alloc: Global,
    reader: &mut Reader,
    at: usize,
    symbol: Symbol,
) -> Result<DeclForm, SyntaxError>
    ensures read { IfOk result (λ f. ReadsAs SpellsForm (Closes semicolon) (record { kind = token.symbol symbol; at = at } ∷ unread reader.old) (unread reader.new) (decl at (form_view f))) }
    ensures stops { IfErr result (λ e. e ≢ errors.Memory → Halts SpellsForm (Closes semicolon) (record { kind = token.symbol symbol; at = at } ∷ unread reader.old) e) }
{
    match symbol {
        Symbol::Colset => colour_set(alloc, reader),
        Symbol::Var => variables(alloc, reader),
        Symbol::Val => value(alloc, reader),
        Symbol::Fun => function(alloc, reader),
        _ => Err(SyntaxError::Unexpected(at)),
    }
}

/// `N = body [timed]` behind `colset`.
fn colour_set(alloc: Global, reader: &mut Reader) -> Result<DeclForm, SyntaxError>
    ensures read { IfOk result (λ f. (t : PlainToken) → Is sign.Colset t → ReadsAs SpellsForm (Closes semicolon) (t ∷ unread reader.old) (unread reader.new) (decl t.at (form_view f))) }
    ensures stops { IfErr result (λ e. e ≢ errors.Memory → (t : PlainToken) → Is sign.Colset t → Halts SpellsForm (Closes semicolon) (t ∷ unread reader.old) e) }
{
    let name = reader.take_name(alloc)?;
    reader.take(Symbol::Equal)?;
    let body = body(alloc, reader)?;
    let timed = reader.accept(Symbol::Timed);
    Ok(DeclForm::ColourSet { name, body, timed })
}

/// `N {, N} : N` behind `var`.
fn variables(alloc: Global, reader: &mut Reader) -> Result<DeclForm, SyntaxError>
    ensures read { IfOk result (λ f. (t : PlainToken) → Is sign.Var t → ReadsAs SpellsForm (Closes semicolon) (t ∷ unread reader.old) (unread reader.new) (decl t.at (form_view f))) }
    ensures stops { IfErr result (λ e. e ≢ errors.Memory → (t : PlainToken) → Is sign.Var t → Halts SpellsForm (Closes semicolon) (t ∷ unread reader.old) e) }
{
    let names = names(alloc, reader, Symbol::Comma)?;
    reader.take(Symbol::Colon)?;
    let colour = reader.take_name(alloc)?;
    Ok(DeclForm::Variables { names, colour })
}

/// `N = e` behind `val`.
fn value(alloc: Global, reader: &mut Reader) -> Result<DeclForm, SyntaxError>
    ensures read { IfOk result (λ f. (t : PlainToken) → Is sign.Val t → ReadsAs SpellsForm (Closes semicolon) (t ∷ unread reader.old) (unread reader.new) (decl t.at (form_view f))) }
    ensures stops { IfErr result (λ e. e ≢ errors.Memory → (t : PlainToken) → Is sign.Val t → Halts SpellsForm (Closes semicolon) (t ∷ unread reader.old) e) }
{
    let name = reader.take_name(alloc)?;
    reader.take(Symbol::Equal)?;
    let value = inscription(alloc, reader)?;
    Ok(DeclForm::Value { name, value })
}

/// `N ( N : N {, N : N} ) : N = e` behind `fun`.
fn function(alloc: Global, reader: &mut Reader) -> Result<DeclForm, SyntaxError>
    ensures read { IfOk result (λ f. (t : PlainToken) → Is sign.Fun t → ReadsAs SpellsForm (Closes semicolon) (t ∷ unread reader.old) (unread reader.new) (decl t.at (form_view f))) }
    ensures stops { IfErr result (λ e. e ≢ errors.Memory → (t : PlainToken) → Is sign.Fun t → Halts SpellsForm (Closes semicolon) (t ∷ unread reader.old) e) }
{
    let name = reader.take_name(alloc)?;
    reader.take(Symbol::OpenParenthesis)?;
    let parameters = parameters(alloc, reader)?;
    reader.take(Symbol::CloseParenthesis)?;
    reader.take(Symbol::Colon)?;
    let result = reader.take_name(alloc)?;
    reader.take(Symbol::Equal)?;
    let body = inscription(alloc, reader)?;
    Ok(DeclForm::Function {
        name,
        parameters,
        result,
        body,
    })
}

/// The body of a colour set.
fn body(alloc: Global, reader: &mut Reader) -> Result<Body, SyntaxError>
    ensures read { IfOk result (λ b. ReadsAs SpellsBody EndsBody (unread reader.old) (unread reader.new) (body_view b)) }
    ensures stops { IfErr result (λ e. e ≢ errors.Memory → Halts SpellsBody EndsBody (unread reader.old) e) }
{
    let Some(token) = reader.next() else {
        return Err(SyntaxError::EndOfText);
    };
    match &token.kind {
        Kind::Name(name) => Ok(Body::Named(String::from_str(alloc, name.as_str())?)),
        Kind::Symbol(symbol) => body_behind(alloc, reader, token.at, *symbol),
        _ => Err(SyntaxError::Unexpected(token.at)),
    }
}

/// The body of a colour set that begins with a symbol.
fn body_behind(
    alloc: Global,
    reader: &mut Reader,
    at: usize,
    symbol: Symbol,
) -> Result<Body, SyntaxError>
    ensures read { IfOk result (λ b. ReadsAs SpellsBody EndsBody (record { kind = token.symbol symbol; at = at } ∷ unread reader.old) (unread reader.new) (body_view b)) }
    ensures stops { IfErr result (λ e. e ≢ errors.Memory → Halts SpellsBody EndsBody (record { kind = token.symbol symbol; at = at } ∷ unread reader.old) e) }
{
    match symbol {
        Symbol::Unit => Ok(Body::Unit),
        Symbol::Bool => Ok(Body::Bool),
        Symbol::Int => int_body(reader),
        Symbol::String => Ok(Body::String),
        Symbol::With => Ok(Body::Enumeration(names(alloc, reader, Symbol::Bar)?)),
        Symbol::Product => product(alloc, reader),
        Symbol::List => Ok(Body::List(reader.take_name(alloc)?)),
        Symbol::Union => Ok(Body::Union(alternatives(alloc, reader)?)),
        _ => Err(SyntaxError::Unexpected(at)),
    }
}

/// `[with num .. num]` behind `int`.
fn int_body(reader: &mut Reader) -> Result<Body, SyntaxError>
    ensures read { IfOk result (λ b. (t : PlainToken) → Is sign.Int t → ReadsAs SpellsBody EndsBody (t ∷ unread reader.old) (unread reader.new) (body_view b)) }
    ensures stops { IfErr result (λ e. (t : PlainToken) → Is sign.Int t → Halts SpellsBody EndsBody (t ∷ unread reader.old) e) }
{
    if !reader.accept(Symbol::With) {
        return Ok(Body::Int);
    }
    let low = reader.take_number()?;
    reader.take(Symbol::DoubleDot)?;
    let high = reader.take_number()?;
    Ok(Body::IntRange { low, high })
}

/// `N * N {* N}` behind `product`.
fn product(alloc: Global, reader: &mut Reader) -> Result<Body, SyntaxError>
    ensures read { IfOk result (λ b. (t : PlainToken) → Is sign.Product t → ReadsAs SpellsBody EndsBody (t ∷ unread reader.old) (unread reader.new) (body_view b)) }
    ensures stops { IfErr result (λ e. e ≢ errors.Memory → (t : PlainToken) → Is sign.Product t → Halts SpellsBody EndsBody (t ∷ unread reader.old) e) }
{
    let first = reader.take_name(alloc)?;
    reader.take(Symbol::Star)?;
    let mut components = names(alloc, reader, Symbol::Star)?;
    components.insert(0, first)?;
    Ok(Body::Product(components))
}

/// Names, each but the first behind the separator.
fn names(alloc: Global, reader: &mut Reader, separator: Symbol) -> Result<Vec<String>, SyntaxError>
    ensures read { IfOk result (λ ns. ReadsAs (Names separator) (No separator) (unread reader.old) (unread reader.new) (map string_bytes ns.items)) }
    ensures stops { IfErr result (λ e. e ≢ errors.Memory → Halts (Names separator) (No separator) (unread reader.old) e) }
{
    let mut names = Vec::new(alloc);
    loop {
        let name = reader.take_name(alloc)?;
        names.push(name)?;
        if !reader.accept(separator) {
            return Ok(names);
        }
    }
}

/// `N : N {, N : N}`
fn parameters(alloc: Global, reader: &mut Reader) -> Result<Vec<Parameter>, SyntaxError>
    ensures read { IfOk result (λ ps. ReadsAs (Each SpellsParameter sign.Comma) (No sign.Comma) (unread reader.old) (unread reader.new) (map parameter_view ps.items)) }
    ensures stops { IfErr result (λ e. e ≢ errors.Memory → Halts (Each SpellsParameter sign.Comma) (No sign.Comma) (unread reader.old) e) }
{
    let mut parameters = Vec::new(alloc);
    loop {
        let parameter = parameter(alloc, reader)?;
        parameters.push(parameter)?;
        if !reader.accept(Symbol::Comma) {
            return Ok(parameters);
        }
    }
}

/// `N : N`
fn parameter(alloc: Global, reader: &mut Reader) -> Result<Parameter, SyntaxError>
    ensures read { IfOk result (λ p. ReadsAs SpellsParameter Anything (unread reader.old) (unread reader.new) (parameter_view p)) }
    ensures stops { IfErr result (λ e. e ≢ errors.Memory → Halts SpellsParameter Anything (unread reader.old) e) }
{
    let name = reader.take_name(alloc)?;
    reader.take(Symbol::Colon)?;
    let colour = reader.take_name(alloc)?;
    Ok(Parameter { name, colour })
}

/// `alt {+ alt}` behind `union`.
fn alternatives(alloc: Global, reader: &mut Reader) -> Result<Vec<Alternative>, SyntaxError>
    ensures read { IfOk result (λ found. ReadsAs (Each SpellsAlternative sign.Plus) EndsBody (unread reader.old) (unread reader.new) (map alternative_view found.items)) }
    ensures stops { IfErr result (λ e. e ≢ errors.Memory → Halts (Each SpellsAlternative sign.Plus) EndsBody (unread reader.old) e) }
{
    let mut alternatives = Vec::new(alloc);
    loop {
        let alternative = alternative(alloc, reader)?;
        alternatives.push(alternative)?;
        if !reader.accept(Symbol::Plus) {
            return Ok(alternatives);
        }
    }
}

/// `N [: N]`
fn alternative(alloc: Global, reader: &mut Reader) -> Result<Alternative, SyntaxError>
    ensures read { IfOk result (λ a. ReadsAs SpellsAlternative (No sign.Colon) (unread reader.old) (unread reader.new) (alternative_view a)) }
    ensures stops { IfErr result (λ e. e ≢ errors.Memory → Halts SpellsAlternative (No sign.Colon) (unread reader.old) e) }
{
    let constructor = reader.take_name(alloc)?;
    if !reader.accept(Symbol::Colon) {
        return Ok(Alternative {
            constructor,
            argument: None,
        });
    }
    let colour = reader.take_name(alloc)?;
    Ok(Alternative {
        constructor,
        argument: Some(colour),
    })
}
