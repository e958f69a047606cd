//! What the next tokens begin, where a part of an inscription is read next.

ghost use Rattle.std.specs.Prelude.{◌≡◌, ◌≢◌, ◌<◌, ◌≤◌, IfOk, OnOk, IfErr, ◌∷◌, length, string_bytes};
ghost use Rattle.cpn_lex.specs.declared.symbols.Symbol.TheVariants as sign;
ghost use Rattle.cpn_lex.specs.Token as token;
ghost use Rattle.cpn_syntax.specs.OpenForms.{Opens, wants, front};
ghost use Rattle.cpn_syntax.specs.ReadForms.{want, have};
ghost use Rattle.cpn_trees.specs.Trees.{ast};
ghost use Rattle.cpn_trees.specs.AstViews.{form_view};
ghost use Rattle.cpn_syntax.specs.Steps.{Comes, BreaksOff, next_state};
ghost use Rattle.cpn_syntax.specs.Unread.{unread};
ghost use Rattle.cpn_syntax.specs.declared.refusals.SyntaxError.TheVariants as errors;

use crate::open_forms::{Next, Open, OpenFold, Part};
use crate::readers::Reader;
use crate::refusals::SyntaxError;
use cpn_lex::{Kind, Symbol};
use cpn_trees::{Ast, Form, Prefix};
use std::alloc::Global;

/// Reads the tokens that begin a part which has to bind so tightly.
pub fn begin(alloc: Global, reader: &mut Reader, least: u8) -> Result<Next, SyntaxError>
    ensures shorter { OnOk result (length (unread reader.new) < length (unread reader.old)) }
    ensures begun { IfOk result (λ b. (st : Opens) → wants st ≡ least → Comes (want st) (unread reader.old) (next_state b st) (unread reader.new)) }
    ensures stops { IfErr result (λ e. e ≢ errors.Memory → (st : Opens) → wants st ≡ least → BreaksOff (want st) (unread reader.old) e) }
{
    let Some(token) = reader.next() else {
        return Err(SyntaxError::EndOfText);
    };
    let at = token.at;
    match &token.kind {
        Kind::Number(number) => Ok(operand(at, Form::Number(*number))),
        Kind::Text(text) => {
            let text = String::from_str(alloc, text.as_str())?;
            Ok(operand(at, Form::Text(text)))
        }
        Kind::Name(name) => {
            let name = String::from_str(alloc, name.as_str())?;
            Ok(begin_name(alloc, reader, at, name))
        }
        Kind::Symbol(symbol) => begin_symbol(alloc, reader, least, at, *symbol),
    }
}

/// What a symbol and the tokens behind it begin.
fn begin_symbol(
    alloc: Global,
    reader: &mut Reader,
    least: u8,
    at: usize,
    symbol: Symbol,
) -> Result<Next, SyntaxError>
    ensures no_longer { OnOk result (length (unread reader.new) ≤ length (unread reader.old)) }
    ensures begun { IfOk result (λ b. (st : Opens) → wants st ≡ least → Comes (want st) (record { kind = token.symbol symbol; at = at } ∷ unread reader.old) (next_state b st) (unread reader.new)) }
    ensures stops { IfErr result (λ e. e ≢ errors.Memory → (st : Opens) → wants st ≡ least → BreaksOff (want st) (record { kind = token.symbol symbol; at = at } ∷ unread reader.old) e) }
{
    match symbol {
        Symbol::If if least <= 1 => Ok(Next::Form(Open::Condition { at })),
        Symbol::Case if least == 0 => Ok(Next::Form(Open::Subject { at })),
        Symbol::Foldl if least <= 1 => begin_fold(alloc, reader, at),
        Symbol::Not => Ok(front(at, Prefix::Not)),
        Symbol::Tilde => Ok(front(at, Prefix::Negate)),
        Symbol::Hash => {
            let number = reader.take_number()?;
            Ok(front(at, Prefix::Component(number)))
        }
        Symbol::True => Ok(operand(at, Form::Truth(true))),
        Symbol::False => Ok(operand(at, Form::Truth(false))),
        Symbol::Empty => Ok(operand(at, Form::Empty)),
        Symbol::Time => Ok(operand(at, Form::Time)),
        Symbol::OpenParenthesis => Ok(begin_parenthesis(alloc, reader, at)),
        Symbol::OpenBracket => Ok(begin_bracket(alloc, reader, at)),
        Symbol::Let => begin_let(alloc, reader, at),
        _ => Err(SyntaxError::Unexpected(at)),
    }
}

/// An operand that is one token.
fn operand(at: usize, form: Form) -> Next
    ensures { (st : Opens) → next_state result st ≡ have at 11 (ast at (form_view form)) st }
{
    Next::Part(Part {
        start: at,
        precedence: 11,
        tree: Ast { at, form },
    })
}

/// An operator in front of its operand.
fn front(at: usize, operator: Prefix) -> Next
    ensures { (st : Opens) → next_state result st ≡ want (front at operator ∷ st) }
{
    Next::Form(Open::Front { at, operator })
}

/// A name alone, or with the parenthesis of a call behind it.
fn begin_name(alloc: Global, reader: &mut Reader, at: usize, name: String) -> Next
    ensures no_longer { length (unread reader.new) ≤ length (unread reader.old) }
    ensures begun { (st : Opens) → Comes (want st) (record { kind = token.name (string_bytes name); at = at } ∷ unread reader.old) (next_state result st) (unread reader.new) }
{
    if !reader.accept(Symbol::OpenParenthesis) {
        return operand(at, Form::Name(name));
    }
    Next::Form(Open::Arguments {
        at,
        function: name,
        parts: Vec::new(alloc),
    })
}

/// `()`, or the parenthesis of a group.
fn begin_parenthesis(alloc: Global, reader: &mut Reader, at: usize) -> Next
    ensures no_longer { length (unread reader.new) ≤ length (unread reader.old) }
    ensures begun { (st : Opens) → Comes (want st) (record { kind = token.symbol sign.OpenParenthesis; at = at } ∷ unread reader.old) (next_state result st) (unread reader.new) }
{
    if reader.accept(Symbol::CloseParenthesis) {
        return operand(at, Form::Unit);
    }
    Next::Form(Open::Group {
        at,
        parts: Vec::new(alloc),
    })
}

/// `[]`, or the bracket of a list.
fn begin_bracket(alloc: Global, reader: &mut Reader, at: usize) -> Next
    ensures no_longer { length (unread reader.new) ≤ length (unread reader.old) }
    ensures begun { (st : Opens) → Comes (want st) (record { kind = token.symbol sign.OpenBracket; at = at } ∷ unread reader.old) (next_state result st) (unread reader.new) }
{
    if reader.accept(Symbol::CloseBracket) {
        return operand(at, Form::List(Vec::new(alloc)));
    }
    Next::Form(Open::Items {
        at,
        parts: Vec::new(alloc),
    })
}

/// `N , N over` behind `foldl`.
fn begin_fold(alloc: Global, reader: &mut Reader, at: usize) -> Result<Next, SyntaxError>
    ensures no_longer { OnOk result (length (unread reader.new) ≤ length (unread reader.old)) }
    ensures begun { IfOk result (λ n. (st : Opens) → wants st ≤ 1 → Comes (want st) (record { kind = token.symbol sign.Foldl; at = at } ∷ unread reader.old) (next_state n st) (unread reader.new)) }
    ensures stops { IfErr result (λ e. e ≢ errors.Memory → (st : Opens) → wants st ≤ 1 → BreaksOff (want st) (record { kind = token.symbol sign.Foldl; at = at } ∷ unread reader.old) e) }
{
    let item = reader.take_name(alloc)?;
    reader.take(Symbol::Comma)?;
    let sum = reader.take_name(alloc)?;
    reader.take(Symbol::Over)?;
    let fold = OpenFold::List { item, sum };
    Ok(Next::Form(Open::Fold { at, fold }))
}

/// `val N =` behind `let`.
fn begin_let(alloc: Global, reader: &mut Reader, at: usize) -> Result<Next, SyntaxError>
    ensures no_longer { OnOk result (length (unread reader.new) ≤ length (unread reader.old)) }
    ensures begun { IfOk result (λ n. (st : Opens) → Comes (want st) (record { kind = token.symbol sign.Let; at = at } ∷ unread reader.old) (next_state n st) (unread reader.new)) }
    ensures stops { IfErr result (λ e. e ≢ errors.Memory → (st : Opens) → BreaksOff (want st) (record { kind = token.symbol sign.Let; at = at } ∷ unread reader.old) e) }
{
    reader.take(Symbol::Val)?;
    let name = reader.take_name(alloc)?;
    reader.take(Symbol::Equal)?;
    Ok(Next::Form(Open::Local {
        at,
        values: Vec::new(alloc),
        name,
    }))
}
