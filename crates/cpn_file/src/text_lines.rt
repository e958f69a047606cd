//! The error lines of texts that are refused, and of the variables of transitions.

ghost use Rattle.std.specs.Prelude.{◌≡◌, IfOk, IfSome, codes, string_bytes};
ghost use Rattle.std.specs.Fmt.{decimal};
ghost use Rattle.cpn_declared.specs.Answers.{refusal_of as type_refusal_of, limit_view};
ghost use Rattle.cpn_text_refusals.specs.Answers.{text_refusal_of};
ghost use Rattle.cpn_text_refusals.specs.Refusals.{typing};
ghost use Rattle.cpn_file.specs.TextLines.{lexical_number as number_of_lexical, lexical_name as name_of_lexical, lexical_detail as detail_of_lexical, syntactic_number as number_of_syntactic, syntactic_name as name_of_syntactic, syntactic_detail as detail_of_syntactic, typing_number as number_of_typing, typing_name as name_of_typing, typing_detail as detail_of_typing, limit_name as name_of_limit, inscription_line, line_with};

use crate::pointer_texts::pointer_text;
use crate::spaces::spaced;
use cpn_core::Memory;
use cpn_document::Pointer;
use cpn_lex::LexError;
use cpn_syntax::SyntaxError;
use cpn_types::{InscriptionError, Limit, TypeError};
use std::alloc::Global;

fn lexical_name(error: LexError) -> &'static str
    ensures name { result.now ≡ name_of_lexical error }
{
    match error {
        LexError::Memory => "",
        LexError::BadByte(_) => "bad_byte",
        LexError::OpenString(_) => "open_string",
        LexError::NumberTooLarge(_) => "number_too_large",
        LexError::TooLong => "too_long",
    }
}

fn lexical_number(error: LexError) -> u64
    ensures number { result ≡ number_of_lexical error }
{
    match error {
        LexError::Memory => 0,
        LexError::BadByte(_) => 1,
        LexError::OpenString(_) => 2,
        LexError::NumberTooLarge(_) => 3,
        LexError::TooLong => 4,
    }
}

/// An offset as a text.
fn offset(alloc: Global, at: usize) -> Result<String, Memory>
    ensures text { IfOk result (λ text. string_bytes text ≡ decimal at) }
{
    let text = format!(in alloc; "{at}")?;
    Ok(text)
}

fn lexical_detail(alloc: Global, error: LexError) -> Result<String, Memory>
    ensures detail { IfOk result (λ text. string_bytes text ≡ detail_of_lexical error) }
{
    match error {
        LexError::Memory | LexError::TooLong => Ok(String::new(alloc)),
        LexError::BadByte(at) | LexError::OpenString(at) | LexError::NumberTooLarge(at) => {
            offset(alloc, at)
        }
    }
}

fn syntactic_name(error: SyntaxError) -> &'static str
    ensures name { result.now ≡ name_of_syntactic error }
{
    match error {
        SyntaxError::Memory => "",
        SyntaxError::Unexpected(_) => "unexpected",
        SyntaxError::EndOfText => "end_of_text",
        SyntaxError::TooDeep => "too_deep",
    }
}

fn syntactic_number(error: SyntaxError) -> u64
    ensures number { result ≡ number_of_syntactic error }
{
    match error {
        SyntaxError::Memory => 0,
        SyntaxError::Unexpected(_) => 1,
        SyntaxError::EndOfText => 2,
        SyntaxError::TooDeep => 3,
    }
}

fn syntactic_detail(alloc: Global, error: SyntaxError) -> Result<String, Memory>
    ensures detail { IfOk result (λ text. string_bytes text ≡ detail_of_syntactic error) }
{
    match error {
        SyntaxError::Memory | SyntaxError::EndOfText | SyntaxError::TooDeep => {
            Ok(String::new(alloc))
        }
        SyntaxError::Unexpected(at) => offset(alloc, at),
    }
}

fn typing_name(error: &TypeError) -> &'static str
    ensures name { IfSome (type_refusal_of error.now) (λ r. result.now ≡ name_of_typing r) }
{
    match error {
        TypeError::Memory => "",
        TypeError::Unknown(_) => "unknown",
        TypeError::Duplicate(_) => "duplicate",
        TypeError::Mismatch(_) => "mismatch",
        TypeError::NotClosed(_) => "not_closed",
        TypeError::NotBindable(_) => "not_bindable",
        TypeError::InputDelay(_) => "input_delay",
        TypeError::TimeNotAllowed(_) => "time_not_allowed",
        TypeError::TooMany(_) => "too_many",
        TypeError::EmptyColour(_) => "empty_colour",
    }
}

fn typing_number(error: &TypeError) -> u64
    ensures number { IfSome (type_refusal_of error.now) (λ r. result ≡ number_of_typing r) }
{
    match error {
        TypeError::Memory => 0,
        TypeError::Unknown(_) => 1,
        TypeError::Duplicate(_) => 2,
        TypeError::Mismatch(_) => 3,
        TypeError::NotClosed(_) => 4,
        TypeError::NotBindable(_) => 5,
        TypeError::InputDelay(_) => 6,
        TypeError::TimeNotAllowed(_) => 7,
        TypeError::TooMany(_) => 8,
        TypeError::EmptyColour(_) => 9,
    }
}

fn limit_name(limit: Limit) -> &'static str
    ensures name { result.now ≡ name_of_limit (limit_view limit) }
{
    match limit {
        Limit::Depth => "depth",
        Limit::Nodes => "nodes",
        Limit::Variables => "variables",
    }
}

fn typing_detail(alloc: Global, error: &TypeError) -> Result<String, Memory>
    ensures detail { IfOk result (λ text. IfSome (type_refusal_of error.now) (λ r. string_bytes text ≡ detail_of_typing r)) }
{
    let text = match error {
        TypeError::Memory => "",
        TypeError::Unknown(name) => name.as_str(),
        TypeError::Duplicate(name) => name.as_str(),
        TypeError::Mismatch(at) => return offset(alloc, *at),
        TypeError::NotClosed(name) => name.as_str(),
        TypeError::NotBindable(name) => name.as_str(),
        TypeError::InputDelay(at) => return offset(alloc, *at),
        TypeError::TimeNotAllowed(at) => return offset(alloc, *at),
        TypeError::TooMany(limit) => limit_name(*limit),
        TypeError::EmptyColour(name) => name.as_str(),
    };
    let text = String::from_str(alloc, text)?;
    Ok(text)
}

/// The line of a text that is refused, with its line feed.
pub(crate) fn text_line(
    alloc: Global,
    pointer: &str,
    part: &str,
    number: u64,
    name: &str,
    detail: &str,
) -> Result<String, Memory>
    ensures line { IfOk result (λ line. string_bytes line ≡ line_with pointer.now part.now number name.now detail.now) }
{
    let detail = spaced(alloc, detail)?;
    let detail = detail.as_str();
    let line = format!(in alloc; "error inscription {pointer} {part} {number} {name}{detail}\n")?;
    Ok(line)
}

/// The line of a text that has no tokens.
fn lexical_line(alloc: Global, pointer: &str, error: LexError) -> Result<String, Memory>
    ensures line { IfOk result (λ line. string_bytes line ≡ line_with pointer.now (codes "lex") (number_of_lexical error) (name_of_lexical error) (detail_of_lexical error)) }
{
    let detail = lexical_detail(alloc, error)?;
    let number = lexical_number(error);
    let name = lexical_name(error);
    let line = text_line(alloc, pointer, "lex", number, name, detail.as_str())?;
    Ok(line)
}

/// The line of a text whose tokens have no tree.
fn syntactic_line(alloc: Global, pointer: &str, error: SyntaxError) -> Result<String, Memory>
    ensures line { IfOk result (λ line. string_bytes line ≡ line_with pointer.now (codes "syntax") (number_of_syntactic error) (name_of_syntactic error) (detail_of_syntactic error)) }
{
    let detail = syntactic_detail(alloc, error)?;
    let number = syntactic_number(error);
    let name = syntactic_name(error);
    let line = text_line(alloc, pointer, "syntax", number, name, detail.as_str())?;
    Ok(line)
}

/// The line of a text, or of the variables of a transition, that a rule of typing refuses.
fn typing_line(alloc: Global, pointer: &str, error: &TypeError) -> Result<String, Memory>
    ensures line { IfOk result (λ line. IfSome (type_refusal_of error.now) (λ r. string_bytes line ≡ line_with pointer.now (codes "type") (number_of_typing r) (name_of_typing r) (detail_of_typing r))) }
{
    let detail = typing_detail(alloc, error)?;
    let number = typing_number(error);
    let name = typing_name(error);
    let line = text_line(alloc, pointer, "type", number, name, detail.as_str())?;
    Ok(line)
}

/// The line of the text, or the transition, at a pointer, that a rule of typing refuses, with its line feed.
///
/// # Errors
///
/// [`Memory`]: memory ran out.
pub fn typing_line_of(alloc: Global, pointer: Pointer, error: &TypeError) -> Result<String, Memory>
    ensures line { IfOk result (λ line. IfSome (type_refusal_of error.now) (λ r. string_bytes line ≡ inscription_line pointer (typing r))) }
{
    let pointer = pointer_text(alloc, pointer)?;
    typing_line(alloc, pointer.as_str(), error)
}

/// The line of the text, or the transition, at a pointer, that is refused, with its line feed.
///
/// # Errors
///
/// [`Memory`]: memory ran out, or the error is that it did.
pub fn inscription_line_of(
    alloc: Global,
    pointer: Pointer,
    error: &InscriptionError,
) -> Result<String, Memory>
    ensures line { IfOk result (λ line. IfSome (text_refusal_of error.now) (λ r. string_bytes line ≡ inscription_line pointer r)) }
{
    let pointer = pointer_text(alloc, pointer)?;
    let pointer = pointer.as_str();
    match error {
        InscriptionError::Memory => Err(Memory),
        InscriptionError::Lex(error) => lexical_line(alloc, pointer, *error),
        InscriptionError::Syntax(error) => syntactic_line(alloc, pointer, *error),
        InscriptionError::Typing(error) => typing_line(alloc, pointer, error),
    }
}
