//! Names and reserved words.

ghost use Rattle.std.specs.Prelude.{◌≡◌, true, string_bytes, IfOk};
ghost use Rattle.std.specs.List.{list_all, prefix_len};
ghost use Rattle.cpn_lex.specs.Token.{kind_view};
ghost use Rattle.cpn_lex.specs.Symbols.{words};
ghost use Rattle.cpn_lex.specs.Lookup.{symbol_in};
ghost use Rattle.cpn_lex.specs.Lexis.{Fits, is_letter as letter, is_name_byte as name_byte};
ghost use Rattle.cpn_lex.specs.Fronts.{Begins, begins_with, named};

use crate::bytes::is_name_byte;
use crate::fronts::Front;
use crate::tokens::Kind;
use crate::words::word_of;
use std::alloc::{AllocError, Global};
use std::str;

/// How many bytes of names stand at the front of a text.
fn name_length(text: &[u8]) -> usize
    ensures { result ≡ prefix_len name_byte text.now }
{
    text.iter().take_while(|byte| is_name_byte(**byte)).count()
}

/// The bytes of a name as text.
fn name_text(name: &[u8]) -> &str
    requires { list_all name_byte name.now ≡ true }
    ensures { result.now ≡ name.now }
{
    match str::from_utf8(name) {
        Ok(text) => text,
        Err(_) => unreachable!(),
    }
}

/// What a name is: a reserved word, or no such word.
fn name_kind(alloc: Global, name: &str) -> Result<Kind, AllocError>
    ensures { IfOk result (λ kind. kind_view kind ≡ named (symbol_in words name.now) name.now) }
{
    match word_of(name) {
        Some(word) => Ok(Kind::Symbol(word)),
        None => {
            let name = String::from_str(alloc, name)?;
            Ok(Kind::Name(name))
        },
    }
}

/// The name or the reserved word at the front of a text that begins with a letter.
pub(crate) fn name_front(alloc: Global, text: &[u8]) -> Result<Front, AllocError>
    requires { begins_with letter text.now ≡ true }
    ensures ok { IfOk result (λ front. Begins text.now (kind_view front.kind) front.length) }
    ensures fits { IfOk result (λ front. Fits (kind_view front.kind)) }
{
    let length = name_length(text);
    let kind = name_kind(alloc, name_text(&text[..length]))?;
    Ok(Front { kind, length })
}
