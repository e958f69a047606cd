//! The token at the front of a text.

ghost use Rattle.std.specs.Prelude.{◌≡◌, ◌+◌, ◌<◌, ◌^◌, length, false, IfOk, IfErr};
ghost use Rattle.cpn_lex.specs.Token.{kind_view};
ghost use Rattle.cpn_lex.specs.Lexis.{Fits, is_blank as blank};
ghost use Rattle.cpn_lex.specs.Refusals.{BreaksAt};
ghost use Rattle.cpn_lex.specs.Fronts.{Begins, Says, begins_with};

use crate::bytes::is_letter;
use crate::names::name_front;
use crate::numbers::{begins_number, number_front};
use crate::refusals::LexError;
use crate::signs::sign_front;
use crate::strings::string_front;
use crate::tokens::Kind;
use std::alloc::Global;

/// The token at the front of a text, and how many bytes it has.
#[derive(Drop)]
pub(crate) struct Front {
    pub(crate) kind: Kind,
    pub(crate) length: usize,
}

/// The token at the front of a text that stands at the offset and begins with no blank.
pub(crate) fn front_of(alloc: Global, text: &[u8], at: usize) -> Result<Front, LexError>
    requires some { 0 < length text.now }
    requires no_blank { begins_with blank text.now ≡ false }
    requires room { at + length text.now < 2 ^ 64 }
    ensures ok { IfOk result (λ front. Begins text.now (kind_view front.kind) front.length) }
    ensures fits { IfOk result (λ front. Fits (kind_view front.kind)) }
    ensures err { IfErr result (Says (BreaksAt at text.now)) }
{
    let first = text[0];
    if is_letter(first) {
        let front = name_front(alloc, text)?;
        return Ok(front);
    }
    if begins_number(text) {
        return number_front(text, at);
    }
    if first == b'"' {
        return string_front(alloc, text, at);
    }
    match sign_front(text) {
        Some(front) => Ok(front),
        None => Err(LexError::BadByte(at)),
    }
}
