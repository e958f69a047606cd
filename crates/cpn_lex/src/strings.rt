//! Strings.

ghost use Rattle.std.specs.Prelude.{◌≡◌, ◌+◌, ◌<◌, ◌^◌, length, true, IfOk, IfErr};
ghost use Rattle.cpn_lex.specs.Token.{kind_view};
ghost use Rattle.cpn_lex.specs.Lexis.{Fits, is_quote as quote};
ghost use Rattle.cpn_lex.specs.Refusals.{BreaksAt};
ghost use Rattle.cpn_lex.specs.Fronts.{Begins, Says, begins_with};
ghost use Rattle.cpn_lex.specs.Pieces.{IsPiece};

use crate::bytes::{is_escapable, is_plain};
use crate::fronts::Front;
use crate::refusals::LexError;
use crate::tokens::Kind;
use std::alloc::Global;

/// What stands at one offset in a string.
#[derive(Clone, Copy)]
enum Piece {
    /// A byte that stands for itself.
    Plain(u8),
    /// A backslash and the byte that it escapes.
    Escaped(u8),
    /// The closing quote.
    Quote,
    /// A byte that may not stand there.
    Bad,
    /// A backslash and a byte that may not follow it.
    BadEscape,
    /// A backslash at the end of the text.
    End,
}

/// What stands in a string where it goes on with a byte and those after it.
fn piece_of(first: u8, rest: &[u8]) -> Piece
    ensures { IsPiece first rest.now result }
{
    if first == b'"' {
        return Piece::Quote;
    }
    if is_plain(first) {
        return Piece::Plain(first);
    }
    if first != b'\\' {
        return Piece::Bad;
    }
    match rest {
        [] => Piece::End,
        [byte, ..] if is_escapable(*byte) => Piece::Escaped(*byte),
        _ => Piece::BadEscape,
    }
}

/// The string at the front of a text that begins with a quote and stands at the offset.
pub(crate) fn string_front(alloc: Global, text: &[u8], at: usize) -> Result<Front, LexError>
    requires quoted { begins_with quote text.now ≡ true }
    requires room { at + length text.now < 2 ^ 64 }
    ensures ok { IfOk result (λ front. Begins text.now (kind_view front.kind) front.length) }
    ensures fits { IfOk result (λ front. Fits (kind_view front.kind)) }
    ensures err { IfErr result (Says (BreaksAt at text.now)) }
{
    let mut meant = String::new(alloc);
    let mut read = 1;
    'inside: while read < text.len() {
        match piece_of(text[read], &text[read + 1..]) {
            Piece::Plain(byte) => {
                meant.push(char::from(byte))?;
                read += 1;
            },
            Piece::Escaped(byte) => {
                meant.push(char::from(byte))?;
                read += 2;
            },
            Piece::Quote => {
                return Ok(Front {
                    kind: Kind::Text(meant),
                    length: read + 1,
                });
            },
            Piece::Bad => return Err(LexError::BadByte(at + read)),
            Piece::BadEscape => return Err(LexError::BadByte(at + read + 1)),
            Piece::End => return Err(LexError::OpenString(at)),
        }
    }
    Err(LexError::OpenString(at))
}
