//! The signs.

ghost use Rattle.std.specs.Prelude.{◌≡◌, [], ◌∷◌, IfSome, IfNone};
ghost use Rattle.cpn_lex.specs.Token.{kind_view};
ghost use Rattle.cpn_lex.specs.Symbols.{signs};
ghost use Rattle.cpn_lex.specs.Lookup.{symbol_in};
ghost use Rattle.cpn_lex.specs.Lexis.{Fits, HasNoToken};
ghost use Rattle.cpn_lex.specs.Fronts.{Begins, BeginsSign, long_sign as sign_of_front};

use crate::fronts::Front;
use crate::symbols::Symbol;
use crate::tokens::Kind;

/// The sign of two bytes.
#[tactic(auto, unfolding(crate::specs::Lookup::symbol_in))]
fn sign_of_two(first: u8, second: u8) -> Option<Symbol>
    ensures { result ≡ symbol_in signs (first ∷ second ∷ []) }
{
    match (first, second) {
        (b'<', b'>') => Some(Symbol::NotEqual),
        (b'<', b'=') => Some(Symbol::LessOrEqual),
        (b'>', b'=') => Some(Symbol::GreaterOrEqual),
        (b'=', b'>') => Some(Symbol::Arrow),
        (b':', b':') => Some(Symbol::DoubleColon),
        (b'^', b'^') => Some(Symbol::DoubleCaret),
        (b'+', b'+') => Some(Symbol::DoublePlus),
        (b'@', b'+') => Some(Symbol::AtPlus),
        (b'.', b'.') => Some(Symbol::DoubleDot),
        _ => None,
    }
}

/// The sign of one byte.
#[tactic(auto, unfolding(crate::specs::Lookup::symbol_in))]
fn sign_of_one(first: u8) -> Option<Symbol>
    ensures { result ≡ symbol_in signs (first ∷ []) }
{
    match first {
        b'(' => Some(Symbol::OpenParenthesis),
        b')' => Some(Symbol::CloseParenthesis),
        b'[' => Some(Symbol::OpenBracket),
        b']' => Some(Symbol::CloseBracket),
        b',' => Some(Symbol::Comma),
        b';' => Some(Symbol::Semicolon),
        b':' => Some(Symbol::Colon),
        b'=' => Some(Symbol::Equal),
        b'<' => Some(Symbol::Less),
        b'>' => Some(Symbol::Greater),
        b'^' => Some(Symbol::Caret),
        b'+' => Some(Symbol::Plus),
        b'-' => Some(Symbol::Minus),
        b'*' => Some(Symbol::Star),
        b'~' => Some(Symbol::Tilde),
        b'`' => Some(Symbol::Backtick),
        b'@' => Some(Symbol::At),
        b'#' => Some(Symbol::Hash),
        b'|' => Some(Symbol::Bar),
        b'_' => Some(Symbol::Underscore),
        _ => None,
    }
}

/// The sign of the first two bytes of a text.
fn long_sign(text: &[u8]) -> Option<Symbol>
    ensures { result ≡ sign_of_front text.now }
{
    match text {
        [first, second, ..] => sign_of_two(*first, *second),
        _ => None,
    }
}

/// The longest sign at the front of a text that begins no name, number or string.
pub(crate) fn sign_front(text: &[u8]) -> Option<Front>
    requires { BeginsSign text.now }
    ensures some { IfSome result (λ front. Begins text.now (kind_view front.kind) front.length) }
    ensures fits { IfSome result (λ front. Fits (kind_view front.kind)) }
    ensures none { IfNone result (HasNoToken text.now) }
{
    if let Some(sign) = long_sign(text) {
        return Some(Front {
            kind: Kind::Symbol(sign),
            length: 2,
        });
    }
    match sign_of_one(text[0]) {
        Some(sign) => Some(Front {
            kind: Kind::Symbol(sign),
            length: 1,
        }),
        None => None,
    }
}
