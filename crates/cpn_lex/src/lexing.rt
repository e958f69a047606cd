//! From the bytes of a text to its tokens.

ghost use Rattle.std.specs.Prelude.{◌≡◌, ℕ, ◌<◌, ◌≤◌, ◌↔◌, ◌⊎◌, List, length, Err, IfOk, IfErr, MatchResult, IsErrOf};
ghost use Rattle.cpn_lex.specs.declared.refusals.LexError.{LexError};
ghost use Rattle.cpn_lex.specs.Token.{PlainToken, tokens_view};
ghost use Rattle.cpn_lex.specs.Tokens.{Lexes};
ghost use Rattle.cpn_lex.specs.Refusals.{Breaks};
ghost use Rattle.cpn_lex.specs.Fronts.{Says};

use crate::bytes::is_blank;
use crate::fronts::front_of;
use crate::refusals::LexError;
use crate::tokens::{Token, Tokens};
use std::alloc::Global;

/// The most bytes that a text may have.
const MOST_BYTES: usize = 4096;

/// The tokens of a text that isn't too long.
fn tokens_of(alloc: Global, text: &[u8]) -> Result<Tokens, LexError>
    requires { length text.now ≤ 4096 }
    ensures ok { IfOk result (λ tokens. Lexes text.now (tokens_view tokens.items)) }
    ensures err { IfErr result (Says (Breaks text.now)) }
{
    let mut tokens = Vec::new(alloc);
    let mut at = 0;
    'text: while at < text.len() {
        if is_blank(text[at]) {
            at += 1;
        } else {
            let front = front_of(alloc, &text[at..], at)?;
            tokens.push(Token {
                kind: front.kind,
                at,
            })?;
            at += front.length;
        }
    }
    Ok(tokens)
}

/// Reads a text of the inscription language as its tokens.
///
/// Each token is the longest one that begins where it stands. Spaces, tabs, line feeds and carriage
/// returns may stand between tokens, and part them.
///
/// # Errors
///
/// - [`LexError::TooLong`]: the text has more than 4,096 bytes. It is refused whatever memory is left.
/// - [`LexError::BadByte`], [`LexError::OpenString`], [`LexError::NumberTooLarge`]: the first rule that the
///   text breaks, and where.
/// - [`LexError::Memory`]: memory ran out.
pub fn lex(alloc: Global, text: &[u8]) -> Result<Tokens, LexError>
    ensures ok { IfOk result (λ tokens. Lexes text.now (tokens_view tokens.items)) }

    // Each refusal is true.
    ensures bad_byte { (at : ℕ) → IsErrOf result (LexError.BadByte at) → Breaks text.now (LexError.BadByte at) }
    ensures open_string { (at : ℕ) → IsErrOf result (LexError.OpenString at) → Breaks text.now (LexError.OpenString at) }
    ensures number_too_large { (at : ℕ) → IsErrOf result (LexError.NumberTooLarge at) → Breaks text.now (LexError.NumberTooLarge at) }
    ensures too_long { IsErrOf result LexError.TooLong ↔ (4096 < length text.now) }

    // Nothing else is answered, but for want of memory.
    ensures complete { (tokens : List PlainToken) → length text.now ≤ 4096 → Lexes text.now tokens
        → MatchResult result (λ found. tokens_view found.items ≡ tokens) (λ e. e ≡ LexError.Memory) }
    ensures refused { (refusal : LexError) → length text.now ≤ 4096 → Breaks text.now refusal
        → IsErrOf result refusal ⊎ IsErrOf result LexError.Memory }

    // Whatever the answer, a text has one list of tokens, or breaks one rule first, and not both.
    ensures one_list { (tokens others : List PlainToken) → Lexes text.now tokens → Lexes text.now others → tokens ≡ others }
    ensures one_rule { (refusal other : LexError) → Breaks text.now refusal → Breaks text.now other → refusal ≡ other }
    ensures not_both { (tokens : List PlainToken) (refusal : LexError) → Lexes text.now tokens → Breaks text.now refusal → ⊥ }
{
    if text.len() > MOST_BYTES {
        return Err(LexError::TooLong);
    }
    tokens_of(alloc, text)
}
