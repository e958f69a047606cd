//! Numbers.

ghost use Rattle.std.specs.Prelude.{◌≡◌, ◌≤◌, ◌-◌, ◌^◌, min, length, true, FitsSigned, IfOk, IfErr, IfSome, IfNone};
ghost use Rattle.std.specs.Int.{w64};
ghost use Rattle.std.specs.List.{list_all, prefix_len, take_while};
ghost use Rattle.std.specs.Str.Parse.{digits_value};
ghost use Rattle.cpn_lex.specs.Token.{kind_view};
ghost use Rattle.cpn_lex.specs.Lexis.{Fits, is_digit as digit};
ghost use Rattle.cpn_lex.specs.Refusals.{BreaksAt};
ghost use Rattle.cpn_lex.specs.Fronts.{Begins, Says, begins_number as begins, signed as number_of};

use crate::bytes::is_digit;
use crate::fronts::Front;
use crate::refusals::LexError;
use crate::tokens::Kind;

/// Whether a number begins a text: a digit, or `~` and a digit.
pub(crate) fn begins_number(text: &[u8]) -> bool
    ensures { result ≡ begins text.now }
{
    match text {
        [] => false,
        [first] => is_digit(*first),
        [first, second, ..] => is_digit(*first) || (*first == b'~' && is_digit(*second)),
    }
}

/// How many digits stand at the front of a text.
fn digits_length(text: &[u8]) -> usize
    ensures { result ≡ prefix_len digit text.now }
{
    text.iter().take_while(|byte| is_digit(**byte)).count()
}

/// The digits at the front of a text.
fn leading_digits(text: &[u8]) -> &[u8]
    ensures { result.now ≡ take_while digit text.now }
{
    let length = digits_length(text);
    &text[..length]
}

/// The number that digits write, or the greatest `u64` where it is greater.
fn size_of(digits: &[u8]) -> u64
    requires { list_all digit digits.now ≡ true }
    ensures { result ≡ min (digits_value 10 digits.now) (2 ^ 64 - 1) }
{
    let mut size = 0u64;
    for digit in digits {
        size = size
            .saturating_mul(10)
            .saturating_add(u64::from(*digit - b'0'));
    }
    size
}

/// The number of a sign and a size, if it is within an `i64`.
fn signed(is_negative: bool, size: u64) -> Option<i64>
    ensures number { IfSome result (λ number. number ≡ number_of is_negative size) }
    ensures fits { IfSome result (λ number. FitsSigned w64 (number_of is_negative size)) }
    ensures too_large { IfNone result (FitsSigned w64 (number_of is_negative size) → ⊥) }
{
    let number = i128::from(size);
    let number = if is_negative { -number } else { number };
    i64::try_from(number).ok()
}

/// The number at the front of a text; where it is too large, an error at its first byte, which stands at
/// the offset.
pub(crate) fn number_front(text: &[u8], at: usize) -> Result<Front, LexError>
    requires { begins text.now ≡ true }
    ensures ok { IfOk result (λ front. Begins text.now (kind_view front.kind) front.length) }
    ensures fits { IfOk result (λ front. Fits (kind_view front.kind)) }
    ensures err { IfErr result (Says (BreaksAt at text.now)) }
{
    let is_negative = text[0] == b'~';
    let sign_length = usize::from(is_negative);
    let digits = leading_digits(&text[sign_length..]);
    match signed(is_negative, size_of(digits)) {
        Some(number) => Ok(Front {
            kind: Kind::Number(number),
            length: sign_length + digits.len(),
        }),
        None => Err(LexError::NumberTooLarge(at)),
    }
}
