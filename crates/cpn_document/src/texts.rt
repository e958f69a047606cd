//! Texts, and which of them are names.

ghost use Rattle.std.specs.Prelude.{◌≡◌, option_map, string_bytes, IfOk};
ghost use Rattle.std.specs.List.{list_all};
ghost use Rattle.cpn_document.specs.Texts.{is_digit as digit, is_letter as letter, is_name_byte as name_byte, is_name as names, is_flat_name as flat_names};

use std::alloc::{AllocError, Global};

/// The most bytes of a name.
const MOST_NAME_BYTES: usize = 64;

fn is_digit(byte: u8) -> bool
    ensures exact { result ≡ digit byte }
{
    byte >= b'0' && byte <= b'9'
}

fn is_letter(byte: u8) -> bool
    ensures exact { result ≡ letter byte }
{
    (byte >= b'A' && byte <= b'Z') || (byte >= b'a' && byte <= b'z')
}

fn is_name_byte(byte: u8) -> bool
    ensures exact { result ≡ name_byte byte }
{
    is_letter(byte) || is_digit(byte) || byte == b'_' || byte == b'-' || byte == b' '
}

fn are_name_bytes(bytes: &[u8]) -> bool
    ensures exact { result ≡ list_all name_byte bytes.now }
{
    for byte in bytes {
        if !is_name_byte(*byte) {
            return false;
        }
    }
    true
}

/// Whether a text is a name of a module, a place or a transition.
#[tactic(auto, unfolding(crate::specs::Texts::is_name))]
pub(crate) fn is_name(text: &str) -> bool
    ensures exact { result ≡ names text.now }
{
    let bytes = text.as_bytes();
    if bytes.is_empty() {
        return false;
    }
    is_letter(bytes[0])
        && are_name_bytes(bytes)
        && bytes[bytes.len() - 1] != b' '
        && bytes.len() <= MOST_NAME_BYTES
}

/// Whether a text is a flattened name: names joined by `/`.
#[tactic(auto, unfolding(crate::specs::Texts::is_flat_name))]
pub(crate) fn is_flat_name(text: &str) -> bool
    ensures exact { result ≡ flat_names text.now }
{
    text.split('/').all(|name| is_name(name))
}

/// A text of its own.
pub(crate) fn copied(alloc: Global, text: &str) -> Result<String, AllocError>
    ensures text { IfOk result (λ copy. string_bytes copy ≡ text.now) }
{
    String::from_str(alloc, text)
}

/// A text of its own, or none where there is none.
pub(crate) fn copied_or_none(
    alloc: Global,
    text: Option<&str>,
) -> Result<Option<String>, AllocError>
    ensures text { IfOk result (λ copy. option_map string_bytes copy ≡ option_map (λ t. t.now) text.entry) }
{
    match text {
        Some(text) => {
            let copy = copied(alloc, text)?;
            Ok(Some(copy))
        },
        None => Ok(None),
    }
}
