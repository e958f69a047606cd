//! The kinds of bytes.

ghost use Rattle.std.specs.Prelude.{◌≡◌};
ghost use Rattle.cpn_lex.specs.Lexis.{is_blank as blank, is_digit as digit, is_letter as letter, is_name_byte as name_byte, is_escapable as escapable, is_plain as plain};

/// A space, a tab, a line feed or a carriage return.
pub(crate) fn is_blank(byte: u8) -> bool
    ensures { result ≡ blank byte }
{
    matches!(byte, b' ' | b'\t' | b'\n' | b'\r')
}

/// A decimal digit.
pub(crate) fn is_digit(byte: u8) -> bool
    ensures { result ≡ digit byte }
{
    byte.is_ascii_digit()
}

/// An ASCII letter.
pub(crate) fn is_letter(byte: u8) -> bool
    ensures { result ≡ letter byte }
{
    byte.is_ascii_alphabetic()
}

/// A letter, a digit or `_`.
pub(crate) fn is_name_byte(byte: u8) -> bool
    ensures { result ≡ name_byte byte }
{
    is_letter(byte) || is_digit(byte) || byte == b'_'
}

/// A byte that a backslash escapes in a string.
pub(crate) fn is_escapable(byte: u8) -> bool
    ensures { result ≡ escapable byte }
{
    byte == b'"' || byte == b'\\'
}

/// A byte that stands for itself in a string.
pub(crate) fn is_plain(byte: u8) -> bool
    ensures { result ≡ plain byte }
{
    byte >= b' ' && byte <= b'~' && !is_escapable(byte)
}
