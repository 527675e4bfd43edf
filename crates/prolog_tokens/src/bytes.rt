//! Classes of bytes, and runs of them.

ghost use Rattle.std.specs.Prelude.{◌≡◌, ◌≤◌, length};
ghost use Rattle.std.specs.List.{prefix_len};
ghost use Rattle.prolog_tokens.specs.Bytes.{is_small, is_capital, is_digit, is_word, is_graphic, is_layout, begins_with, ends_clause};

/// A small letter of ASCII.
pub fn is_small(byte: u8) -> bool
    ensures { result ≡ is_small byte }
{
    byte.is_ascii_lowercase()
}

/// A capital letter of ASCII.
pub fn is_capital(byte: u8) -> bool
    ensures { result ≡ is_capital byte }
{
    byte.is_ascii_uppercase()
}

/// A decimal digit.
pub fn is_digit(byte: u8) -> bool
    ensures { result ≡ is_digit byte }
{
    byte.is_ascii_digit()
}

/// A letter, a digit or the underscore.
pub fn is_word(byte: u8) -> bool
    ensures { result ≡ is_word byte }
{
    is_small(byte) || is_capital(byte) || is_digit(byte) || byte == b'_'
}

/// A graphic character.
#[tactic(auto, unfolding(crate::specs::Bytes::is_graphic))]
pub fn is_graphic(byte: u8) -> bool
    ensures { result ≡ is_graphic byte }
{
    matches!(
        byte,
        b'#'..=b'$'
            | b'&'
            | b'*'..=b'+'
            | b'-'..=b'/'
            | b':'
            | b'<'..=b'@'
            | b'\\'
            | b'^'
            | b'~'
    )
}

/// A space, or one of the bytes from tab to carriage return.
pub fn is_layout(byte: u8) -> bool
    ensures { result ≡ is_layout byte }
{
    (9 <= byte && byte <= 13) || byte == b' '
}

/// Whether the first of the bytes is this one.
pub fn begins_with(bytes: &[u8], byte: u8) -> bool
    ensures { result ≡ begins_with byte bytes.now }
{
    match bytes {
        [] => false,
        [first, ..] => *first == byte,
    }
}

/// How many bytes of a word the text begins with.
pub fn word_len(bytes: &[u8]) -> usize
    ensures value { result ≡ prefix_len is_word bytes.now }
    ensures bound { result ≤ length bytes.now }
{
    bytes.iter().take_while(|byte| is_word(**byte)).count()
}

/// How many graphic characters the text begins with.
pub fn graphic_len(bytes: &[u8]) -> usize
    ensures value { result ≡ prefix_len is_graphic bytes.now }
    ensures bound { result ≤ length bytes.now }
{
    bytes.iter().take_while(|byte| is_graphic(**byte)).count()
}

/// Whether a dot ends the clause where these bytes follow it.
pub fn ends_clause(after: &[u8]) -> bool
    ensures { result ≡ ends_clause after.now }
{
    match after {
        [] => true,
        [byte, ..] => is_layout(*byte) || *byte == b'%',
    }
}
