//! Places in texts, and what stands around them.

/// A bracket that is open.
#[derive(Clone, Copy, PartialEq, Eq)]
pub enum Bracket {
    /// The parenthesis right after a name.
    Arguments,
    /// Any other parenthesis.
    Group,
    List,
    Braces,
}

impl Bracket {
    /// The characters that open and close it.
    pub fn characters(self) -> (char, char) {
        match self {
            Bracket::Arguments | Bracket::Group => ('(', ')'),
            Bracket::List => ('[', ']'),
            Bracket::Braces => ('{', '}'),
        }
    }

    /// Whether commas separate terms in it.
    fn has_terms(self) -> bool {
        matches!(self, Bracket::Arguments | Bracket::List)
    }
}

/// A place in a text.
#[derive(Clone, Copy)]
pub struct Gap<'a> {
    /// The text before it.
    pub before: &'a [u8],
    /// The text from it on.
    pub after: &'a [u8],
    /// The text whose directives declare operators.
    pub operators: &'a [u8],
    /// Whether it is in a head: no neck stands before it in its clause, and no bracket is open.
    pub is_in_head: bool,
    /// The bracket that is open at it, if one is.
    pub bracket: Option<Bracket>,
}

impl Gap<'_> {
    /// Whether it is within a term of an argument or a list.
    pub fn is_in_term(self) -> bool {
        match self.bracket {
            Some(bracket) => bracket.has_terms(),
            None => false,
        }
    }
}

/// Whether a byte is layout: a space, or one of the bytes from tab to carriage return.
pub fn is_layout(byte: u8) -> bool {
    (9..=13).contains(&byte) || byte == b' '
}

/// Whether a byte is one of the symbols that operators consist of.
pub fn is_symbol(byte: u8) -> bool {
    b"#$&*+-./:<=>?@^~\\".contains(&byte)
}

/// Whether a byte can stand within a name.
pub fn is_word_byte(byte: u8) -> bool {
    byte.is_ascii_alphanumeric() || byte == b'_'
}

/// The bytes of a name or variable that a text ends in.
pub fn last_word_bytes(text: &[u8]) -> &[u8] {
    text.rsplit(|byte| !is_word_byte(*byte))
        .next()
        .unwrap_or(text)
}

/// The name or variable that a text ends in, which is empty where there is none.
pub fn last_word(text: &[u8]) -> &[u8] {
    let word = last_word_bytes(text);
    match text.strip_suffix(word) {
        // The character of `0'` is no name.
        Some(before) if before.ends_with(b"'") => &[],
        _ => word,
    }
}

/// The name that a text ends in, which begins with a small letter.
pub fn last_name(text: &[u8]) -> Option<&[u8]> {
    let word = last_word(text);
    match word {
        [b'a'..=b'z', ..] => Some(word),
        _ => None,
    }
}

/// The name at the front of a text, which begins with a small letter.
pub fn first_name(text: &[u8]) -> Option<&[u8]> {
    match text {
        [b'a'..=b'z', ..] => text.split(|byte| !is_word_byte(*byte)).next(),
        _ => None,
    }
}

/// The variable at a place of a text, if one stands there.
pub fn variable_at(text: &[u8], at: u32) -> Option<&str> {
    let rest = text.get(at as usize..).unwrap_or(&[]);
    let word = rest
        .split(|byte| !is_word_byte(*byte))
        .next()
        .unwrap_or(rest);
    match word {
        [b'A'..=b'Z' | b'_', ..] => std::str::from_utf8(word).ok(),
        _ => None,
    }
}

/// The run of symbols at the front of a text.
pub fn first_symbols(text: &[u8]) -> &[u8] {
    text.split(|byte| !is_symbol(*byte)).next().unwrap_or(text)
}

/// The run of symbols that a text ends in, but for layout.
pub fn last_symbols(text: &[u8]) -> &[u8] {
    let text = text.trim_ascii_end();
    text.rsplit(|byte| !is_symbol(*byte)).next().unwrap_or(text)
}
