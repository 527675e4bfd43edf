//! The first predicate of a program, and of a certificate.

use mistake_sentences::FileMistake;
use prolog_tokens::TokenKind;
use token_search::{Look, TextToken, TokenReader, before_byte, shown_name};

/// The head of a program's first clause, as far as it was read.
#[derive(Clone, Copy)]
struct HeadLook<'a> {
    name: Option<TextToken<'a>>,
    arity: u64,
    depth: u32,
    /// Whether a directive is passed over.
    is_directive: bool,
    /// Whether the whole head was read.
    is_read: bool,
}

impl<'a> Look<'a> for HeadLook<'a> {
    fn take(&mut self, word: TextToken<'a>) -> bool {
        if self.is_directive {
            self.is_directive = !word.is_end();
            return true;
        }
        match self.name {
            None if word.is_neck() => {
                self.is_directive = true;
                true
            }
            None => {
                self.name = Some(word);
                word.kind == TokenKind::Name
            }
            Some(name) => self.take_part(name, word),
        }
    }
}

impl<'a> HeadLook<'a> {
    /// Takes a token after the name.
    fn take_part(&mut self, name: TextToken<'a>, word: TextToken<'a>) -> bool {
        if self.depth == 0 {
            return self.take_outside(name, word);
        }
        if self.depth == 1 && matches!(word.kind, TokenKind::Comma) {
            self.arity = self.arity.saturating_add(1);
        }
        self.depth = word.depth_after(self.depth);
        true
    }

    /// Takes a token after the name and outside brackets.
    fn take_outside(&mut self, name: TextToken<'a>, word: TextToken<'a>) -> bool {
        if word.opens_arguments(name) {
            self.depth = 1;
            self.arity = 1;
            return true;
        }
        self.is_read = word.follows_head();
        false
    }
}

/// Looks at the head of the first clause of a program.
fn head_of(text: &[u8]) -> HeadLook<'_> {
    let mut look = HeadLook {
        name: None,
        arity: 0,
        depth: 0,
        is_directive: false,
        is_read: false,
    };
    let mut reader = TokenReader::new(text, 0);
    reader.show_to(&mut look);
    look
}

/// The name and the arity of the predicate of a program's first clause, where these are plain to see.
fn first_pred(text: &[u8]) -> Option<(&str, u64)> {
    let look = head_of(text);
    if look.is_read
        && let Some(word) = look.name
        && let [b'a'..=b'z', ..] = word.text
        && let Some(name) = shown_name(word.text)
    {
        return Some((name, look.arity));
    }
    None
}

/// The text of the predicate of a certificate's first `terminates` line.
fn certified_pred(certificate: &[u8]) -> Option<&str> {
    for line in certificate.split(|byte| *byte == b'\n').take(3) {
        if let Some(rest) = line.strip_prefix(b"terminates(".as_slice()) {
            // A name in quotes may have commas.
            return if rest.starts_with(b"'") {
                None
            } else {
                shown_name(before_byte(rest, b',')?)
            };
        }
    }
    None
}

/// Whether a text is that of a predicate.
fn is_pred(text: &str, name: &str, arity: u64) -> bool {
    match text.rsplit_once('/') {
        Some((first, last)) => first == name && last.parse::<u64>() == Ok(arity),
        None => false,
    }
}

/// A mistake where a certificate is of another program: the first predicates of both are plain to see, and differ.
pub fn program_mistake<'a>(program: &'a [u8], certificate: &'a [u8]) -> Option<FileMistake<'a>> {
    if let Some((name, arity)) = first_pred(program)
        && let Some(other) = certified_pred(certificate)
        && !is_pred(other, name, arity)
    {
        return Some(FileMistake::OtherProgram { name, arity, other });
    }
    None
}

/// Whether a text begins as a certificate does.
pub fn is_certificate(text: &[u8]) -> bool {
    text.starts_with(b"cti(1).\n") || text.starts_with(b"cti(2).\n")
}
