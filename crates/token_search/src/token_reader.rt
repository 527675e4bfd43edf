//! The tokens of a text, with their texts.

ghost use Rattle.std.specs.Prelude.{◌≤◌, length};

use prolog_tokens::{Lexer, TokenKind};

/// The longest text whose tokens are looked at, in bytes.
const MOST_BYTES: usize = 16_777_216;

/// The longest name that is shown, in bytes.
const MOST_SHOWN: usize = 60;

/// A token, its text and its place.
#[derive(Clone, Copy)]
pub struct TextToken<'a> {
    pub kind: TokenKind,
    pub text: &'a [u8],
    /// Where it begins, in bytes from where its reader started.
    pub start: u32,
    /// Where it ends, likewise.
    pub end: u32,
}

/// What looks at tokens one after the other.
pub trait Look<'a> {
    /// Takes the next token, and answers whether there is more to look at.
    fn take(&mut self, word: TextToken<'a>) -> bool;
}

/// Gives the tokens of a text one after the other.
#[derive(Drop)]
pub struct TokenReader<'a> {
    text: &'a [u8],
    lexer: Lexer<'a>,
}

/// A text that is short enough to be looked at, and else an empty one.
fn bounded(text: &[u8]) -> &[u8]
    ensures { length result.now ≤ 16777216 }
{
    if text.len() > MOST_BYTES { &[] } else { text }
}

impl<'a> TokenReader<'a> {
    /// Starts at a byte of a text. There are no tokens where more than 16,777,216 bytes are left.
    pub fn new(text: &'a [u8], at: usize) -> TokenReader<'a> {
        let text = bounded(text.get(at..).unwrap_or(&[]));
        TokenReader {
            text,
            lexer: Lexer::new(text),
        }
    }

    /// The next token, or none where the text ends or has a lexical fault.
    pub fn next(&mut self) -> Option<TextToken<'a>> {
        let Ok(Some(token)) = self.lexer.next() else {
            return None;
        };
        let text = self.text.get(token.start as usize..token.end as usize);
        Some(TextToken {
            kind: token.kind,
            text: text.unwrap_or(&[]),
            start: token.start,
            end: token.end,
        })
    }

    /// Shows the tokens that are left, up to the one after which there is no more to look at.
    pub fn show_to<L: Look<'a>>(&mut self, look: &mut L) {
        for _ in 0..self.most() {
            match self.next() {
                Some(word) if look.take(word) => {}
                _ => break,
            }
        }
    }

    /// How many tokens there are at most.
    pub fn most(&self) -> usize {
        self.text.len()
    }
}

impl<'a> TextToken<'a> {
    /// Whether it opens a bracket.
    pub fn opens(self) -> bool {
        matches!(
            self.kind,
            TokenKind::Paren | TokenKind::List | TokenKind::Curly
        )
    }

    /// Whether it closes a bracket.
    pub fn closes(self) -> bool {
        matches!(
            self.kind,
            TokenKind::ParenEnd | TokenKind::ListEnd | TokenKind::CurlyEnd
        )
    }

    /// How many brackets are open after it, where this many are open before it.
    pub fn depth_after(self, depth: u32) -> u32 {
        if self.opens() {
            depth.saturating_add(1)
        } else if self.closes() {
            depth.saturating_sub(1)
        } else {
            depth
        }
    }

    /// Whether it ends a clause.
    pub fn is_end(self) -> bool {
        matches!(self.kind, TokenKind::End)
    }

    /// Whether it is a neck.
    pub fn is_neck(self) -> bool {
        self.text == b":-".as_slice()
    }

    /// Whether it stands after a whole head.
    pub fn follows_head(self) -> bool {
        self.is_end() || self.is_neck()
    }

    /// Whether it is a name.
    pub fn is_name(self) -> bool {
        matches!(self.kind, TokenKind::Name | TokenKind::Quoted)
    }

    /// Whether it opens the arguments of the word before it.
    pub fn opens_arguments(self, before: TextToken<'_>) -> bool {
        self.kind == TokenKind::Paren && self.start == before.end
    }
}

/// The text of a name, if it is UTF-8 and has at most 60 bytes.
pub fn shown_name(text: &[u8]) -> Option<&str> {
    if text.len() > MOST_SHOWN {
        return None;
    }
    std::str::from_utf8(text).ok()
}
