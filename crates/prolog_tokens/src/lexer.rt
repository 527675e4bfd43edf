//! The lexer.

ghost use Rattle.std.specs.Prelude.{◌≡◌, ◌+◌, ◌≤◌, ◌<◌, [], length, drop, IfOk, IfErr, IfSome};
ghost use Rattle.prolog_tokens.specs.Items.{item_len};
ghost use Rattle.prolog_tokens.specs.Tokens.{token_at, mark_at, item_of};
ghost use Rattle.prolog_tokens.specs.Cursor.{Cursor, next_of, place_after};
ghost use Rattle.prolog_tokens.specs.Gaps.{IsGap};
ghost use Rattle.prolog_tokens.specs.Next.{IsNext, IsNextToken, HasFault};
ghost use Rattle.prolog_tokens.specs.declared.fault.LexFault.{LexFault as Fault};
ghost use Rattle.prolog_tokens.specs.declared.token.Token.{Token as NextToken};

use crate::bytes::{
    ends_clause, graphic_len, is_capital, is_digit, is_graphic, is_small, word_len,
};
use crate::fault::{LexFault, LexKind};
use crate::integers::integer;
use crate::items::item_len;
use crate::layout::gap_len;
use crate::token::{Token, TokenKind};
use std::marker::Model;

/// A text and how far it has been read. Contracts see both.
#[derive(Drop)]
pub struct Lexer<'a> {
    text: &'a [u8],
    at: usize,
}

impl<'a> Model for Lexer<'a> {
    ghost use Rattle.std.specs.Prelude.{◌≤◌, length};
    ghost use Rattle.prolog_tokens.specs.Cursor.{Cursor};

    ghost Value = { Cursor };

    ghost view = { λ l. record { text = l.text.now; at = l.at } };

    ghost invariant = { λ l. (l.at ≤ length l.text.now) × (length l.text.now ≤ 16777216) };
}

impl<'a> Lexer<'a> {
    /// Starts at the first byte of a text of at most 16,777,216 bytes. It takes no memory.
    pub fn new(text: &'a [u8]) -> Lexer<'a>
        requires { length text.now ≤ 16777216 }
        ensures { result ≡ record { text = text.now; at = 0 } }
    {
        Lexer { text, at: 0 }
    }

    /// The next token, or `None` exactly where only layout and comments are left. It takes no memory.
    ///
    /// After a fault the lexer stands where it stood, so each later call gives the same fault.
    ///
    /// Source: ISO/IEC 13211-1:1995, 6.4, in this project's profile.
    pub fn next(&mut self) -> Result<Option<Token>, LexFault>
        ensures value { result ≡ next_of self.old }
        ensures after { self.new ≡ record { text = self.old.text; at = place_after self.old result } }

        // Each token takes at least one byte, and ends within the text.
        ensures progress { IfOk result (λ t. IfSome t (λ t. (self.old.at ≤ t.start) × (t.start < t.end)
            × (t.end ≤ length self.old.text))) }
    {
        let start = match gap_len(&self.text[self.at..]) {
            Ok(len) => self.at + len,
            Err(fault) => return Err(fault.moved(self.at)),
        };
        if start >= self.text.len() {
            self.at = self.text.len();
            return Ok(None);
        }
        match token(&self.text[start..]) {
            Ok((kind, len)) => {
                self.at = start + len;
                Ok(Some(Token {
                    kind,
                    start: start as u32,
                    end: self.at as u32,
                }))
            }
            Err(fault) => Err(fault.moved(start)),
        }
    }
}

/// The kind of the token at the front of the bytes, and how long it is.
fn token(bytes: &[u8]) -> Result<(TokenKind, usize), LexFault>
    requires { length bytes.now ≤ 16777216 }
    ensures value { result ≡ token_at bytes.now }
    ensures fits { IfOk result (λ t. (0 < t.1) × (t.1 ≤ length bytes.now)) }
    ensures place { IfErr result (λ fault. fault.at ≤ length bytes.now) }
{
    if bytes.is_empty() {
        return Err(LexFault::new(LexKind::BadByte, 0));
    }
    let rest = &bytes[1..];
    match bytes[0] {
        first if is_small(first) => Ok((TokenKind::Name, 1 + word_len(rest))),
        first if is_capital(first) || first == b'_' => Ok((TokenKind::Var, 1 + word_len(rest))),
        first if is_digit(first) => integer(bytes),
        b'\'' => item(rest, b'\'', TokenKind::Quoted),
        b'"' => item(rest, b'"', TokenKind::Text),
        b'.' if ends_clause(rest) => Ok((TokenKind::End, 1)),
        first if is_graphic(first) => Ok((TokenKind::Name, 1 + graphic_len(rest))),
        first => mark(first),
    }
}

/// The quoted item of a kind, after its opening quote.
fn item(bytes: &[u8], quote: u8, kind: TokenKind) -> Result<(TokenKind, usize), LexFault>
    requires { length bytes.now < 16777216 }
    ensures value { result ≡ item_of kind (item_len quote 0 bytes.now) }
    ensures fits { IfOk result (λ t. (0 < t.1) × (t.1 ≤ 1 + length bytes.now)) }
    ensures place { IfErr result (λ fault. fault.at ≤ 1 + length bytes.now) }
{
    match item_len(bytes, quote) {
        Ok(len) => Ok((kind, 1 + len)),
        Err(fault) if fault.kind == LexKind::BadByte => Err(fault.moved(1)),
        Err(fault) => Err(LexFault::new(fault.kind, 0)),
    }
}

/// The mark that is a token of its own.
#[tactic(auto, unfolding(crate::specs::Tokens::mark_at))]
fn mark(byte: u8) -> Result<(TokenKind, usize), LexFault>
    ensures value { result ≡ mark_at byte }
    ensures fits { IfOk result (λ t. t.1 ≡ 1) }
    ensures place { IfErr result (λ fault. fault.at ≡ 0) }
{
    let kind = match byte {
        b'(' => TokenKind::Paren,
        b')' => TokenKind::ParenEnd,
        b'[' => TokenKind::List,
        b']' => TokenKind::ListEnd,
        b'{' => TokenKind::Curly,
        b'}' => TokenKind::CurlyEnd,
        b',' => TokenKind::Comma,
        b'|' => TokenKind::Bar,
        b'!' | b';' => TokenKind::Name,
        _ => return Err(LexFault::new(LexKind::BadByte, 0)),
    };
    Ok((kind, 1))
}

/// What `Lexer::next` computes is what the forms of tokens, layout, comments and faults say: each fault exactly where
/// its condition holds; nothing exactly where only layout and comments are left; and else the longest text of a form
/// after all layout and comments, which is one token.
pub fn longest_match()
    ensures next { (c : Cursor) → c.at ≤ length c.text → IsNext c (next_of c) }
    ensures none { (c : Cursor) → c.at ≤ length c.text → IsGap (drop c.at c.text) [] → next_of c ≡ Ok None }
    ensures only { (c : Cursor) (t : NextToken) → c.at ≤ length c.text → IsNextToken c t
        → ((fault : Fault) → HasFault c fault → ⊥) → next_of c ≡ Ok (Some t) }
    ensures faults { (c : Cursor) (fault : Fault) → c.at ≤ length c.text → HasFault c fault → next_of c ≡ Err fault }
{}
