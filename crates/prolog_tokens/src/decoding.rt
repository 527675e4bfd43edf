//! The characters of tokens.

ghost use Rattle.std.specs.Prelude.{◌≡◌, ◌++◌, ℕ, List, OnOk, OnErr};
ghost use Rattle.std.specs.Str.{encode_utf8_all};
ghost use Rattle.prolog_tokens.specs.Forms.{IsItem};
ghost use Rattle.prolog_tokens.specs.Items.{item_characters};
ghost use Rattle.prolog_tokens.specs.Decoding.{IsTokenOf, meaning_of, characters_of, AppendsPrefix};

use crate::piece::{Piece, piece_at};
use crate::token::{Token, TokenKind};
use std::alloc::AllocError;

/// Appends the characters that a token of the text stands for, as UTF-8: a name's own bytes, what the item in quotes
/// spells, and nothing for a token of another kind.
///
/// Where memory runs out, the bytes that were there are followed by a prefix of the new ones.
///
/// Source: ISO/IEC 13211-1:1995, 6.4.2.1, in this project's profile.
pub fn decode(text: &[u8], token: Token, out: &mut Vec<u8>) -> Result<(), AllocError>
    requires { IsTokenOf text.now token }
    ensures ok { OnOk result (out.new.items ≡ out.old.items ++ characters_of text.now token) }
    ensures err { OnErr result (AppendsPrefix out.old.items (characters_of text.now token) out.new.items) }
{
    let bytes = &text[token.start as usize..token.end as usize];
    match token.kind {
        TokenKind::Name => out.extend_from_slice(bytes),
        TokenKind::Quoted => decode_item(&bytes[1..], b'\'', out),
        TokenKind::Text => decode_item(&bytes[1..], b'"', out),
        _ => Ok(()),
    }
}

/// Appends the characters of the item after its opening quote.
fn decode_item(bytes: &[u8], quote: u8, out: &mut Vec<u8>) -> Result<(), AllocError>
    ensures ok { OnOk result (out.new.items ≡ out.old.items ++ encode_utf8_all (item_characters quote 0 bytes.now)) }
    ensures err { OnErr result (AppendsPrefix out.old.items
        (encode_utf8_all (item_characters quote 0 bytes.now)) out.new.items) }
{
    let mut at = 0;
    'pieces: loop {
        match piece_at(&bytes[at..], quote) {
            Piece::Character(found, len) => {
                out.extend_from_slice(found.encode_utf8(&mut [0; 4]).as_bytes())?;
                at += len;
            }
            Piece::Dropped => at += 2,
            Piece::Closing | Piece::Fault(_) => return Ok(()),
        }
    }
}

/// An item in quotes is decoded to the characters that its body spells by the forms of tokens.
pub fn items_are_decoded()
    ensures quoted { (bytes after : List ℕ) (item : IsItem 39 bytes after)
        → meaning_of TokenKind.Quoted bytes ≡ encode_utf8_all item.characters }
    ensures text { (bytes after : List ℕ) (item : IsItem 34 bytes after)
        → meaning_of TokenKind.Text bytes ≡ encode_utf8_all item.characters }
{}
