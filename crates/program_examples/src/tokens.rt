//! Texts with their tokens, faults and characters.

use prolog_tokens::{LexFault, LexKind, Lexer, Token, TokenKind, decode, quote};
use std::alloc::{AllocError, Global};

/// The token of a kind between two places.
fn token(kind: TokenKind, start: u32, end: u32) -> Result<Option<Token>, LexFault> {
    Ok(Some(Token { kind, start, end }))
}

/// The first fault of a short text, if it has one.
fn first_fault(text: &[u8]) -> Option<LexFault> {
    if text.len() > 1000 {
        return None;
    }
    let mut lexer = Lexer::new(text);
    for _ in 0..=text.len() {
        match lexer.next() {
            Ok(Some(_)) => {}
            Ok(None) => return None,
            Err(fault) => return Some(fault),
        }
    }
    None
}

/// Whether the first token of a short text has these characters.
fn has_characters(alloc: Global, text: &[u8], wanted: &[u8]) -> Result<bool, AllocError> {
    let mut out = Vec::new(alloc);
    if text.len() <= 1000 {
        let mut lexer = Lexer::new(text);
        if let Ok(Some(token)) = lexer.next() {
            decode(text, token, &mut out)?;
        }
    }
    Ok(out.as_slice() == wanted)
}

/// Whether a name is spelled like this.
fn is_spelled(alloc: Global, name: &[u8], wanted: &[u8]) -> Result<bool, AllocError> {
    let mut out = Vec::new(alloc);
    quote(name, &mut out)?;
    Ok(out.as_slice() == wanted)
}

/// Tokens of a text, and where they start and end.
const TOKENS: [(TokenKind, u32, u32); 24] = [
    (TokenKind::Name, 0, 1),
    (TokenKind::Paren, 1, 2),
    (TokenKind::Name, 2, 3),
    (TokenKind::Int(1), 3, 4),
    (TokenKind::Comma, 4, 5),
    (TokenKind::Name, 5, 6),
    (TokenKind::Int(97), 7, 10),
    (TokenKind::Comma, 10, 11),
    (TokenKind::List, 11, 12),
    (TokenKind::Var, 12, 13),
    (TokenKind::Bar, 13, 14),
    (TokenKind::Var, 14, 16),
    (TokenKind::ListEnd, 16, 17),
    (TokenKind::Comma, 17, 18),
    (TokenKind::Curly, 18, 19),
    (TokenKind::CurlyEnd, 19, 20),
    (TokenKind::ParenEnd, 20, 21),
    (TokenKind::Name, 21, 23),
    (TokenKind::Name, 23, 24),
    (TokenKind::Name, 28, 29),
    (TokenKind::Quoted, 29, 32),
    (TokenKind::Text, 32, 35),
    (TokenKind::Name, 35, 38),
    (TokenKind::End, 39, 40),
];

#[test]
fn tokens_in_order(rt: HostRuntime) {
    let mut lexer = Lexer::new(b"p(-1,- 0'a,[X|_y],{}):-!/**/;'q'\"t\"=.. .% end\n");
    for (kind, start, end) in &TOKENS {
        assert!(rt; lexer.next() == token(*kind, *start, *end), "{start}");
    }
    assert!(rt; matches!(lexer.next(), Ok(None)));
    assert!(rt; matches!(lexer.next(), Ok(None)));
}

/// Texts, and their first tokens with their ends.
const FIRST_TOKENS: [(&[u8], TokenKind, u32); 16] = [
    (
        b"170141183460469231731687303715884105727",
        TokenKind::Int(i128::MAX),
        39,
    ),
    (b"0x1.5", TokenKind::Int(1), 3),
    (b"0xaBg", TokenKind::Int(171), 4),
    (b"0o17", TokenKind::Int(15), 4),
    (b"0b102", TokenKind::Int(2), 4),
    (b"0x", TokenKind::Int(0), 1),
    (b"0'a.5", TokenKind::Int(97), 3),
    (b"0'''", TokenKind::Int(39), 4),
    (b"0''", TokenKind::Int(0), 1),
    (b"0'\n'", TokenKind::Int(0), 1),
    (b"0'\\x41\\", TokenKind::Int(65), 7),
    (b"0'\xc3\xa9", TokenKind::Int(233), 4),
    (b"+/*a", TokenKind::Name, 3),
    (b".5", TokenKind::Name, 1),
    (b"'a''b'", TokenKind::Quoted, 6),
    (b".%", TokenKind::End, 1),
];

#[test]
fn first_tokens(rt: HostRuntime) {
    for (text, kind, end) in &FIRST_TOKENS {
        if text.len() <= 100 {
            assert!(rt; Lexer::new(text).next() == token(*kind, 0, *end), "{end}");
        }
    }
}

/// Texts, and their faults with their places.
const FAULTS: [(&[u8], LexKind, u32); 22] = [
    (b"p(1.5).", LexKind::Float, 2),
    (
        b"1111111111111111111111111111111111111111.5",
        LexKind::WideNumber,
        0,
    ),
    (
        b" 170141183460469231731687303715884105728",
        LexKind::WideNumber,
        1,
    ),
    (b"p('ab", LexKind::Unclosed, 2),
    (b"'a\\\\\n'", LexKind::Unclosed, 0),
    (b"'a''b", LexKind::Unclosed, 0),
    (b" /* *", LexKind::Unclosed, 1),
    (b"/*/", LexKind::Unclosed, 0),
    (b"0'\n", LexKind::Unclosed, 1),
    (b"/* \xff", LexKind::BadByte, 3),
    (b"'\xe2\x82'", LexKind::BadByte, 1),
    (b"'a\x07'", LexKind::BadByte, 2),
    (b"0'\xe2\x82", LexKind::BadByte, 2),
    (b"0'\r", LexKind::BadByte, 2),
    (b"% \xe2\x82\n", LexKind::BadByte, 2),
    (b"p(\xc3\xa9).", LexKind::BadByte, 2),
    (b"`", LexKind::BadByte, 0),
    (b"'\\x4\xff'", LexKind::BadEscape, 0),
    (b"'\\", LexKind::BadEscape, 0),
    (b"'\\x110000\\'", LexKind::BadEscape, 0),
    (b"'\\xd800\\'", LexKind::BadEscape, 0),
    (b"0'\\\n", LexKind::BadEscape, 0),
];

/// Texts without a fault.
const FAULTLESS: [&[u8]; 4] = [
    b"p('\xc3\xa9'). % \xc3\xbc",
    b"% \x01\rb\n/* \x7f */",
    b"0x1.5",
    b"'a\\\nb'.",
];

#[test]
fn faults(rt: HostRuntime) {
    for (text, kind, at) in &FAULTS {
        let fault = LexFault {
            kind: *kind,
            at: *at,
        };
        assert!(rt; first_fault(text) == Some(fault), "{text:?}");
    }
    for text in &FAULTLESS {
        assert!(rt; first_fault(text).is_none(), "{text:?}");
    }
}

#[test]
fn a_fault_stays(rt: HostRuntime) {
    let mut lexer = Lexer::new(b"p `q");
    assert!(rt; lexer.next() == token(TokenKind::Name, 0, 1));
    for _ in 0..2 {
        let fault = lexer.next().err();
        assert!(rt;
            matches!(
                fault,
                Some(LexFault {
                    kind: LexKind::BadByte,
                    at: 2
                })
            )
        );
    }
}

/// Tokens, and their characters.
const CHARACTERS: [(&[u8], &[u8]); 8] = [
    (b"foo_1(", b"foo_1"),
    (b"'it''s'", b"it's"),
    (b"\"a\"\"b'c\"", b"a\"b'c"),
    (
        b"'\\a\\b\\f\\n\\r\\t\\v\\\\\\'\\\"\\`'",
        b"\x07\x08\x0c\n\r\t\x0b\\'\"`",
    ),
    (b"'a\\\nb'", b"ab"),
    (b"'\\x0041\\\\0\\\\351\\'", b"A\0\xc3\xa9"),
    (b"\"\xe2\x82\xac\"", b"\xe2\x82\xac"),
    (b"12", b""),
];

/// Names, and how they are spelled.
const SPELLINGS: [(&[u8], &[u8]); 7] = [
    (b"foo_1B", b"foo_1B"),
    (b"[]", b"[]"),
    (b"", b"''"),
    (b"it's\\\n", b"'it\\'s\\\\\\n'"),
    (b"\0\x1f\x7f\t", b"'\\x0\\\\x1f\\\\x7f\\\\x9\\'"),
    (b"\xc3\xa9 B", b"'\xc3\xa9 B'"),
    (b"{}", b"'{}'"),
];

#[test]
fn characters_and_spellings(rt: HostRuntime) {
    for (text, wanted) in &CHARACTERS {
        assert!(rt;
            matches!(has_characters(rt.alloc(), text, wanted), Ok(true)),
            "{text:?}"
        );
    }
    for (name, wanted) in &SPELLINGS {
        assert!(rt;
            matches!(is_spelled(rt.alloc(), name, wanted), Ok(true)),
            "{name:?}"
        );
    }
}
