//! The tokens of a text as the machine takes them.

ghost use Rattle.std.specs.Prelude.{◌≡◌, ◌<◌, ◌≤◌, ◌+◌, ◌-◌, ◌^◌, ◌∷◌, [], ℕ, List, length, drop, nat_abs, IfOk, OnOk, IfSome, if◌then◌else◌};
ghost use Rattle.cti_terms.specs.Numbers.{number_of};
ghost use Rattle.prolog_tokens.specs.Items.{item_characters};
ghost use Rattle.prolog_tokens.specs.Decoding.{IsTokenOf, bytes_of, characters_of};
ghost use Rattle.prolog_tokens.specs.declared.token.TokenKind.TheVariants.{Text as TextKind, Int as IntKind};
ghost use Rattle.prolog_grammar.specs.Token.{integer as integer_value, Leaf, Joined as JoinedToken, Name as NameToken};
ghost use Rattle.prolog_operators.specs.Names.{Extends, IsNumber};
ghost use Rattle.prolog_reader.specs.Naming.{with_names, token_texts};
ghost use Rattle.prolog_terms.specs.Symbols.{is_minus, touches_before, joins_before, token_of as plain_token, seen_after};
ghost use Rattle.prolog_terms.specs.Numbering.{seen_of, AreNumbered};
ghost use Rattle.term_parser.specs.Views.{token_of};
ghost use Rattle.prolog_reader.specs.Ranges.{IsWithin};
ghost use Rattle.prolog_reader.specs.Measures.{IsTokenFine};

use cti_terms::{Name, Names};
use prolog_terms::{Natural, Symbol, Variables};
use prolog_tokens::{Token, TokenKind, decode};
use std::alloc::{AllocError, Global};

/// The bytes of a token.
fn bytes_of(text: &[u8], token: Token) -> &[u8]
    requires within { IsWithin text.now token }
    ensures { result.now ≡ bytes_of text.now token }
{
    &text[token.start as usize..token.end as usize]
}

/// Whether a token stands directly after the one before it.
fn touches(before: Option<Token>, token: Token) -> bool
    ensures { result ≡ touches_before before token }
{
    match before {
        None => false,
        Some(before) => before.end == token.start,
    }
}

/// Whether a token is the unquoted name `-`.
fn is_minus(kind: TokenKind, bytes: &[u8]) -> bool
    ensures { result ≡ is_minus kind bytes.now }
{
    match kind {
        TokenKind::Name => bytes == b"-".as_slice(),
        _ => false,
    }
}

/// Whether an integer here belongs to a `-` directly before it.
fn joins(text: &[u8], before: Option<Token>, token: Token) -> bool
    requires within { IfSome before (λ b. IsWithin text.now b) }
    ensures { result ≡ joins_before text.now before token }
{
    match before {
        None => false,
        Some(before) => {
            is_minus(before.kind, bytes_of(text, before)) && before.end == token.start
        }
    }
}

/// The name that a token stands for.
fn name(alloc: Global, text: &[u8], names: &mut Names, token: Token) -> Result<Name, AllocError>
    requires given { IsTokenOf text.now token }
    requires room { length names.old < 2 ^ 32 - 1 }
    ensures number { IfOk result (λ n. IsNumber names.new (characters_of text.now token) n.0) }
    ensures known { IfOk result (λ n. n.0 < length names.new) }
    ensures added { OnOk result
        (names.new ≡ with_names names.old (characters_of text.now token ∷ [])) }
    ensures kept { Extends names.old names.new }
    ensures more { length names.new ≤ length names.old + 1 }
{
    let mut spelled = Vec::new(alloc);
    decode(text, token, &mut spelled)?;
    let name = names.intern(&spelled)?;
    Ok(name)
}

/// The character codes of a text token.
fn codes(alloc: Global, text: &[u8], token: Token) -> Result<Vec<char>, AllocError>
    requires given { IsTokenOf text.now token }
    requires kind { token.kind ≡ TextKind }
    ensures { IfOk result (λ codes. codes.items
        ≡ item_characters 34 0 (drop 1 (bytes_of text.now token))) }
{
    let mut spelled = Vec::new(alloc);
    decode(text, token, &mut spelled)?;
    match std::str::from_utf8(&spelled) {
        Ok(characters) => {
            let mut codes = Vec::new(alloc);
            for code in characters.chars() {
                codes.push(code)?;
            }
            Ok(codes)
        }
        Err(_) => unreachable!(),
    }
}

/// An integer, which belongs to a `-` directly before it or does not.
fn integer(at: u32, value: i128, joined: bool) -> Symbol
    requires { nat_abs value < 2 ^ 127 }
    ensures { token_of result
        ≡ (if joined then JoinedToken at (nat_abs value) else Leaf at
        (integer_value (nat_abs value))) }
{
    let value = Natural::of(value);
    if joined {
        Symbol::Joined { at, value }
    } else {
        Symbol::Int { at, value }
    }
}

/// A token as the machine takes it, after the variables and the token before it. After an error nothing is said of the
/// variables.
#[tactic(auto, using(crate::proofs::NamingLemmas::names_none))]
pub fn next_symbol(
    alloc: Global,
    text: &[u8],
    names: &mut Names,
    variables: &mut Variables,
    before: Option<Token>,
    token: Token,
) -> Result<Symbol, AllocError>
    requires given { IsTokenOf text.now token }
    requires within { IsWithin text.now token }
    requires within_before { IfSome before (λ b. IsWithin text.now b) }
    requires room { length names.old < 2 ^ 32 - 1 }
    requires numbered { AreNumbered variables.old }
    requires few { (seen_of variables.old).count < 2 ^ 32 - 1 }
    ensures value { IfOk result (λ s. (later : List (List ℕ)) → Extends names.new later
        → token_of s ≡ plain_token later text.now (seen_of variables.old) before token) }
    ensures fine { IfOk result
        (λ s. IsTokenFine (length names.new) (seen_of variables.new).count (token_of s)) }
    ensures seen { OnOk result
        (seen_of variables.new ≡ seen_after text.now (seen_of variables.old) token) }
    ensures numbered { OnOk result (AreNumbered variables.new) }
    ensures added { OnOk result (names.new ≡ with_names names.old (token_texts text.now token)) }
    ensures kept { Extends names.old names.new }
    ensures more { length names.new ≤ length names.old + 1 }
{
    let at = token.start;
    match token.kind {
        TokenKind::Name | TokenKind::Quoted => {
            let name = name(alloc, text, names, token)?;
            Ok(Symbol::Name { at, name })
        }
        TokenKind::Var => {
            let number = variables.number(bytes_of(text, token))?;
            Ok(Symbol::Var { at, number })
        }
        TokenKind::Int(value) => Ok(integer(at, value, joins(text, before, token))),
        TokenKind::Text => {
            let codes = codes(alloc, text, token)?;
            Ok(Symbol::Text { at, codes })
        }
        TokenKind::Paren => {
            if touches(before, token) {
                Ok(Symbol::Touching { at })
            } else {
                Ok(Symbol::Paren { at })
            }
        }
        TokenKind::ParenEnd => Ok(Symbol::ParenEnd),
        TokenKind::List => Ok(Symbol::Bracket { at }),
        TokenKind::ListEnd => Ok(Symbol::BracketEnd),
        TokenKind::Curly => Ok(Symbol::Brace { at }),
        TokenKind::CurlyEnd => Ok(Symbol::BraceEnd),
        TokenKind::Comma => Ok(Symbol::Comma),
        TokenKind::Bar => Ok(Symbol::Bar),
        TokenKind::End => Ok(Symbol::End),
    }
}
