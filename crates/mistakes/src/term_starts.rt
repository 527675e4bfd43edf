//! Places where a term begins and an operator before it takes none.

use crate::infix_operators::{MOST_SYMBOLS, is_infix};
use mistake_sentences::{ClauseMistake, Mistake, OperatorMistake};
use token_search::{Gap, last_name, last_symbols, may_declare, shown_name};

/// The operators that consist of symbols and stand before a term.
const PREFIX: [&[u8]; 5] = [b":-", b"?-", b"\\+", b"-", b"\\"];

/// The byte that a text consists of.
fn only_byte(text: &[u8]) -> Option<u8> {
    match text {
        [byte] => Some(*byte),
        _ => None,
    }
}

/// The operator that these symbols at the end of a text make with those before them, from which layout parts them.
fn split_operator(before: &[u8], symbols: &[u8]) -> Option<&'static str> {
    let first = last_symbols(before.trim_ascii_end().strip_suffix(symbols)?);
    match (only_byte(first), only_byte(symbols)) {
        (Some(b'>'), Some(b'=')) => Some(">="),
        (Some(b'='), Some(b'<')) => Some("=<"),
        (Some(b'-'), Some(b'>')) => Some("->"),
        _ => None,
    }
}

/// Whether a term can begin as a text does, with a byte that is no symbol.
fn begins_term(text: &[u8]) -> bool {
    match text.first() {
        Some(byte) => byte.is_ascii_alphanumeric() || b"_'\"([{!".contains(byte),
        None => false,
    }
}

/// Whether a term may stand after symbols before which there is none, or they show nothing: there are none or too many,
/// or a comment ends.
fn takes_term(symbols: &[u8]) -> bool {
    symbols.is_empty()
        || symbols.len() > MOST_SYMBOLS
        || symbols.ends_with(b"*/")
        || PREFIX.contains(&symbols)
}

/// The name that has empty parentheses, of which the second stands at a place.
fn empty_parentheses<'a>(gap: Gap<'a>) -> Option<ClauseMistake<'a>> {
    if gap.after.starts_with(b")")
        && let Some(before) = gap.before.strip_suffix(b"(".as_slice())
        && let Some(name) = last_name(before)
        && let Some(name) = shown_name(name)
    {
        return Some(ClauseMistake::NoArguments(name));
    }
    None
}

/// The comma, bar or `;` of a byte.
fn joint_of(byte: u8) -> Option<&'static str> {
    match byte {
        b',' => Some(","),
        b';' => Some(";"),
        b'|' => Some("|"),
        _ => None,
    }
}

/// The comma, bar or `;` after which a term is missing at a place, or before it.
fn joint_mistake<'a>(gap: Gap<'a>) -> Option<OperatorMistake<'a>> {
    match (gap.before.trim_ascii_end().last(), gap.after.first()) {
        (Some(last), Some(next)) => joint_between(*last, *next),
        _ => None,
    }
}

/// The comma, bar or `;` after which a term is missing between these bytes, or before it.
fn joint_between<'a>(last: u8, next: u8) -> Option<OperatorMistake<'a>> {
    match joint_of(last) {
        Some(joint) if b")]}.,;|".contains(&next) => Some(OperatorMistake::NoRight(joint)),
        _ => joint_of(next).map(OperatorMistake::NoLeft),
    }
}

/// Symbols that begin comments in other languages.
const COMMENTS: [&[u8]; 2] = [b"#", b"//"];

/// What symbols show as an operator, before which there is no term, and after which one begins.
fn operator_mistake<'a>(before: &'a [u8], symbols: &'a [u8]) -> Option<OperatorMistake<'a>> {
    if let Some(whole) = split_operator(before, symbols) {
        Some(OperatorMistake::Split(whole))
    } else if is_infix(symbols) {
        shown_name(symbols).map(OperatorMistake::NoLeft)
    } else {
        shown_name(symbols).map(OperatorMistake::Unknown)
    }
}

/// What the text shows at a place where a term begins that may not stand there, after symbols before which there is no
/// term.
pub fn start_mistake<'a>(gap: Gap<'a>) -> Option<Mistake<'a>> {
    let symbols = last_symbols(gap.before);
    if takes_term(symbols) || may_declare(gap.operators, symbols) || !begins_term(gap.after) {
        return None;
    }
    if COMMENTS.contains(&symbols) {
        return Some(Mistake::Clause(ClauseMistake::Comment));
    }
    operator_mistake(gap.before, symbols).map(Mistake::Operator)
}

/// What the text shows at a place where a term has to begin and none does.
pub fn term_mistake<'a>(gap: Gap<'a>) -> Option<Mistake<'a>> {
    if let Some(mistake) = empty_parentheses(gap) {
        return Some(Mistake::Clause(mistake));
    }
    joint_mistake(gap).map(Mistake::Operator)
}
