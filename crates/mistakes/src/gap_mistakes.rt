//! Places after a whole term where a clause cannot go on.

use crate::foreign_operators::foreign_mistake;
use crate::infix_operators::{MOST_SYMBOLS, infix_mistake, is_infix};
use mistake_sentences::{ClauseMistake, GoalMistake, Mistake, OperatorMistake};
use token_search::{
    Bracket, Gap, TokenReader, beginning_among, first_name, first_symbols, is_layout, is_word_byte,
    last_name, last_word, may_declare, shown_name,
};

/// Whether a dot at the front of a text ends a clause.
fn is_end(text: &[u8]) -> bool {
    match text {
        [b'.'] => true,
        [b'.', next, ..] => *next == b'%' || is_layout(*next),
        _ => false,
    }
}

/// What a dot shows that ends no clause.
fn dot_mistake<'a>(symbols: &[u8], after: &[u8]) -> Option<ClauseMistake<'a>> {
    match shown_name(symbols).unwrap_or("") {
        "." if !is_end(after) => Some(ClauseMistake::Dot),
        ".." if is_end(after.get(1..).unwrap_or(&[])) => Some(ClauseMistake::Dots),
        "*/" => Some(ClauseMistake::NestedComment),
        _ => None,
    }
}

/// What a parenthesis shows that opens after a text, which ends in this word.
fn parenthesis_mistake<'a>(before: &'a [u8], word: &'a [u8]) -> Option<ClauseMistake<'a>> {
    match word.first() {
        Some(b'A'..=b'Z' | b'_') => shown_name(word).map(ClauseMistake::VariableName),
        Some(_) => None,
        None => last_name(before.trim_ascii_end())
            .and_then(shown_name)
            .map(ClauseMistake::Space),
    }
}

/// What a bracket shows that opens right after a term, or after a space that follows a name.
fn opening_mistake<'a>(gap: Gap<'a>) -> Option<ClauseMistake<'a>> {
    let word = last_word(gap.before);
    match gap.after.first() {
        Some(b'(') => parenthesis_mistake(gap.before, word),
        Some(b'{') if !word.is_empty() => Some(ClauseMistake::Dict),
        _ => None,
    }
}

/// A colon with a dash or a minus sign of typography.
const DASHED_NECKS: [&str; 7] = [":‐", ":‑", ":‒", ":–", ":—", ":―", ":−"];

/// Whether a text begins with a colon and a minus sign that layout parts.
fn is_split_neck(text: &[u8]) -> bool {
    match text.strip_prefix(b": ".as_slice()) {
        Some(rest) => rest.trim_ascii_start().starts_with(b"-"),
        None => false,
    }
}

/// The name before a colon that is followed by a name, outside lists, as `m` in `m:p`.
fn module_before<'a>(gap: Gap<'a>) -> Option<&'a [u8]> {
    match gap.after {
        [_, next, ..] if next.is_ascii_lowercase() && gap.bracket != Some(Bracket::List) => {
            last_name(gap.before)
        }
        _ => None,
    }
}

/// What a colon is meant for, which is no operator.
fn colon_mistake<'a>(gap: Gap<'a>) -> Option<OperatorMistake<'a>> {
    if is_split_neck(gap.after) {
        Some(OperatorMistake::SplitNeck)
    } else if let Some(neck) = beginning_among(&DASHED_NECKS, gap.after) {
        Some(OperatorMistake::Neck(neck))
    } else if let Some(name) = module_before(gap) {
        shown_name(name).map(OperatorMistake::Module)
    } else {
        Some(OperatorMistake::Unknown(":"))
    }
}

/// What symbols show that are declared as an operator somewhere.
fn declared_mistake<'a>(gap: Gap<'a>, symbols: &'a [u8]) -> Option<Mistake<'a>> {
    if !may_declare(gap.before, symbols)
        && may_declare(gap.after, symbols)
        && let Some(name) = shown_name(symbols)
    {
        return Some(Mistake::Operator(OperatorMistake::Late(name)));
    }
    None
}

/// What a run of symbols shows that is no operator.
fn symbol_mistake<'a>(gap: Gap<'a>, symbols: &'a [u8]) -> Option<Mistake<'a>> {
    if symbols.is_empty() || symbols.len() > MOST_SYMBOLS {
        return None;
    }
    if may_declare(gap.operators, symbols) {
        return declared_mistake(gap, symbols);
    }
    named_mistake(gap, shown_name(symbols)?)
}

/// What symbols of this name show that no directive declares.
fn named_mistake<'a>(gap: Gap<'a>, name: &'a str) -> Option<Mistake<'a>> {
    match name {
        ":" => colon_mistake(gap).map(Mistake::Operator),
        "*->" => Some(Mistake::Goal(GoalMistake::SoftCut)),
        _ if is_infix(name.as_bytes()) => infix_mistake(gap, name).map(Mistake::Operator),
        _ => Some(foreign(gap, name).unwrap_or(Mistake::Operator(OperatorMistake::Unknown(name)))),
    }
}

/// What a sign of another language shows, which may be one of the program's own within a term.
fn foreign<'a>(gap: Gap<'a>, sign: &'a str) -> Option<Mistake<'a>> {
    match foreign_mistake(sign, gap.is_in_head) {
        Some(_) if gap.is_in_term() => Some(Mistake::Operator(OperatorMistake::Unknown(sign))),
        mistake => mistake,
    }
}

/// What signs show that are no symbols: `!=` and `||`.
fn sign_mistake<'a>(gap: Gap<'a>) -> Option<Mistake<'a>> {
    foreign(gap, beginning_among(&["!=", "||"], gap.after)?)
}

/// What a word shows that begins right after a name and a space, as `r` in `not r`.
fn second_word<'a>(gap: Gap<'a>) -> Option<Mistake<'a>> {
    match name_before_space(gap.before).and_then(shown_name) {
        Some("not") => Some(Mistake::Goal(GoalMistake::NotOperator)),
        Some("if") => Some(Mistake::Goal(GoalMistake::If)),
        Some(name) if !gap.is_in_head && gap.bracket.is_none() => {
            Some(Mistake::Clause(ClauseMistake::NoParentheses(name)))
        }
        _ => None,
    }
}

/// What a word shows after a whole term.
fn word_mistake<'a>(gap: Gap<'a>) -> Option<Mistake<'a>> {
    if let Some(word) = first_name(gap.after) {
        let mistake = foreign(gap, shown_name(word)?);
        if mistake.is_some() {
            return mistake;
        }
    }
    match gap.after.first() {
        Some(next) if is_word_byte(*next) => second_word(gap),
        _ => None,
    }
}

/// The name that a text ends in, but for layout in the same line, of which there is some.
fn name_before_space(text: &[u8]) -> Option<&[u8]> {
    let before = text.trim_ascii_end();
    match text.strip_prefix(before) {
        Some(layout) if !layout.is_empty() && !layout.contains(&b'\n') => last_name(before),
        _ => None,
    }
}

/// Whether a bracket that is open at the front of a text is closed before the clause ends.
pub fn is_closed_later(text: &[u8]) -> bool {
    let mut reader = TokenReader::new(text, 0);
    let mut depth = 0u32;
    for _ in 0..reader.most() {
        let Some(word) = reader.next() else {
            return false;
        };
        if word.is_end() {
            return false;
        }
        if depth == 0 && word.closes() {
            return true;
        }
        depth = word.depth_after(depth);
    }
    false
}

/// What the text shows at a place after a whole term, where the clause cannot go on.
pub fn gap_mistake<'a>(gap: Gap<'a>) -> Option<Mistake<'a>> {
    let symbols = first_symbols(gap.after);
    if let Some(mistake) = dot_mistake(symbols, gap.after) {
        return Some(Mistake::Clause(mistake));
    }
    if let Some(mistake) = opening_mistake(gap) {
        return Some(Mistake::Clause(mistake));
    }
    if let Some(mistake) = sign_mistake(gap) {
        return Some(mistake);
    }
    if let Some(mistake) = word_mistake(gap) {
        return Some(mistake);
    }
    symbol_mistake(gap, symbols)
}
