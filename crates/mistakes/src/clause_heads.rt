//! Heads of clauses that are none.

use mistake_sentences::{ClauseMistake, HeadMistake, Mistake, OperatorMistake};
use prolog_tokens::TokenKind;
use token_search::{TextToken, TokenReader, shown_name, value_of};

/// A mistake where a variable has the place of a head.
fn variable_mistake<'a>(first: TextToken<'a>, second: TextToken<'_>) -> Option<Mistake<'a>> {
    if matches!(first.kind, TokenKind::Var)
        && second.follows_head()
        && let Some(name) = shown_name(first.text)
    {
        return Some(Mistake::Clause(ClauseMistake::VariableName(name)));
    }
    None
}

/// What a name shows that a clause begins with.
fn named_mistake(name: &[u8], has_arguments: bool) -> Option<HeadMistake> {
    if name == b"\\+".as_slice() {
        Some(HeadMistake::Negation)
    } else if has_arguments && name == b"op".as_slice() {
        Some(HeadMistake::Op)
    } else {
        None
    }
}

/// What these first tokens of a clause show, whose head is none.
fn beginning_mistake<'a>(first: TextToken<'a>, second: TextToken<'_>) -> Option<Mistake<'a>> {
    match named_mistake(first.text, second.opens_arguments(first)) {
        Some(mistake) => Some(Mistake::Head(mistake)),
        None => variable_mistake(first, second),
    }
}

/// What the first tokens of a clause show, whose head is none.
fn first_mistake<'a>(reader: &mut TokenReader<'a>) -> Option<Mistake<'a>> {
    match (reader.next(), reader.next()) {
        (Some(first), Some(second)) => beginning_mistake(first, second),
        _ => None,
    }
}

/// Tokens that join goals, and what each shows before the neck.
const JOINTS: [(&str, HeadMistake); 3] = [
    (",", HeadMistake::Comma),
    (";", HeadMistake::Semicolon),
    ("->", HeadMistake::Arrow),
];

/// What a token outside brackets shows before the neck, and whether a minus sign follows it at once.
fn joint_mistake<'a>(word: TextToken<'_>, has_minus: bool) -> Option<Mistake<'a>> {
    match value_of(&JOINTS, word.text) {
        Some(HeadMistake::Semicolon) if has_minus => {
            Some(Mistake::Operator(OperatorMistake::Neck(";-")))
        }
        Some(mistake) => Some(Mistake::Head(mistake)),
        None => None,
    }
}

/// Whether a token ends a head: it follows a whole one, or joins goals.
fn ends_head(word: TextToken<'_>) -> bool {
    word.follows_head() || value_of(&JOINTS, word.text).is_some()
}

/// The first token of a clause outside brackets that joins goals, or that follows a whole head.
fn joint_in(text: &[u8]) -> Option<TextToken<'_>> {
    let mut reader = TokenReader::new(text, 0);
    let mut depth = 0u32;
    for _ in 0..reader.most() {
        let word = reader.next()?;
        if depth == 0 && ends_head(word) {
            return Some(word);
        }
        depth = word.depth_after(depth);
    }
    None
}

/// What the tokens of a clause show up to its neck, outside brackets.
fn mistake_before_neck<'a>(text: &[u8]) -> Option<Mistake<'a>> {
    let word = joint_in(text)?;
    joint_mistake(word, text.get(word.end as usize) == Some(&b'-'))
}

/// What the clause at a place of a text shows, whose head is none: how it begins, or what joins it to the text before
/// its neck.
pub fn head_mistake<'a>(text: &'a [u8], at: usize) -> Option<Mistake<'a>> {
    match mistake_before_neck(text.get(at..).unwrap_or(&[])) {
        Some(mistake) => Some(mistake),
        None => first_mistake(&mut TokenReader::new(text, at)),
    }
}
