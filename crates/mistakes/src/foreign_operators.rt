//! Operators of other languages.

use mistake_sentences::{GoalMistake, Mistake, OperatorMistake};
use token_search::value_of;

/// Words and symbols that other languages have between a head and its conditions.
const NECKS: [&str; 8] = ["=>", "<=", "<--", "<==", ":--", "?-", "if", "when"];

/// Words and symbols that other languages have between goals or terms, and what is written here.
const JOINTS: [(&str, &str); 13] = [
    ("and", ","),
    ("or", ";"),
    ("&", ","),
    ("&&", ","),
    ("||", ";"),
    ("<=", "=<"),
    ("=>", ">="),
    ("!=", "=\\="),
    ("<>", "=\\="),
    ("~=", "=\\="),
    ("=/=", "=\\="),
    ("/=", "=\\="),
    (":=", "is"),
];

/// Operators of arithmetic that have no value here.
const ARITHMETIC: [&str; 3] = ["div", "rdiv", "xor"];

/// Operators of constraints over integers.
const CONSTRAINTS: [&str; 9] = ["#=", "#\\=", "#<", "#>", "#=<", "#>=", "in", "ins", ".."];

/// Words of conditions.
const CONDITIONS: [&str; 2] = ["then", "else"];

/// What is written for a word or symbols of another language, after a term. `is_head` is whether no neck stands before.
pub(crate) fn foreign_mistake<'a>(sign: &'a str, is_head: bool) -> Option<Mistake<'a>> {
    if is_head {
        if NECKS.contains(&sign) {
            return Some(Mistake::Operator(OperatorMistake::Neck(sign)));
        }
        return None;
    }
    match value_of(&JOINTS, sign.as_bytes()) {
        Some(own) => Some(Mistake::Operator(OperatorMistake::Foreign(sign, own))),
        None => unread_mistake(sign),
    }
}

/// What is said of a word or symbols for which nothing is written here.
fn unread_mistake<'a>(sign: &'a str) -> Option<Mistake<'a>> {
    if ARITHMETIC.contains(&sign) {
        Some(Mistake::Operator(OperatorMistake::Arithmetic(sign)))
    } else if CONSTRAINTS.contains(&sign) {
        Some(Mistake::Operator(OperatorMistake::Constraint))
    } else if CONDITIONS.contains(&sign) {
        Some(Mistake::Goal(GoalMistake::If))
    } else {
        None
    }
}
