//! The operators that stand between terms, where one cannot stand.

use mistake_sentences::OperatorMistake;
use token_search::{Gap, first_symbols, last_symbols, last_word_bytes};

/// The longest run of symbols that is shown.
pub(crate) const MOST_SYMBOLS: usize = 16;

/// The operators that consist of symbols and can follow a term.
const INFIX: [&[u8]; 30] = [
    b":-", b"-->", b"->", b"=", b"\\=", b"==", b"\\==", b"@<", b"@=<", b"@>", b"@>=", b"=..",
    b"=:=", b"=\\=", b"<", b"=<", b">", b">=", b"+", b"-", b"/\\", b"\\/", b"*", b"/", b"//",
    b"<<", b">>", b"**", b"^", b".",
];

/// The operators that compare.
const COMPARISONS: [&[u8]; 6] = [b"<", b"=<", b">", b">=", b"=:=", b"=\\="];

/// Whether symbols are an operator that can follow a term.
pub(crate) fn is_infix(symbols: &[u8]) -> bool {
    INFIX.contains(&symbols)
}

/// Whether symbols compare.
fn is_comparison(symbols: &[u8]) -> bool {
    COMPARISONS.contains(&symbols)
}

/// The symbols before the word that a text ends in.
fn symbols_before_word(text: &[u8]) -> &[u8] {
    let text = text.trim_ascii_end();
    last_symbols(text.strip_suffix(last_word_bytes(text)).unwrap_or(&[]))
}

/// What an operator shows that cannot stand between two terms here.
pub(crate) fn infix_mistake<'a>(gap: Gap<'a>, name: &'a str) -> Option<OperatorMistake<'a>> {
    let symbols = first_symbols(gap.after);
    if is_comparison(symbols) && is_comparison(symbols_before_word(gap.before)) {
        return Some(OperatorMistake::Chain);
    }
    if symbols == b"->".as_slice() && gap.is_in_term() {
        Some(OperatorMistake::InTerm(name))
    } else {
        None
    }
}
