//! Queries that stand in a program's file.

use mistake_sentences::{FileMistake, ShellWord};
use token_search::{TokenReader, shown_name};

/// Where the clause at the beginning of a text has its dot.
fn end_of(text: &[u8]) -> Option<usize> {
    let mut reader = TokenReader::new(text, 0);
    for _ in 0..reader.most() {
        let word = reader.next()?;
        if word.is_end() {
            return Some(word.start as usize);
        }
    }
    None
}

/// The text of the query that begins with `?-` at a place.
fn query_at(text: &[u8], at: usize) -> Option<&[u8]> {
    if let Some(text) = text.get(at..)
        && let Some(text) = text.strip_prefix(b"?-".as_slice())
        && let Some(end) = end_of(text)
        && let Some(query) = text.get(..end)
    {
        return Some(query.trim_ascii());
    }
    None
}

/// The query at a place of a file's text.
pub fn query_in_file<'a>(file: &'a str, text: &'a [u8], at: usize) -> Option<FileMistake<'a>> {
    let query = query_at(text, at)?;
    let file = ShellWord::file(file);
    let query = ShellWord::new(shown_name(query).unwrap_or("QUERY"));
    Some(FileMistake::Query { file, query })
}
