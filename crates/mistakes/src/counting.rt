//! How many arguments and variables there are.

use mistake_sentences::{ClauseMistake, MOST_ARGUMENTS};
use prolog_tokens::TokenKind;
use std::alloc::{AllocError, Global};
use token_search::{TokenReader, shown_name};

/// The most variables of a clause.
const MOST_VARIABLES: u64 = 48;

/// How many arguments there are up to the bracket that ends them, after the one that opens them.
fn arguments_in(reader: &mut TokenReader<'_>) -> Option<u64> {
    let mut depth = 0u32;
    let mut count = 1u64;
    for _ in 0..reader.most() {
        let word = reader.next()?;
        if depth == 0 && word.closes() {
            return Some(count);
        }
        if depth == 0 && matches!(word.kind, TokenKind::Comma) {
            count = count.saturating_add(1);
        }
        depth = word.depth_after(depth);
    }
    None
}

/// The name of an atom, up to the bracket that opens its arguments.
fn name_of_atom<'a>(reader: &mut TokenReader<'a>) -> Option<&'a [u8]> {
    if let Some(name) = reader.next()
        && name.is_name()
        && let Some(open) = reader.next()
        && open.opens_arguments(name)
    {
        Some(name.text)
    } else {
        None
    }
}

/// How many arguments the atom at a place of a text has, where these are more than 12.
pub fn argument_mistake<'a>(text: &'a [u8], at: usize) -> Option<ClauseMistake<'a>> {
    let mut reader = TokenReader::new(text, at);
    if let Some(name) = name_of_atom(&mut reader)
        && let Some(count) = arguments_in(&mut reader)
        && count > MOST_ARGUMENTS as u64
        && let Some(name) = shown_name(name)
    {
        return Some(ClauseMistake::Arguments(name, count));
    }
    None
}

/// Adds the variables of the clause at a place of a text, and answers how many `_` there are.
fn push_variables<'a>(
    text: &'a [u8],
    at: usize,
    variables: &mut Vec<&'a [u8]>,
) -> Result<u64, AllocError> {
    let mut reader = TokenReader::new(text, at);
    let mut nameless = 0u64;
    for _ in 0..reader.most() {
        let Some(word) = reader.next() else {
            break;
        };
        match word.kind {
            TokenKind::Var if word.text == b"_".as_slice() => {
                nameless = nameless.saturating_add(1);
            }
            TokenKind::Var => variables.push(word.text)?,
            TokenKind::End => break,
            _ => {}
        }
    }
    Ok(nameless)
}

/// How many variables the clause at a place of a text has, where these are more than 48.
pub fn variable_mistake<'a>(
    alloc: Global,
    text: &[u8],
    at: usize,
) -> Result<Option<ClauseMistake<'a>>, AllocError> {
    let mut variables = Vec::new(alloc);
    let nameless = push_variables(text, at, &mut variables)?;
    variables.sort()?;
    variables.dedup();
    let count = nameless.saturating_add(variables.len() as u64);
    if count > MOST_VARIABLES {
        Ok(Some(ClauseMistake::Variables(count)))
    } else {
        Ok(None)
    }
}
