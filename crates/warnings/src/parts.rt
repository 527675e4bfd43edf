//! The parts of clauses as they stand in a text.

ghost use Rattle.std.specs.Prelude.{◌<◌, length};

use cti_terms::{Name, Names, Pred};
use prolog_reader::{ReadShape, ReadTerm};
use prolog_tokens::quote;
use std::alloc::{AllocError, Global};

/// The text of a name.
pub fn text_of(names: &Names, name: Name) -> &[u8] {
    if name.0 < names.count() {
        names.text(name)
    } else {
        b""
    }
}

/// A predicate as `append/3`, with its name in quotes where it needs them.
pub fn indicator_of(alloc: Global, name: &[u8], arity: u32) -> Result<String, AllocError> {
    let mut spelled = Vec::new(alloc);
    quote(name, &mut spelled)?;
    let name = std::str::from_utf8(&spelled).unwrap_or("?");
    format!(in alloc; "{name}/{arity}")
}

/// Whether a term has a name with this text and the given arity.
fn is_of(names: &Names, term: &ReadTerm, text: &[u8], arity: usize) -> bool {
    match &term.shape {
        ReadShape::Fun(name, args) => args.len() == arity && text_of(names, *name) == text,
        _ => false,
    }
}

/// The arguments of a term.
fn args_of(term: &ReadTerm) -> &[ReadTerm] {
    match &term.shape {
        ReadShape::Fun(_, args) => args.as_slice(),
        _ => &[],
    }
}

/// The predicate of a name with these arguments.
pub(crate) fn pred_of(name: Name, args: &[ReadTerm]) -> Pred {
    Pred {
        name,
        arity: u32::try_from(args.len()).unwrap_or(u32::MAX),
    }
}

/// The predicate of an atom or a compound term.
pub(crate) fn pred_in(term: &ReadTerm) -> Option<Pred> {
    match &term.shape {
        ReadShape::Fun(name, args) => Some(pred_of(*name, args)),
        _ => None,
    }
}

/// The head of a clause, which a directive has not.
pub fn head_of<'a>(names: &Names, clause: &'a ReadTerm) -> Option<&'a ReadTerm> {
    if is_of(names, clause, b":-", 1) {
        return None;
    }
    if is_of(names, clause, b":-", 2) {
        return args_of(clause).first();
    }
    Some(clause)
}

/// The body of a clause, which a fact has not.
pub fn body_of<'a>(names: &Names, clause: &'a ReadTerm) -> Option<&'a ReadTerm> {
    if is_of(names, clause, b":-", 2) {
        return args_of(clause).last();
    }
    None
}
