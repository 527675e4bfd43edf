//! The names that are reserved, by text and arity.

ghost use Rattle.std.specs.Prelude.{◌≡◌, ◌<◌, ◌&&◌, ◌==◌, length};
ghost use Rattle.std.specs.List.{list_any};
ghost use Rattle.prolog_reader.specs.Names.{name_text};
ghost use Rattle.clause_normal.specs.Words.{same, is_impure, builtin_named, builtin_of, is_choice_name, is_reserved, connective_of, neck_of, is_silent};

use cti_terms::{Builtin, Name, Names};

/// The names of what is not a pure resolution, and of what has a meaning in a clause, each with its number of
/// arguments.
pub(crate) const IMPURE: [(&str, usize); 86] = [
    ("!", 0),
    (",", 2),
    (";", 2),
    ("->", 2),
    (":-", 1),
    (":-", 2),
    ("?-", 1),
    ("-->", 2),
    ("\\+", 1),
    ("call", 1),
    ("call", 2),
    ("call", 3),
    ("call", 4),
    ("call", 5),
    ("call", 6),
    ("call", 7),
    ("call", 8),
    ("catch", 3),
    ("throw", 1),
    ("once", 1),
    ("repeat", 0),
    ("unify_with_occurs_check", 2),
    ("\\=", 2),
    ("var", 1),
    ("nonvar", 1),
    ("atom", 1),
    ("integer", 1),
    ("float", 1),
    ("number", 1),
    ("atomic", 1),
    ("compound", 1),
    ("==", 2),
    ("\\==", 2),
    ("@<", 2),
    ("@=<", 2),
    ("@>", 2),
    ("@>=", 2),
    ("functor", 3),
    ("arg", 3),
    ("=..", 2),
    ("copy_term", 2),
    ("clause", 2),
    ("current_predicate", 1),
    ("asserta", 1),
    ("assertz", 1),
    ("retract", 1),
    ("abolish", 1),
    ("findall", 3),
    ("bagof", 3),
    ("setof", 3),
    ("open", 3),
    ("open", 4),
    ("close", 1),
    ("close", 2),
    ("nl", 0),
    ("nl", 1),
    ("read", 1),
    ("read", 2),
    ("read_term", 2),
    ("read_term", 3),
    ("write", 1),
    ("write", 2),
    ("writeq", 1),
    ("writeq", 2),
    ("write_canonical", 1),
    ("write_canonical", 2),
    ("write_term", 2),
    ("write_term", 3),
    ("get_char", 1),
    ("get_char", 2),
    ("put_char", 1),
    ("put_char", 2),
    ("op", 3),
    ("current_op", 3),
    ("atom_length", 2),
    ("atom_concat", 3),
    ("sub_atom", 5),
    ("atom_chars", 2),
    ("atom_codes", 2),
    ("char_code", 2),
    ("number_chars", 2),
    ("number_codes", 2),
    ("set_prolog_flag", 2),
    ("current_prolog_flag", 2),
    ("halt", 0),
    ("halt", 1),
];

/// The text of a name.
#[tactic(auto, using(std::proofs::lemmas::Option::get_or_from_slice_get))]
pub(crate) fn text_of(names: &Names, name: Name) -> &[u8]
    requires { name.0 < length names.now }
    ensures { result.now ≡ name_text names.now name.0 }
{
    names.text(name)
}

/// Whether a name of the given arity stands in a table.
fn is_in(table: &[(&str, usize)], text: &[u8], arity: usize) -> bool
    ensures { result ≡ list_any (λ w. same w.0.now text.now && (w.1 == arity)) table.now }
{
    table
        .iter()
        .any(|word| word.0.as_bytes() == text && word.1 == arity)
}

/// Whether a name of the given arity is impure.
#[tactic(auto, unfolding(crate::specs::Words::is_impure))]
pub(crate) fn is_impure(text: &[u8], arity: usize) -> bool
    ensures { result ≡ is_impure text.now arity }
{
    is_in(&IMPURE, text, arity)
}

/// What the predicate of this name and two arguments does, if it is built in.
#[tactic(auto, unfolding(crate::specs::Words::builtin_named))]
fn builtin_named(text: &[u8]) -> Option<Builtin>
    ensures { result ≡ builtin_named text.now }
{
    if text == b"is".as_slice() {
        Some(Builtin::Is)
    } else if text == b"=:=".as_slice() {
        Some(Builtin::Equal)
    } else if text == b"=\\=".as_slice() {
        Some(Builtin::NotEqual)
    } else if text == b"<".as_slice() {
        Some(Builtin::Less)
    } else if text == b"=<".as_slice() {
        Some(Builtin::AtMost)
    } else if text == b">".as_slice() {
        Some(Builtin::Greater)
    } else if text == b">=".as_slice() {
        Some(Builtin::AtLeast)
    } else {
        None
    }
}

/// What the predicate of this name and arity does, if it is built in.
pub(crate) fn builtin_of(text: &[u8], arity: usize) -> Option<Builtin>
    ensures { result ≡ builtin_of text.now arity }
{
    if arity == 2 {
        builtin_named(text)
    } else {
        None
    }
}

/// Whether a name is kept for the predicates of disjunctions.
pub(crate) fn is_choice_name(text: &[u8]) -> bool
    ensures { result ≡ is_choice_name text.now }
{
    text.len() >= 3 && &text[..3] == b"$or".as_slice()
}

/// Whether no clause may have this head.
pub(crate) fn is_reserved(text: &[u8], arity: usize) -> bool
    ensures { result ≡ is_reserved text.now arity }
{
    is_impure(text, arity)
        || builtin_of(text, arity).is_some()
        || is_choice_name(text)
        || (text == b"true".as_slice() && arity == 0)
        || (text == b"fail".as_slice() && arity == 0)
        || (text == b"=".as_slice() && arity == 2)
}

/// What a name does to the bodies that are its arguments.
#[derive(Clone, Copy)]
pub(crate) enum Connective {
    /// Joins two bodies.
    And,
    /// A disjunction of two bodies.
    Or,
    /// No goal: it is left out.
    Truth,
    /// A goal.
    Other,
}

/// What a name of the given arity does to the bodies that are its arguments.
#[tactic(auto, unfolding(crate::specs::Words::connective_of))]
pub(crate) fn connective_of(text: &[u8], arity: usize) -> Connective
    ensures { result ≡ connective_of text.now arity }
{
    if text == b",".as_slice() && arity == 2 {
        Connective::And
    } else if text == b";".as_slice() && arity == 2 {
        Connective::Or
    } else if text == b"true".as_slice() && arity == 0 {
        Connective::Truth
    } else {
        Connective::Other
    }
}

/// What a name makes of a clause's term.
#[derive(Clone, Copy)]
pub(crate) enum Neck {
    /// A directive, as `:- dynamic(p)`.
    Directive,
    /// A query, as `?- p`.
    Query,
    /// A head with a body.
    Implies,
    /// A grammar rule.
    Grammar,
    /// A head alone.
    Fact,
}

/// What a name of the given arity makes of a clause's term.
#[tactic(auto, unfolding(crate::specs::Words::neck_of))]
pub(crate) fn neck_of(text: &[u8], arity: usize) -> Neck
    ensures { result ≡ neck_of text.now arity }
{
    if text == b":-".as_slice() && arity == 1 {
        Neck::Directive
    } else if text == b"?-".as_slice() && arity == 1 {
        Neck::Query
    } else if text == b":-".as_slice() && arity == 2 {
        Neck::Implies
    } else if text == b"-->".as_slice() && arity == 2 {
        Neck::Grammar
    } else {
        Neck::Fact
    }
}

/// Whether a directive of this name of the given arity asks for nothing here.
#[tactic(auto, unfolding(crate::specs::Words::is_silent))]
pub(crate) fn is_silent(text: &[u8], arity: usize) -> bool
    ensures { result ≡ is_silent text.now arity }
{
    (text == b"op".as_slice() && arity == 3) || (text == b"discontiguous".as_slice() && arity == 1)
}
