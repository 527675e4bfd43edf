//! What the clauses of a text of edits ask for.

ghost use Rattle.std.specs.Prelude.{◌≡◌, ◌≢◌, ◌<◌, ◌∷◌, [], ℕ, IsTrue, List, MatchOption, if◌then◌else◌, length, map, option_map};
ghost use Rattle.clause_normal.specs.NormalForm.{is_silent_goal};
ghost use Rattle.prolog_grammar.specs.Placed.{Tree};
ghost use Rattle.prolog_reader.specs.Directive.{atom_of, parts_of};
ghost use Rattle.prolog_reader.specs.Fit.{IsFit};
ghost use Rattle.prolog_reader.specs.Names.{name_text};
ghost use Rattle.prolog_terms.specs.Clauses.{is_below, is_known, nodes};
ghost use Rattle.prolog_terms.specs.Terms.{clause_of, tree_of};
ghost use Rattle.edit_texts.specs.EditViews.{EditIsFit, asked_as, edit_seen, indicated};
ghost use Rattle.edit_texts.specs.Edits.{asked_by, edit_of, integer_of, no_edit, nothing, remove_if, tell_of};

use clause_normal::is_silent_goal;
use cti_terms::{Name, Names};
use prolog_terms::{ReadClause, ReadShape, ReadTerm};

/// What a clause of a text of edits asks for.
#[derive(Drop)]
pub(crate) enum Edit {
    /// A directive that says nothing here.
    Nothing,
    /// A clause is added.
    Add(ReadClause),
    /// The clause of this number is removed.
    Remove(i128),
    /// The modes of the predicate of this name and arity.
    Tell(Name, i128),
    /// The clause is no edit.
    NoEdit,
}

/// The text of a name.
#[tactic(auto, using(std::proofs::lemmas::Option::get_or_from_slice_get))]
fn text_of(names: &Names, name: Name) -> &[u8]
    requires { name.0 < length names.now }
    ensures { result.now ≡ name_text names.now name.0 }
{
    names.text(name)
}

/// What a clause asks for.
pub(crate) fn edit_of(names: &Names, clause: ReadClause) -> Edit
    requires { IsFit (length names.now) (clause_of clause) }
    ensures edit { edit_seen result ≡ edit_of names.now (clause_of clause) }
    ensures fit { EditIsFit (length names.now) (nodes (tree_of clause.term)) (edit_seen result) }
{
    let ReadClause { term, vars } = clause;
    let ReadTerm { at: _, shape } = term;
    match shape {
        ReadShape::Var(_) => Edit::NoEdit,
        ReadShape::Int(_) => Edit::NoEdit,
        ReadShape::Fun(name, args) => match only(args) {
            Some(term) => asked_by(names, vars, text_of(names, name), term),
            None => Edit::NoEdit,
        },
    }
}

/// The one of these arguments, if there is one alone.
fn only(mut args: Vec<ReadTerm>) -> Option<ReadTerm>
    ensures { MatchOption result (length args.items ≢ 1) (λ t. args.items ≡ t ∷ []) }
{
    if args.len() == 1 { args.pop() } else { None }
}

/// A word with one argument that means something in a text of edits.
#[derive(Clone, Copy)]
enum Word {
    Directive,
    Add,
    Remove,
    Tell,
    Other,
}

/// The word that this text is.
fn word_of(text: &[u8]) -> Word
    ensures { (names : List (List ℕ)) (vars : ℕ) (t : Tree)
        → asked_by names vars text.now t ≡ asked_as names vars result t }
{
    if text == b":-".as_slice() {
        Word::Directive
    } else if text == b"add".as_slice() {
        Word::Add
    } else if text == b"del".as_slice() {
        Word::Remove
    } else if text == b"modes".as_slice() {
        Word::Tell
    } else {
        Word::Other
    }
}

/// What a name of this text asks for with this argument.
fn asked_by(names: &Names, vars: u32, text: &[u8], term: ReadTerm) -> Edit
    requires below { IsTrue (is_below vars (tree_of term)) }
    requires known { IsTrue (is_known (length names.now) (tree_of term)) }
    ensures edit { edit_seen result ≡ asked_by names.now vars text.now (tree_of term) }
    ensures fit { EditIsFit (length names.now) (nodes (tree_of term)) (edit_seen result) }
{
    match word_of(text) {
        Word::Directive => directive(names, &term),
        Word::Add => Edit::Add(ReadClause { term, vars }),
        Word::Remove => remove_of(&term),
        Word::Tell => tell_of(names, &term),
        Word::Other => Edit::NoEdit,
    }
}

/// What a directive with this goal asks for.
fn directive(names: &Names, goal: &ReadTerm) -> Edit
    requires { IsTrue (is_known (length names.now) (tree_of goal.now)) }
    ensures { edit_seen result
        ≡ (if is_silent_goal names.now (tree_of goal.now) then nothing else no_edit) }
{
    if is_silent_goal(names, goal) {
        Edit::Nothing
    } else {
        Edit::NoEdit
    }
}

/// What `del` of a term asks for.
fn remove_of(term: &ReadTerm) -> Edit
    ensures { edit_seen result ≡ remove_if (integer_of (tree_of term.now)) }
{
    match integer_of(term) {
        Some(number) => Edit::Remove(number),
        None => Edit::NoEdit,
    }
}

/// The integer that a term is.
fn integer_of(term: &ReadTerm) -> Option<i128>
    ensures { result ≡ integer_of (tree_of term.now) }
{
    match &term.shape {
        ReadShape::Var(_) => None,
        ReadShape::Int(value) => Some(*value),
        ReadShape::Fun(_, _) => None,
    }
}

/// The name of a term and its arguments.
fn parts_of(term: &ReadTerm) -> Option<(Name, &[ReadTerm])>
    ensures { option_map (λ r. (r.0.0, map tree_of r.1.now)) result ≡ parts_of (tree_of term.now) }
{
    match &term.shape {
        ReadShape::Var(_) => None,
        ReadShape::Int(_) => None,
        ReadShape::Fun(name, terms) => Some((*name, terms.as_slice())),
    }
}

/// The name of an atom.
fn atom_of(term: &ReadTerm) -> Option<Name>
    ensures { option_map (λ n. n.0) result ≡ atom_of (parts_of (tree_of term.now)) }
{
    match parts_of(term) {
        Some((name, terms)) => { if terms.is_empty() { Some(name) } else { None } }
        None => None,
    }
}

/// What `modes` of a term asks for.
fn tell_of(names: &Names, term: &ReadTerm) -> Edit
    requires { IsTrue (is_known (length names.now) (tree_of term.now)) }
    ensures { edit_seen result ≡ tell_of names.now (parts_of (tree_of term.now)) }
{
    match parts_of(term) {
        Some((name, args)) => indicated(text_of(names, name), args),
        None => Edit::NoEdit,
    }
}

/// What `modes` of a term asks for whose name has this text.
fn indicated(text: &[u8], args: &[ReadTerm]) -> Edit
    ensures { edit_seen result ≡ indicated text.now (map tree_of args.now) }
{
    if args.len() != 2 || text != b"/".as_slice() {
        return Edit::NoEdit;
    }
    match (atom_of(&args[0]), integer_of(&args[1])) {
        (Some(name), Some(arity)) => Edit::Tell(name, arity),
        _ => Edit::NoEdit,
    }
}
