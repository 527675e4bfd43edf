//! Clauses that change the operators.

ghost use Rattle.std.specs.Prelude.{◌≡◌, ◌≢◌, ℕ, List, [], ◌∷◌, map, length, option_map, Option, Some, IfOk, IfSome, IfNone};
ghost use Rattle.prolog_terms.specs.Terms.{tree_of};
ghost use Rattle.prolog_operators.specs.Meanings.{table_of};
ghost use Rattle.prolog_reader.specs.Directive.{Effect, sets, refuses, parts_of, atom_of, priority_of, kind_named, kind_of, is_barred, operator_of, listed, operators_of, effect_of, directive_by, effect};
ghost use Rattle.prolog_reader.specs.Knowing.{words_view, done_effect};
ghost use Rattle.term_parser.specs.Views.{known_of};

use crate::words::Words;
use cti_terms::Name;
use prolog_operators::{OpKind, Ops, priority_in};
use prolog_terms::{Known, ReadShape, ReadTerm};
use std::alloc::AllocError;

/// The name of a term and its arguments.
fn parts(term: &ReadTerm) -> Option<(Name, &[ReadTerm])>
    ensures { option_map (λ r. (r.0.0, map tree_of r.1.now)) result ≡ parts_of (tree_of term.now) }
{
    match &term.shape {
        ReadShape::Var(_) => None,
        ReadShape::Int(_) => None,
        ReadShape::Fun(name, terms) => Some((*name, terms.as_slice())),
    }
}

/// The name of an atom.
fn atom(term: &ReadTerm) -> Option<Name>
    ensures { option_map (λ n. n.0) result ≡ atom_of (parts_of (tree_of term.now)) }
{
    match parts(term) {
        Some((name, terms)) => { if terms.is_empty() { Some(name) } else { None } }
        None => None,
    }
}

/// The priority that a term is.
fn priority(term: &ReadTerm) -> Option<u32>
    ensures { result ≡ priority_of (tree_of term.now) }
{
    match &term.shape {
        ReadShape::Var(_) => None,
        ReadShape::Int(value) => priority_in(*value),
        ReadShape::Fun(_, _) => None,
    }
}

/// The kind of operators with that name.
fn kind_named(words: &Words, name: Name) -> Option<OpKind>
    ensures { result ≡ kind_named (words_view words.now) name.0 }
{
    if name == words.xfx {
        Some(OpKind::Xfx)
    } else if name == words.xfy {
        Some(OpKind::Xfy)
    } else if name == words.yfx {
        Some(OpKind::Yfx)
    } else if name == words.fx {
        Some(OpKind::Fx)
    } else if name == words.fy {
        Some(OpKind::Fy)
    } else {
        None
    }
}

/// The kind of operators that an atom is.
fn kind(words: &Words, term: &ReadTerm) -> Option<OpKind>
    ensures { result ≡ kind_of (words_view words.now) (tree_of term.now) }
{
    match atom(term) {
        Some(name) => kind_named(words, name),
        None => None,
    }
}

/// Whether a name is never an operator: the comma, the bar, `[]` and `{}`.
fn is_barred(words: &Words, name: Name) -> bool
    ensures { result ≡ is_barred (words_view words.now) name.0 }
{
    name == words.known.comma
        || name == words.bar
        || name == words.known.nil
        || name == words.known.curly
}

/// The operator that an atom is.
fn operator(words: &Words, term: &ReadTerm) -> Option<Name>
    ensures { option_map (λ n. n.0) result ≡ operator_of (words_view words.now) (tree_of term.now) }
{
    match atom(term) {
        Some(name) => {
            if is_barred(words, name) {
                None
            } else {
                Some(name)
            }
        }
        None => None,
    }
}

/// The only one of some terms.
fn one(terms: &[ReadTerm]) -> Option<&ReadTerm>
    ensures found { IfSome result (λ a. map tree_of terms.now ≡ tree_of a.now ∷ []) }
    ensures other { IfNone result (length terms.now ≢ 1) }
{
    if terms.len() == 1 {
        Some(&terms[0])
    } else {
        None
    }
}

/// Both of two terms.
fn two(terms: &[ReadTerm]) -> Option<(&ReadTerm, &ReadTerm)>
    ensures found { IfSome result
        (λ r. map tree_of terms.now ≡ tree_of r.0.now ∷ tree_of r.1.now ∷ []) }
    ensures other { IfNone result (length terms.now ≢ 2) }
{
    if terms.len() == 2 {
        Some((&terms[0], &terms[1]))
    } else {
        None
    }
}

/// All of three terms.
fn three(terms: &[ReadTerm]) -> Option<(&ReadTerm, &ReadTerm, &ReadTerm)>
    ensures found { IfSome result
        (λ r. map tree_of terms.now ≡ tree_of r.0.now ∷ tree_of r.1.now ∷ tree_of r.2.now ∷ []) }
    ensures other { IfNone result (length terms.now ≢ 3) }
{
    if terms.len() == 3 {
        Some((&terms[0], &terms[1], &terms[2]))
    } else {
        None
    }
}

/// Sets each operator of a list, or answers false where it is not a list of operators. Then some may be set.
fn set_listed(
    ops: &mut Ops,
    words: &Words,
    priority: u32,
    kind: OpKind,
    list: &ReadTerm,
) -> Result<bool, AllocError>
    ensures { IfOk result (λ done. effect_of (words_view words.now) (table_of ops.old)
        (Some priority) (Some kind) (listed (words_view words.now) (tree_of list.now))
        ≡ done_effect done (table_of ops.new)) }
{
    let mut rest = list;
    'cells: loop {
        let (name, terms) = match parts(rest) {
            Some(found) => found,
            None => return Ok(false),
        };
        if terms.is_empty() {
            return Ok(name == words.known.nil);
        }
        let (first, others) = match two(terms) {
            Some(found) => found,
            None => return Ok(false),
        };
        if name != words.known.cell {
            return Ok(false);
        }
        match operator(words, first) {
            Some(operator) => ops.put(priority, kind, operator)?,
            None => return Ok(false),
        }
        rest = others;
    }
}

/// Sets one operator or a list of them, or answers false where a term is neither.
fn set_operators(
    ops: &mut Ops,
    words: &Words,
    priority: u32,
    kind: OpKind,
    names: &ReadTerm,
) -> Result<bool, AllocError>
    ensures { IfOk result (λ done. effect_of (words_view words.now) (table_of ops.old)
        (Some priority) (Some kind) (operators_of (words_view words.now) (tree_of names.now))
        ≡ done_effect done (table_of ops.new)) }
{
    match atom(names) {
        Some(name) => {
            if name == words.known.nil {
                return Ok(true);
            }
            if is_barred(words, name) {
                return Ok(false);
            }
            ops.put(priority, kind, name)?;
            Ok(true)
        }
        None => set_listed(ops, words, priority, kind, names),
    }
}

/// Does what `op` does with these three, or answers false where it is refused.
fn set_by(
    ops: &mut Ops,
    words: &Words,
    at: &ReadTerm,
    of: &ReadTerm,
    names: &ReadTerm,
) -> Result<bool, AllocError>
    ensures { IfOk result (λ done. effect_of (words_view words.now) (table_of ops.old)
        (priority_of (tree_of at.now)) (kind_of (words_view words.now) (tree_of of.now))
        (operators_of (words_view words.now) (tree_of names.now))
        ≡ done_effect done (table_of ops.new)) }
{
    let priority = match priority(at) {
        Some(priority) => priority,
        None => return Ok(false),
    };
    let kind = match kind(words, of) {
        Some(kind) => kind,
        None => return Ok(false),
    };
    set_operators(ops, words, priority, kind, names)
}

/// Does what a directive does to the operators, or answers false where it is refused.
fn direct(ops: &mut Ops, words: &Words, directive: &ReadTerm) -> Result<bool, AllocError>
    ensures { IfOk result (λ done. directive_by (words_view words.now) (table_of ops.old)
        (parts_of (tree_of directive.now)) ≡ done_effect done (table_of ops.new)) }
{
    match parts(directive) {
        Some((name, terms)) => match three(terms) {
            Some((at, of, names)) => {
                if name == words.op {
                    set_by(ops, words, at, of, names)
                } else {
                    Ok(true)
                }
            }
            None => Ok(true),
        },
        None => Ok(true),
    }
}

/// Does what a clause does to the operators, or answers false where it is refused. Then some may be changed.
pub fn obey(ops: &mut Ops, words: &Words, clause: &ReadTerm) -> Result<bool, AllocError>
    ensures { IfOk result (λ done. effect (words_view words.now) (table_of ops.old)
        (tree_of clause.now) ≡ done_effect done (table_of ops.new)) }
{
    match parts(clause) {
        Some((name, terms)) => match one(terms) {
            Some(directive) => {
                if name == words.neck {
                    direct(ops, words, directive)
                } else {
                    Ok(true)
                }
            }
            None => Ok(true),
        },
        None => Ok(true),
    }
}
