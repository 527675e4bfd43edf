//! The kinds of first arguments: what rules clauses out without a look at their terms.

ghost use Rattle.std.specs.Prelude.{List, ◌∷◌};
ghost use Rattle.cti_terms.specs.Tree.{Tree};
ghost use Rattle.cti_terms.specs.Spell.{tree_of};
ghost use Rattle.ld_resolver.specs.FirstKinds.{HasKind};

use cti_terms::{Atom, Name, Term};

/// The kind of the first argument of a clause's head.
#[derive(Clone, Copy, Drop)]
pub enum FirstKind {
    /// A variable, or no argument: it rules nothing out.
    Any,

    Integer(i128),

    /// A compound term, by its name and its number of arguments.
    Compound(Name, usize),
}

/// The kind of a term.
fn kind_of(term: &Term) -> FirstKind
    ensures { (others : List Tree) → HasKind (tree_of term.now ∷ others) result }
{
    match term {
        Term::Var(_) => FirstKind::Any,
        Term::Int(n) => FirstKind::Integer(*n),
        Term::Fun(f, args) => FirstKind::Compound(*f, args.len()),
    }
}

/// The kind of an atom's first argument.
pub fn first_kind(atom: &Atom) -> FirstKind
    ensures { HasKind atom.now.args result }
{
    match atom.args.as_slice().first() {
        Some(term) => kind_of(term),
        None => FirstKind::Any,
    }
}
