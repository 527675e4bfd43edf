//! Atoms, and lists of atoms, as the body of a clause.

ghost use Rattle.std.specs.Prelude.{◌≡◌, ◌↔◌, IsTrue, OnOk, OnErr, length, [], ◌∷◌, ◌++◌};

use crate::predicates::PredId;
use crate::term_list::Terms;
use std::alloc::{AllocError, Global};
use std::marker::Model;

/// A predicate with its arguments, as many as its arity.
pub struct Atom {
    pub pred: PredId,
    pub args: Terms,
}

impl Drop for Atom {
    fn drop(self) {
        let Atom { pred: _, args: _ } = self;
    }
}

/// A list of atoms. Contracts see the list.
#[derive(Drop)]
pub struct Atoms {
    items: Vec<Atom>,
}

impl Model for Atoms {
    ghost use Rattle.std.specs.Prelude.{List};
    ghost use Rattle.std.specs.Coded.{coded_list};
    ghost use Rattle.cti_terms.specs.declared.atom_list.Atom.{Atom};
    ghost use Rattle.cti_terms.specs.Codes.{coded_atom};

    ghost Value = { List Atom };

    ghost coded = { coded_list coded_atom };

    ghost view = { λ a. a.items.items };
}

impl Atoms {
    /// No atoms. It takes no memory.
    pub fn new(alloc: Global) -> Atoms
        ensures { result ≡ [] }
    {
        Atoms {
            items: Vec::new(alloc),
        }
    }

    /// The atoms of a vector, in its order. Takes no memory.
    pub fn from_vec(items: Vec<Atom>) -> Atoms
        ensures { result ≡ items.items }
    {
        Atoms { items }
    }

    /// The atoms as a `Vec`, in their order. It takes no memory.
    pub fn into_vec(self) -> Vec<Atom>
        ensures { result.items ≡ self }
    {
        self.items
    }

    /// How many atoms are there.
    pub fn len(&self) -> usize
        ensures { result ≡ length self.now }
    {
        self.items.len()
    }

    /// Whether there are no atoms.
    pub fn is_empty(&self) -> bool
        ensures { IsTrue result ↔ (self.now ≡ []) }
    {
        self.items.is_empty()
    }

    /// The atoms, in their order.
    pub fn as_slice(&self) -> &[Atom]
        ensures { result.now ≡ self.now }
    {
        self.items.as_slice()
    }

    /// Adds an atom at the end.
    pub fn push(&mut self, atom: Atom) -> Result<(), AllocError>
        ensures ok { OnOk result (self.new ≡ self.old ++ atom ∷ []) }
        ensures err { OnErr result (self.new ≡ self.old) }
    {
        self.items.push(atom)?;
        Ok(())
    }
}
