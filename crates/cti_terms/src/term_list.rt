//! A list of terms, as the arguments of an atom.

ghost use Rattle.std.specs.Prelude.{◌≡◌, ◌↔◌, IsTrue, OnOk, OnErr, length, map, [], ◌∷◌, ◌++◌};
ghost use Rattle.cti_terms.specs.Spell.{tree_of};

use crate::syntax::Term;
use std::alloc::{AllocError, Global};
use std::marker::Model;

/// A list of terms. Contracts see the list of the plain trees that they spell.
#[derive(Drop)]
pub struct Terms {
    items: Vec<Term>,
}

impl Model for Terms {
    ghost use Rattle.std.specs.Prelude.{List, map};
    ghost use Rattle.std.specs.Coded.{coded_list};
    ghost use Rattle.cti_terms.specs.Tree.{Tree};
    ghost use Rattle.cti_terms.specs.Coding.{coded_tree};

    ghost Value = { List Tree };

    ghost coded = { coded_list coded_tree };

    ghost use Rattle.cti_terms.specs.Spell.{tree_of};

    ghost view = { λ a. map tree_of a.items.items };
}

impl Terms {
    /// No terms. It takes no memory.
    pub fn new(alloc: Global) -> Terms
        ensures { result ≡ [] }
    {
        Terms {
            items: Vec::new(alloc),
        }
    }

    /// The terms of a vector, in its order. Takes no memory.
    pub fn from_vec(items: Vec<Term>) -> Terms
        ensures { result ≡ map tree_of items.items }
    {
        Terms { items }
    }

    /// The terms as a `Vec`, in their order. It takes no memory.
    pub fn into_vec(self) -> Vec<Term>
        ensures { map tree_of result.items ≡ self }
    {
        self.items
    }

    /// How many terms are there.
    pub fn len(&self) -> usize
        ensures { result ≡ length self.now }
    {
        self.items.len()
    }

    /// Whether there are no terms.
    pub fn is_empty(&self) -> bool
        ensures { IsTrue result ↔ (self.now ≡ []) }
    {
        self.items.is_empty()
    }

    /// The terms, in their order.
    pub fn as_slice(&self) -> &[Term]
        ensures { map tree_of result.now ≡ self.now }
    {
        self.items.as_slice()
    }

    /// Adds a term at the end.
    pub fn push(&mut self, term: Term) -> Result<(), AllocError>
        ensures ok { OnOk result (self.new ≡ self.old ++ tree_of term ∷ []) }
        ensures err { OnErr result (self.new ≡ self.old) }
    {
        self.items.push(term)?;
        Ok(())
    }
}
