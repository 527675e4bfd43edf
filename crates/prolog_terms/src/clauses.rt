//! A list of clauses.

ghost use Rattle.std.specs.Prelude.{◌≡◌, ◌↔◌, IsTrue, [], ◌∷◌, ◌++◌, length, map, OnOk, OnErr};
ghost use Rattle.prolog_terms.specs.Terms.{clause_of};

use crate::clause::ReadClause;
use std::alloc::{AllocError, Global};
use std::marker::Model;

/// A list of clauses. Contracts see the list of the plain clauses.
#[derive(Drop)]
pub struct ReadClauses {
    items: Vec<ReadClause>,
}

impl Model for ReadClauses {
    ghost use Rattle.std.specs.Prelude.{List, ℕ, map};
    ghost use Rattle.std.specs.Coded.{coded_list};
    ghost use Rattle.prolog_terms.specs.Clauses.{Clause};
    ghost use Rattle.prolog_terms.specs.Coding.{coded_clause};
    ghost use Rattle.prolog_terms.specs.Terms.{clause_of};

    ghost Value = { List Clause };

    ghost coded = { coded_list coded_clause };

    ghost view = { λ c. map clause_of c.items.items };
}

impl ReadClauses {
    /// No clauses. It takes no memory.
    pub fn new(alloc: Global) -> ReadClauses
        ensures { result ≡ [] }
    {
        ReadClauses {
            items: Vec::new(alloc),
        }
    }

    /// The clauses of a vector, in its order. Takes no memory.
    pub fn from_vec(clauses: Vec<ReadClause>) -> ReadClauses
        ensures { result ≡ map clause_of clauses.items }
    {
        ReadClauses { items: clauses }
    }

    /// The clauses as a `Vec`. It takes no memory.
    pub fn into_vec(self) -> Vec<ReadClause>
        ensures { map clause_of result.items ≡ self }
    {
        self.items
    }

    /// How many clauses are there.
    pub fn len(&self) -> usize
        ensures { result ≡ length self.now }
    {
        self.items.len()
    }

    /// Whether there are no clauses.
    pub fn is_empty(&self) -> bool
        ensures { IsTrue result ↔ (length self.now ≡ 0) }
    {
        self.items.is_empty()
    }

    /// The clauses, in the order of the text.
    pub fn as_slice(&self) -> &[ReadClause]
        ensures { map clause_of result.now ≡ self.now }
    {
        self.items.as_slice()
    }

    /// Puts a clause last.
    pub fn push(&mut self, clause: ReadClause) -> Result<(), AllocError>
        ensures ok { OnOk result (self.new ≡ self.old ++ clause_of clause ∷ []) }
        ensures err { OnErr result (self.new ≡ self.old) }
    {
        self.items.push(clause)?;
        Ok(())
    }
}
