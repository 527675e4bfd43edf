//! Programs: predicates and clauses, in order, and what is built in.

ghost use Rattle.std.specs.Prelude.{◌≡◌, ℕ, ◌+◌, ◌-◌, ◌<◌, ◌≤◌, ◌^◌, ◌↔◌, ◌++◌, [], ◌∷◌, IfOk, OnOk, OnErr, IfSome, IsNone, length, slice_get, position, option_map, Some, Contains};
ghost use Rattle.std.specs.List.{position_or_len};
ghost use Rattle.cti_terms.specs.Arithmetic.{kind_of, kind_among, no_arithmetic};
ghost use Rattle.cti_terms.specs.Listing.{is_pred, with_pred, AreThree, IsClause, IsOrdinary, IsProgram};

use crate::builtins::{Arith, Builtin};
use crate::clauses::Clause;
use crate::limits::{MOST_ARGUMENTS, MOST_CLAUSES};
use crate::naming::Name;
use crate::predicates::{Pred, PredId};
use indexmap::IndexSet;
use std::alloc::{AllocError, Global};
use std::marker::Model;

/// A program: a list of predicates and a list of clauses, with the built-in ones among the predicates. Contracts see
/// the lists.
pub struct Program {
    preds: IndexSet<Pred>,
    clauses: Vec<Clause>,
    builtins: Vec<(PredId, Builtin)>,
    arith: Option<Arith>,
}

impl Drop for Program {
    fn drop(self) {
        let Program {
            preds: _,
            clauses: _,
            builtins: _,
            arith: _,
        } = self;
    }
}

impl Model for Program {
    ghost use Rattle.cti_terms.specs.Listing.{Listing, IsProgram};
    ghost use Rattle.cti_terms.specs.ListingCode.{coded_listing};

    ghost Value = { Listing };

    ghost coded = { coded_listing };

    ghost view = { λ p. record {
      preds = p.preds.keys;
      clauses = p.clauses.items;
      arithmetic = record { names = p.arith; builtins = p.builtins.items };
    } };

    ghost invariant = { λ p. IsProgram (record {
      preds = p.preds.keys;
      clauses = p.clauses.items;
      arithmetic = record { names = p.arith; builtins = p.builtins.items };
    }) };
}

/// The place of the predicate of this name and arity, which is found by its hash.
fn place(preds: &IndexSet<Pred>, name: Name, arity: u32) -> Option<usize>
    ensures { result ≡ position (is_pred name.0 arity) preds.now.keys }
{
    preds.get_index_of(&Pred { name, arity })
}

impl Program {
    /// The empty program. It takes no memory.
    pub fn new(alloc: Global) -> Program
        ensures preds { result.preds ≡ [] }
        ensures clauses { result.clauses ≡ [] }
        ensures arithmetic { result.arithmetic ≡ no_arithmetic }
    {
        Program {
            preds: IndexSet::new(alloc),
            clauses: Vec::new(alloc),
            builtins: Vec::new(alloc),
            arith: None,
        }
    }

    /// How many predicates are there. No two of them have the same name and arity.
    pub fn preds(&self) -> u32
        ensures count { result ≡ length self.now.preds }
        ensures sound { IsProgram self.now }
    {
        self.preds.len() as u32
    }

    /// How many clauses are there.
    pub fn clauses(&self) -> u32
        ensures count { result ≡ length self.now.clauses }
        ensures sound { IsProgram self.now }
    {
        self.clauses.len() as u32
    }

    /// The predicate of a number.
    pub fn pred(&self, p: PredId) -> &Pred
        requires { p.0 < length self.now.preds }
        ensures { slice_get self.now.preds p.0 ≡ Some result.now }
    {
        &self.preds.as_slice()[p.0 as usize]
    }

    /// The clause of a number, which counts from 1.
    pub fn clause(&self, k: u32) -> &Clause
        requires first { 1 ≤ k }
        requires last { k ≤ length self.now.clauses }
        ensures there { slice_get self.now.clauses (k - 1) ≡ Some result.now }
        ensures sound { IsClause self.now.preds result.now }
        ensures ordinary { IsOrdinary self.now.arithmetic result.now }
    {
        &self.clauses[k as usize - 1]
    }

    /// The predicate of this name and arity, if it is there. It takes no memory.
    pub fn find(&self, name: Name, arity: u32) -> Option<PredId>
        ensures number { option_map (λ p. p.0) result ≡ position (is_pred name.0 arity) self.now.preds }
        ensures found { IfSome result (λ p. slice_get self.now.preds p.0
            ≡ Some (record { name = name; arity = arity })) }
        ensures absent { IsNone result ↔ ¬ Contains self.now.preds (record { name = name; arity = arity }) }
    {
        let i = place(&self.preds, name, arity)?;
        Some(PredId(i as u32))
    }

    /// The predicate of this name and arity: the old one where it is there, else the next.
    pub fn add_pred(&mut self, name: Name, arity: u32) -> Result<PredId, AllocError>
        requires small { arity ≤ MOST_ARGUMENTS }
        requires room { length self.old.preds < 2 ^ 32 - 1 }
        ensures number { IfOk result (λ p. p.0 ≡ position_or_len (is_pred name.0 arity) self.old.preds) }
        ensures preds { OnOk result (self.new.preds
            ≡ with_pred self.old.preds (record { name = name; arity = arity })) }
        ensures found { IfOk result (λ p. slice_get self.new.preds p.0 ≡ Some (record { name = name; arity = arity })) }

        // Earlier predicates keep their numbers, and out of memory, nothing is changed.
        ensures kept { (i : ℕ) → i < length self.old.preds → slice_get self.new.preds i ≡ slice_get self.old.preds i }
        ensures clauses { self.new.clauses ≡ self.old.clauses }
        ensures arithmetic { self.new.arithmetic ≡ self.old.arithmetic }
        ensures err { OnErr result (self.new ≡ self.old) }
    {
        let (i, _) = self.preds.insert_full(Pred { name, arity })?;
        Ok(PredId(i as u32))
    }

    /// Adds a clause at the end, and answers its number, which counts from 1.
    pub fn add_clause(&mut self, clause: Clause) -> Result<u32, AllocError>
        requires sound { IsClause self.old.preds clause }
        requires ordinary { IsOrdinary self.old.arithmetic clause }
        requires room { length self.old.clauses < MOST_CLAUSES }
        ensures number { IfOk result (λ k. k ≡ length self.old.clauses + 1) }
        ensures clauses { OnOk result (self.new.clauses ≡ self.old.clauses ++ clause ∷ []) }

        // Out of memory, nothing is changed.
        ensures preds { self.new.preds ≡ self.old.preds }
        ensures arithmetic { self.new.arithmetic ≡ self.old.arithmetic }
        ensures err { OnErr result (self.new ≡ self.old) }
    {
        self.clauses.push(clause)?;
        Ok(self.clauses.len() as u32)
    }

    /// Keeps the names of arithmetic operations. It takes no memory.
    pub fn set_arith(&mut self, arith: Arith)
        requires { AreThree arith }
        ensures names { self.new.arithmetic.names ≡ Some arith }
        ensures builtins { self.new.arithmetic.builtins ≡ self.old.arithmetic.builtins }
        ensures preds { self.new.preds ≡ self.old.preds }
        ensures clauses { self.new.clauses ≡ self.old.clauses }
    {
        self.arith = Some(arith);
    }

    /// The names of arithmetic operations that were kept last, if any. It takes no memory.
    pub fn arith(&self) -> Option<Arith>
        ensures { result ≡ self.now.arithmetic.names }
    {
        self.arith
    }

    /// Adds a built-in predicate with two arguments.
    pub fn add_builtin(&mut self, name: Name, kind: Builtin) -> Result<PredId, AllocError>
        requires new { ¬ Contains self.old.preds (record { name = name; arity = 2 }) }
        requires room { length self.old.preds < 2 ^ 32 - 1 }
        ensures number { IfOk result (λ p. p.0 ≡ length self.old.preds) }
        ensures preds { OnOk result (self.new.preds ≡ self.old.preds ++ record { name = name; arity = 2 } ∷ []) }
        ensures builtins { IfOk result (λ p. self.new.arithmetic.builtins
            ≡ self.old.arithmetic.builtins ++ (p, kind) ∷ []) }
        ensures names { self.new.arithmetic.names ≡ self.old.arithmetic.names }
        ensures clauses { self.new.clauses ≡ self.old.clauses }

        // Out of memory, nothing is changed.
        ensures err { OnErr result (self.new ≡ self.old) }
    {
        let pred = PredId(self.preds.len() as u32);
        self.builtins.push((pred, kind))?;
        match self.preds.insert_full(Pred { name, arity: 2 }) {
            Ok(_) => Ok(pred),
            Err(_) => {
                self.builtins.pop();
                Err(AllocError)
            }
        }
    }

    /// What a predicate does, if it is built in. It takes no memory.
    pub fn builtin(&self, p: PredId) -> Option<Builtin>
        requires { p.0 < length self.now.preds }
        ensures { result ≡ kind_of self.now.arithmetic p.0 }
    {
        kind_among(&self.builtins, p)
    }
}

/// The kind of a predicate among built-in ones.
fn kind_among(builtins: &[(PredId, Builtin)], p: PredId) -> Option<Builtin>
    ensures { result ≡ kind_among builtins.now p.0 }
{
    for builtin in builtins {
        if builtin.0 == p {
            return Some(builtin.1);
        }
    }
    None
}
