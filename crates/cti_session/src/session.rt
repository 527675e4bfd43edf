//! Sessions.

ghost use Rattle.std.specs.Prelude.{◌≡◌, ◌≤◌, ◌<◌, ◌+◌, ◌-◌, ◌^◌, ◌++◌, ◌∷◌, [], ℕ, List, suc, Some, None};
ghost use Rattle.std.specs.Prelude.{IfOk, OnOk, OnErr, MatchResult, length, map, slice_get};
ghost use Rattle.std.specs.List.{AllByRecursion, insert as inserted, remove as removed};
ghost use Rattle.cert_structure.specs.Order.{pred_text};
ghost use Rattle.certificate.specs.declared.fact.Fact.TheVariants.{Terminates};
ghost use Rattle.clause_normal.specs.Definite.{added_fault};
ghost use Rattle.clause_normal.specs.Numbering.{operation_texts};
ghost use Rattle.prolog_reader.specs.Fit.{IsFit};
ghost use Rattle.prolog_reader.specs.Names.{Extends};
ghost use Rattle.prolog_reader.specs.Naming.{with_names};
ghost use Rattle.prolog_terms.specs.Clauses.{nodes};
ghost use Rattle.prolog_terms.specs.Terms.{clause_of, tree_of};
ghost use Rattle.kept_program.specs.ProgramParts.{certificate_facts};
ghost use Rattle.precond_fixpoint.specs.Solving.{arguments_of};
ghost use Rattle.cti_session.specs.Extending.{first_fault};
ghost use Rattle.cti_session.specs.Faults.{IfNorm};
ghost use Rattle.edit_texts.specs.Snapshot.{HasProgram, KeepUntouched, nodes_in};
ghost use Rattle.cti_session.specs.Session.{IsSession};

use crate::counting::term_nodes;
use crate::edit::{EditClause, EditFault};
use crate::extending::extend;
use certificate::Certificate;
use clause_normal::check_added;
use cti_terms::{Names, PredId, Program};
use edit_texts::{first_program, follow_with, follow_without};
use kept_program::KeptProgram;
use precond_fixpoint::Mode;
use prolog_terms::ReadClause;
use std::alloc::{AllocError, Global};
use std::marker::Model;

/// A program whose clauses come and go, with what is found of it.
///
/// Contracts see the clauses, and their program with what its certificate is made of. The names are the caller's, who
/// may add to them between edits: the law `sessions_stay` says that the program stays that of the clauses. Clauses
/// count from 1.
pub struct Session {
    clauses: Vec<ReadClause>,
    nodes: u32,
    kept: KeptProgram,
}

impl Drop for Session {
    fn drop(self) {
        let Session {
            clauses: _,
            nodes: _,
            kept: _,
        } = self;
    }
}

impl Model for Session {
    ghost use Rattle.edit_texts.specs.Snapshot.{Snapshot};
    ghost use Rattle.cti_session.specs.SnapshotCode.{coded_snapshot};

    ghost Value = { Snapshot };

    ghost coded = { coded_snapshot };

    ghost use Rattle.edit_texts.specs.Following.{snapshot, IsCounted};

    ghost view = { λ s. snapshot s.clauses.items s.kept };

    // The program is that of the clauses for some names, those of the last edit.
    ghost invariant = { λ s. IsCounted s.nodes (snapshot s.clauses.items s.kept) };
}

impl Session {
    /// A session without clauses.
    ///
    /// The names of arithmetic operations are added, and later edits add none.
    pub fn new(alloc: Global, names: &mut Names) -> Result<Session, AllocError>
        requires room { length names.old < 2 ^ 32 - 3 }
        ensures clauses { IfOk result (λ s. s.clauses ≡ []) }
        ensures session { IfOk result (IsSession names.new) }
        ensures names { OnOk result (names.new ≡ with_names names.old operation_texts) }
        ensures kept { Extends names.old names.new }
    {
        let kept = first_program(alloc, names)?;
        kept.certified(names);
        Ok(Session {
            clauses: Vec::new(alloc),
            nodes: 0,
            kept,
        })
    }

    /// Adds a clause after the others; all clauses have at most 2,097,152 nodes together. Fails with `Norm` where the
    /// clause has a fault as the last one, or with `Memory`. After an error the session is as before.
    pub fn add(&mut self, clause: EditClause, names: &mut Names) -> Result<(), EditFault>
        requires known { HasProgram names.old self.old }
        requires fit { IsFit (length names.old) (clause_of clause.clause) }
        requires small { nodes_in self.old.clauses + nodes (tree_of clause.clause.term) ≤ 2097152 }
        requires room { length names.old < 2 ^ 32 - 3 }

        // What its certificate is made of makes one that is valid and exact for the program of the clauses.
        ensures clauses { OnOk result
            (self.new.clauses ≡ self.old.clauses ++ clause_of clause.clause ∷ []) }
        ensures session { OnOk result (IsSession names.new self.new) }

        // What the edit leaves untouched keeps its size rows, ground rows and measures.
        ensures untouched { OnOk result (KeepUntouched self.old.kept self.new.kept) }

        // The clause is refused exactly where it has a fault as the last one, and with the first fault.
        ensures exact { let fault = added_fault names.old (length self.old.clauses)
            (clause_of clause.clause) in
            MatchResult result (λ _. fault ≡ None) (λ e. IfNorm e (λ f. fault ≡ Some f)) }
        ensures err { OnErr result (self.new ≡ self.old) }
        ensures names { names.new ≡ names.old }
    {
        let last = self.clauses() + 1;
        self.insert(last, clause, names)
    }

    /// Adds clauses after the others, all in one edit: for a file of them, or what is put in at once. Fails with `Norm`
    /// at the first clause that has a fault after those before it, or with `Memory`. After an error the session is as
    /// before.
    pub fn extend(&mut self, clauses: Vec<ReadClause>, names: &mut Names) -> Result<(), EditFault>
        requires known { HasProgram names.old self.old }
        requires fit { AllByRecursion (IsFit (length names.old)) (map clause_of clauses.items) }
        requires small { nodes_in self.old.clauses + nodes_in (map clause_of clauses.items) ≤ 2097152 }
        requires room { length names.old < 2 ^ 32 - 3 }

        // What its certificate is made of makes one that is valid and exact for the program of the clauses.
        ensures clauses { OnOk result
            (self.new.clauses ≡ self.old.clauses ++ map clause_of clauses.items) }
        ensures session { OnOk result (IsSession names.new self.new) }

        // What the edit leaves untouched keeps its size rows, ground rows and measures.
        ensures untouched { OnOk result (KeepUntouched self.old.kept self.new.kept) }

        // The clauses are refused exactly where one of them has a fault after those before it, and with the first
        // fault.
        ensures exact { let fault = first_fault names.old (length self.old.clauses)
            (map clause_of clauses.items) in
            MatchResult result (λ _. fault ≡ None) (λ e. IfNorm e (λ f. fault ≡ Some f)) }
        ensures err { OnErr result (self.new ≡ self.old) }
        ensures names { names.new ≡ names.old }
    {
        let more = extend(&mut self.kept, &mut self.clauses, clauses, names)?;
        self.nodes += more;
        self.kept.certified(names);
        Ok(())
    }

    /// Puts in a clause, which then has the number `k`, from 1 to one above `clauses()`. After an error the session is
    /// as before.
    pub fn insert(&mut self, k: u32, clause: EditClause, names: &mut Names) -> Result<(), EditFault>
        requires first { 1 ≤ k }
        requires last { k ≤ length self.old.clauses + 1 }
        requires known { HasProgram names.old self.old }
        requires fit { IsFit (length names.old) (clause_of clause.clause) }
        requires small { nodes_in self.old.clauses + nodes (tree_of clause.clause.term) ≤ 2097152 }
        requires room { length names.old < 2 ^ 32 - 3 }

        // What its certificate is made of makes one that is valid and exact for the program of the clauses.
        ensures clauses { OnOk result
            (self.new.clauses ≡ inserted self.old.clauses (k - 1) (clause_of clause.clause)) }
        ensures session { OnOk result (IsSession names.new self.new) }

        // What the edit leaves untouched keeps its size rows, ground rows and measures.
        ensures untouched { OnOk result (KeepUntouched self.old.kept self.new.kept) }

        // The clause is refused exactly where it has a fault, wherever it stands, and with the first fault.
        ensures exact { let fault = added_fault names.old (length self.old.clauses)
            (clause_of clause.clause) in
            MatchResult result (λ _. fault ≡ None) (λ e. IfNorm e (λ f. fault ≡ Some f)) }
        ensures err { OnErr result (self.new ≡ self.old) }
        ensures names { names.new ≡ names.old }
    {
        let alloc = *self.clauses.allocator();
        let at = k as usize - 1;
        let clause = clause.clause;
        check_added(alloc, &clause, names, self.clauses.len())?;
        let more = term_nodes(alloc, &clause.term)?;
        follow_with(&mut self.kept, &mut self.clauses, at, clause, names)?;
        self.nodes += more;
        self.kept.certified(names);
        Ok(())
    }

    /// Takes out the clause of number `k`, from 1 to `clauses()`. Fails only with out of memory, and then the session
    /// is as before.
    pub fn remove(&mut self, k: u32, names: &mut Names) -> Result<(), AllocError>
        requires first { 1 ≤ k }
        requires last { k ≤ length self.old.clauses }
        requires known { HasProgram names.old self.old }
        requires room { length names.old < 2 ^ 32 - 3 }

        // What its certificate is made of makes one that is valid and exact for the program of the clauses.
        ensures clauses { OnOk result (self.new.clauses ≡ removed self.old.clauses (k - 1)) }
        ensures session { OnOk result (IsSession names.new self.new) }

        // What the edit leaves untouched keeps its size rows, ground rows and measures.
        ensures untouched { OnOk result (KeepUntouched self.old.kept self.new.kept) }
        ensures err { OnErr result (self.new ≡ self.old) }
        ensures names { names.new ≡ names.old }
    {
        let alloc = *self.clauses.allocator();
        let at = k as usize - 1;
        let fewer = term_nodes(alloc, &self.clauses[at].term)?;
        follow_without(&mut self.kept, &mut self.clauses, at, names)?;
        self.nodes -= fewer;
        self.kept.certified(names);
        Ok(())
    }

    /// How many clauses there are, without that of `=`/2.
    pub fn clauses(&self) -> u32
        ensures { result ≡ length self.now.clauses }
    {
        self.clauses.len() as u32
    }

    /// How many nodes the terms of the clauses have together.
    pub fn nodes(&self) -> u32
        ensures { result ≡ nodes_in self.now.clauses }
    {
        self.nodes
    }

    /// The program of the clauses.
    pub fn program(&self) -> &Program
        ensures { result.now ≡ self.now.kept.program }
    {
        self.kept.program()
    }

    /// The modes of a predicate, as the certificate prints them. It takes no memory.
    pub fn modes(&self, p: PredId) -> &[Mode]
        requires { p.0 < length self.now.kept.program.preds }

        // After its version a certificate has one fact for each predicate.
        ensures { (names : List (List ℕ)) → slice_get (certificate_facts names self.now.kept) (suc p.0)
            ≡ Some (Terminates (pred_text self.now.kept.program names p.0) (map arguments_of result.now)) }
    {
        self.kept.modes(p)
    }

    /// The certificate of the program, by the texts of names. It is made each time.
    pub fn certificate(&self, names: &Names) -> Result<Certificate, AllocError>
        requires known { HasProgram names.now self.now }

        // It is valid and exact for the program of the clauses.
        ensures facts { IfOk result (λ c. c.facts ≡ certificate_facts names.now self.now.kept) }
        ensures session { IsSession names.now self.now }
    {
        self.kept.certified(names);
        let alloc = *self.clauses.allocator();
        self.kept.certificate(alloc, names)
    }
}
