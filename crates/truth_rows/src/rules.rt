//! Whether calls stay in sets: the rule of preconditions.

ghost use Rattle.std.specs.Prelude.{◌≡◌, ◌↔◌, ◌≤◌, ◌<◌, ℕ, Bool, IsTrue, IfOk, if◌then◌else◌, length, slice_get, Some};
ghost use Rattle.truth_rows.specs.Ready.{HasAtom, HasAtoms, IsReady, IsReadyClause};
ghost use Rattle.truth_rows.specs.Rules.{KeepsSets, same_rank};
ghost use Rattle.truth_rows.specs.Sets.{AreSets, family_of};
ghost use Rattle.bool_diagrams.specs.Rows.{IsDiagram, Keeps, holds};
ghost use Rattle.cti_terms.specs.declared.atom_list.Atom.{Atom};
ghost use Rattle.cti_terms.specs.Listing.{IsClause};

use crate::atoms::atom_rows;
use crate::ends::{put_body_off, without_ended};
use crate::inside::is_inside;
use bool_diagrams::{Diagram, Table};
use cti_terms::{Atom, Clause, MOST_VARIABLES, Program};
use std::alloc::AllocError;
use term_size::Norm;

/// A clause, and the sets of truth rows by which it keeps or breaks the rule of preconditions.
///
/// Each list has a place for each predicate.
#[derive(Clone, Copy)]
pub struct ClauseRule<'a> {
    /// Predicates of one component have the same number.
    pub ranks: &'a [u32],
    /// A call is reached where each atom before it is in its set here.
    pub grounds: &'a [Diagram],
    /// The head's set, and those in which calls of its component have to be.
    pub pre: &'a [Diagram],
    /// The sets in which all other calls have to be.
    pub allowed: &'a [Diagram],
    pub clause: &'a Clause,
}

impl ClauseRule<'_> {
    /// Whether the clause keeps the rule of preconditions: from each truth row of the head in `pre`, each call that is
    /// reached has a truth row in turn, in `pre` where its predicate has the rank of the head's, else in `allowed`.
    ///
    /// A call is reached where the truth rows of all atoms before it are in `grounds`. The clause is one of the
    /// program's.
    pub fn is_kept<N: Norm>(
        &self,
        norm: &N,
        table: &mut Table,
        p: &Program,
    ) -> Result<bool, AllocError>
        requires ranks { length self.now.ranks.now ≡ length p.now.preds }
        requires grounds { AreSets p.now.preds table.old self.now.grounds.now }
        requires pre { AreSets p.now.preds table.old self.now.pre.now }
        requires allowed { AreSets p.now.preds table.old self.now.allowed.now }
        requires clause { IsClause p.now.preds self.now.clause.now }
        ensures keeps { Keeps table.old table.new }
        ensures rule { IfOk result (λ kept. IsTrue kept
            ↔ KeepsSets (N.truth norm.now)
            (family_of p.now.preds table.old self.now.pre.now)
            (family_of p.now.preds table.old self.now.allowed.now)
            (family_of p.now.preds table.old self.now.grounds.now)
            (λ q. same_rank self.now.ranks.now q self.now.clause.now.head.pred.0) self.now.clause.now) }
    {
        // What every program keeps is said by `clauses`.
        let _count = p.clauses();
        self.calls_stay(norm, table)
    }

    /// Whether each call that is reached from the head's set is in its own.
    fn calls_stay<N: Norm>(&self, norm: &N, table: &mut Table) -> Result<bool, AllocError>
        requires head { self.now.clause.now.head.pred.0 < length self.now.ranks.now }
        requires body { (j : ℕ) (b : Atom) → slice_get self.now.clause.now.body j ≡ Some b
            → b.pred.0 < length self.now.ranks.now }
        requires grounds { IsReadyClause table.old self.now.grounds.now self.now.clause.now }
        requires pre { IsReadyClause table.old self.now.pre.now self.now.clause.now }
        requires allowed { IsReadyClause table.old self.now.allowed.now self.now.clause.now }
        ensures keeps { Keeps table.old table.new }
        ensures stay { IfOk result (λ kept. IsTrue kept
            ↔ ((v : ℕ → Bool)
            → HasAtom (N.truth norm.now) table.old self.now.pre.now v self.now.clause.now.head
            → (j : ℕ) (b : Atom) → slice_get self.now.clause.now.body j ≡ Some b
            → HasAtoms (N.truth norm.now) table.old self.now.grounds.now v self.now.clause.now.body j
            → HasAtom (N.truth norm.now) table.old
            (if same_rank self.now.ranks.now b.pred.0 self.now.clause.now.head.pred.0
            then self.now.pre.now else self.now.allowed.now) v b)) }
    {
        let clause = self.clause;
        let mut ends = [0; MOST_VARIABLES as usize];
        put_body_off(norm, &mut ends, &clause.body, clause.vars);
        let rank = self.ranks[clause.head.pred.0 as usize];
        let mut reached = atom_rows(norm, table, self.pre, &clause.head, clause.vars)?;
        for (place, atom) in clause.body.as_slice().iter().enumerate() {
            reached = without_ended(table, reached, &ends, place, clause.vars)?;
            let own = self.ranks[atom.pred.0 as usize] == rank;
            let stays = self.call_stays(norm, table, reached, own, atom)?;
            if !stays {
                return Ok(false);
            }
            let holding = atom_rows(norm, table, self.grounds, atom, clause.vars)?;
            reached = table.and(reached, holding)?;
        }
        Ok(true)
    }

    /// Whether an atom is in its set on each of the rows.
    fn call_stays<N: Norm>(
        &self,
        norm: &N,
        table: &mut Table,
        reached: Diagram,
        own: bool,
        atom: &Atom,
    ) -> Result<bool, AllocError>
        requires few { self.now.clause.now.vars ≤ MOST_VARIABLES }
        requires known { IsDiagram table.old reached }
        requires pre { IsReady table.old self.now.pre.now self.now.clause.now.vars atom.now }
        requires allowed { IsReady table.old self.now.allowed.now self.now.clause.now.vars atom.now }
        ensures keeps { Keeps table.old table.new }
        ensures stays { IfOk result (λ stays. IsTrue stays
            ↔ ((v : ℕ → Bool) → IsTrue (holds table.old reached v)
            → HasAtom (N.truth norm.now) table.old
            (if own then self.now.pre.now else self.now.allowed.now) v atom.now)) }
    {
        let wanted = self.rows_of_call(norm, table, own, atom)?;
        is_inside(table, reached, wanted)
    }

    /// The rows on which a call is in its set: in `pre` where its predicate is of the head's component, else in
    /// `allowed`.
    pub fn rows_of_call<N: Norm>(
        &self,
        norm: &N,
        table: &mut Table,
        own: bool,
        call: &Atom,
    ) -> Result<Diagram, AllocError>
        requires few { self.now.clause.now.vars ≤ MOST_VARIABLES }
        requires pre { IsReady table.old self.now.pre.now self.now.clause.now.vars call.now }
        requires allowed { IsReady table.old self.now.allowed.now self.now.clause.now.vars call.now }
        ensures keeps { Keeps table.old table.new }
        ensures known { IfOk result (IsDiagram table.new) }
        ensures rows { IfOk result (λ d. (row : ℕ → Bool)
            → IsTrue (holds table.new d row)
            ↔ HasAtom (N.truth norm.now) table.old
            (if own then self.now.pre.now else self.now.allowed.now) row call.now) }
    {
        if own {
            return atom_rows(norm, table, self.pre, call, self.clause.vars);
        }
        atom_rows(norm, table, self.allowed, call, self.clause.vars)
    }
}
