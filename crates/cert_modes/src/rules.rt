//! Whether preconditions keep their rule.

ghost use Rattle.std.specs.Prelude.{◌≡◌, ◌↔◌, ℕ, IfOk, IsTrue, OnOk, length};
ghost use Rattle.truth_rows.specs.Sets.{AreSets};
ghost use Rattle.bool_diagrams.specs.Rows.{Keeps};
ghost use Rattle.cti_terms.specs.Listing.{IsClause};
ghost use Rattle.cert_modes.specs.Failing.{OfPred};
ghost use Rattle.cert_modes.specs.Marks.{IsMarked, mark_at};
ghost use Rattle.cert_modes.specs.Sets.{AreReady, KeepsEach};

use crate::choosing::choose;
use crate::fault::ModeReason;
use crate::marks::Marks;
use crate::sets::Sets;
use bool_diagrams::{Diagram, Table};
use cti_terms::{Clause, Program};
use std::alloc::{AllocError, Global};
use term_size::Norm;
use truth_rows::ClauseRule;

/// The rule of preconditions for a program's clauses.
pub(crate) struct PreconditionRule<'a, N> {
    pub(crate) norm: &'a N,
    pub(crate) program: &'a Program,
    /// For each predicate a number, which those of one component share.
    pub(crate) ranks: &'a [u32],
    pub(crate) sets: &'a Sets,
}

impl<N> Drop for PreconditionRule<'_, N> {
    fn drop(self) {
        let PreconditionRule {
            norm: _,
            program: _,
            ranks: _,
            sets: _,
        } = self;
    }
}

impl<N: Norm> PreconditionRule<'_, N> {
    /// Marks each predicate with a clause that breaks it in some mapping.
    pub(crate) fn mark_broken(
        &self,
        alloc: Global,
        table: &mut Table,
        marks: &mut Marks,
    ) -> Result<(), AllocError>
        requires ranks { length self.now.ranks.now ≡ length self.now.program.now.preds }
        requires ready { AreReady self.now.program.now table.old self.now.sets.now }
        requires marks { length marks.old ≡ length self.now.program.now.preds }
        ensures keeps { Keeps table.old table.new }
        ensures each { OnOk result (length marks.new ≡ length marks.old) }
        ensures kept { OnOk result ((q : ℕ)
            → IsMarked (OfPred self.now.program.now q
            (KeepsEach (N.truth self.now.norm.now) self.now.program.now table.old self.now.ranks.now self.now.sets.now))
            ModeReason.Precondition (mark_at marks.old q) (mark_at marks.new q)) }
    {
        let mut chosen = vec![in alloc; self.sets.none; self.program.preds() as usize]?;
        self.mark_each(table, &mut chosen, marks)
    }

    /// Marks each predicate with a clause that breaks it in some mapping, with room for a set of each predicate.
    fn mark_each(
        &self,
        table: &mut Table,
        chosen: &mut [Diagram],
        marks: &mut Marks,
    ) -> Result<(), AllocError>
        requires ranks { length self.now.ranks.now ≡ length self.now.program.now.preds }
        requires ready { AreReady self.now.program.now table.old self.now.sets.now }
        requires chosen { AreSets self.now.program.now.preds table.old chosen.old }
        requires marks { length marks.old ≡ length self.now.program.now.preds }
        ensures keeps { Keeps table.old table.new }
        ensures each { OnOk result (length marks.new ≡ length marks.old) }
        ensures kept { OnOk result ((q : ℕ)
            → IsMarked (OfPred self.now.program.now q
            (KeepsEach (N.truth self.now.norm.now) self.now.program.now table.old self.now.ranks.now self.now.sets.now))
            ModeReason.Precondition (mark_at marks.old q) (mark_at marks.new q)) }
    {
        for k in 0..self.program.clauses() {
            let clause = self.program.clause(k + 1);
            let kept = self.keeps_each(table, chosen, clause)?;
            marks.note(clause.head.pred, kept, ModeReason::Precondition);
        }
        Ok(())
    }

    /// Whether a clause keeps it in each mapping of its head. `chosen` has room for a set of each predicate.
    fn keeps_each(
        &self,
        table: &mut Table,
        chosen: &mut [Diagram],
        clause: &Clause,
    ) -> Result<bool, AllocError>
        requires ranks { length self.now.ranks.now ≡ length self.now.program.now.preds }
        requires ready { AreReady self.now.program.now table.old self.now.sets.now }
        requires chosen { AreSets self.now.program.now.preds table.old chosen.old }
        requires clause { IsClause self.now.program.now.preds clause.now }
        ensures keeps { Keeps table.old table.new }
        ensures chosen { OnOk result (AreSets self.now.program.now.preds table.old chosen.new) }
        ensures kept { IfOk result (λ kept. IsTrue kept
            ↔ KeepsEach (N.truth self.now.norm.now) self.now.program.now table.old self.now.ranks.now self.now.sets.now
            clause.now) }
    {
        let sets = self.sets;
        let own = sets.preconditions.as_slice()[clause.head.pred.0 as usize].as_slice();
        for mapping in 0..own.len() {
            choose(sets, mapping, clause, chosen);
            let rule = ClauseRule {
                ranks: self.ranks,
                grounds: sets.grounds.as_slice(),
                pre: chosen,
                allowed: sets.allowed.as_slice(),
                clause,
            };
            let kept = rule.is_kept(self.norm, table, self.program)?;
            if !kept {
                return Ok(false);
            }
        }
        Ok(true)
    }
}
