//! Proofs for the calls of clauses.

ghost use Rattle.std.specs.Prelude.{◌≡◌, Some, ℕ, List};
ghost use Rattle.fact_reading.specs.Walk.{Agrees, Read};
ghost use Rattle.lex_certificate.specs.Shape.{lists_of_call};
ghost use Rattle.number_tests.specs.declared.level_part.LevelPart.{LevelPart as TheLevel};
ghost use Rattle.prove_certificate.specs.declared.fact.ProveFact.{ProveFact as TheFact};
ghost use Rattle.prove_structure.specs.Walk.{read_calls, read_clause};

use crate::lists::lists_at;
use cert_structure::{Calls, body_at, head_at, rows_of};
use cti_terms::Atom;
use fact_reading::{Reader, Stop};
use number_tests::LevelPart;
use prove_certificate::ProveFact;
use sequences::Sequence;
use std::alloc::Global;
use termination_model::SizeRows;

/// A call of a clause, and how many rows the atoms before it have. Both count from 0.
#[derive(Clone, Copy)]
pub(crate) struct CallRows {
    pub(crate) clause: u64,
    pub(crate) call: u64,
    pub(crate) rows: u128,
}

/// A reader of the proofs for a call.
pub(crate) trait CallReader {
    /// What is read.
    type Item: Drop;

    /// What is read for a call of a clause, where the atoms before it have so many rows, and it has to drop in these
    /// lists.
    ghost reads: { ℕ → ℕ → ℕ → List (List TheLevel) → List TheFact → Read TheFact Self.Item };

    /// What is read for a call that has to drop in these lists.
    fn read_call<'f>(
        alloc: Global,
        at: CallRows,
        own: &[Sequence<LevelPart>],
        facts: &'f [ProveFact],
    ) -> Result<(Self::Item, &'f [ProveFact]), Stop>
        ensures { Agrees result (reads at.clause at.call at.rows own.now facts.now) };
}

/// The proofs for the calls of each clause.
#[derive(Drop)]
pub(crate) struct ClauseProofs<'a, R> {
    pub(crate) calls: Calls<'a>,
    pub(crate) rows: &'a SizeRows,
    pub(crate) lists: &'a [Sequence<Sequence<LevelPart>>],
    /// How those of a call are read.
    pub(crate) reader: R,
}

impl<R: CallReader> ClauseProofs<'_, R> {
    /// The lists that a call of a clause with a head of this predicate has to drop in.
    fn lists_of_call(&self, head: u64, call: &Atom) -> &[Sequence<LevelPart>]
        ensures { result.now ≡ lists_of_call self.now.calls.comps.now self.now.lists.now head
            (Some call.now) }
    {
        if self.calls.together(head, u64::from(call.pred.0)) {
            lists_at(self.lists, head)
        } else {
            &[]
        }
    }

    /// The proofs for the calls of a clause.
    fn read_calls<'f>(
        &self,
        alloc: Global,
        clause: u64,
        head: u64,
        body: &[Atom],
        facts: &'f [ProveFact],
    ) -> Result<(Sequence<R::Item>, &'f [ProveFact]), Stop>
        ensures { Agrees result
            (read_calls R.reads self.now.calls.comps.now self.now.rows.now self.now.lists.now head clause
            0 0 body.now facts.now) }
    {
        let mut proofs = Sequence::new(alloc);
        let mut rest = facts;
        let mut rows = 0;
        for call in body {
            let at = CallRows {
                clause,
                call: proofs.len() as u64,
                rows,
            };
            let own = self.lists_of_call(head, call);
            let (items, after) = R::read_call(alloc, at, own, rest)?;
            proofs.push(items)?;
            rest = after;
            rows += u128::from(rows_of(self.rows, call.pred));
        }
        Ok((proofs, rest))
    }
}

impl<R: CallReader + Drop> Reader<ProveFact> for ClauseProofs<'_, R> {
    type Item = Sequence<R::Item>;

    ghost reads = { λ r number facts. read_clause R.reads r.calls.p.now r.calls.comps.now r.rows.now
        r.lists.now number facts };

    #[tactic(auto, unfolding(crate::specs::Walk::read_clause))]
    fn read<'f>(
        &self,
        alloc: Global,
        number: u64,
        facts: &'f [ProveFact],
    ) -> Result<(Sequence<R::Item>, &'f [ProveFact]), Stop> {
        let head = u64::from(head_at(self.calls.p, number).0);
        let body = body_at(self.calls.p, number);
        self.read_calls(alloc, number, head, body, facts)
    }
}
