//! The proofs that mappings decrease.

ghost use Rattle.std.specs.Prelude.{◌≡◌, Some};
ghost use Rattle.cert_structure.specs.Shape.{proofs_of_call, is_own_call};
ghost use Rattle.cert_structure.specs.Walk.{take_fall, read_call, read_calls, read_falls};
ghost use Rattle.fact_reading.specs.Walk.{Agrees};

use crate::calls::Calls;
use crate::clauses::{body_at, head_at};
use crate::items::count_of;
use crate::named::is_number;
use crate::numbers::multipliers;
use crate::sizes::rows_of;
use certificate::Fact;
use cti_terms::Atom;
use fact_reading::{FactFault, Kind, Next, Reader, Stop, each};
use linear_rows::Multipliers;
use number_tests::LevelPart;
use sequences::Sequence;
use std::alloc::Global;
use termination_model::SizeRows;

/// The facts of the proofs for a call, each with `rows` multipliers.
#[derive(Drop)]
struct FallFact {
    clause: u64,
    call: u64,
    rows: u128,
}

impl Kind<Fact> for FallFact {
    type Item = Multipliers;

    ghost takes = { λ r number fact. take_fall r.clause r.call r.rows number fact };

    #[tactic(auto, unfolding(crate::specs::Walk::take_fall))]
    fn take(
        &self,
        alloc: Global,
        number: u64,
        fact: &Fact,
    ) -> Result<Option<Multipliers>, FactFault> {
        let Fact::Falls {
            clause,
            call,
            mapping,
            scale,
            multipliers: list,
        } = fact
        else {
            return Ok(None);
        };
        if !is_number(u64::from(*clause), self.clause)
            || !is_number(u64::from(*call), self.call)
            || !is_number(u64::from(*mapping), number)
        {
            return Ok(None);
        }
        Ok(Some(multipliers(alloc, self.rows, *scale, list.as_slice())?))
    }
}

/// The proofs for the calls of each clause.
#[derive(Drop)]
pub(crate) struct Falls<'a> {
    pub(crate) calls: Calls<'a>,
    pub(crate) rows: &'a SizeRows,
    pub(crate) levels: &'a [Sequence<LevelPart>],
}

impl Falls<'_> {
    /// How many proofs a call of a clause with a head of this predicate has.
    fn proofs_of_call(&self, head: u64, call: &Atom) -> u64
        ensures { result ≡ proofs_of_call self.now.calls.comps.now self.now.levels.now head
            (Some call.now) }
    {
        if self.calls.together(head, u64::from(call.pred.0)) {
            count_of(self.levels, head)
        } else {
            0
        }
    }

    /// The proofs for the calls of a clause.
    fn read_calls<'f>(
        &self,
        alloc: Global,
        clause: u64,
        head: u64,
        body: &[Atom],
        facts: &'f [Fact],
    ) -> Result<(Sequence<Sequence<Multipliers>>, &'f [Fact]), Stop>
        ensures { Agrees result
            (read_calls self.now.calls.comps.now self.now.rows.now self.now.levels.now head clause 0 0
            body.now facts.now) }
    {
        let mut proofs = Sequence::new(alloc);
        let mut rest = facts;
        let mut rows = 0;
        for call in body {
            let kind = FallFact {
                clause,
                call: proofs.len() as u64,
                rows,
            };
            let count = self.proofs_of_call(head, call);
            let (items, after) = each(alloc, &Next { kind }, count, rest)?;
            proofs.push(items)?;
            rest = after;
            rows += u128::from(rows_of(self.rows, call.pred));
        }
        Ok((proofs, rest))
    }
}

impl Reader<Fact> for Falls<'_> {
    type Item = Sequence<Sequence<Multipliers>>;

    ghost reads = { λ r number facts. read_falls r.calls.p.now r.calls.comps.now r.rows.now r.levels.now number facts };

    #[tactic(auto, unfolding(crate::specs::Walk::read_falls))]
    fn read<'f>(
        &self,
        alloc: Global,
        number: u64,
        facts: &'f [Fact],
    ) -> Result<(Sequence<Sequence<Multipliers>>, &'f [Fact]), Stop> {
        let head = u64::from(head_at(self.calls.p, number).0);
        let body = body_at(self.calls.p, number);
        self.read_calls(alloc, number, head, body, facts)
    }
}
