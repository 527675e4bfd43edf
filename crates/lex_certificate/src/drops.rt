//! The proofs that lists drop.

ghost use Rattle.std.specs.Prelude.{◌≡◌, Some, length};
ghost use Rattle.cert_structure.specs.Shape.{is_own_call, items_of};
ghost use Rattle.fact_reading.specs.Walk.{Agrees};
ghost use Rattle.lex_certificate.specs.Shape.{lists_of_call};
ghost use Rattle.lex_certificate.specs.Walk.{take_drop, read_place, read_call, read_calls, read_drops};

use crate::fact::LexFact;
use crate::lists::lists_at;
use cert_structure::{Calls, body_at, count_of, head_at, is_number, multipliers, rows_of};
use cti_terms::Atom;
use fact_reading::{FactFault, Kind, Reader, Stop, StructureReason, each, many, wrong};
use linear_rows::Multipliers;
use number_tests::LevelPart;
use sequences::Sequence;
use std::alloc::Global;
use termination_model::SizeRows;

/// A call of a clause, and how many rows the atoms before it have.
#[derive(Clone, Copy)]
struct CallRows {
    clause: u64,
    call: u64,
    rows: u128,
}

/// The facts of the proofs for a call and a list.
#[derive(Drop)]
struct DropFact {
    at: CallRows,
    list: u64,
}

impl Kind<LexFact> for DropFact {
    type Item = Multipliers;

    ghost takes = { λ r number fact. take_drop r.at.clause r.at.call r.at.rows r.list number fact };

    #[tactic(auto, unfolding(crate::specs::Walk::take_drop))]
    fn take(
        &self,
        alloc: Global,
        number: u64,
        fact: &LexFact,
    ) -> Result<Option<Multipliers>, FactFault> {
        let LexFact::Drops {
            clause,
            call,
            list,
            index,
            scale,
            multipliers: numbers,
        } = fact
        else {
            return Ok(None);
        };
        if !is_number(u64::from(*clause), self.at.clause)
            || !is_number(u64::from(*call), self.at.call)
            || !is_number(u64::from(*list), self.list)
            || !is_number(*index, number)
        {
            return Ok(None);
        }
        Ok(Some(multipliers(alloc, self.at.rows, *scale, numbers.as_slice())?))
    }
}

/// The proofs for a call in each of its lists, up to its place.
#[derive(Drop)]
struct Places<'a> {
    at: CallRows,
    own: &'a [Sequence<LevelPart>],
}

impl Reader<LexFact> for Places<'_> {
    type Item = Sequence<Multipliers>;

    ghost reads = { λ r list facts. read_place r.at.clause r.at.call r.at.rows list (length
        (items_of r.own.now list)) facts };

    #[tactic(auto, unfolding(crate::specs::Walk::read_place))]
    fn read<'f>(
        &self,
        alloc: Global,
        number: u64,
        facts: &'f [LexFact],
    ) -> Result<(Sequence<Multipliers>, &'f [LexFact]), Stop> {
        let kind = DropFact {
            at: self.at,
            list: number,
        };
        let (proofs, rest) = many(alloc, &kind, facts)?;
        let count = proofs.len() as u64;
        if count < 1 || count > count_of(self.own, number) {
            return Err(wrong(rest, StructureReason::Extra));
        }
        Ok((proofs, rest))
    }
}

/// The proofs for the calls of each clause.
#[derive(Drop)]
pub(crate) struct Drops<'a> {
    pub(crate) calls: Calls<'a>,
    pub(crate) rows: &'a SizeRows,
    pub(crate) lists: &'a [Sequence<Sequence<LevelPart>>],
}

impl Drops<'_> {
    /// The lists that a call of a clause with a head of this predicate has to drop in.
    fn lists_of_call(&self, head: u64, call: &Atom) -> &[Sequence<LevelPart>]
        ensures { result.now ≡ lists_of_call self.now.calls.comps.now self.now.lists.now head
            (Some call.now) }
    {
        if self.calls.together(head, u64::from(call.pred.0)) {
            lists_at(self.lists, head)
        } else {
            &[]
        }
    }

    /// The proofs for a call in these lists.
    #[tactic(auto, unfolding(crate::specs::Walk::read_call))]
    fn read_call<'f>(
        alloc: Global,
        at: CallRows,
        own: &[Sequence<LevelPart>],
        facts: &'f [LexFact],
    ) -> Result<(Sequence<Sequence<Multipliers>>, &'f [LexFact]), Stop>
        ensures { Agrees result (read_call at.clause at.call at.rows own.now facts.now) }
    {
        each(alloc, &Places { at, own }, own.len() as u64, facts)
    }

    /// The proofs for the calls of a clause.
    fn read_calls<'f>(
        &self,
        alloc: Global,
        clause: u64,
        head: u64,
        body: &[Atom],
        facts: &'f [LexFact],
    ) -> Result<(Sequence<Sequence<Sequence<Multipliers>>>, &'f [LexFact]), Stop>
        ensures { Agrees result
            (read_calls self.now.calls.comps.now self.now.rows.now self.now.lists.now head clause 0 0
            body.now facts.now) }
    {
        let mut proofs = Sequence::new(alloc);
        let mut rest = facts;
        let mut rows = 0;
        for call in body {
            let at = CallRows {
                clause,
                call: proofs.len() as u64,
                rows,
            };
            let own = self.lists_of_call(head, call);
            let (items, after) = Drops::read_call(alloc, at, own, rest)?;
            proofs.push(items)?;
            rest = after;
            rows += u128::from(rows_of(self.rows, call.pred));
        }
        Ok((proofs, rest))
    }
}

impl Reader<LexFact> for Drops<'_> {
    type Item = Sequence<Sequence<Sequence<Multipliers>>>;

    ghost reads = { λ r number facts. read_drops r.calls.p.now r.calls.comps.now r.rows.now r.lists.now number facts };

    #[tactic(auto, unfolding(crate::specs::Walk::read_drops))]
    fn read<'f>(
        &self,
        alloc: Global,
        number: u64,
        facts: &'f [LexFact],
    ) -> Result<(Sequence<Sequence<Sequence<Multipliers>>>, &'f [LexFact]), Stop> {
        let head = u64::from(head_at(self.calls.p, number).0);
        let body = body_at(self.calls.p, number);
        self.read_calls(alloc, number, head, body, facts)
    }
}
