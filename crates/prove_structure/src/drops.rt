//! The proofs that lists drop.

ghost use Rattle.std.specs.Prelude.{◌≡◌, length};
ghost use Rattle.cert_structure.specs.Shape.{items_of};
ghost use Rattle.prove_structure.specs.Walk.{read_call, read_place, take_drop};

use crate::clauses::{CallReader, CallRows};
use cert_structure::{count_of, is_number, multipliers};
use fact_reading::{FactFault, Kind, Reader, Stop, StructureReason, each, many, wrong};
use linear_rows::Multipliers;
use number_tests::LevelPart;
use prove_certificate::ProveFact;
use sequences::Sequence;
use std::alloc::Global;

/// The facts of the proofs for a call and a list.
#[derive(Drop)]
struct DropFact {
    at: CallRows,
    list: u64,
}

impl Kind<ProveFact> for DropFact {
    type Item = Multipliers;

    ghost takes = { λ r number fact. take_drop r.at.clause r.at.call r.at.rows r.list number fact };

    #[tactic(auto, unfolding(crate::specs::Walk::take_drop))]
    fn take(
        &self,
        alloc: Global,
        number: u64,
        fact: &ProveFact,
    ) -> Result<Option<Multipliers>, FactFault> {
        let ProveFact::Drops {
            clause,
            call,
            list,
            index,
            scale,
            multipliers: numbers,
        } = fact
        else {
            return Ok(None);
        };
        if !is_number(u64::from(*clause), self.at.clause)
            || !is_number(u64::from(*call), self.at.call)
            || !is_number(u64::from(*list), self.list)
            || !is_number(*index, number)
        {
            return Ok(None);
        }
        Ok(Some(multipliers(alloc, self.at.rows, *scale, numbers.as_slice())?))
    }
}

/// The proofs for a call in each of its lists, up to its place.
#[derive(Drop)]
struct Places<'a> {
    at: CallRows,
    own: &'a [Sequence<LevelPart>],
}

impl Reader<ProveFact> for Places<'_> {
    type Item = Sequence<Multipliers>;

    ghost reads = { λ r list facts. read_place r.at.clause r.at.call r.at.rows list (length
        (items_of r.own.now list)) facts };

    #[tactic(auto, unfolding(crate::specs::Walk::read_place))]
    fn read<'f>(
        &self,
        alloc: Global,
        number: u64,
        facts: &'f [ProveFact],
    ) -> Result<(Sequence<Multipliers>, &'f [ProveFact]), Stop> {
        let kind = DropFact {
            at: self.at,
            list: number,
        };
        let (proofs, rest) = many(alloc, &kind, facts)?;
        let count = proofs.len() as u64;
        if count < 1 || count > count_of(self.own, number) {
            return Err(wrong(rest, StructureReason::Extra));
        }
        Ok((proofs, rest))
    }
}

/// The proofs that lists drop.
#[derive(Drop)]
pub(crate) struct Drops {}

impl CallReader for Drops {
    type Item = Sequence<Sequence<Multipliers>>;

    ghost reads = { read_call };

    #[tactic(auto, unfolding(crate::specs::Walk::read_call))]
    fn read_call<'f>(
        alloc: Global,
        at: CallRows,
        own: &[Sequence<LevelPart>],
        facts: &'f [ProveFact],
    ) -> Result<(Sequence<Sequence<Multipliers>>, &'f [ProveFact]), Stop> {
        each(alloc, &Places { at, own }, own.len() as u64, facts)
    }
}
