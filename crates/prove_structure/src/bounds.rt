//! The proofs that levels are bounded at the places of calls.

ghost use Rattle.std.specs.Prelude.{◌≡◌};
ghost use Rattle.prove_structure.specs.Walk.{read_bounds, take_bound};

use crate::clauses::{CallReader, CallRows};
use cert_structure::{is_number, multipliers};
use fact_reading::{FactFault, Kind, Next, Stop, each};
use linear_rows::Multipliers;
use number_tests::LevelPart;
use prove_certificate::ProveFact;
use sequences::Sequence;
use std::alloc::Global;

/// The facts of the proofs for a call, one for each list.
#[derive(Drop)]
struct BoundFact {
    at: CallRows,
}

impl Kind<ProveFact> for BoundFact {
    type Item = Multipliers;

    ghost takes = { λ r number fact. take_bound r.at.clause r.at.call r.at.rows number fact };

    #[tactic(auto, unfolding(crate::specs::Walk::take_bound))]
    fn take(
        &self,
        alloc: Global,
        number: u64,
        fact: &ProveFact,
    ) -> Result<Option<Multipliers>, FactFault> {
        let ProveFact::Floors {
            clause,
            call,
            list,
            scale,
            multipliers: numbers,
        } = fact
        else {
            return Ok(None);
        };
        if !is_number(u64::from(*clause), self.at.clause)
            || !is_number(u64::from(*call), self.at.call)
            || !is_number(u64::from(*list), number)
        {
            return Ok(None);
        }
        Ok(Some(multipliers(alloc, self.at.rows, *scale, numbers.as_slice())?))
    }
}

/// The proofs that levels are bounded.
#[derive(Drop)]
pub(crate) struct Floors {}

impl CallReader for Floors {
    type Item = Sequence<Multipliers>;

    ghost reads = { read_bounds };

    #[tactic(auto, unfolding(crate::specs::Walk::read_bounds))]
    fn read_call<'f>(
        alloc: Global,
        at: CallRows,
        own: &[Sequence<LevelPart>],
        facts: &'f [ProveFact],
    ) -> Result<(Sequence<Multipliers>, &'f [ProveFact]), Stop> {
        let kind = BoundFact { at };
        each(alloc, &Next { kind }, own.len() as u64, facts)
    }
}
