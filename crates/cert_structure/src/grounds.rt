//! The cubes of predicates' ground rows.

ghost use Rattle.std.specs.Prelude.{◌≡◌};
ghost use Rattle.cert_structure.specs.Walk.{named, shared_ground, grounds_by};

use crate::cubes::cube;
use crate::named::{Named, is_number};
use crate::shared_fact::{AsShared, SharedFact};
use bool_diagrams::Cube;
use cti_terms::{Names, Program};
use fact_reading::{FactFault, Kind, Reader, Stop, many};
use sequences::Sequence;
use std::alloc::Global;

/// The facts of a predicate's ground rows.
#[derive(Drop)]
struct GroundFact<'a> {
    pred: Named<'a>,
}

impl<F: AsShared> Kind<F> for GroundFact<'_> {
    type Item = Cube;

    ghost takes = { λ r number fact. shared_ground (named r.pred) number (F.shared fact) };

    #[tactic(auto, unfolding(crate::specs::Walk::shared_ground))]
    fn take(&self, alloc: Global, number: u64, fact: &F) -> Result<Option<Cube>, FactFault> {
        let SharedFact::Grounds {
            pred,
            index,
            cube: cells,
        } = fact.as_shared()
        else {
            return Ok(None);
        };
        if !self.pred.is(pred) || !is_number(index, number) {
            return Ok(None);
        }
        Ok(Some(cube(alloc, self.pred.arity, cells)?))
    }
}

/// The ground rows of each predicate.
#[derive(Drop)]
pub struct Grounds<'a> {
    pub p: &'a Program,
    pub names: &'a Names,
}

impl<F: AsShared> Reader<F> for Grounds<'_> {
    type Item = Sequence<Cube>;

    ghost reads = { λ r number facts. grounds_by F.shared r.p.now r.names.now number facts };

    #[tactic(auto, unfolding(crate::specs::Walk::grounds_by))]
    fn read<'f>(
        &self,
        alloc: Global,
        number: u64,
        facts: &'f [F],
    ) -> Result<(Sequence<Cube>, &'f [F]), Stop> {
        let pred = Named::new(self.p, self.names, number);
        many(alloc, &GroundFact { pred }, facts)
    }
}
