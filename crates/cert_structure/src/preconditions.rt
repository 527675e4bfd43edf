//! The cubes of preconditions.

ghost use Rattle.std.specs.Prelude.{◌≡◌};
ghost use Rattle.cert_structure.specs.Walk.{named, shared_pre, cubes_by, pre_by};

use crate::cubes::cube;
use crate::items::count_of;
use crate::named::{Named, is_number};
use crate::shared_fact::{AsShared, SharedFact};
use bool_diagrams::Cube;
use cti_terms::{Names, Program};
use fact_reading::{FactFault, Kind, Reader, Stop, each, many};
use sequences::Sequence;
use std::alloc::Global;

/// The facts of a predicate's precondition for a mapping, or for a list.
#[derive(Drop)]
struct PreFact<'a> {
    pred: Named<'a>,
    mapping: u64,
}

impl<F: AsShared> Kind<F> for PreFact<'_> {
    type Item = Cube;

    ghost takes = { λ r number fact. shared_pre (named r.pred) r.mapping number (F.shared fact) };

    #[tactic(auto, unfolding(crate::specs::Walk::shared_pre))]
    fn take(&self, alloc: Global, number: u64, fact: &F) -> Result<Option<Cube>, FactFault> {
        let SharedFact::Pre {
            pred,
            mapping,
            index,
            cube: cells,
        } = fact.as_shared()
        else {
            return Ok(None);
        };
        if !self.pred.is(pred)
            || !is_number(u64::from(mapping), self.mapping)
            || !is_number(index, number)
        {
            return Ok(None);
        }
        Ok(Some(cube(alloc, self.pred.arity, cells)?))
    }
}

/// The preconditions of a predicate, one for each mapping or list.
#[derive(Drop)]
struct PredCubes<'a> {
    p: &'a Program,
    names: &'a Names,
    pred: u64,
}

impl<F: AsShared> Reader<F> for PredCubes<'_> {
    type Item = Sequence<Cube>;

    ghost reads = { λ r number facts. cubes_by F.shared r.p.now r.names.now r.pred number facts };

    #[tactic(auto, unfolding(crate::specs::Walk::cubes_by))]
    fn read<'f>(
        &self,
        alloc: Global,
        number: u64,
        facts: &'f [F],
    ) -> Result<(Sequence<Cube>, &'f [F]), Stop> {
        let kind = PreFact {
            pred: Named::new(self.p, self.names, self.pred),
            mapping: number,
        };
        many(alloc, &kind, facts)
    }
}

/// The preconditions of each predicate, one for each of its mappings, or for each list.
#[derive(Drop)]
pub struct Preconditions<'a, T> {
    pub p: &'a Program,
    pub names: &'a Names,
    /// What each predicate has in each mapping, or in each list.
    pub levels: &'a [Sequence<T>],
}

impl<F: AsShared, T> Reader<F> for Preconditions<'_, T> {
    type Item = Sequence<Sequence<Cube>>;

    ghost reads = { λ r number facts. pre_by F.shared r.p.now r.names.now r.levels.now number facts };

    #[tactic(auto, unfolding(crate::specs::Walk::pre_by))]
    fn read<'f>(
        &self,
        alloc: Global,
        number: u64,
        facts: &'f [F],
    ) -> Result<(Sequence<Sequence<Cube>>, &'f [F]), Stop> {
        let cubes = PredCubes {
            p: self.p,
            names: self.names,
            pred: number,
        };
        each(alloc, &cubes, count_of(self.levels, number), facts)
    }
}
