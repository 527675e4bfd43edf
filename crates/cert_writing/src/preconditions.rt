//! The facts of preconditions.

ghost use Rattle.std.specs.Prelude.{◌∷◌, [], suc, map};
ghost use Rattle.fact_reading.specs.Numbered.{facts_from, lines_from};
ghost use Rattle.cert_structure.specs.Order.{pred_text, cell_of};
ghost use Rattle.cert_structure.specs.Walk.{named};

use crate::fields::{cells, counted};
use crate::shared_facts::FromShared;
use crate::writer::{Writer, write_each};
use bool_diagrams::Cube;
use cert_structure::Named;
use cti_terms::{Names, Program};
use sequences::Sequence;
use std::alloc::{AllocError, Global};

/// The rows of a predicate's precondition for a mapping, or for a list.
#[derive(Drop)]
struct PreconditionOf<'a> {
    pred: Named<'a>,
    mapping: u32,
}

impl<F: FromShared> Writer<F> for PreconditionOf<'_> {
    type Item = Cube;

    ghost facts = { λ w i cube. F.pre_fact (named w.pred) w.mapping (suc i) (map cell_of cube) ∷ [] };

    fn write(
        &self,
        alloc: Global,
        number: u64,
        item: &Cube,
        out: &mut Sequence<F>,
    ) -> Result<(), AllocError> {
        let pred = self.pred.text(alloc)?;
        let cube = cells(alloc, item)?;
        out.push(F::pre(pred, self.mapping, number + 1, cube))
    }
}

/// The preconditions of a predicate.
#[derive(Drop)]
struct PreconditionsOf<'a> {
    pred: Named<'a>,
}

impl<F: FromShared> Writer<F> for PreconditionsOf<'_> {
    type Item = Sequence<Cube>;

    ghost facts = { λ w m cs. lines_from 0 (λ i cube. F.pre_fact (named w.pred) (suc m) (suc i)
        (map cell_of cube)) cs };

    fn write(
        &self,
        alloc: Global,
        number: u64,
        item: &Sequence<Cube>,
        out: &mut Sequence<F>,
    ) -> Result<(), AllocError> {
        let mapping = counted(number)?;
        let rows = PreconditionOf {
            pred: self.pred,
            mapping,
        };
        write_each(alloc, &rows, item.as_slice(), out)
    }
}

/// The preconditions of predicates.
#[derive(Drop)]
pub struct WrittenPreconditions<'a> {
    pub p: &'a Program,
    pub names: &'a Names,
}

impl<F: FromShared> Writer<F> for WrittenPreconditions<'_> {
    type Item = Sequence<Sequence<Cube>>;

    ghost facts = { λ w a ms. facts_from 0 (λ m cs. lines_from 0 (λ i cube. F.pre_fact
        (pred_text w.p.now w.names.now a) (suc m) (suc i) (map cell_of cube)) cs) ms };

    fn write(
        &self,
        alloc: Global,
        number: u64,
        item: &Sequence<Sequence<Cube>>,
        out: &mut Sequence<F>,
    ) -> Result<(), AllocError> {
        let pred = Named::new(self.p, self.names, number);
        write_each(alloc, &PreconditionsOf { pred }, item.as_slice(), out)
    }
}
