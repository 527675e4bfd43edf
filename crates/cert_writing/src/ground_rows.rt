//! The facts of ground rows.

ghost use Rattle.std.specs.Prelude.{◌∷◌, [], suc, map};
ghost use Rattle.fact_reading.specs.Numbered.{lines_from};
ghost use Rattle.cert_structure.specs.Order.{pred_text, cell_of};
ghost use Rattle.cert_structure.specs.Walk.{named};

use crate::fields::cells;
use crate::shared_facts::FromShared;
use crate::writer::{Writer, write_each};
use bool_diagrams::Cube;
use cert_structure::Named;
use cti_terms::{Names, Program};
use sequences::Sequence;
use std::alloc::{AllocError, Global};

/// The ground rows of a predicate.
#[derive(Drop)]
struct GroundsOf<'a> {
    pred: Named<'a>,
}

impl<F: FromShared> Writer<F> for GroundsOf<'_> {
    type Item = Cube;

    ghost facts = { λ w i cube. F.ground_fact (named w.pred) (suc i) (map cell_of cube) ∷ [] };

    fn write(
        &self,
        alloc: Global,
        number: u64,
        item: &Cube,
        out: &mut Sequence<F>,
    ) -> Result<(), AllocError> {
        let pred = self.pred.text(alloc)?;
        let cube = cells(alloc, item)?;
        out.push(F::grounds(pred, number + 1, cube))
    }
}

/// The ground rows of predicates.
#[derive(Drop)]
pub(crate) struct WrittenGrounds<'a> {
    pub(crate) p: &'a Program,
    pub(crate) names: &'a Names,
}

impl<F: FromShared> Writer<F> for WrittenGrounds<'_> {
    type Item = Sequence<Cube>;

    ghost facts = { λ w a cs. lines_from 0 (λ i cube. F.ground_fact (pred_text w.p.now w.names.now a)
        (suc i) (map cell_of cube)) cs };

    fn write(
        &self,
        alloc: Global,
        number: u64,
        item: &Sequence<Cube>,
        out: &mut Sequence<F>,
    ) -> Result<(), AllocError> {
        let pred = Named::new(self.p, self.names, number);
        write_each(alloc, &GroundsOf { pred }, item.as_slice(), out)
    }
}
