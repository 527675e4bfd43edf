//! The facts of size rows and of their proofs.

ghost use Rattle.std.specs.Prelude.{◌∷◌, [], suc};
ghost use Rattle.fact_reading.specs.Numbered.{lines_from};
ghost use Rattle.cert_structure.specs.Order.{pred_text};
ghost use Rattle.cert_structure.specs.Walk.{named};

use crate::fields::{counted, numbers};
use crate::shared_facts::FromShared;
use crate::writer::{Writer, write_each};
use cert_structure::Named;
use cti_terms::{Names, Program};
use linear_rows::{Multipliers, Row, Rows};
use sequences::Sequence;
use std::alloc::{AllocError, Global};

/// The size rows of a predicate.
#[derive(Drop)]
struct SizeRowsOf<'a> {
    pred: Named<'a>,
}

impl<F: FromShared> Writer<F> for SizeRowsOf<'_> {
    type Item = Row;

    ghost facts = { λ w i r. F.size_fact (named w.pred) (suc i) (r.constant ∷ r.coeffs) ∷ [] };

    fn write(
        &self,
        alloc: Global,
        number: u64,
        item: &Row,
        out: &mut Sequence<F>,
    ) -> Result<(), AllocError> {
        let pred = self.pred.text(alloc)?;
        let row = item.numbers(alloc)?;
        out.push(F::size(pred, number + 1, row))
    }
}

/// The size rows of predicates.
#[derive(Drop)]
pub(crate) struct WrittenSizes<'a> {
    pub(crate) p: &'a Program,
    pub(crate) names: &'a Names,
}

impl<F: FromShared> Writer<F> for WrittenSizes<'_> {
    type Item = Rows;

    ghost facts = { λ w a r. lines_from 0 (λ i x. F.size_fact (pred_text w.p.now w.names.now a)
        (suc i) (x.constant ∷ x.coeffs)) r.list };

    fn write(
        &self,
        alloc: Global,
        number: u64,
        item: &Rows,
        out: &mut Sequence<F>,
    ) -> Result<(), AllocError> {
        let pred = Named::new(self.p, self.names, number);
        write_each(alloc, &SizeRowsOf { pred }, item.list.as_slice(), out)
    }
}

/// The proofs of the size rows of a clause's head.
#[derive(Drop)]
struct ProofsOf {
    clause: u32,
}

impl<F: FromShared> Writer<F> for ProofsOf {
    type Item = Multipliers;

    ghost facts = { λ w i m. F.proof_fact w.clause (suc i) m.scale m.list ∷ [] };

    fn write(
        &self,
        alloc: Global,
        number: u64,
        item: &Multipliers,
        out: &mut Sequence<F>,
    ) -> Result<(), AllocError> {
        let multipliers = numbers(alloc, item.list.as_slice())?;
        out.push(F::by(self.clause, number + 1, item.scale, multipliers))
    }
}

/// The proofs of clauses.
#[derive(Drop)]
pub(crate) struct WrittenProofs {}

impl<F: FromShared> Writer<F> for WrittenProofs {
    type Item = Sequence<Multipliers>;

    ghost facts = { λ w k ms. lines_from 0 (λ i m. F.proof_fact (suc k) (suc i) m.scale m.list) ms };

    fn write(
        &self,
        alloc: Global,
        number: u64,
        item: &Sequence<Multipliers>,
        out: &mut Sequence<F>,
    ) -> Result<(), AllocError> {
        let clause = counted(number)?;
        write_each(alloc, &ProofsOf { clause }, item.as_slice(), out)
    }
}
