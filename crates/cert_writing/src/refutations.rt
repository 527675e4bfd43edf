//! The facts of refutations, and of stuck sets.

ghost use Rattle.cert_structure.specs.Order.{counted_points, pred_text, point_facts};

use crate::fields::numbers;
use crate::shared_facts::FromShared;
use crate::writer::{Writer, write_each};
use cert_structure::Named;
use certificate::Fact;
use cti_terms::{Names, Program};
use number_tests::{PairPoint, Refutation};
use sequences::Sequence;
use std::alloc::{AllocError, Global};

/// The points of a refutation.
#[derive(Drop)]
pub(crate) struct Points {}

impl Writer<Fact> for Points {
    type Item = PairPoint;

    ghost facts = { λ w i x. point_facts x };

    fn write(
        &self,
        alloc: Global,
        number: u64,
        item: &PairPoint,
        out: &mut Sequence<Fact>,
    ) -> Result<(), AllocError> {
        let first = Fact::Point {
            clause: item.clause,
            call: item.call,
            t: item.point.t,
            w: numbers(alloc, item.point.w.as_slice())?,
        };
        out.push(first)?;
        let Some(point) = &item.at else {
            return Ok(());
        };
        let second = Fact::At {
            clause: item.clause,
            call: item.call,
            t: point.t,
            w: numbers(alloc, point.w.as_slice())?,
        };
        out.push(second)
    }
}

/// The refutations or the stuck sets of components, by their first predicates.
#[derive(Drop)]
pub struct WrittenRefutations<'a, W> {
    pub p: &'a Program,
    pub names: &'a Names,
    /// The writer of their points.
    pub points: W,
}

impl<F: FromShared, W: Writer<F, Item = PairPoint>> Writer<F> for WrittenRefutations<'_, W> {
    type Item = Option<Refutation>;

    ghost facts = { λ w a r. counted_points (λ n. F.refuted_fact (pred_text w.p.now w.names.now a) n)
        (W.facts w.points) r };

    fn write(
        &self,
        alloc: Global,
        number: u64,
        item: &Option<Refutation>,
        out: &mut Sequence<F>,
    ) -> Result<(), AllocError> {
        let Some(refutation) = item else {
            return Ok(());
        };
        let points = refutation.points.as_slice();
        let pred = Named::new(self.p, self.names, number).text(alloc)?;
        out.push(F::refuted(pred, points.len() as u64))?;
        write_each(alloc, &self.points, points, out)
    }
}
