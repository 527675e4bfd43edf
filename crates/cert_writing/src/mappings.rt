//! The facts of mappings and of their falls.

ghost use Rattle.std.specs.Prelude.{◌∷◌, [], suc};
ghost use Rattle.certificate.specs.declared.fact.Fact.TheVariants as fact;
ghost use Rattle.fact_reading.specs.Numbered.{facts_from, lines_from};
ghost use Rattle.cert_structure.specs.Order.{pred_text, measure_line, falls_line};
ghost use Rattle.cert_structure.specs.Walk.{named};

use crate::fields::{counted, numbers};
use crate::writer::{Writer, write_each};
use cert_structure::Named;
use certificate::Fact;
use cti_terms::{Names, Program};
use linear_rows::Multipliers;
use number_tests::LevelPart;
use sequences::Sequence;
use std::alloc::{AllocError, Global};

/// The parts of a predicate in the mappings of its component.
#[derive(Drop)]
pub(crate) struct LevelsOf<'a> {
    pub(crate) pred: Named<'a>,
}

impl Writer<Fact> for LevelsOf<'_> {
    type Item = LevelPart;

    ghost facts = { λ w m level. measure_line (named w.pred) m level ∷ [] };

    fn write(
        &self,
        alloc: Global,
        number: u64,
        item: &LevelPart,
        out: &mut Sequence<Fact>,
    ) -> Result<(), AllocError> {
        let fact = Fact::Measure {
            pred: self.pred.text(alloc)?,
            mapping: counted(number)?,
            coeffs: numbers(alloc, item.coeffs.as_slice())?,
            offset: item.offset,
        };
        out.push(fact)
    }
}

/// The parts of predicates in mappings.
#[derive(Drop)]
pub(crate) struct Levels<'a> {
    pub(crate) p: &'a Program,
    pub(crate) names: &'a Names,
}

impl Writer<Fact> for Levels<'_> {
    type Item = Sequence<LevelPart>;

    ghost facts = { λ w a ls. lines_from 0 (measure_line (pred_text w.p.now w.names.now a)) ls };

    fn write(
        &self,
        alloc: Global,
        number: u64,
        item: &Sequence<LevelPart>,
        out: &mut Sequence<Fact>,
    ) -> Result<(), AllocError> {
        let pred = Named::new(self.p, self.names, number);
        write_each(alloc, &LevelsOf { pred }, item.as_slice(), out)
    }
}

/// The proofs of the falls to a call.
#[derive(Drop)]
pub(crate) struct FallsOfCall {
    pub(crate) clause: u32,
    pub(crate) call: u32,
}

impl Writer<Fact> for FallsOfCall {
    type Item = Multipliers;

    ghost facts = { λ w m x. fact.Falls w.clause w.call (suc m) x.scale x.list ∷ [] };

    fn write(
        &self,
        alloc: Global,
        number: u64,
        item: &Multipliers,
        out: &mut Sequence<Fact>,
    ) -> Result<(), AllocError> {
        let fact = Fact::Falls {
            clause: self.clause,
            call: self.call,
            mapping: counted(number)?,
            scale: item.scale,
            multipliers: numbers(alloc, item.list.as_slice())?,
        };
        out.push(fact)
    }
}

/// The proofs of the falls to the calls of a clause.
#[derive(Drop)]
pub(crate) struct FallsOf {
    pub(crate) clause: u32,
}

impl Writer<Fact> for FallsOf {
    type Item = Sequence<Multipliers>;

    ghost facts = { λ w j ms. lines_from 0 (λ m x. fact.Falls w.clause (suc j) (suc m) x.scale x.list) ms };

    fn write(
        &self,
        alloc: Global,
        number: u64,
        item: &Sequence<Multipliers>,
        out: &mut Sequence<Fact>,
    ) -> Result<(), AllocError> {
        let call = counted(number)?;
        let falls = FallsOfCall {
            clause: self.clause,
            call,
        };
        write_each(alloc, &falls, item.as_slice(), out)
    }
}

/// The proofs of the falls in clauses.
#[derive(Drop)]
pub(crate) struct Falls {}

impl Writer<Fact> for Falls {
    type Item = Sequence<Sequence<Multipliers>>;

    ghost facts = { λ w k calls. facts_from 0 (λ j ms. lines_from 0 (falls_line k j) ms) calls };

    fn write(
        &self,
        alloc: Global,
        number: u64,
        item: &Sequence<Sequence<Multipliers>>,
        out: &mut Sequence<Fact>,
    ) -> Result<(), AllocError> {
        let clause = counted(number)?;
        write_each(alloc, &FallsOf { clause }, item.as_slice(), out)
    }
}
