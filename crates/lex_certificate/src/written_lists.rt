//! The facts of lists of mappings, their drops, and stuck sets.

ghost use Rattle.std.specs.Prelude.{◌∷◌, [], suc};
ghost use Rattle.cert_structure.specs.Order.{pred_text};
ghost use Rattle.cert_structure.specs.Walk.{named};
ghost use Rattle.fact_reading.specs.Numbered.{facts_from, lines_from};
ghost use Rattle.lex_certificate.specs.Order.{level_line, drops_line, point_line};
ghost use Rattle.lex_certificate.specs.declared.fact.LexFact.TheVariants as lex;

use crate::fact::LexFact;
use cert_structure::Named;
use cert_writing::{Writer, counted, numbers, write_each};
use cti_terms::{Names, Program};
use linear_rows::Multipliers;
use number_tests::{LevelPart, PairPoint, Refutation};
use sequences::Sequence;
use std::alloc::{AllocError, Global};

/// The measures of a predicate in a list.
#[derive(Drop)]
pub(crate) struct LevelsOf<'a> {
    pub(crate) pred: Named<'a>,
    pub(crate) list: u32,
}

impl Writer<LexFact> for LevelsOf<'_> {
    type Item = LevelPart;

    ghost facts = { λ w i level. lex.Level (named w.pred) w.list (suc i) level.coeffs level.offset ∷ [] };

    fn write(
        &self,
        alloc: Global,
        number: u64,
        item: &LevelPart,
        out: &mut Sequence<LexFact>,
    ) -> Result<(), AllocError> {
        let fact = LexFact::Level {
            pred: self.pred.text(alloc)?,
            list: self.list,
            index: number + 1,
            coeffs: numbers(alloc, item.coeffs.as_slice())?,
            offset: item.offset,
        };
        out.push(fact)
    }
}

/// The lists of a predicate.
#[derive(Drop)]
pub(crate) struct ListsOf<'a> {
    pub(crate) pred: Named<'a>,
}

impl Writer<LexFact> for ListsOf<'_> {
    type Item = Sequence<LevelPart>;

    ghost facts = { λ w m ls. lines_from 0 (level_line (named w.pred) m) ls };

    fn write(
        &self,
        alloc: Global,
        number: u64,
        item: &Sequence<LevelPart>,
        out: &mut Sequence<LexFact>,
    ) -> Result<(), AllocError> {
        let list = counted(number)?;
        let levels = LevelsOf {
            pred: self.pred,
            list,
        };
        write_each(alloc, &levels, item.as_slice(), out)
    }
}

/// The lists of predicates.
#[derive(Drop)]
pub(crate) struct WrittenLists<'a> {
    pub(crate) p: &'a Program,
    pub(crate) names: &'a Names,
}

impl Writer<LexFact> for WrittenLists<'_> {
    type Item = Sequence<Sequence<LevelPart>>;

    ghost facts = { λ w a own. facts_from 0 (λ m ls. lines_from 0 (level_line
        (pred_text w.p.now w.names.now a) m) ls) own };

    fn write(
        &self,
        alloc: Global,
        number: u64,
        item: &Sequence<Sequence<LevelPart>>,
        out: &mut Sequence<LexFact>,
    ) -> Result<(), AllocError> {
        let pred = Named::new(self.p, self.names, number);
        write_each(alloc, &ListsOf { pred }, item.as_slice(), out)
    }
}

/// The proofs for a call and a list.
#[derive(Drop)]
pub(crate) struct DropsOfList {
    pub(crate) clause: u32,
    pub(crate) call: u32,
    pub(crate) list: u32,
}

impl Writer<LexFact> for DropsOfList {
    type Item = Multipliers;

    ghost facts = { λ w i x. lex.Drops w.clause w.call w.list (suc i) x.scale x.list ∷ [] };

    fn write(
        &self,
        alloc: Global,
        number: u64,
        item: &Multipliers,
        out: &mut Sequence<LexFact>,
    ) -> Result<(), AllocError> {
        let fact = LexFact::Drops {
            clause: self.clause,
            call: self.call,
            list: self.list,
            index: number + 1,
            scale: item.scale,
            multipliers: numbers(alloc, item.list.as_slice())?,
        };
        out.push(fact)
    }
}

/// The proofs for a call.
#[derive(Drop)]
pub(crate) struct DropsOfCall {
    pub(crate) clause: u32,
    pub(crate) call: u32,
}

impl Writer<LexFact> for DropsOfCall {
    type Item = Sequence<Multipliers>;

    ghost facts = { λ w m ms. lines_from 0 (λ i x. lex.Drops w.clause w.call (suc m) (suc i) x.scale x.list) ms };

    fn write(
        &self,
        alloc: Global,
        number: u64,
        item: &Sequence<Multipliers>,
        out: &mut Sequence<LexFact>,
    ) -> Result<(), AllocError> {
        let list = counted(number)?;
        let drops = DropsOfList {
            clause: self.clause,
            call: self.call,
            list,
        };
        write_each(alloc, &drops, item.as_slice(), out)
    }
}

/// The proofs for the calls of a clause.
#[derive(Drop)]
pub(crate) struct DropsOf {
    pub(crate) clause: u32,
}

impl Writer<LexFact> for DropsOf {
    type Item = Sequence<Sequence<Multipliers>>;

    ghost facts = { λ w j lists.
        facts_from 0 (λ m ms. lines_from 0 (λ i x. lex.Drops w.clause (suc j) (suc m)
        (suc i) x.scale x.list) ms) lists };

    fn write(
        &self,
        alloc: Global,
        number: u64,
        item: &Sequence<Sequence<Multipliers>>,
        out: &mut Sequence<LexFact>,
    ) -> Result<(), AllocError> {
        let call = counted(number)?;
        let drops = DropsOfCall {
            clause: self.clause,
            call,
        };
        write_each(alloc, &drops, item.as_slice(), out)
    }
}

/// The proofs for the calls of clauses.
#[derive(Drop)]
pub(crate) struct WrittenDrops {}

impl Writer<LexFact> for WrittenDrops {
    type Item = Sequence<Sequence<Sequence<Multipliers>>>;

    ghost facts = { λ w k calls. facts_from 0 (λ j lists. facts_from 0 (λ m ms. lines_from 0
        (drops_line k j m) ms) lists) calls };

    fn write(
        &self,
        alloc: Global,
        number: u64,
        item: &Sequence<Sequence<Sequence<Multipliers>>>,
        out: &mut Sequence<LexFact>,
    ) -> Result<(), AllocError> {
        let clause = counted(number)?;
        write_each(alloc, &DropsOf { clause }, item.as_slice(), out)
    }
}

/// The points of a stuck set.
#[derive(Drop)]
pub(crate) struct Points {}

impl Writer<LexFact> for Points {
    type Item = PairPoint;

    ghost facts = { λ w i x. point_line x ∷ [] };

    fn write(
        &self,
        alloc: Global,
        number: u64,
        item: &PairPoint,
        out: &mut Sequence<LexFact>,
    ) -> Result<(), AllocError> {
        let fact = LexFact::Point {
            clause: item.clause,
            call: item.call,
            t: item.point.t,
            w: numbers(alloc, item.point.w.as_slice())?,
        };
        out.push(fact)
    }
}
