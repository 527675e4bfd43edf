//! The kinds of predicates' arguments.

ghost use Rattle.cert_structure.specs.Order.{pred_text};
ghost use Rattle.cert_structure.specs.Walk.{named};
ghost use Rattle.prove_structure.specs.Walk.{read_kinds, take_kinds};

use cert_structure::Named;
use cti_terms::{Names, Program};
use fact_reading::{FactFault, Kind, Reader, Stop, first_item};
use prove_certificate::{CertKind, ProveFact};
use sequences::Sequence;
use std::alloc::Global;

/// The most arguments of a predicate.
const MOST_ARGUMENTS: u32 = 12;

/// The fact of a predicate's kinds.
#[derive(Drop)]
struct KindsFact<'a> {
    pred: Named<'a>,
}

impl Kind<ProveFact> for KindsFact<'_> {
    type Item = Sequence<CertKind>;

    ghost takes = { λ r number fact. take_kinds (named r.pred) number fact };

    #[tactic(auto, unfolding(crate::specs::Walk::take_kinds))]
    fn take(
        &self,
        alloc: Global,
        _number: u64,
        fact: &ProveFact,
    ) -> Result<Option<Sequence<CertKind>>, FactFault> {
        let ProveFact::Kinds { pred, kinds } = fact else {
            return Ok(None);
        };
        if !self.pred.is(pred) {
            return Ok(None);
        }
        if kinds.len() as u128 != u128::from(self.pred.arity) || self.pred.arity > MOST_ARGUMENTS {
            return Err(FactFault::Shape);
        }
        Ok(Some(kinds.copy(alloc)?))
    }
}

/// The kinds of each predicate.
#[derive(Drop)]
pub(crate) struct Kinds<'a> {
    pub(crate) p: &'a Program,
    pub(crate) names: &'a Names,
}

impl Reader<ProveFact> for Kinds<'_> {
    type Item = Sequence<CertKind>;

    ghost reads = { λ r number facts. read_kinds r.p.now r.names.now number facts };

    fn read<'f>(
        &self,
        alloc: Global,
        number: u64,
        facts: &'f [ProveFact],
    ) -> Result<(Sequence<CertKind>, &'f [ProveFact]), Stop> {
        let fact = KindsFact {
            pred: Named::new(self.p, self.names, number),
        };
        first_item(alloc, &fact, 0, facts)
    }
}
