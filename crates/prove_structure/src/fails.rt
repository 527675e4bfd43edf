//! Predicates of which it is said that they fail.

ghost use Rattle.std.specs.Prelude.{◌≡◌};
ghost use Rattle.cert_structure.specs.Walk.{named};
ghost use Rattle.prove_structure.specs.Walk.{is_fails, read_fails};

use cert_structure::Named;
use cti_terms::{Names, Program};
use fact_reading::{Reader, Stop};
use prove_certificate::ProveFact;
use std::alloc::Global;

/// Whether a fact says that a predicate fails.
#[tactic(auto, unfolding(crate::specs::Walk::is_fails))]
fn is_fails(pred: Named, fact: &ProveFact) -> bool
    ensures { result ≡ is_fails (named pred.entry) fact.now }
{
    match fact {
        ProveFact::Fails { pred: other } => pred.is(other),
        _ => false,
    }
}

/// Whether it is said of each predicate that it fails.
#[derive(Drop)]
pub(crate) struct Fails<'a> {
    pub(crate) p: &'a Program,
    pub(crate) names: &'a Names,
}

impl Reader<ProveFact> for Fails<'_> {
    type Item = bool;

    ghost reads = { λ r number facts. read_fails r.p.now r.names.now number facts };

    #[tactic(auto, unfolding(crate::specs::Walk::read_fails))]
    fn read<'f>(
        &self,
        _alloc: Global,
        number: u64,
        facts: &'f [ProveFact],
    ) -> Result<(bool, &'f [ProveFact]), Stop> {
        let Some((fact, rest)) = facts.split_first() else {
            return Ok((false, facts));
        };
        if is_fails(Named::new(self.p, self.names, number), fact) {
            Ok((true, rest))
        } else {
            Ok((false, facts))
        }
    }
}
