//! The modes of predicates.

ghost use Rattle.std.specs.Prelude.{◌≡◌, IfOk};
ghost use Rattle.std.specs.List.{list_all};
ghost use Rattle.cert_structure.specs.Walk.{named, is_mode, modes_by, shared_modes};

use crate::named::Named;
use crate::shared_fact::{AsShared, SharedFact};
use cti_terms::{Names, Program};
use fact_reading::{FactFault, Kind, Reader, Stop, first_item};
use sequences::Sequence;
use std::alloc::{AllocError, Global};

/// Whether a mode has argument numbers from 1 to the arity, in ascending order.
fn is_mode(arity: u32, mode: &[u32]) -> bool
    ensures { result ≡ is_mode arity 0 mode.now }
{
    let mut last = 0;
    for argument in mode {
        if *argument <= last || *argument > arity {
            return false;
        }
        last = *argument;
    }
    true
}

/// Whether each mode has argument numbers from 1 to the arity, in ascending order.
fn are_modes(arity: u32, modes: &[Sequence<u32>]) -> bool
    ensures { result ≡ list_all (is_mode arity 0) modes.now }
{
    modes.iter().all(|mode| is_mode(arity, mode.as_slice()))
}

/// A copy of modes.
pub fn copied_modes(
    alloc: Global,
    modes: &[Sequence<u32>],
) -> Result<Sequence<Sequence<u32>>, AllocError>
    ensures { IfOk result (λ copy. copy ≡ modes.now) }
{
    let mut copy = Sequence::new(alloc);
    for mode in modes {
        let mode = Vec::from_slice(alloc, mode.as_slice())?;
        copy.push(Sequence::from_vec(mode))?;
    }
    Ok(copy)
}

/// The facts of a predicate's modes.
#[derive(Drop)]
struct ModesFact<'a> {
    pred: Named<'a>,
}

impl<F: AsShared> Kind<F> for ModesFact<'_> {
    type Item = Sequence<Sequence<u32>>;

    ghost takes = { λ r number fact. shared_modes (named r.pred) number (F.shared fact) };

    #[tactic(auto, unfolding(crate::specs::Walk::shared_modes))]
    fn take(
        &self,
        alloc: Global,
        _number: u64,
        fact: &F,
    ) -> Result<Option<Sequence<Sequence<u32>>>, FactFault> {
        let SharedFact::Terminates { pred, modes } = fact.as_shared() else {
            return Ok(None);
        };
        if !self.pred.is(pred) {
            return Ok(None);
        }
        if !are_modes(self.pred.arity, modes) {
            return Err(FactFault::Shape);
        }
        Ok(Some(copied_modes(alloc, modes)?))
    }
}

/// The modes of each predicate.
#[derive(Drop)]
pub struct Modes<'a> {
    pub p: &'a Program,
    pub names: &'a Names,
}

impl<F: AsShared> Reader<F> for Modes<'_> {
    type Item = Sequence<Sequence<u32>>;

    ghost reads = { λ r number facts. modes_by F.shared r.p.now r.names.now number facts };

    #[tactic(auto, unfolding(crate::specs::Walk::modes_by))]
    fn read<'f>(
        &self,
        alloc: Global,
        number: u64,
        facts: &'f [F],
    ) -> Result<(Sequence<Sequence<u32>>, &'f [F]), Stop> {
        let fact = ModesFact {
            pred: Named::new(self.p, self.names, number),
        };
        first_item(alloc, &fact, 0, facts)
    }
}
