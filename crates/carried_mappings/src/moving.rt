//! What is found of mappings, under other numbers of predicates and clauses.

ghost use Rattle.std.specs.Prelude.{◌≡◌, IfOk, length, map, option_map};
ghost use Rattle.std.specs.List.{AllByRecursion};
ghost use Rattle.call_components.specs.Numbers.{number_of};
ghost use Rattle.carried_mappings.specs.Carrying.{IsStanding, new_number};
ghost use Rattle.carried_mappings.specs.Moved.{moved_fall, moved_found, moved_mapping, moved_pair, moved_refutation};
ghost use Rattle.carried_mappings.specs.Moved.{with_members};

use crate::standing::Standing;
use cti_terms::PredId;
use level_dual::copied_sets;
use level_systems::{Fall, Found, Mapping, Measure};
use linear_rows::Point;
use number_tests::{PairPoint, Refutation};
use sequences::Sequence;
use std::alloc::{AllocError, Global};

/// A copy of a point, if there is one.
fn copied_if(alloc: Global, point: &Option<Point>) -> Result<Option<Point>, AllocError>
    ensures { IfOk result (λ copy. copy ≡ point.now) }
{
    match point {
        Some(at) => {
            let copy = at.copy(alloc)?;
            Ok(Some(copy))
        }
        None => Ok(None),
    }
}

/// The parts of the members, which have these numbers now.
fn moved_measures(
    alloc: Global,
    members: &[PredId],
    measures: &[Measure],
) -> Result<Sequence<Measure>, AllocError>
    requires { length measures.now ≡ length members.now }
    ensures { IfOk result (λ moved. moved ≡ with_members (map number_of members.now) measures.now) }
{
    let mut moved = Sequence::new(alloc);
    for i in 0..measures.len() {
        let part = measures[i].part.copy(alloc)?;
        moved.push(Measure {
            pred: members[i],
            part,
        })?;
    }
    Ok(moved)
}

impl Standing<'_> {
    /// The number that a clause of the old component has now.
    fn number(&self, clause: u32) -> u32
        requires { IsStanding self.now }
        ensures { result ≡ new_number self.now clause }
    {
        match self.own_before.binary_search(&clause) {
            Ok(place) => self.own[place],
            Err(_) => clause,
        }
    }

    /// Falls, under the new numbers of clauses.
    pub(crate) fn moved_falls(
        &self,
        alloc: Global,
        falls: &[Fall],
    ) -> Result<Sequence<Fall>, AllocError>
        requires { IsStanding self.now }
        ensures { IfOk result (λ moved. moved ≡ map (moved_fall (new_number self.now)) falls.now) }
    {
        let mut moved = Sequence::new(alloc);
        for fall in falls {
            let by = fall.by.copy(alloc)?;
            moved.push(Fall {
                clause: self.number(fall.clause),
                call: fall.call,
                by,
            })?;
        }
        Ok(moved)
    }

    /// A mapping of the old component, with these members in the place of the old ones.
    fn moved_mapping(
        &self,
        alloc: Global,
        members: &[PredId],
        mapping: &Mapping,
    ) -> Result<Mapping, AllocError>
        requires standing { IsStanding self.now }
        requires each { length mapping.now.measures ≡ length members.now }
        ensures { IfOk result (λ moved.
            moved ≡ moved_mapping (new_number self.now) (map number_of members.now) mapping.now) }
    {
        let measures = moved_measures(alloc, members, mapping.measures.as_slice())?;
        let falls = self.moved_falls(alloc, mapping.falls.as_slice())?;
        Ok(Mapping { measures, falls })
    }

    /// Mappings under the new numbers of clauses.
    fn moved_mappings(
        &self,
        alloc: Global,
        members: &[PredId],
        mappings: &[Mapping],
    ) -> Result<Sequence<Mapping>, AllocError>
        requires standing { IsStanding self.now }
        requires each { AllByRecursion
            (λ mapping. length mapping.measures ≡ length members.now) mappings.now }
        ensures { IfOk result (λ moved. moved
            ≡ map (moved_mapping (new_number self.now) (map number_of members.now)) mappings.now) }
    {
        let mut moved = Sequence::new(alloc);
        for mapping in mappings {
            let next = self.moved_mapping(alloc, members, mapping)?;
            moved.push(next)?;
        }
        Ok(moved)
    }

    /// The points of a refutation, under the new numbers of clauses.
    fn moved_points(
        &self,
        alloc: Global,
        points: &[PairPoint],
    ) -> Result<Sequence<PairPoint>, AllocError>
        requires { IsStanding self.now }
        ensures { IfOk result (λ moved. moved ≡ map (moved_pair (new_number self.now)) points.now) }
    {
        let mut moved = Sequence::new(alloc);
        for pair in points {
            let point = pair.point.copy(alloc)?;
            let at = copied_if(alloc, &pair.at)?;
            moved.push(PairPoint {
                clause: self.number(pair.clause),
                call: pair.call,
                point,
                at,
            })?;
        }
        Ok(moved)
    }

    /// A refutation under the new numbers, if there is one.
    pub(crate) fn moved_refutation(
        &self,
        alloc: Global,
        refutation: &Option<Refutation>,
    ) -> Result<Option<Refutation>, AllocError>
        requires { IsStanding self.now }
        ensures { IfOk result (λ moved.
            moved ≡ option_map (moved_refutation (new_number self.now)) refutation.now) }
    {
        match refutation {
            Some(old) => {
                let points = self.moved_points(alloc, old.points.as_slice())?;
                Ok(Some(Refutation { points }))
            }
            None => Ok(None),
        }
    }

    /// What was found of a component, under the new numbers of clauses and of members.
    pub(crate) fn moved_found(
        &self,
        alloc: Global,
        members: &[PredId],
        found: &Found,
    ) -> Result<Found, AllocError>
        requires standing { IsStanding self.now }
        requires each { AllByRecursion
            (λ mapping. length mapping.measures ≡ length members.now) found.now.mappings }
        ensures { IfOk result (λ moved.
            moved ≡ moved_found (new_number self.now) (map number_of members.now) found.now) }
    {
        let mappings = self.moved_mappings(alloc, members, found.mappings.as_slice())?;
        let refutation = self.moved_refutation(alloc, &found.refutation)?;
        let blown = copied_sets(alloc, found.blown.as_slice())?;
        Ok(Found {
            mappings,
            refutation,
            blown,
            large: found.large,
        })
    }
}
