//! What is found of mappings, where the members stand in another order.

ghost use Rattle.std.specs.Prelude.{◌≡◌, ◌++◌, IfOk, OnOk, length, map};
ghost use Rattle.std.specs.List.{AllByRecursion};
ghost use Rattle.call_components.specs.Numbers.{number_of};
ghost use Rattle.carried_mappings.specs.Moved.{moved_fall};
ghost use Rattle.carried_mappings.specs.Reordered.{by_sets, of_set, placed};
ghost use Rattle.carried_mappings.specs.Reorderings.{HasPlaces, IsReordered, found_now, mapping_now, set_now};

use crate::sets::{all_renumbered, is_same_set, renumbered};
use crate::standing::Standing;
use cti_terms::PredId;
use level_dual::support_of;
use level_systems::{Found, Mapping, Measure, Position};
use sequences::Sequence;
use std::alloc::{AllocError, Global};
use termination_model::number_sets;

/// A component that stands for an old one, with its members in another order.
#[derive(Clone, Copy)]
pub(crate) struct Reordered<'a> {
    pub(crate) standing: &'a Standing<'a>,
    /// The members as they stand now.
    pub(crate) members: &'a [PredId],
    /// For each of them the place where it stood.
    pub(crate) places: &'a [usize],
    /// The argument positions as they stood.
    pub(crate) positions: &'a [Position],
    /// For each position as they stand now the number that it had.
    pub(crate) numbers: &'a [u32],
}

impl Reordered<'_> {
    /// The parts of the members, as these stand now.
    fn parts(&self, alloc: Global, measures: &[Measure]) -> Result<Sequence<Measure>, AllocError>
        requires reordered { IsReordered self.now }
        requires places { HasPlaces self.now measures.now }
        ensures { IfOk result (λ parts. parts
            ≡ placed (map number_of self.now.members.now) self.now.places.now measures.now) }
    {
        let mut parts = Sequence::new(alloc);
        for i in 0..self.members.len() {
            let part = measures[self.places[i]].part.copy(alloc)?;
            parts.push(Measure {
                pred: self.members[i],
                part,
            })?;
        }
        Ok(parts)
    }

    /// A mapping, with the members as they stand now.
    fn mapping(&self, alloc: Global, mapping: &Mapping) -> Result<Mapping, AllocError>
        requires reordered { IsReordered self.now }
        requires places { HasPlaces self.now mapping.now.measures }
        ensures { IfOk result (λ moved. moved ≡ mapping_now self.now mapping.now) }
    {
        let measures = self.parts(alloc, mapping.measures.as_slice())?;
        let falls = self.standing.moved_falls(alloc, mapping.falls.as_slice())?;
        Ok(Mapping { measures, falls })
    }

    /// Mappings, with the members as they stand now.
    fn all(&self, alloc: Global, mappings: &[Mapping]) -> Result<Sequence<Mapping>, AllocError>
        requires reordered { IsReordered self.now }
        requires places { AllByRecursion (λ m. HasPlaces self.now m.measures) mappings.now }
        ensures { IfOk result (λ moved. moved ≡ map (mapping_now self.now) mappings.now) }
    {
        let mut moved = Sequence::new(alloc);
        for mapping in mappings {
            let next = self.mapping(alloc, mapping)?;
            moved.push(next)?;
        }
        Ok(moved)
    }

    /// The support of a mapping, by the numbers that positions have now.
    fn support(&self, alloc: Global, mapping: &Mapping) -> Result<Sequence<u32>, AllocError>
        requires { IsReordered self.now }
        ensures { IfOk result (λ support. support ≡ set_now self.now mapping.now) }
    {
        let support = support_of(alloc, self.positions, mapping)?;
        renumbered(alloc, self.numbers, support.as_slice())
    }

    /// The supports of mappings, by the numbers that positions have now.
    fn supports(
        &self,
        alloc: Global,
        mappings: &[Mapping],
    ) -> Result<Sequence<Sequence<u32>>, AllocError>
        requires { IsReordered self.now }
        ensures { IfOk result (λ supports. supports ≡ map (set_now self.now) mappings.now) }
    {
        let mut supports = Sequence::new(alloc);
        for mapping in mappings {
            let next = self.support(alloc, mapping)?;
            supports.push(next)?;
        }
        Ok(supports)
    }

    /// Adds the mappings that have this support.
    fn add_of_set(
        &self,
        alloc: Global,
        set: &[u32],
        supports: &[Sequence<u32>],
        mappings: &[Mapping],
        to: &mut Sequence<Mapping>,
    ) -> Result<(), AllocError>
        requires reordered { IsReordered self.now }
        requires places { AllByRecursion (λ m. HasPlaces self.now m.measures) mappings.now }
        requires supports { supports.now ≡ map (set_now self.now) mappings.now }
        ensures { OnOk result (to.new ≡ to.old ++ map (mapping_now self.now)
            (of_set (set_now self.now) mappings.now set.now)) }
    {
        for i in 0..mappings.len() {
            if is_same_set(supports[i].as_slice(), set) {
                let next = self.mapping(alloc, &mappings[i])?;
                to.push(next)?;
            }
        }
        Ok(())
    }

    /// The mappings in the order of their supports: the shorter ones first, those of one length in lexicographic order.
    fn ordered(&self, alloc: Global, mappings: &[Mapping]) -> Result<Sequence<Mapping>, AllocError>
        requires reordered { IsReordered self.now }
        requires places { AllByRecursion (λ m. HasPlaces self.now m.measures) mappings.now }
        ensures { IfOk result (λ ordered. ordered ≡ map (mapping_now self.now)
            (by_sets (length self.now.numbers.now) (set_now self.now) mappings.now)) }
    {
        if mappings.len() <= 1 {
            return self.all(alloc, mappings);
        }
        let sets = number_sets(alloc, self.numbers.len() as u32)?;
        let supports = self.supports(alloc, mappings)?;
        let mut ordered = Sequence::new(alloc);
        for set in sets.as_slice() {
            self.add_of_set(
                alloc,
                set.as_slice(),
                supports.as_slice(),
                mappings,
                &mut ordered,
            )?;
        }
        Ok(ordered)
    }

    /// What is found, with the members as they stand now.
    pub(crate) fn found(&self, alloc: Global, found: &Found) -> Result<Found, AllocError>
        requires reordered { IsReordered self.now }
        requires places { AllByRecursion (λ m. HasPlaces self.now m.measures) found.now.mappings }
        ensures { IfOk result (λ x. x ≡ found_now self.now found.now) }
    {
        let mappings = self.ordered(alloc, found.mappings.as_slice())?;
        let refutation = self.standing.moved_refutation(alloc, &found.refutation)?;
        let blown = all_renumbered(alloc, self.numbers, found.blown.as_slice())?;
        Ok(Found {
            mappings,
            refutation,
            blown,
            large: found.large,
        })
    }
}
