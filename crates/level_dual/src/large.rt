//! Components of many positions: one mapping, none of whose positions can be left out.

ghost use Rattle.std.specs.Prelude.{◌≡◌, ◌↔◌, ◌<◌, ◌≤◌, ◌^◌, IfOk, IsTrue, length, map, true};
ghost use Rattle.level_systems.specs.Found.{IsFound, count, without_number};
ghost use Rattle.level_systems.specs.Held.{spelled};
ghost use Rattle.level_dual.specs.Components.{ForComponent};
ghost use Rattle.level_dual.specs.Large.{IsHadMapping, IsLeftOut, IsShorterThan, has_coefficient};
ghost use Rattle.level_systems.specs.Mappings.{support_of};
ghost use Rattle.level_systems.specs.Searched.{IsAnswer, IsSound};
ghost use Rattle.level_systems.specs.Subsequences.{AreOnce};
ghost use Rattle.level_dual.specs.Vanishing.{IsKnown};

use crate::excluding::exclude;
use crate::falling::find_part;
use crate::paths::Paths;
use crate::searching::search;
use cti_terms::Program;
use level_systems::{Answer, Component, Found, Mapping, Measure, Position};
use sequences::Sequence;
use std::alloc::{AllocError, Global};

/// Whether a mapping has a positive coefficient at a position.
pub fn has_coefficient(measures: &[Measure], position: Position) -> bool
    ensures { result ≡ has_coefficient measures.now (spelled position) }
{
    let Some(part) = find_part(measures, position.pred) else {
        return false;
    };
    part.coeffs.entry(position.argument as usize).unsigned_abs() > 0
}

/// The numbers of the positions at which a mapping has a positive coefficient.
pub fn support_of(
    alloc: Global,
    positions: &[Position],
    mapping: &Mapping,
) -> Result<Vec<u32>, AllocError>
    requires { length positions.now < 2 ^ 32 }
    ensures { IfOk result (λ support. support.items
        ≡ support_of (map spelled positions.now) mapping.now) }
{
    let mut support = Vec::new(alloc);
    for i in 0..positions.len() {
        if has_coefficient(mapping.measures.as_slice(), positions[i]) {
            support.push(i as u32 + 1)?;
        }
    }
    Ok(support)
}

/// The set without a number.
pub fn without_number(alloc: Global, set: &[u32], number: u32) -> Result<Sequence<u32>, AllocError>
    ensures { IfOk result (λ rest. rest ≡ without_number number set.now) }
{
    let mut rest = Vec::new(alloc);
    for other in set {
        if number != *other {
            rest.push(*other)?;
        }
    }
    Ok(Sequence::from_vec(rest))
}

/// What is found of the supports without one position.
#[derive(Drop)]
pub(crate) enum LeftOut {
    /// A mapping of smaller support.
    Smaller(Mapping),
    /// No mapping, unless at one of these sets, which were given up.
    None(Sequence<Sequence<u32>>),
}

/// Searches at a set, unless it is seen from what was found before that no mapping decreases there.
fn search_unless_excluded(
    alloc: Global,
    p: &Program,
    component: &Component,
    paths: &Paths,
    set: &[u32],
    known: &mut Option<Sequence<bool>>,
) -> Result<Answer, AllocError>
    requires sound { IsSound p.now component.now }
    requires small { length component.now.positions.items < 2 ^ 32 }
    ensures known { ForComponent p.now component.now (λ expression comps rows c.
        IsKnown expression p.now comps rows c component.now.positions.items known.old
        → IsKnown expression p.now comps rows c component.now.positions.items known.new) }
    ensures answer { IfOk result
        (λ answer. ForComponent p.now component.now (λ expression comps rows c.
        IsKnown expression p.now comps rows c component.now.positions.items known.old
        → IsAnswer expression p.now comps rows c set.now answer)) }
{
    if exclude(alloc, p, component, paths, set, known)? {
        return Ok(Answer::Refuted);
    }
    let answer = search(alloc, p, component, set)?;
    Ok(answer)
}

/// Searches at the support of a mapping without one position after another, up to a mapping of smaller support.
fn leave_out(
    alloc: Global,
    p: &Program,
    component: &Component,
    paths: &Paths,
    support: &[u32],
) -> Result<LeftOut, AllocError>
    requires sound { IsSound p.now component.now }
    requires small { length component.now.positions.items < 2 ^ 32 }
    ensures shorter { IfOk result
        (IsShorterThan (map spelled component.now.positions.items) (length support.now)) }
    ensures left_out { IfOk result
        (λ out. ForComponent p.now component.now (λ expression comps rows c.
        AreOnce support.now → IsLeftOut expression p.now comps rows c support.now out)) }
{
    let mut blown = Sequence::new(alloc);
    let mut known = None;
    for number in support {
        let set = without_number(alloc, support, *number)?;
        match search_unless_excluded(alloc, p, component, paths, set.as_slice(), &mut known)? {
            Answer::Mapping(mapping) => {
                // The support of a mapping at this set is smaller. It is tested, since the caller's loop ends by that.
                let smaller = support_of(alloc, component.positions.as_slice(), &mapping)?;
                if smaller.len() < support.len() {
                    return Ok(LeftOut::Smaller(mapping));
                }
                blown.push(set)?;
            }
            Answer::Refuted => {}
            Answer::Blown => blown.push(set)?,
        }
    }
    Ok(LeftOut::None(blown))
}

/// A mapping none of whose positions can be left out, from one whose positions perhaps can.
pub fn find_large(
    alloc: Global,
    p: &Program,
    component: &Component,
    mapping: Mapping,
) -> Result<Found, AllocError>
    requires sound { IsSound p.now component.now }
    requires small { length component.now.positions.items < 2 ^ 32 }
    ensures found { IfOk result (λ f. ForComponent p.now component.now (λ expression comps rows c.
        IsTrue true ↔ (12 < count expression p.now comps rows c)
        → IsHadMapping expression p.now comps rows c mapping
        → IsFound expression p.now comps rows c f)) }
    ensures some { IfOk result (λ f. 1 ≤ length f.mappings) }
{
    let paths = Paths::of(alloc, p, component)?;
    let mut mapping = mapping;
    loop {
        let support = support_of(alloc, component.positions.as_slice(), &mapping)?;
        match leave_out(alloc, p, component, &paths, support.as_slice())? {
            LeftOut::Smaller(smaller) => mapping = smaller,
            LeftOut::None(blown) => {
                let mut mappings = Sequence::new(alloc);
                mappings.push(mapping)?;
                return Ok(Found {
                    mappings,
                    refutation: None,
                    blown,
                    large: true,
                });
            }
        }
    }
}
