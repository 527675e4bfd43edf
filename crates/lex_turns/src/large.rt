//! Components of many positions: one list, none of whose positions can be left out.

ghost use Rattle.std.specs.Prelude.{◌≡◌, ◌↔◌, ◌<◌, ◌^◌, IfOk, IsTrue, length, map, true};
ghost use Rattle.level_dual.specs.Components.{ForComponent};
ghost use Rattle.level_systems.specs.Found.{count};
ghost use Rattle.level_systems.specs.Held.{spelled};
ghost use Rattle.level_systems.specs.Searched.{IsSound};
ghost use Rattle.level_systems.specs.Subsequences.{AreOnce};
ghost use Rattle.lex_turns.specs.FoundLists.{AreFoundLists, is_used, mappings_of, support_of_list};
ghost use Rattle.lex_turns.specs.Large.{IsHadList, IsLeftOut, IsShorterThan};

use crate::found_lists::FoundLists;
use crate::measure_list::MeasureList;
use crate::needing::search_without;
use crate::within::Within;
use cti_terms::Program;
use level_dual::{has_coefficient, without_number};
use level_systems::{Component, Position};
use sequences::Sequence;
use std::alloc::{AllocError, Global};

/// Whether some mapping of a list has a positive coefficient at a position.
fn is_used(list: &MeasureList, position: Position) -> bool
    ensures { result ≡ is_used (spelled position) (mappings_of list.now) }
{
    for measures in list.measures.as_slice() {
        if has_coefficient(measures.as_slice(), position) {
            return true;
        }
    }
    false
}

/// The numbers of the positions at which some mapping of a list has a positive coefficient.
fn support_of(
    alloc: Global,
    positions: &[Position],
    list: &MeasureList,
) -> Result<Vec<u32>, AllocError>
    requires { length positions.now < 2 ^ 32 }
    ensures { IfOk result (λ support. support.items
        ≡ support_of_list (map spelled positions.now) list.now) }
{
    let mut support = Vec::new(alloc);
    for i in 0..positions.len() {
        if is_used(list, positions[i]) {
            support.push(i as u32 + 1)?;
        }
    }
    Ok(support)
}

/// What is found of the supports without one position.
#[derive(Drop)]
pub(crate) enum LeftOut {
    /// A list of smaller support.
    Smaller(MeasureList),
    /// No list, unless at one of these sets, which were given up.
    None(Sequence<Sequence<u32>>),
}

/// Searches at the support of a list without one position after another, up to a list of smaller support.
fn leave_out(
    alloc: Global,
    p: &Program,
    component: &Component,
    list: &MeasureList,
    support: &[u32],
) -> Result<LeftOut, AllocError>
    requires sound { IsSound p.now component.now }
    requires small { length component.now.positions.items < 2 ^ 32 }
    ensures shorter { IfOk result
        (IsShorterThan (map spelled component.now.positions.items) (length support.now)) }
    ensures left_out { IfOk result
        (λ out. ForComponent p.now component.now (λ expression comps rows c.
        AreOnce support.now → IsLeftOut expression p.now comps rows c support.now out)) }
{
    let mut blown = Sequence::new(alloc);
    for number in support {
        let set = without_number(alloc, support, *number)?;
        match search_without(alloc, p, component, list, set.as_slice(), *number)? {
            Within::List(other) => {
                // The support of a list at this set is smaller. It is tested, since the caller's loop ends by that.
                let smaller = support_of(alloc, component.positions.as_slice(), &other)?;
                if smaller.len() < support.len() {
                    return Ok(LeftOut::Smaller(other));
                }
                blown.push(set)?;
            }
            Within::Nothing => {}
            Within::GivenUp => blown.push(set)?,
        }
    }
    Ok(LeftOut::None(blown))
}

/// A list none of whose positions can be left out, from one whose positions perhaps can.
pub(crate) fn find_large(
    alloc: Global,
    p: &Program,
    component: &Component,
    list: MeasureList,
) -> Result<FoundLists, AllocError>
    requires sound { IsSound p.now component.now }
    requires small { length component.now.positions.items < 2 ^ 32 }
    ensures { IfOk result (λ f. ForComponent p.now component.now (λ expression comps rows c.
        IsTrue true ↔ (12 < count expression p.now comps rows c)
        → IsHadList expression p.now comps rows c list
        → AreFoundLists expression p.now comps rows c f)) }
{
    let mut list = list;
    loop {
        let support = support_of(alloc, component.positions.as_slice(), &list)?;
        match leave_out(alloc, p, component, &list, support.as_slice())? {
            LeftOut::Smaller(smaller) => list = smaller,
            LeftOut::None(blown) => {
                let mut lists = Sequence::new(alloc);
                lists.push(list)?;
                return Ok(FoundLists {
                    lists,
                    refutation: None,
                    blown,
                    large: true,
                });
            }
        }
    }
}
