//! Sets of positions at which no mapping decreases, by what has to be 0 with the other positions.

ghost use Rattle.std.specs.Prelude.{◌≡◌, ◌<◌, ◌^◌, ℕ, ℤ, List, IfOk, length, true};
ghost use Rattle.call_components.specs.Partition.{Partition};
ghost use Rattle.cti_terms.specs.Listing.{Listing};
ghost use Rattle.cti_terms.specs.Tree.{Tree};
ghost use Rattle.level_systems.specs.Searched.{IsSound};
ghost use Rattle.level_dual.specs.Components.{ForComponent};
ghost use Rattle.level_dual.specs.Vanishing.{IsKnown, IsVoid};
ghost use Rattle.level_systems.specs.declared.position.Position.{Position};
ghost use Rattle.termination_model.specs.mappings.ComponentViews.{HasSupportIn};
ghost use Rattle.termination_model.specs.grounds.Minimal.{IsExcluded};

use crate::paths::Paths;
use crate::places::Places;
use crate::searching::search;
use crate::vanishing::{is_covered, spread, unlisted, unmarked};
use cti_terms::Program;
use level_systems::{Answer, Component};
use sequences::Sequence;
use std::alloc::{AllocError, Global};

/// Marks where each mapping at a set is 0: at the positions outside of it, and where that makes coefficients 0.
fn marks_outside(
    alloc: Global,
    p: &Program,
    component: &Component,
    paths: &Paths,
    set: &[u32],
) -> Result<Vec<bool>, AllocError>
    requires sound { IsSound p.now component.now }
    ensures { IfOk result (λ marks. ForComponent p.now component.now (λ expression comps rows c.
        IsVoid expression p.now comps rows c component.now.positions.items marks.items
        → IsExcluded (HasSupportIn expression p.now comps rows c) set.now)) }
{
    // What every program keeps.
    p.preds();
    let mut marks = unlisted(alloc, component.positions.len(), set)?;
    let places = Places {
        positions: component.positions.as_slice(),
        starts: paths.starts.as_slice(),
    };
    spread(
        component.calls.as_slice(),
        paths.steps.as_slice(),
        &places,
        &mut marks,
    );
    Ok(marks)
}

/// Whether it is known of fewer marks that no mapping is 0 at all of them.
fn is_known(known: &Option<Sequence<bool>>, marks: &[bool]) -> bool
    ensures { result ≡ true → (expression : ℕ → Tree → List ℤ) (p : Listing) (comps : Partition)
        (rows : ℕ → List (List ℤ)) (c : ℕ) (positions : List Position)
        → IsKnown expression p comps rows c positions known.now
        → IsVoid expression p comps rows c positions marks.now }
{
    match known {
        Some(few) => is_covered(few.as_slice(), marks),
        None => false,
    }
}

/// Whether a search at the positions without marks, if these are fewer than `most`, finds that there is no mapping.
fn is_void(
    alloc: Global,
    p: &Program,
    component: &Component,
    marks: &[bool],
    most: usize,
) -> Result<bool, AllocError>
    requires sound { IsSound p.now component.now }
    requires small { length component.now.positions.items < 2 ^ 32 }
    ensures { IfOk result (λ void. void ≡ true
        → ForComponent p.now component.now (λ expression comps rows c.
        IsVoid expression p.now comps rows c component.now.positions.items marks.now)) }
{
    let rest = unmarked(alloc, component.positions.as_slice().len(), marks)?;
    if rest.len() >= most {
        return Ok(false);
    }
    match search(alloc, p, component, rest.as_slice())? {
        Answer::Refuted => Ok(true),
        Answer::Mapping(_) => Ok(false),
        Answer::Blown => Ok(false),
    }
}

/// Whether it is seen that no mapping decreases at a set, by the last marks that showed this of another set or by a
/// search at fewer positions.
pub(crate) fn exclude(
    alloc: Global,
    p: &Program,
    component: &Component,
    paths: &Paths,
    set: &[u32],
    known: &mut Option<Sequence<bool>>,
) -> Result<bool, AllocError>
    requires sound { IsSound p.now component.now }
    requires small { length component.now.positions.items < 2 ^ 32 }
    ensures known { ForComponent p.now component.now (λ expression comps rows c.
        IsKnown expression p.now comps rows c component.now.positions.items known.old
        → IsKnown expression p.now comps rows c component.now.positions.items known.new) }
    ensures excluded { IfOk result (λ yes. yes ≡ true
        → ForComponent p.now component.now (λ expression comps rows c.
        IsKnown expression p.now comps rows c component.now.positions.items known.old
        → IsExcluded (HasSupportIn expression p.now comps rows c) set.now)) }
{
    let marks = marks_outside(alloc, p, component, paths, set)?;
    if is_known(known, marks.as_slice()) {
        return Ok(true);
    }
    if !is_void(alloc, p, component, marks.as_slice(), set.len())? {
        return Ok(false);
    }
    *known = Some(Sequence::from_vec(marks));
    Ok(true)
}
