//! The stuck set of calls for which no turn can be made at all positions, tested as a certificate's check tests it.

ghost use Rattle.std.specs.Prelude.{◌≡◌, ◌+◌, ◌≤◌, ℕ, ℤ, List, IfOk, IfSome, None, false, length, map};
ghost use Rattle.std.specs.List.{AllByRecursion};
ghost use Rattle.call_components.specs.Partition.{Partition};
ghost use Rattle.level_dual.specs.Components.{ForComponent};
ghost use Rattle.level_systems.specs.Held.{IsHeld, spelled};
ghost use Rattle.level_systems.specs.Searched.{IsComponent, IsSound};
ghost use Rattle.level_systems.specs.Turned.{held_of};
ghost use Rattle.lex_turns.specs.Coursing.{IsStopped};
ghost use Rattle.lex_turns.specs.Descending.{IsGivenUp};
ghost use Rattle.lex_turns.specs.FoundLists.{IsStuckSetOf};
ghost use Rattle.lex_turns.specs.Sticking.{AreAt, ArePlainIf, ArePlainOf, AreRefutingIf, IsBlownWhereStopped, IsPlain, lines_of, unknowns_of};
ghost use Rattle.lex_turns.specs.Testing.{AreAmong};
ghost use Rattle.termination_model.specs.mappings.ComponentViews.{component_view};
ghost use Rattle.termination_model.specs.mappings.Ready.{arity_in};
ghost use Rattle.termination_model.specs.sizes.Sizes.{AreSizes, rows_of};

use crate::tracking::kept;
use crate::turn::Round;
use crate::turning::system_of;
use cti_terms::Program;
use fourier::ElimFault;
use level_dual::accepted;
use level_systems::{Component, OwnCall, Position, solve_by};
use linear_rows::{Numbers, Point, Solved};
use number_tests::{PairPoint, Refutation};
use sequences::Sequence;
use std::alloc::{AllocError, Global};
use term_size::Norm;
use termination_model::Sizes;

/// Where a search stops: the positions at which coefficients may be positive, and which calls are gone.
#[derive(Clone, Copy)]
pub(crate) struct Halt<'a> {
    pub(crate) at: &'a [Position],
    pub(crate) gone: &'a [bool],
}

/// A way of solving the system of a turn.
#[derive(Drop)]
struct Attempt<'a> {
    round: Round<'a>,
    by_pivots: bool,
}

/// The point of a call that numbers spell: its t first.
fn point_at(alloc: Global, own: &OwnCall, numbers: &[i128]) -> Result<PairPoint, AllocError>
    requires { length numbers.now ≡ own.now.rows.width + 1 }
    ensures { IfOk result (IsPlain own.now numbers.now) }
{
    let w = Numbers::from_vec(Vec::from_slice(alloc, &numbers[1..])?);
    Ok(PairPoint {
        clause: own.clause,
        call: own.call,
        point: Point { t: numbers[0], w },
        at: None,
    })
}

/// The points of calls that multipliers of a system's rows spell, in their order.
fn points_of(
    alloc: Global,
    rest: &[&OwnCall],
    numbers: &[i128],
) -> Result<Option<Sequence<PairPoint>>, AllocError>
    ensures { IfOk result (ArePlainIf (held_of rest.now) numbers.now) }
{
    let mut points = Sequence::new(alloc);
    let mut numbers = numbers;
    for own in rest {
        let many = own.rows.width as usize + 1;
        if numbers.len() < many {
            return Ok(None);
        }
        points.push(point_at(alloc, own, &numbers[..many])?)?;
        numbers = &numbers[many..];
    }
    Ok(Some(points))
}

/// The points of the multipliers that refute the system of a turn, if they do.
fn refuting_points(
    alloc: Global,
    p: &Program,
    component: &Component,
    attempt: &Attempt<'_>,
) -> Result<Option<Sequence<PairPoint>>, AllocError>
    requires sound { IsSound p.now component.now }
    requires among { AreAmong component.now.calls.items (held_of attempt.now.round.rest.now) }
    ensures plain { IfOk result (λ o. IfSome o (ArePlainOf (held_of attempt.now.round.rest.now))) }
    ensures exact { attempt.now.by_pivots ≡ false
        → IfOk result (λ o. ForComponent p.now component.now (λ expression comps rows c.
        AreRefutingIf (held_of attempt.now.round.rest.now)
        (unknowns_of expression p.now comps rows c component.now attempt.now.round.at.now
        (held_of attempt.now.round.rest.now))
        (lines_of expression p.now comps rows c component.now attempt.now.round.at.now
        (held_of attempt.now.round.rest.now)) o)) }
{
    let system = system_of(alloc, p, component, &attempt.round)?;
    match solve_by(alloc, &system, attempt.by_pivots) {
        Ok(Solved::Refuted(by)) => points_of(alloc, attempt.round.rest, by.list.as_slice()),
        Ok(Solved::Point(_)) => Ok(None),
        Err(ElimFault::Blown { .. }) => Ok(None),
        Err(ElimFault::Memory) => Err(AllocError),
    }
}

/// The stuck set of the calls that remain, by one way of solving.
fn stuck_by<N: Norm>(
    alloc: Global,
    p: &Program,
    norm: &N,
    sizes: &Sizes,
    component: &Component,
    attempt: &Attempt<'_>,
) -> Result<Option<Refutation>, AllocError>
    requires sound { IsSound p.now component.now }
    requires among { AreAmong component.now.calls.items (held_of attempt.now.round.rest.now) }
    requires sizes { AreSizes p.now.preds sizes.now.rows }
    requires held { AllByRecursion
        (IsHeld (N.expression norm.now) p.now (rows_of sizes.now.rows)) component.now.calls.items }
    ensures stuck { IfOk result (λ o. (comps : Partition) (c : ℕ)
        → IsComponent (N.size norm.now) (N.truth norm.now) (N.expression norm.now) p.now comps
        (rows_of sizes.now.rows) c component.now
        → 1 ≤ length attempt.now.round.rest.now
        → IfSome o (IsStuckSetOf (N.expression norm.now) p.now comps (rows_of sizes.now.rows) c)) }
    ensures blown { attempt.now.by_pivots ≡ false
        → IfOk result (λ o. o ≡ None → (comps : Partition) (c : ℕ)
        → IsComponent (N.size norm.now) (N.truth norm.now) (N.expression norm.now) p.now comps
        (rows_of sizes.now.rows) c component.now
        → IsBlownWhereStopped (N.expression norm.now) p.now comps
        (rows_of sizes.now.rows) c component.now
        attempt.now.round.at.now (held_of attempt.now.round.rest.now)) }
{
    let Some(points) = refuting_points(alloc, p, component, attempt)? else {
        return Ok(None);
    };
    accepted(alloc, p, norm, sizes, component.members.as_slice(), points)
}

/// The stuck set of the calls at which a search at all positions stops, in numbers that the check of a certificate
/// accepts.
///
/// The system of the turn is solved by pivots first. Where the check does not accept their numbers, elimination solves
/// it again.
pub(crate) fn stuck_set<N: Norm>(
    alloc: Global,
    p: &Program,
    norm: &N,
    sizes: &Sizes,
    component: &Component,
    halt: &Halt<'_>,
) -> Result<Option<Refutation>, AllocError>
    requires sound { IsSound p.now component.now }
    requires gone { length halt.now.gone.now ≡ length component.now.calls.items }
    requires sizes { AreSizes p.now.preds sizes.now.rows }
    requires held { AllByRecursion
        (IsHeld (N.expression norm.now) p.now (rows_of sizes.now.rows)) component.now.calls.items }
    ensures stuck { IfOk result (λ o. (comps : Partition) (c : ℕ)
        → IsComponent (N.size norm.now) (N.truth norm.now) (N.expression norm.now) p.now comps
        (rows_of sizes.now.rows) c component.now
        → IsStopped (N.expression norm.now) p.now comps
        (rows_of sizes.now.rows) c component.now halt.now.at.now halt.now.gone.now
        → IfSome o (IsStuckSetOf (N.expression norm.now) p.now comps (rows_of sizes.now.rows) c)) }
    ensures given_up { IfOk result (λ o. o ≡ None → (comps : Partition) (c : ℕ)
        → IsComponent (N.size norm.now) (N.truth norm.now) (N.expression norm.now) p.now comps
        (rows_of sizes.now.rows) c component.now
        → AreAt component.now.order.items halt.now.at.now
        → IsStopped (N.expression norm.now) p.now comps
        (rows_of sizes.now.rows) c component.now halt.now.at.now halt.now.gone.now
        → IsGivenUp (N.expression norm.now)
        (component_view (N.expression norm.now) p.now comps (rows_of sizes.now.rows) c)
        (arity_in p.now) (map spelled halt.now.at.now)) }
{
    let rest = kept(alloc, component.calls.as_slice(), halt.gone)?;
    let round = Round {
        at: halt.at,
        rest: rest.as_slice(),
        first: false,
    };
    let mut attempt = Attempt {
        round,
        by_pivots: true,
    };
    if let Some(stuck) = stuck_by(alloc, p, norm, sizes, component, &attempt)? {
        return Ok(Some(stuck));
    }
    attempt.by_pivots = false;
    stuck_by(alloc, p, norm, sizes, component, &attempt)
}
