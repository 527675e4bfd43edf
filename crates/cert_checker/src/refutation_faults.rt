//! Refutations of components.

ghost use Rattle.std.specs.Io.Iter.{u64_saturate};
ghost use Rattle.std.specs.Prelude.{◌≡◌, ◌≢◌, ◌↔◌, ◌+◌, ℕ, List, IfOk, None, length, map};
ghost use Rattle.std.specs.List.{AllByRecursion, AllPairs};
ghost use Rattle.certificate.specs.declared.pred_text.PredText.{PredText};
ghost use Rattle.cert_structure.specs.Order.{refuted_facts};
ghost use Rattle.cert_structure.specs.Structure.{AreNamed};
ghost use Rattle.call_components.specs.Numbers.{number_of};
ghost use Rattle.call_components.specs.Partition.{AreComponents};
ghost use Rattle.cert_checker.specs.Finding.{Finds, GroupFails, RefutationsFail, group_facts};
ghost use Rattle.number_tests.specs.Failing.{before, points_of};
ghost use Rattle.number_tests.specs.Refuting.{PointHolds, SumsRefute};
ghost use Rattle.cert_checker.specs.Refuting.{RefutationsHold};
ghost use Rattle.number_tests.specs.Shape.{IsPairOf};
ghost use Rattle.cert_checker.specs.Shape.{HaveRefutations};
ghost use Rattle.termination_model.specs.sizes.Sizes.{AreSizes, rows_of};

use crate::fault::Fault;
use crate::reason::Reason;
use call_components::Components;
use cert_structure::{PairPoint, Parts};
use cti_terms::{PredId, Program};
use number_tests::{points_flaw, points_of, sums_flaw};
use std::alloc::{AllocError, Global};
use term_size::Norm;
use termination_model::SizeRows;

/// The first fact of a refutation that does not hold: that of the sums, which has this line, or one of the points.
fn group_fault<N: Norm>(
    alloc: Global,
    p: &Program,
    norm: &N,
    sizes: &SizeRows,
    members: &[PredId],
    points: &[PairPoint],
    line: u64,
) -> Result<Option<Fault>, AllocError>
    requires sizes { AreSizes p.now.preds sizes.now }
    requires pairs { AllByRecursion (IsPairOf p.now) points.now }
    ensures hold { IfOk result
        (λ fault. (fault ≡ None) ↔
        (SumsRefute (N.expression norm.now) p.now (map number_of members.now) points.now
        × AllByRecursion (PointHolds (N.expression norm.now) p.now
        (rows_of sizes.now)) points.now)) }
    ensures first { IfOk result (λ fault. (pred : PredText)
        → Finds (GroupFails (N.expression norm.now) p.now sizes.now
        (map number_of members.now) points.now) line (group_facts pred points.now) fault) }
{
    if let Some(flaw) = sums_flaw(alloc, p, norm, sizes, members, points)? {
        let reason = Reason::of(flaw, Reason::Refutation);
        return Ok(Some(Fault { line, reason }));
    }
    let Some(found) = points_flaw(alloc, p, norm, sizes, points)? else {
        return Ok(None);
    };
    Ok(Some(Fault {
        line: line.saturating_add(1).saturating_add(found.place),
        reason: Reason::of(found.flaw, Reason::Refutation),
    }))
}

/// The line after the points of a refutation, the first of which has the line `first`.
fn line_after(points: &[PairPoint], first: u64) -> u64
    ensures { (n : ℕ) → u64_saturate (result + n)
        ≡ u64_saturate (first + before points_of points.now (length points.now) + n) }
{
    let mut line = first;
    for x in points {
        line = line.saturating_add(points_of(x));
    }
    line
}

/// The first fact of a refutation that does not hold.
///
/// There is one line for each refutation, by the numbers of the predicates, and after it one for each point, and one
/// more for a second point, from the line `first` on. `Refutation` says that the sums refute nothing, or that a row
/// does not hold at a point, and `Wide` that a number or a row does not fit.
pub fn refutation_fault<N: Norm>(
    alloc: Global,
    p: &Program,
    comps: &Components,
    norm: &N,
    parts: &Parts,
    first: u64,
) -> Result<Option<Fault>, AllocError>
    requires components { AreComponents p.now comps.now }
    requires sizes { AreSizes p.now.preds parts.now.rows }
    requires refutations { HaveRefutations p.now parts.now }
    ensures hold { IfOk result
        (λ fault. (fault ≡ None) ↔ RefutationsHold
        (N.expression norm.now) p.now comps.now parts.now) }

    // Predicates are distinguished by their texts.
    ensures first { IfOk result (λ fault. (names : List (List ℕ)) → AreNamed names p.now.preds
        → AllPairs (λ a b. a ≢ b) names
        → Finds (RefutationsFail (N.expression norm.now) p.now names comps.now parts.now) first
        (refuted_facts p.now names parts.now.refutations) fault) }
{
    let mut line = first;
    for q in 0..p.preds() {
        let Some(refutation) = &parts.refutations.as_slice()[q as usize] else {
            continue;
        };
        let members = comps.members(comps.of(PredId(q)));
        let points = refutation.points.as_slice();
        let fault = group_fault(alloc, p, norm, &parts.rows, members, points, line)?;
        if let Some(fault) = fault {
            return Ok(Some(fault));
        }
        line = line_after(points, line.saturating_add(1));
    }
    Ok(None)
}
