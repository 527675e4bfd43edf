//! Copies of numbers.

ghost use Rattle.std.specs.Prelude.{◌≡◌, IfOk};

use linear_rows::{Multipliers, Point, copied_multipliers};
use number_tests::{PairPoint, Refutation};
use sequences::Sequence;
use std::alloc::{AllocError, Global};
use termination_model::SizeRows;

/// A copy of the second point, if there is one.
fn copied_second(alloc: Global, at: &Option<Point>) -> Result<Option<Point>, AllocError>
    ensures { IfOk result (λ copy. copy ≡ at.now) }
{
    match at {
        Some(point) => Ok(Some(point.copy(alloc)?)),
        None => Ok(None),
    }
}

/// A copy of a pair with its points.
fn copied_pair(alloc: Global, pair: &PairPoint) -> Result<PairPoint, AllocError>
    ensures { IfOk result (λ copy. copy ≡ pair.now) }
{
    let point = pair.point.copy(alloc)?;
    let at = copied_second(alloc, &pair.at)?;
    Ok(PairPoint {
        clause: pair.clause,
        call: pair.call,
        point,
        at,
    })
}

/// A copy of pairs with their points.
fn copied_pairs(alloc: Global, pairs: &[PairPoint]) -> Result<Sequence<PairPoint>, AllocError>
    ensures { IfOk result (λ copy. copy ≡ pairs.now) }
{
    let mut copy = Sequence::new(alloc);
    for pair in pairs {
        copy.push(copied_pair(alloc, pair)?)?;
    }
    Ok(copy)
}

/// A copy of a refutation or a stuck set, if there is one.
pub fn copied_refutation(
    alloc: Global,
    refutation: &Option<Refutation>,
) -> Result<Option<Refutation>, AllocError>
    ensures { IfOk result (λ copy. copy ≡ refutation.now) }
{
    match refutation {
        Some(refutation) => Ok(Some(Refutation {
            points: copied_pairs(alloc, refutation.points.as_slice())?,
        })),
        None => Ok(None),
    }
}

/// A copy of size rows.
pub fn copied_rows(alloc: Global, rows: &SizeRows) -> Result<SizeRows, AllocError>
    ensures { IfOk result (λ copy. copy ≡ rows.now) }
{
    let mut copy = SizeRows::new(alloc);
    for own in rows.as_slice() {
        copy.push(own.copy(alloc)?)?;
    }
    Ok(copy)
}

/// A copy of the multipliers of clauses.
pub fn copied_proofs(
    alloc: Global,
    proofs: &[Sequence<Multipliers>],
) -> Result<Sequence<Sequence<Multipliers>>, AllocError>
    ensures { IfOk result (λ copy. copy ≡ proofs.now) }
{
    let mut copy = Sequence::new(alloc);
    for list in proofs {
        copy.push(copied_multipliers(alloc, list.as_slice())?)?;
    }
    Ok(copy)
}
