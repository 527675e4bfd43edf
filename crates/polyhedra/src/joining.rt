//! The join of two polyhedra.

ghost use Rattle.std.specs.Prelude.{◌≡◌, IfOk};
ghost use Rattle.exact128.specs.Fits.{fits};
ghost use Rattle.linear_rows.specs.Blown.{all_of};
ghost use Rattle.linear_rows.specs.Plain.{plain_rows};
ghost use Rattle.termination_model.specs.chains.ChainRows.{HasPoint};
ghost use Rattle.polyhedra.specs.Making.{SaysJoin};

use crate::emptiness::{Emptiness, emptiness_of};
use crate::join_system::join_system;
use crate::made::{Made, about, everything, strong};
use crate::poly::Poly;
use linear_rows::Point;
use redundant_rows::{between, projected};
use std::alloc::{AllocError, Global};

/// The least polyhedron over both.
pub(crate) fn joined(alloc: Global, first: &Poly, second: &Poly) -> Result<Made<Poly>, AllocError>
    requires { second.now.rows.width ≡ first.now.rows.width }
    ensures arity { IfOk result (λ made. made.value.rows.width ≡ first.now.rows.width) }
    ensures rows { IfOk result
        (λ made. SaysJoin (all_of fits) first.now.rows.width (plain_rows first.now.rows.list)
        (plain_rows second.now.rows.list) (plain_rows made.value.rows.list) made.weak) }
{
    let own = emptiness_of(alloc, &first.rows, &first.inside)?;
    let others = emptiness_of(alloc, &second.rows, &second.inside)?;
    match own {
        Emptiness::Empty => Ok(strong(second.copy(alloc)?)),
        Emptiness::Inhabited => match others {
            Emptiness::Empty => Ok(strong(first.copy(alloc)?)),
            Emptiness::Inhabited => hull(alloc, first, second),
            Emptiness::Unknown => Ok(everything(alloc, first.rows.width)),
        },
        Emptiness::Unknown => match others {
            Emptiness::Empty => Ok(strong(first.copy(alloc)?)),
            Emptiness::Inhabited => Ok(everything(alloc, first.rows.width)),
            Emptiness::Unknown => Ok(everything(alloc, first.rows.width)),
        },
    }
}

/// The least polyhedron over two that are not empty.
fn hull(alloc: Global, first: &Poly, second: &Poly) -> Result<Made<Poly>, AllocError>
    requires same { second.now.rows.width ≡ first.now.rows.width }
    requires first { HasPoint first.now.rows.width (plain_rows first.now.rows.list) }
    requires second { HasPoint first.now.rows.width (plain_rows second.now.rows.list) }
    ensures arity { IfOk result (λ made. made.value.rows.width ≡ first.now.rows.width) }
    ensures rows { IfOk result
        (λ made. SaysJoin (all_of fits) first.now.rows.width (plain_rows first.now.rows.list)
        (plain_rows second.now.rows.list) (plain_rows made.value.rows.list) made.weak) }
{
    let inside = between(alloc, &first.inside, &second.inside)?;
    let made = hull_about(alloc, first, second, &inside)?;
    Ok(about(made, inside))
}

/// The least polyhedron over two that are not empty, in which there may be a point.
fn hull_about(
    alloc: Global,
    first: &Poly,
    second: &Poly,
    inside: &Option<Point>,
) -> Result<Made<Poly>, AllocError>
    requires same { second.now.rows.width ≡ first.now.rows.width }
    requires first { HasPoint first.now.rows.width (plain_rows first.now.rows.list) }
    requires second { HasPoint first.now.rows.width (plain_rows second.now.rows.list) }
    ensures arity { IfOk result (λ made. made.value.rows.width ≡ first.now.rows.width) }
    ensures rows { IfOk result
        (λ made. SaysJoin (all_of fits) first.now.rows.width (plain_rows first.now.rows.list)
        (plain_rows second.now.rows.list) (plain_rows made.value.rows.list) made.weak) }
{
    // There is no memory for that many columns.
    let arity = first.rows.width;
    let Some(count) = arity.checked_add(1) else {
        return Err(AllocError);
    };
    let Some(width) = arity.checked_add(count) else {
        return Err(AllocError);
    };
    let rows = join_system(alloc, &first.rows, &second.rows, width)?;
    match projected(alloc, &rows, arity, count, inside)? {
        Some(rows) => Ok(strong(Poly { rows, inside: None })),
        None => Ok(everything(alloc, arity)),
    }
}
