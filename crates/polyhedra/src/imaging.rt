//! The image of a clause's system.

ghost use Rattle.std.specs.Prelude.{◌≡◌, IfOk};
ghost use Rattle.exact128.specs.Fits.{fits};
ghost use Rattle.linear_rows.specs.Blown.{all_of};
ghost use Rattle.linear_rows.specs.Plain.{plain_rows};
ghost use Rattle.polyhedra.specs.Making.{arity_of, SaysImage};
ghost use Rattle.polyhedra.specs.Telling.{IsSystem, HasNaturalHead};

use crate::image_system::image_system;
use crate::made::{Made, about, everything, strong};
use crate::poly::Poly;
use linear_rows::{Point, System};
use redundant_rows::{point_of_head, projected};
use std::alloc::{AllocError, Global};

/// The sizes that the head's arguments have over a clause's system.
pub(crate) fn imaged(alloc: Global, system: &System) -> Result<Made<Poly>, AllocError>
    requires system { IsSystem system.now }
    requires head { HasNaturalHead system.now }
    ensures arity { IfOk result (λ made. made.value.rows.width ≡ arity_of system.now) }
    ensures rows { IfOk result
        (λ made. SaysImage (all_of fits) system.now (plain_rows made.value.rows.list) made.weak) }
{
    let inside = point_of_head(alloc, system)?;
    let made = image_about(alloc, system, &inside)?;
    Ok(about(made, inside))
}

/// The sizes that the head's arguments have over a clause's system, among which there may be a point.
fn image_about(
    alloc: Global,
    system: &System,
    inside: &Option<Point>,
) -> Result<Made<Poly>, AllocError>
    requires system { IsSystem system.now }
    requires head { HasNaturalHead system.now }
    ensures arity { IfOk result (λ made. made.value.rows.width ≡ arity_of system.now) }
    ensures rows { IfOk result
        (λ made. SaysImage (all_of fits) system.now (plain_rows made.value.rows.list) made.weak) }
{
    // There is no memory for that many arguments and variables.
    let Ok(arity) = u32::try_from(system.head.list.len()) else {
        return Err(AllocError);
    };
    let Some(width) = arity.checked_add(system.variables) else {
        return Err(AllocError);
    };
    if system.wide {
        return Ok(everything(alloc, arity));
    }
    let rows = image_system(alloc, system, arity, width)?;
    match projected(alloc, &rows, arity, system.variables, inside)? {
        Some(rows) => Ok(strong(Poly { rows, inside: None })),
        None => Ok(everything(alloc, arity)),
    }
}
