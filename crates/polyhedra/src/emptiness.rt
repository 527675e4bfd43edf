//! Whether rows hold at some point.

ghost use Rattle.std.specs.Prelude.{IfOk};
ghost use Rattle.linear_rows.specs.Plain.{plain_rows, HaveWidth};
ghost use Rattle.polyhedra.specs.Filling.{IsEmptiness};

use crate::bottom::bottom_row;
use linear_rows::{Point, Rows};
use redundant_rows::tested_at;
use simplex::Held;
use std::alloc::{AllocError, Global};

/// Whether rows hold at some point.
#[derive(Clone, Copy, PartialEq, Eq, Debug)]
pub(crate) enum Emptiness {
    /// The rows hold nowhere.
    Empty,
    /// The rows hold at some point.
    Inhabited,
    /// The test is blown.
    Unknown,
}

/// Tests whether rows hold at some point, first at one where they may hold.
pub(crate) fn emptiness_of(
    alloc: Global,
    rows: &Rows,
    inside: &Option<Point>,
) -> Result<Emptiness, AllocError>
    requires { HaveWidth rows.now.width rows.now.list }
    ensures { IfOk result (λ e. IsEmptiness rows.now.width (plain_rows rows.now.list) e) }
{
    let nowhere = bottom_row(alloc, rows.width as usize)?;
    match tested_at(alloc, rows, &nowhere, inside)? {
        Held::Yes(_) => Ok(Emptiness::Empty),
        Held::No(_) => Ok(Emptiness::Inhabited),
        Held::Blown => Ok(Emptiness::Unknown),
    }
}
