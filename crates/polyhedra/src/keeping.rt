//! The rows that hold on a clause's system, with their proofs.

ghost use Rattle.std.specs.Prelude.{◌≡◌, IfOk, OnOk, length, None, [], false};
ghost use Rattle.linear_rows.specs.Plain.{HaveWidth, plain_row, plain_rows};
ghost use Rattle.polyhedra.specs.Telling.{TellsHead, IsSystem};
ghost use Rattle.polyhedra.specs.Making.{arity_of};
ghost use Rattle.polyhedra.specs.Keeping.{IsKept, IsOneMore};
ghost use Rattle.polyhedra.specs.Remembering.{IsRemembered};

use crate::heads::tested_on;
use linear_rows::{Multipliers, Point, Row, Rows, System};
use sequences::Sequence;
use simplex::Held;
use std::alloc::{AllocError, Global};

// Rows that are kept, with multipliers for each, whether some row failed and some test was blown, and the last point at
// which a row failed.
#[derive(Drop)]
pub(crate) struct Kept {
    pub(crate) rows: Rows,
    pub(crate) by: Sequence<Multipliers>,
    pub(crate) failed: bool,
    pub(crate) weak: bool,
    pub(crate) last: Option<Point>,
}

/// The rows that hold on the head of a clause's system.
pub(crate) fn kept_on(alloc: Global, rows: &Rows, system: &System) -> Result<Kept, AllocError>
    requires system { IsSystem system.now }
    requires arity { rows.now.width ≡ arity_of system.now }
    requires widths { HaveWidth rows.now.width rows.now.list }
    ensures width { IfOk result (λ k. k.rows.width ≡ rows.now.width) }
    ensures widths { IfOk result (λ k. HaveWidth rows.now.width k.rows.list) }
    ensures says { IfOk result (IsKept system.now (plain_rows rows.now.list)) }
{
    let mut kept = none_kept(alloc, rows.width);
    for row in rows.list.as_slice() {
        let held = tested_on(alloc, system, &kept.last, row)?;
        keep(alloc, &mut kept, row, held)?;
    }
    Ok(kept)
}

/// Nothing is kept yet.
fn none_kept(alloc: Global, width: u32) -> Kept
    ensures rows { result.rows.list ≡ [] }
    ensures width { result.rows.width ≡ width }
    ensures by { result.by ≡ [] }
    ensures failed { result.failed ≡ false }
    ensures weak { result.weak ≡ false }
    ensures last { result.last ≡ None }
{
    Kept {
        rows: Rows::new(alloc, width),
        by: Sequence::new(alloc),
        failed: false,
        weak: false,
        last: None,
    }
}

/// One more row, that a test has decided.
fn keep(alloc: Global, kept: &mut Kept, row: &Row, held: Held) -> Result<(), AllocError>
    requires width { length row.now.coeffs ≡ kept.old.rows.width }
    requires widths { HaveWidth kept.old.rows.width kept.old.rows.list }
    ensures width { OnOk result (kept.new.rows.width ≡ kept.old.rows.width) }
    ensures widths { OnOk result (HaveWidth kept.old.rows.width kept.new.rows.list) }
    ensures more { OnOk result (IsOneMore (plain_row row.now) held kept.old kept.new) }
    ensures last { OnOk result (IsRemembered held kept.old.last kept.new.last) }
{
    match held {
        Held::Yes(by) => {
            kept.rows.push(row.copy(alloc)?)?;
            kept.by.push(by)
        }
        Held::No(point) => {
            kept.failed = true;
            kept.last = Some(point);
            Ok(())
        }
        Held::Blown => {
            kept.weak = true;
            Ok(())
        }
    }
}
