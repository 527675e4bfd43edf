//! A clause's system, as it is made for the steps on the clause.

ghost use Rattle.std.specs.Prelude.{◌≡◌, ◌+◌, ◌<◌, ◌^◌, IfOk, length, map};
ghost use Rattle.std.specs.List.{AllByRecursion};
ghost use Rattle.linear_rows.specs.Plain.{HaveWidth};
ghost use Rattle.size_chains.specs.Making.{IsTied, plain_or_none};
ghost use Rattle.size_chains.specs.Systems.{IsHeadColumn};

use crate::tying::{missing, tied_rows, widened_rows};
use linear_rows::{Row, Rows, System};
use sequences::Sequence;
use std::alloc::{AllocError, Global};

/// The rows of a clause's body atoms and the columns of its head, over the clause's naturals.
///
/// Zeros stand in the place of each row with a number that does not fit, and then `wide` is true. A column of the head
/// that has no expression is `None`.
pub struct ClauseSystem {
    pub naturals: u32,
    pub rows: Rows,
    pub head: Sequence<Option<Row>>,
    pub wide: bool,
}

impl Drop for ClauseSystem {
    fn drop(self) {
        let ClauseSystem {
            naturals: _,
            rows: _,
            head: _,
            wide: _,
        } = self;
    }
}

impl ClauseSystem {
    /// The system with one more natural for each column of the head that has no expression.
    pub(crate) fn tied(self, alloc: Global) -> Result<System, AllocError>
        requires columns { AllByRecursion (IsHeadColumn self.naturals) (map plain_or_none self.head) }
        requires few { self.naturals + length self.head < 2 ^ 32 }
        requires width { self.rows.width ≡ self.naturals }
        requires widths { HaveWidth self.naturals self.rows.list }
        ensures { IfOk result (IsTied self) }
    {
        let ClauseSystem {
            naturals,
            rows,
            head,
            wide,
        } = self;
        let more = missing(head.as_slice());
        let head = tied_rows(alloc, naturals, more, head.as_slice())?;
        let rows = widened_rows(alloc, rows, more)?;
        Ok(System {
            variables: naturals + more,
            rows,
            head,
            wide,
        })
    }
}
