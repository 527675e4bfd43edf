//! Points at which rows hold or fail.

ghost use Rattle.std.specs.Prelude.{◌≡◌, IfOk};

use crate::numbers::Numbers;
use std::alloc::{AllocError, Global};

/// Naturals `w` over the natural `t`, which is at least 1: the rationals w/t.
#[derive(Drop)]
pub struct Point {
    pub t: i128,
    pub w: Numbers,
}

impl Point {
    /// A copy of the point.
    pub fn copy(&self, alloc: Global) -> Result<Point, AllocError>
        ensures { IfOk result (λ copy. copy ≡ self.now) }
    {
        Ok(Point {
            t: self.t,
            w: self.w.copy(alloc)?,
        })
    }
}
