//! Multipliers of rows, and what their test says.

ghost use Rattle.std.specs.Prelude.{◌≡◌, IfOk};

use crate::numbers::Numbers;
use sequences::Sequence;
use std::alloc::{AllocError, Global};

/// One multiplier for each row of a list, and the scale of the target.
#[derive(Drop)]
pub struct Multipliers {
    pub scale: i128,
    pub list: Numbers,
}

impl Multipliers {
    /// A copy of the multipliers.
    pub fn copy(&self, alloc: Global) -> Result<Multipliers, AllocError>
        ensures { IfOk result (λ copy. copy ≡ self.now) }
    {
        Ok(Multipliers {
            scale: self.scale,
            list: self.list.copy(alloc)?,
        })
    }
}

/// A copy of a list of multipliers.
pub fn copied_multipliers(
    alloc: Global,
    list: &[Multipliers],
) -> Result<Sequence<Multipliers>, AllocError>
    ensures { IfOk result (λ copy. copy ≡ list.now) }
{
    let mut copy = Sequence::new(alloc);
    for by in list {
        copy.push(by.copy(alloc)?)?;
    }
    Ok(copy)
}

/// Whether multiplied rows prove a target.
#[derive(Clone, Copy, PartialEq, Eq, Debug)]
pub enum Proof {
    /// The multiplied rows prove the target, and each number that the test forms fits.
    Holds,
    /// In the first column that decides, a difference is below 0.
    Fails,
    /// In the first column that decides, a number does not fit.
    Wide,
}
