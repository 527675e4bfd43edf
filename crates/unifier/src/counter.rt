//! The counter of a goal, above all its variables.

ghost use Rattle.std.specs.Prelude.{◌≡◌, ◌+◌, IfOk};

use std::alloc::AllocError;

/// The counter of the goal that a clause leaves. Above all variables that can be numbered, it is out of memory.
#[inline]
pub fn counter_after(fresh: u32, vars: u32) -> Result<u32, AllocError>
    ensures { IfOk result (λ n. n ≡ fresh + vars) }
{
    fresh.checked_add(vars).ok_or(AllocError)
}
