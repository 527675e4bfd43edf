//! How much is looked at.

use std::alloc::AllocError;

/// The most derivations that are looked at.
pub const MOST_DERIVATIONS: u64 = 100_000;

/// The most nodes of terms that one search copies and compares, which takes some seconds. A search that needs more is
/// out of memory.
pub const MOST_WORK: u64 = 100_000_000;

/// How often one search unifies heads at most, which takes half a minute. A search that needs more is out of memory.
pub const MOST_TRIES: u64 = 1_000_000_000;

/// The most nodes of a goal's terms. A goal with more is out of memory.
pub const MOST_GOAL_NODES: u64 = 100_000;

/// The most levels of a goal's terms. A goal with more is out of memory.
pub const MOST_GOAL_LEVELS: u32 = 4_000;

/// Takes one from what is left. Where nothing is left, it is out of memory.
pub fn take_one(left: &mut u64) -> Result<(), AllocError> {
    match left.checked_sub(1) {
        Some(less) => {
            *left = less;
            Ok(())
        }
        None => Err(AllocError),
    }
}
