//! Marks of rows: one number for all coefficients of a row.

ghost use Rattle.std.specs.Prelude.{◌≡◌, ℕ, ◌<◌, ◌%◌, true, unsigned_abs};
ghost use Rattle.sparse_rows.specs.Marks.{is_up, mark_of, mixed};
ghost use Rattle.sparse_rows.specs.Sparse.{spread};

use crate::part::{Part, after_first, next};

// Marks are less than this prime: 2^31 - 1.
const MODULUS: u64 = 0x7fff_ffff;

/// How many flags a list of many rows has: sixteen times as many as the most rows of a step.
pub const FLAGS: usize = 65_536;

/// The mark of a row in the columns 1 to `last`. Rows of different marks have different coefficients there.
pub fn mark_of(parts: &[Part], tail: usize, last: usize) -> u32
    ensures { result ≡ mark_of last (spread parts.now tail) }
{
    let mut place = after_first(parts, tail);
    let mut mark = 0;
    for _j in 0..last {
        let (number, after) = next(parts, tail, place);
        mark = mixed(mark, number);
        place = after;
    }
    mark
}

/// A mark with one number more.
fn mixed(mark: u32, number: i128) -> u32
    ensures { result ≡ mixed mark number }
{
    ((mark as u64 * 1_000_003 + remainder(number)) % MODULUS) as u32
}

/// What a number leaves: most numbers themselves, and nearly all in 64 bits.
fn remainder(number: i128) -> u64
    ensures value { result ≡ unsigned_abs number % 2147483647 }
    ensures within { result < 2147483647 }
{
    let size = number.unsigned_abs();
    if size < MODULUS as u128 {
        return size as u64;
    }
    if size <= u64::MAX as u128 {
        return size as u64 % MODULUS;
    }
    (size % MODULUS as u128) as u64
}

/// Whether the flag of a mark is up, or there is none.
pub fn is_up(flags: &[bool], mark: u32) -> bool
    ensures { result ≡ is_up flags.now mark }
{
    let place = mark as usize % FLAGS;
    if place < flags.len() {
        return flags[place];
    }
    true
}

/// Puts the flag of a mark up, where there is one.
pub fn raise(flags: &mut Vec<bool>, mark: u32)
    ensures kept { (m : ℕ) → is_up flags.old.items m ≡ true → is_up flags.new.items m ≡ true }
    ensures up { is_up flags.new.items mark ≡ true }
{
    let place = mark as usize % FLAGS;
    if place < flags.len() {
        flags[place] = true;
    }
}
