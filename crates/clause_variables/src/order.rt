//! Numbers in the order of their first occurrence.

ghost use Rattle.std.specs.Prelude.{◌≡◌, ◌<◌, ◌≤◌, length, MatchOption, IfOk};
ghost use Rattle.clause_variables.specs.Terms.{firsts, is_among};

use std::alloc::{AllocError, Global};

/// Whether a number is among these.
pub fn is_among(xs: &[u32], x: u32) -> bool
    ensures { result ≡ is_among xs.now x }
{
    xs.iter().any(|y| x == *y)
}

/// Each of these numbers once, in order of first occurrence, where these are no more than `most`.
pub fn firsts(alloc: Global, xs: &[u32], most: usize) -> Result<Option<Vec<u32>>, AllocError>
    ensures { IfOk result (λ order. MatchOption order (most < length (firsts xs.now))
        (λ v. (v.items ≡ firsts xs.now) × (length v.items ≤ most))) }
{
    let mut order = Vec::new(alloc);
    'numbers: for x in xs {
        if !is_among(&order, *x) {
            if order.len() == most {
                return Ok(None);
            }
            order.push(*x)?;
        }
    }
    Ok(Some(order))
}
