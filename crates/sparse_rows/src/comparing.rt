//! Comparisons of two rows, column by column, in one walk.

ghost use Rattle.std.specs.Prelude.{◌≡◌, All};
ghost use Rattle.exact128.specs.Fits.{Fits};
ghost use Rattle.linear_rows.specs.Cleaning.{agree};
ghost use Rattle.linear_rows.specs.Equation.{negates};
ghost use Rattle.sparse_rows.specs.Sparse.{spread};

use crate::part::{Part, after_first, next, place_at};
use crate::sign::{opposite, same};

/// Whether two rows have the same numbers in the columns 1 to `last`.
pub fn agree(r: &[Part], r_tail: usize, s: &[Part], s_tail: usize, last: usize) -> bool
    ensures { result ≡ agree last (spread r.now r_tail) (spread s.now s_tail) }
{
    let mut p = after_first(r, r_tail);
    let mut q = after_first(s, s_tail);
    for _j in 0..last {
        let (x, next_p) = next(r, r_tail, p);
        let (y, next_q) = next(s, s_tail, q);
        if !same(x, y) {
            return false;
        }
        p = next_p;
        q = next_q;
    }
    true
}

/// Whether `s` is `r` negated in the columns below `many`.
pub fn negates(r: &[Part], r_tail: usize, s: &[Part], s_tail: usize, many: usize) -> bool
    requires { All Fits (spread r.now r_tail) }
    ensures { result ≡ negates many (spread r.now r_tail) (spread s.now s_tail) }
{
    let mut p = place_at(r, r_tail, 0);
    let mut q = place_at(s, s_tail, 0);
    for _j in 0..many {
        let (x, next_p) = next(r, r_tail, p);
        let (y, next_q) = next(s, s_tail, q);
        if !opposite(x, y) {
            return false;
        }
        p = next_p;
        q = next_q;
    }
    true
}
