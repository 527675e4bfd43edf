//! A row as one list of numbers: the constant, the coefficients, and the multipliers that it carries.

ghost use Rattle.std.specs.Prelude.{◌≡◌, length, ◌<◌, ◌≤◌, ◌^◌, ◌+◌, pos, [], ◌∷◌, ◌++◌, ◌*ℤ◌, ◌+ℤ◌, OnOk, IfOk, SomeIff, All, map, int_div, true, false};
ghost use Rattle.exact128.specs.Fits.{Fits, fits};
ghost use Rattle.exact128.specs.Sums.{entry};
ghost use Rattle.linear_rows.specs.Cleaning.{agree, row_gcd};
ghost use Rattle.linear_rows.specs.Equation.{negates};
ghost use Rattle.linear_rows.specs.Blown.{all_of, blend_fits};
ghost use Rattle.linear_rows.specs.Solving.{zeros};
ghost use Rattle.sparse_rows.specs.Blending.{blended};
ghost use Rattle.sparse_rows.specs.Marks.{mark_of};
ghost use Rattle.sparse_rows.specs.Small.{small};
ghost use Rattle.sparse_rows.specs.Sparse.{spread};

use crate::part::{Part, place_at, walk};
use crate::sign::is_small;
use crate::{comparing, marks};
use exact128::{divided, fits, gcd, plus, times};
use linear_rows::RowFault;
use std::alloc::{AllocError, Global};
use std::marker::Model;

/// A row, seen as the list of its numbers, of which only those that are not 0 are stored.
///
/// A row of many multipliers has few that are not 0: it begins with one.
#[derive(Drop)]
pub struct Line {
    parts: Vec<Part>,
    tail: usize,
    long: usize,
}

impl Model for Line {
    ghost use Rattle.std.specs.Prelude.{◌≡◌, ℤ, List, length};
    ghost use Rattle.sparse_rows.specs.Sparse.{spread};

    ghost Value = { List ℤ };

    ghost view = { λ l. spread l.parts.items l.tail };

    ghost invariant = { λ l. l.long ≡ length (spread l.parts.items l.tail) };
}

impl Line {
    /// Makes the row of no numbers.
    pub fn new(alloc: Global) -> Self
        ensures { result ≡ [] }
    {
        Line {
            parts: Vec::new(alloc),
            tail: 0,
            long: 0,
        }
    }

    /// Makes the row of no numbers, with room for a number of those that are not 0.
    fn with_room(alloc: Global, count: usize) -> Result<Self, AllocError>
        ensures { IfOk result (λ row. row ≡ []) }
    {
        let parts = Vec::with_capacity(alloc, count)?;
        Ok(Line {
            parts,
            tail: 0,
            long: 0,
        })
    }

    /// How many numbers there are.
    pub fn len(&self) -> usize
        ensures { result ≡ length self.now }
    {
        self.long
    }

    /// The number at a place, or 0 past the end.
    pub fn entry(&self, k: usize) -> i128
        ensures { result ≡ entry self.now k }
    {
        entry_of(self.parts.as_slice(), self.tail, k)
    }

    /// Appends a number.
    pub fn push(&mut self, number: i128) -> Result<(), AllocError>
        ensures { OnOk result (self.new ≡ self.old ++ number ∷ []) }
    {
        let Some(long) = self.long.checked_add(1) else {
            return Err(AllocError);
        };
        if number == 0 {
            self.tail += 1;
        } else {
            self.parts.push(Part {
                zeros: self.tail,
                number,
            })?;
            self.tail = 0;
        }
        self.long = long;
        Ok(())
    }

    /// Appends the given number of numbers 0.
    pub fn push_zeros(&mut self, count: usize) -> Result<(), AllocError>
        ensures { OnOk result (self.new ≡ self.old ++ zeros count) }
    {
        let Some(long) = self.long.checked_add(count) else {
            return Err(AllocError);
        };
        self.tail += count;
        self.long = long;
        Ok(())
    }

    /// Makes a copy.
    pub fn copy(&self, alloc: Global) -> Result<Line, AllocError>
        ensures { IfOk result (λ r. r ≡ self.now) }
    {
        let parts = Vec::from_slice(alloc, self.parts.as_slice())?;
        Ok(Line {
            parts,
            tail: self.tail,
            long: self.long,
        })
    }

    /// The mark of the columns 1 to `last`.
    pub fn mark(&self, last: usize) -> u32
        ensures { result ≡ mark_of last self.now }
    {
        marks::mark_of(self.parts.as_slice(), self.tail, last)
    }

    /// Whether another row has the same numbers in the columns 1 to `last`.
    pub fn agrees(&self, other: &Line, last: usize) -> bool
        ensures { result ≡ agree last self.now other.now }
    {
        comparing::agree(
            self.parts.as_slice(),
            self.tail,
            other.parts.as_slice(),
            other.tail,
            last,
        )
    }

    /// Whether another row is this one negated in the columns below `many`.
    pub(crate) fn negates(&self, other: &Line, many: usize) -> bool
        requires { All Fits self.now }
        ensures { result ≡ negates many self.now other.now }
    {
        comparing::negates(
            self.parts.as_slice(),
            self.tail,
            other.parts.as_slice(),
            other.tail,
            many,
        )
    }

    /// Whether each number fits.
    pub fn fits(&self) -> bool
        ensures { result ≡ all_of fits self.now }
    {
        parts_fit(self.parts.as_slice(), self.tail)
    }

    /// Whether each number is small.
    pub fn is_small(&self) -> bool
        ensures { result ≡ all_of small self.now }
    {
        parts_are_small(self.parts.as_slice(), self.tail)
    }

    /// The greatest common divisor of the numbers.
    pub fn shared(&self) -> u128
        requires { All Fits self.now }
        ensures value { result ≡ row_gcd self.now }
        ensures within { result < 2 ^ 127 }
    {
        shared_of(self.parts.as_slice(), self.tail)
    }

    /// The row, each number divided by `part`, rounded toward 0.
    pub(crate) fn divided_by(&self, alloc: Global, part: u128) -> Result<Line, AllocError>
        requires some { 0 < part }
        requires fits { part < 2 ^ 127 }
        ensures { IfOk result (λ out. out ≡ map (λ x. int_div x (pos part)) self.now) }
    {
        divide(alloc, self.parts.as_slice(), self.tail, part)
    }

    /// The sum of two rows of one length, the one times `a` and the other times `b`.
    ///
    /// Wide exactly where a product or a sum does not fit.
    pub fn blend(alloc: Global, a: i128, b: i128, r: &Line, s: &Line) -> Result<Line, RowFault>
        requires { length r.now ≡ length s.now }
        ensures sum { IfOk result (λ row. row ≡ blended a b r.now s.now) }
        ensures fits { IfOk result (λ _. blend_fits a b r.now s.now ≡ true) }
        ensures wide { result ≡ Err RowFault.Wide → blend_fits a b r.now s.now ≡ false }
    {
        merge(
            alloc,
            a,
            b,
            r.parts.as_slice(),
            r.tail,
            s.parts.as_slice(),
            s.tail,
        )
    }
}

/// The number at a place, or 0 past the end.
fn entry_of(parts: &[Part], tail: usize, k: usize) -> i128
    ensures { result ≡ entry (spread parts.now tail) k }
{
    let mut left = k;
    for i in 0..parts.len() {
        let part = parts[i];
        if left < part.zeros {
            return 0;
        }
        if left == part.zeros {
            return part.number;
        }
        left -= part.zeros + 1;
    }
    0
}

/// Whether each number fits.
fn parts_fit(parts: &[Part], tail: usize) -> bool
    ensures { result ≡ all_of fits (spread parts.now tail) }
{
    for i in 0..parts.len() {
        if !fits(parts[i].number) {
            return false;
        }
    }
    true
}

/// Whether each number is small.
fn parts_are_small(parts: &[Part], tail: usize) -> bool
    ensures { result ≡ all_of small (spread parts.now tail) }
{
    for i in 0..parts.len() {
        if !is_small(parts[i].number) {
            return false;
        }
    }
    true
}

/// The greatest common divisor of the numbers.
fn shared_of(parts: &[Part], tail: usize) -> u128
    requires { All Fits (spread parts.now tail) }
    ensures value { result ≡ row_gcd (spread parts.now tail) }
    ensures within { result < 2 ^ 127 }
{
    let mut i = parts.len();
    let mut shared = 0;
    while i > 0 {
        i -= 1;
        shared = gcd(parts[i].number.unsigned_abs(), shared);
    }
    shared
}

/// The row, each number divided by `part`.
fn divide(alloc: Global, parts: &[Part], tail: usize, part: u128) -> Result<Line, AllocError>
    requires some { 0 < part }
    requires fits { part < 2 ^ 127 }
    ensures { IfOk result (λ out. out ≡ map (λ x. int_div x (pos part)) (spread parts.now tail)) }
{
    let mut out = Line::new(alloc);
    for i in 0..parts.len() {
        out.push_zeros(parts[i].zeros)?;
        out.push(divided(parts[i].number, part))?;
    }
    out.push_zeros(tail)?;
    Ok(out)
}

/// The sum of two rows of one length, the one times `a` and the other times `b`.
fn merge(
    alloc: Global,
    a: i128,
    b: i128,
    r: &[Part],
    r_tail: usize,
    s: &[Part],
    s_tail: usize,
) -> Result<Line, RowFault>
    requires { length (spread r.now r_tail) ≡ length (spread s.now s_tail) }
    ensures sum { IfOk result
        (λ row. row ≡ blended a b (spread r.now r_tail) (spread s.now s_tail)) }
    ensures fits { IfOk result (λ _. blend_fits a b (spread r.now r_tail) (spread s.now s_tail)
        ≡ true) }
    ensures wide { result ≡ Err RowFault.Wide
        → blend_fits a b (spread r.now r_tail) (spread s.now s_tail) ≡ false }
{
    let mut out = Line::with_room(alloc, r.len().saturating_add(s.len()))?;
    let mut p = place_at(r, r_tail, 0);
    let mut q = place_at(s, s_tail, 0);
    while p.index < r.len() || q.index < s.len() {
        let over = p.before.min(q.before);
        let (x, next_p) = walk(r, r_tail, p, over);
        let (y, next_q) = walk(s, s_tail, q, over);
        let Some(sum) = blend_one(a, b, x, y) else {
            return Err(RowFault::Wide);
        };
        out.push_zeros(over)?;
        out.push(sum)?;
        p = next_p;
        q = next_q;
    }
    out.push_zeros(p.before)?;
    Ok(out)
}

/// One number of a blend, where all that it forms fits.
fn blend_one(a: i128, b: i128, x: i128, y: i128) -> Option<i128>
    ensures { SomeIff result (Fits (a *ℤ x) × Fits (b *ℤ y) × Fits (a *ℤ x +ℤ b *ℤ y))
        (a *ℤ x +ℤ b *ℤ y) }
{
    let Some(left) = times(a, x) else {
        return None;
    };
    let Some(right) = times(b, y) else {
        return None;
    };
    let Some(sum) = plus(left, right) else {
        return None;
    };
    Some(sum)
}
