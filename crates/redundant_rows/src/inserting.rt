//! Rows that are inserted one after the other, if those that were inserted before do not imply them.

ghost use Rattle.std.specs.Prelude.{◌≡◌, ◌≢◌, ◌<◌, ◌≤◌, ◌+◌, ◌++◌, [], ◌∷◌, suc, IfOk, OnOk, length, slice_get, slice_set, Some, true, false};
ghost use Rattle.linear_rows.specs.Plain.{plain_row, plain_rows, HaveWidth};
ghost use Rattle.linear_rows.specs.Rows.{HoldsOn};
ghost use Rattle.redundant_rows.specs.Inserting.{IsInsertion, IsNext, AreKnown, kept_of};
ghost use Rattle.redundant_rows.specs.Sweeping.{IsLess};

use crate::hints::{Hints, is_waiting};
use crate::mark::Mark;
use crate::points::bits_above;
use linear_rows::{Row, Rows};
use simplex::Implied;
use std::alloc::{AllocError, Global};

/// Rows of numbers of so few bits come first: those that others imply most often have greater ones.
const BITS: [u32; 5] = [24, 32, 48, 64, 128];

/// The rows without those that rows before them imply, where rows with fewer coefficients other than 0 come first, and
/// of them those of smaller numbers.
///
/// Those that are left stand in the order of `rows`, and what `hints` has of them in the same order.
pub(crate) fn inserted(alloc: Global, rows: &Rows, hints: &mut Hints) -> Result<Rows, AllocError>
    requires { HaveWidth rows.now.width rows.now.list }
    ensures width { IfOk result (λ r. r.width ≡ rows.now.width) }
    ensures widths { IfOk result (λ r. HaveWidth rows.now.width r.list) }
    ensures less { IfOk result
        (λ r. IsLess rows.now.width (plain_rows rows.now.list) (plain_rows r.list)) }
{
    let mut insertion = nothing_inserted(alloc, rows)?;
    for coefficients in 0..rows.width as usize + 1 {
        insertion = insert_sparse(alloc, rows, insertion, hints, coefficients)?;
    }
    let all = Reach {
        coefficients: rows.width as usize,
        bits: 128,
    };
    insertion = insert_within(alloc, rows, insertion, hints, all)?;
    hints.leave(insertion.marks.as_slice());
    kept_rows(alloc, rows, insertion.marks.as_slice())
}

// Which rows are inserted: those with at most so many coefficients other than 0, and numbers of at most so many bits.
#[derive(Clone, Copy)]
struct Reach {
    coefficients: usize,
    bits: u32,
}

// What is known of each row, and the rows that were inserted.
#[derive(Drop)]
struct Insertion {
    marks: Vec<Mark>,
    kept: Rows,
}

/// No row was inserted.
fn nothing_inserted(alloc: Global, rows: &Rows) -> Result<Insertion, AllocError>
    ensures { IfOk result (λ i. IsInsertion rows.now.width rows.now.list i.marks.items i.kept) }
{
    let marks = vec![in alloc; Mark::Waiting; rows.list.len()]?;
    Ok(Insertion {
        marks,
        kept: Rows::new(alloc, rows.width),
    })
}

/// Inserts the waiting rows of at most the given number of coefficients other than 0.
fn insert_sparse(
    alloc: Global,
    rows: &Rows,
    insertion: Insertion,
    hints: &mut Hints,
    coefficients: usize,
) -> Result<Insertion, AllocError>
    requires width { HaveWidth rows.now.width rows.now.list }
    requires insertion { IsInsertion rows.now.width rows.now.list insertion.marks.items insertion.kept }
    ensures { IfOk result (λ i. IsInsertion rows.now.width rows.now.list i.marks.items i.kept) }
{
    let mut insertion = insertion;
    for bits in &BITS {
        let reach = Reach {
            coefficients,
            bits: *bits,
        };
        insertion = insert_within(alloc, rows, insertion, hints, reach)?;
    }
    Ok(insertion)
}

/// Inserts the waiting rows within a reach.
fn insert_within(
    alloc: Global,
    rows: &Rows,
    insertion: Insertion,
    hints: &mut Hints,
    reach: Reach,
) -> Result<Insertion, AllocError>
    requires width { HaveWidth rows.now.width rows.now.list }
    requires insertion { IsInsertion rows.now.width rows.now.list insertion.marks.items insertion.kept }
    ensures insertion { IfOk result
        (λ i. IsInsertion rows.now.width rows.now.list i.marks.items i.kept) }
    ensures known { IfOk result (λ i. reach.coefficients ≡ rows.now.width → reach.bits ≡ 128
        → AreKnown i.marks.items (length rows.now.list)) }
{
    let mut insertion = insertion;
    for place in 0..rows.list.len() {
        insertion = insert_due(alloc, rows, insertion, hints, place, reach)?;
    }
    Ok(insertion)
}

/// Inserts a row, if it waits and is within a reach.
fn insert_due(
    alloc: Global,
    rows: &Rows,
    insertion: Insertion,
    hints: &mut Hints,
    place: usize,
    reach: Reach,
) -> Result<Insertion, AllocError>
    requires place { place < length rows.now.list }
    requires width { HaveWidth rows.now.width rows.now.list }
    requires insertion { IsInsertion rows.now.width rows.now.list insertion.marks.items insertion.kept }
    ensures insertion { IfOk result
        (λ i. IsInsertion rows.now.width rows.now.list i.marks.items i.kept) }
    ensures known { IfOk result (λ i. reach.coefficients ≡ rows.now.width → reach.bits ≡ 128
        → AreKnown insertion.marks.items place → AreKnown i.marks.items (place + 1)) }
{
    if reach.has_due(insertion.marks[place], rows.list.get(place)) {
        return insert(alloc, rows, insertion, hints, place);
    }
    Ok(insertion)
}

impl Reach {
    /// Whether a row waits and is within this reach.
    fn has_due(self, mark: Mark, row: &Row) -> bool
        ensures waiting { result ≡ true → mark ≡ Mark.Waiting }
        ensures due { self.coefficients ≡ length row.now.coeffs → self.bits ≡ 128
            → result ≡ false → mark ≢ Mark.Waiting }
    {
        match mark {
            Mark::Waiting => nonzeros(row) <= self.coefficients && bits(row) <= self.bits,
            Mark::Kept => false,
            Mark::Implied => false,
        }
    }
}

/// How many bits the greatest of a row's numbers has.
fn bits(row: &Row) -> u32
    ensures { result ≤ 128 }
{
    let mut sizes = row.constant.unsigned_abs();
    for number in row.coeffs.as_slice() {
        sizes |= number.unsigned_abs();
    }
    bits_above(sizes, 0)
}

/// How many coefficients of a row are not 0.
fn nonzeros(row: &Row) -> usize
    ensures { result ≤ length row.now.coeffs }
{
    let mut count = 0;
    for k in 0..row.coeffs.len() {
        if row.coeffs.entry(k) != 0 {
            count += 1;
        }
    }
    count
}

/// Inserts a waiting row, if the rows that were inserted do not imply it.
///
/// Before it others may be inserted, which are met first on the way to a point where it fails.
fn insert(
    alloc: Global,
    rows: &Rows,
    insertion: Insertion,
    hints: &mut Hints,
    place: usize,
) -> Result<Insertion, AllocError>
    requires place { place < length rows.now.list }
    requires width { HaveWidth rows.now.width rows.now.list }
    requires insertion { IsInsertion rows.now.width rows.now.list insertion.marks.items insertion.kept }
    ensures insertion { IfOk result
        (λ i. IsInsertion rows.now.width rows.now.list i.marks.items i.kept) }
    ensures known { IfOk result (λ i. AreKnown insertion.marks.items place
        → AreKnown i.marks.items (place + 1)) }
{
    let mut insertion = insertion;
    let mut left = rows.list.len();
    while left > 0 && is_waiting(insertion.marks.as_slice(), place) {
        insertion = insert_next(alloc, rows, insertion, hints, place)?;
        left -= 1;
    }
    insert_waiting(alloc, rows, insertion, place)
}

/// Inserts a waiting row, or one that is met before it, unless the rows that were inserted imply it.
fn insert_next(
    alloc: Global,
    rows: &Rows,
    insertion: Insertion,
    hints: &mut Hints,
    place: usize,
) -> Result<Insertion, AllocError>
    requires place { place < length rows.now.list }
    requires waiting { slice_get insertion.marks.items place ≡ Some Mark.Waiting }
    requires width { HaveWidth rows.now.width rows.now.list }
    requires insertion { IsInsertion rows.now.width rows.now.list insertion.marks.items insertion.kept }
    ensures insertion { IfOk result
        (λ i. IsInsertion rows.now.width rows.now.list i.marks.items i.kept) }
    ensures still { IfOk result (λ i. AreKnown insertion.marks.items place
        → AreKnown i.marks.items place) }
{
    match next_of(alloc, rows, &insertion, hints, place)? {
        Some(next) => keep(alloc, rows, insertion, next),
        None => Ok(without(insertion, place)),
    }
}

/// The place of the row that is inserted next, or none where the rows that were inserted imply the one at a place.
fn next_of(
    alloc: Global,
    rows: &Rows,
    insertion: &Insertion,
    hints: &mut Hints,
    place: usize,
) -> Result<Option<usize>, AllocError>
    requires place { place < length rows.now.list }
    requires waiting { slice_get insertion.now.marks.items place ≡ Some Mark.Waiting }
    requires width { HaveWidth rows.now.width rows.now.list }
    requires insertion { IsInsertion rows.now.width rows.now.list insertion.now.marks.items insertion.now.kept }
    ensures { IfOk result
        (IsNext rows.now.width rows.now.list insertion.now.marks.items insertion.now.kept place) }
{
    let row = rows.list.get(place);
    let outside = match hints.test(alloc, &insertion.kept, row)? {
        Implied::Yes => return Ok(None),
        Implied::No(point) => point,
        Implied::Unsure(point) => point,
        Implied::Open => return Ok(Some(place)),
    };
    let marks = insertion.marks.as_slice();
    Ok(Some(hints.next(alloc, rows, marks, place, &outside)?))
}

/// Marks a waiting row that the rows that were inserted imply.
fn without(insertion: Insertion, place: usize) -> Insertion
    requires waiting { slice_get insertion.marks.items place ≡ Some Mark.Waiting }
    ensures marks { result.marks.items ≡ slice_set insertion.marks.items place Mark.Implied }
    ensures kept { result.kept ≡ insertion.kept }
{
    let Insertion { mut marks, kept } = insertion;
    marks[place] = Mark::Implied;
    Insertion { marks, kept }
}

/// Inserts a row, if it waits.
fn insert_waiting(
    alloc: Global,
    rows: &Rows,
    insertion: Insertion,
    place: usize,
) -> Result<Insertion, AllocError>
    requires place { place < length rows.now.list }
    requires width { HaveWidth rows.now.width rows.now.list }
    requires insertion { IsInsertion rows.now.width rows.now.list insertion.marks.items insertion.kept }
    ensures insertion { IfOk result
        (λ i. IsInsertion rows.now.width rows.now.list i.marks.items i.kept) }
    ensures known { IfOk result (λ i. AreKnown insertion.marks.items place
        → AreKnown i.marks.items (place + 1)) }
{
    if is_waiting(insertion.marks.as_slice(), place) {
        return keep(alloc, rows, insertion, place);
    }
    Ok(insertion)
}

/// Inserts a waiting row.
fn keep(
    alloc: Global,
    rows: &Rows,
    insertion: Insertion,
    place: usize,
) -> Result<Insertion, AllocError>
    requires waiting { slice_get insertion.marks.items place ≡ Some Mark.Waiting }
    requires width { HaveWidth rows.now.width rows.now.list }
    requires insertion { IsInsertion rows.now.width rows.now.list insertion.marks.items insertion.kept }
    ensures insertion { IfOk result
        (λ i. IsInsertion rows.now.width rows.now.list i.marks.items i.kept) }
    ensures marks { IfOk result
        (λ i. i.marks.items ≡ slice_set insertion.marks.items place Mark.Kept) }
{
    let Insertion {
        mut marks,
        mut kept,
    } = insertion;
    let row = rows.list.get(place);
    kept.push(row.copy(alloc)?)?;
    marks[place] = Mark::Kept;
    Ok(Insertion { marks, kept })
}

/// The rows that are marked as kept.
fn kept_rows(alloc: Global, rows: &Rows, marks: &[Mark]) -> Result<Rows, AllocError>
    requires width { HaveWidth rows.now.width rows.now.list }
    requires marks { length marks.now ≡ length rows.now.list }
    ensures width { IfOk result (λ r. r.width ≡ rows.now.width) }
    ensures widths { IfOk result (λ r. HaveWidth rows.now.width r.list) }
    ensures rows { IfOk result
        (λ r. plain_rows r.list ≡ kept_of marks.now (plain_rows rows.now.list)) }
{
    let mut all = Rows::new(alloc, rows.width);
    for place in 0..rows.list.len() {
        push_kept(alloc, &mut all, marks[place], rows.list.get(place))?;
    }
    Ok(all)
}

/// Appends a copy of a row, if it is marked as kept.
fn push_kept(alloc: Global, all: &mut Rows, mark: Mark, row: &Row) -> Result<(), AllocError>
    requires row { length row.now.coeffs ≡ all.old.width }
    requires widths { HaveWidth all.old.width all.old.list }
    ensures width { all.new.width ≡ all.old.width }
    ensures widths { HaveWidth all.old.width all.new.list }
    ensures rows { OnOk result (plain_rows all.new.list ≡ plain_rows all.old.list
        ++ kept_of (mark ∷ []) (plain_row row.now ∷ [])) }
{
    match mark {
        Mark::Kept => all.push(row.copy(alloc)?),
        Mark::Waiting => Ok(()),
        Mark::Implied => Ok(()),
    }
}
