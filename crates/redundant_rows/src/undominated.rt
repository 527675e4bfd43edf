//! Rows without those that one other row implies.

ghost use Rattle.std.specs.Prelude.{◌≡◌, ◌<◌, ◌≤◌, ◌+◌, ◌++◌, suc, take, drop, length, IfOk, true};
ghost use Rattle.linear_rows.specs.Plain.{plain_rows, HaveWidth};
ghost use Rattle.redundant_rows.specs.Sweeping.{IsImplied, IsLess};

use crate::multiple::{is_natural, multiple};
use linear_rows::{Row, RowList, Rows};
use std::alloc::{AllocError, Global};

/// The most rows of which each is compared with each other one. Of more, most are implied by a few, and the tests that
/// come after find them sooner.
const MOST_COMPARED: usize = 64;

/// The rows without those that hold everywhere, and those that are at least a multiple of one other row. Many rows are
/// left as they are.
pub(crate) fn undominated(alloc: Global, rows: Rows) -> Result<Rows, AllocError>
    requires { HaveWidth rows.width rows.list }
    ensures width { IfOk result (λ r. r.width ≡ rows.width) }
    ensures widths { IfOk result (λ r. HaveWidth rows.width r.list) }
    ensures less { IfOk result (λ r. IsLess rows.width (plain_rows rows.list) (plain_rows r.list)) }
{
    if rows.list.len() > MOST_COMPARED {
        return Ok(rows);
    }
    let mut signs = signs_of(alloc, &rows)?;
    let mut rows = rows;
    let mut place = 0;
    while place < rows.list.len() {
        if is_dominated(&rows, signs.as_slice(), place) {
            rows = without(rows, place);
            signs.remove(place);
        } else {
            place += 1;
        }
    }
    Ok(rows)
}

/// The rows without the one at a place.
fn without(rows: Rows, place: usize) -> Rows
    requires place { place < length rows.list }
    requires width { HaveWidth rows.width rows.list }
    ensures width { result.width ≡ rows.width }
    ensures widths { HaveWidth rows.width result.list }
    ensures rows { result.list ≡ take place rows.list ++ drop (suc place) rows.list }
{
    let width = rows.width;
    let mut items = rows.list.into_vec();
    items.remove(place);
    Rows {
        width,
        list: RowList::from_vec(items),
    }
}

/// Whether a row holds everywhere, or is at least a multiple of one other row.
fn is_dominated(rows: &Rows, signs: &[Signs], place: usize) -> bool
    requires place { place < length rows.now.list }
    requires signs { length signs.now ≡ length rows.now.list }
    requires width { HaveWidth rows.now.width rows.now.list }
    ensures { result ≡ true → IsImplied rows.now.width (plain_rows rows.now.list) place }
{
    let row = rows.list.get(place);
    if is_natural(row) {
        return true;
    }
    for other in 0..rows.list.len() {
        if follows_from(rows, signs, place, other) {
            return true;
        }
    }
    false
}

/// Whether a row is at least a multiple of the one at another place.
fn follows_from(rows: &Rows, signs: &[Signs], place: usize, other: usize) -> bool
    requires place { place < length rows.now.list }
    requires other { other < length rows.now.list }
    requires signs { length signs.now ≡ length rows.now.list }
    requires width { HaveWidth rows.now.width rows.now.list }
    ensures { result ≡ true → IsImplied rows.now.width (plain_rows rows.now.list) place }
{
    if other == place {
        return false;
    }
    if !signs[place].may_be_multiple(signs[other]) {
        return false;
    }
    match multiple(rows.list.get(place), rows.list.get(other)) {
        Some(_) => true,
        None => false,
    }
}

// In which columns, counted modulo 64, a row has numbers below 0 and above 0.
#[derive(Clone, Copy)]
struct Signs {
    below: u64,
    above: u64,
}

impl Signs {
    /// The signs, with that of a number in a column.
    fn with(self, column: usize, number: i128) -> Signs {
        let bit = 1 << (column % 64);
        if number < 0 {
            return Signs {
                below: self.below | bit,
                above: self.above,
            };
        }
        if number > 0 {
            return Signs {
                below: self.below,
                above: self.above | bit,
            };
        }
        self
    }

    /// Whether a row of these signs may be at least a multiple of one with those.
    fn may_be_multiple(self, other: Signs) -> bool {
        self.below & other.below == self.below && other.above & self.above == other.above
    }
}

/// The signs of each row.
fn signs_of(alloc: Global, rows: &Rows) -> Result<Vec<Signs>, AllocError>
    ensures { IfOk result (λ s. length s.items ≡ length rows.now.list) }
{
    let mut all = Vec::new(alloc);
    for row in rows.list.as_slice() {
        all.push(signs_in(row))?;
    }
    Ok(all)
}

/// The signs of a row.
fn signs_in(row: &Row) -> Signs {
    let mut signs = Signs { below: 0, above: 0 }.with(0, row.constant);
    for k in 0..row.coeffs.len() {
        signs = signs.with(k, row.coeffs.entry(k));
    }
    signs
}
