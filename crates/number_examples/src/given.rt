//! Rows that examples give as numbers. A row's constant comes first.

ghost use Rattle.std.specs.Prelude.{◌≡◌, IfSome, length};
ghost use Rattle.linear_rows.specs.Plain.{HaveWidth};

use linear_rows::{Numbers, Row, Rows};
use std::alloc::Global;

/// The row of these numbers; none where they are not one more than the width, or out of memory.
pub fn row(alloc: Global, width: u32, numbers: &[i128]) -> Option<Row>
    ensures { IfSome result (λ row. length row.coeffs ≡ width) }
{
    let (constant, coeffs) = numbers.split_first()?;
    if coeffs.len() != width as usize {
        return None;
    }
    let coeffs = Numbers::from_vec(Vec::from_slice(alloc, coeffs).ok()?);
    Some(Row {
        constant: *constant,
        coeffs,
    })
}

/// Adds the row of these numbers.
pub fn add(alloc: Global, rows: &mut Rows, numbers: &[i128]) -> Option<()>
    requires { HaveWidth rows.old.width rows.old.list }
    ensures rows { HaveWidth rows.new.width rows.new.list }
    ensures width { rows.new.width ≡ rows.old.width }
{
    rows.push(row(alloc, rows.width, numbers)?).ok()
}

/// The rows of these numbers.
pub fn rows(alloc: Global, width: u32, list: &[&[i128]]) -> Option<Rows>
    ensures rows { IfSome result (λ rows. HaveWidth rows.width rows.list) }
    ensures width { IfSome result (λ rows. rows.width ≡ width) }
{
    let mut rows = Rows::new(alloc, width);
    for numbers in list {
        add(alloc, &mut rows, numbers)?;
    }
    Some(rows)
}

/// The given number of rows that bound the first variable from below, and as many from above, all different.
pub fn crowd(alloc: Global, many: u8) -> Option<Rows>
    ensures rows { IfSome result (λ rows. HaveWidth rows.width rows.list) }
    ensures width { IfSome result (λ rows. rows.width ≡ 3) }
{
    let mut rows = Rows::new(alloc, 3);
    for i in 0..many {
        add(alloc, &mut rows, &[0, 1, i as i128 + 1, 1])?;
        add(alloc, &mut rows, &[0, -1, 100 * i as i128 + 100, 0])?;
    }
    Some(rows)
}
