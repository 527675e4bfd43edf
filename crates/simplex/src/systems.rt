//! The rows that are solved to test whether a row holds on rows.

ghost use Rattle.std.specs.Prelude.{◌≡◌, ◌+◌, pos, negsuc, neg_ℤ, IfOk, OnOk, SomeIff, length, map, [], ◌∷◌, ◌++◌, true};
ghost use Rattle.exact128.specs.Fits.{fits};
ghost use Rattle.linear_rows.specs.Blown.{all_of};
ghost use Rattle.linear_rows.specs.Plain.{plain_row, plain_rows, HaveWidth};
ghost use Rattle.linear_rows.specs.Systems.{at_last};
ghost use Rattle.linear_rows.specs.Solving.{zeros};
ghost use Rattle.simplex.specs.Telling.{IsOppositeIfFits, IsTestIfFits};

use linear_rows::{Numbers, Row, Rows, zeros};
use std::alloc::{AllocError, Global};

/// The rows that are solved to test a row, if its numbers fit.
pub fn test_system(alloc: Global, rows: &Rows, row: &Row) -> Result<Option<Rows>, AllocError>
    requires width { HaveWidth rows.now.width rows.now.list }
    requires row { length row.now.coeffs ≡ rows.now.width }
    ensures { IfOk result (IsTestIfFits rows.now row.now) }
{
    let Some(last) = rows.width.checked_add(1) else {
        return Err(AllocError);
    };
    let Some(opposite) = opposite(alloc, row)? else {
        return Ok(None);
    };
    let mut system = Rows::new(alloc, last);
    add_rows(alloc, &mut system, rows)?;
    add_ends(alloc, &mut system, &opposite)?;
    Ok(Some(system))
}

/// The row with each number negated, if these fit.
fn opposite(alloc: Global, row: &Row) -> Result<Option<Row>, AllocError>
    ensures { IfOk result (IsOppositeIfFits (plain_row row.now)) }
{
    let Some(constant) = negated(row.constant) else {
        return Ok(None);
    };
    match all_negated(alloc, &row.coeffs)? {
        Some(coeffs) => Ok(Some(Row { constant, coeffs })),
        None => Ok(None),
    }
}

/// Appends rows over one more column, which stands for the t of a point.
fn add_rows(alloc: Global, system: &mut Rows, rows: &Rows) -> Result<(), AllocError>
    requires width { system.old.width ≡ rows.now.width + 1 }
    requires system { HaveWidth system.old.width system.old.list }
    requires rows { HaveWidth rows.now.width rows.now.list }
    ensures width { system.new.width ≡ system.old.width }
    ensures system { HaveWidth system.new.width system.new.list }
    ensures rows { OnOk result (plain_rows system.new.list ≡ plain_rows system.old.list ++ map
        (λ r. at_last r (pos 0)) (plain_rows rows.now.list)) }
{
    for row in rows.list.as_slice() {
        system.push(at_last(alloc, row, 0)?)?;
    }
    Ok(())
}

/// Appends that the last column is at least 1, and that a row is at least 1 there.
fn add_ends(alloc: Global, system: &mut Rows, row: &Row) -> Result<(), AllocError>
    requires width { system.old.width ≡ length row.now.coeffs + 1 }
    requires system { HaveWidth system.old.width system.old.list }
    ensures width { system.new.width ≡ system.old.width }
    ensures system { HaveWidth system.new.width system.new.list }
    ensures rows { OnOk result (plain_rows system.new.list ≡ plain_rows system.old.list
        ++ (negsuc 0 ∷ (zeros (length row.now.coeffs) ++ pos 1 ∷ [])) ∷ at_last (plain_row row.now)
        (negsuc 0) ∷ []) }
{
    let one = Row {
        constant: 1,
        coeffs: zeros(alloc, row.coeffs.len())?,
    };
    system.push(at_last(alloc, &one, -1)?)?;
    system.push(at_last(alloc, row, -1)?)
}

/// The row of a constant and of a row's numbers, of which the constant comes last.
fn at_last(alloc: Global, row: &Row, constant: i128) -> Result<Row, AllocError>
    ensures { IfOk result (λ r. plain_row r ≡ at_last (plain_row row.now) constant) }
{
    let mut numbers = Vec::with_capacity(alloc, row.coeffs.len().saturating_add(1))?;
    numbers.extend_from_slice(row.coeffs.as_slice())?;
    numbers.push(row.constant)?;
    Ok(Row {
        constant,
        coeffs: Numbers::from_vec(numbers),
    })
}

/// The number with the other sign, where it fits.
fn negated(x: i128) -> Option<i128>
    ensures { SomeIff result (fits x ≡ true) (neg_ℤ x) }
{
    if x == i128::MIN { None } else { Some(-x) }
}

/// The numbers with the other sign, where they fit.
fn all_negated(alloc: Global, numbers: &Numbers) -> Result<Option<Numbers>, AllocError>
    ensures { IfOk result (λ o. SomeIff o (all_of fits numbers.now ≡ true)
        (map neg_ℤ numbers.now)) }
{
    let mut all = Numbers::new(alloc);
    for k in 0..numbers.len() {
        let Some(x) = negated(numbers.entry(k)) else {
            return Ok(None);
        };
        all.push(x)?;
    }
    Ok(Some(all))
}
