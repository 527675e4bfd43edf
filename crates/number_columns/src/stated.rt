//! The size rows that are stated of built-in predicates, over the size, above and below of both arguments.

ghost use Rattle.std.specs.Prelude.{◌≡◌, ◌++◌, IfOk, OnOk, pos, negsuc};
ghost use Rattle.cti_terms.specs.declared.builtins.Builtin.TheVariants.{Equal as Equality, Is as Assignment};
ghost use Rattle.linear_rows.specs.Plain.{plain_row, plain_rows, HaveWidth};
ghost use Rattle.termination_model.specs.columns.Measures.{above_is_within, below_is_within, first_exceeds, second_exceeds, size_is_zero, stated_rows};

use cti_terms::Builtin;
use linear_rows::{Numbers, Row, Rows};
use std::alloc::{AllocError, Global};

/// How many columns a built-in predicate has.
const COLUMNS: u32 = 6;

/// The value of the first argument, less that of the second, and a number.
fn first_exceeds(alloc: Global, constant: i128) -> Result<Row, AllocError>
    ensures { IfOk result (λ r. plain_row r ≡ first_exceeds constant) }
{
    let coeffs = Numbers::from_vec(vec![in alloc; 0, 1, -1, 0, -1, 1]?);
    Ok(Row { constant, coeffs })
}

/// The value of the second argument, less that of the first, and a number.
fn second_exceeds(alloc: Global, constant: i128) -> Result<Row, AllocError>
    ensures { IfOk result (λ r. plain_row r ≡ second_exceeds constant) }
{
    let coeffs = Numbers::from_vec(vec![in alloc; 0, -1, 1, 0, 1, -1]?);
    Ok(Row { constant, coeffs })
}

/// The size of the first argument is at most 0.
fn size_is_zero(alloc: Global) -> Result<Row, AllocError>
    ensures { IfOk result (λ r. plain_row r ≡ size_is_zero) }
{
    let coeffs = Numbers::from_vec(vec![in alloc; -1, 0, 0, 0, 0, 0]?);
    Ok(Row {
        constant: 0,
        coeffs,
    })
}

/// The first argument has at most as much above 0 as the second.
fn above_is_within(alloc: Global) -> Result<Row, AllocError>
    ensures { IfOk result (λ r. plain_row r ≡ above_is_within) }
{
    let coeffs = Numbers::from_vec(vec![in alloc; 0, -1, 0, 0, 1, 0]?);
    Ok(Row {
        constant: 0,
        coeffs,
    })
}

/// The first argument has at most as much below 0 as the second.
fn below_is_within(alloc: Global) -> Result<Row, AllocError>
    ensures { IfOk result (λ r. plain_row r ≡ below_is_within) }
{
    let coeffs = Numbers::from_vec(vec![in alloc; 0, 0, -1, 0, 0, 1]?);
    Ok(Row {
        constant: 0,
        coeffs,
    })
}

/// Adds the rows of `=:=`.
fn add_equality(alloc: Global, rows: &mut Rows) -> Result<(), AllocError>
    requires { rows.old.width ≡ COLUMNS }
    ensures width { rows.new.width ≡ rows.old.width }
    ensures rows { OnOk result (plain_rows rows.new.list ≡ plain_rows rows.old.list
        ++ stated_rows Equality) }
{
    rows.push(first_exceeds(alloc, 0)?)?;
    rows.push(second_exceeds(alloc, 0)?)?;
    Ok(())
}

/// Adds the rows of `is`.
fn add_assignment(alloc: Global, rows: &mut Rows) -> Result<(), AllocError>
    requires { rows.old.width ≡ COLUMNS }
    ensures width { rows.new.width ≡ rows.old.width }
    ensures rows { OnOk result (plain_rows rows.new.list ≡ plain_rows rows.old.list
        ++ stated_rows Assignment) }
{
    rows.push(size_is_zero(alloc)?)?;
    add_equality(alloc, rows)?;
    rows.push(above_is_within(alloc)?)?;
    rows.push(below_is_within(alloc)?)?;
    Ok(())
}

/// Adds the rows of a built-in predicate.
fn add_stated(alloc: Global, kind: Builtin, rows: &mut Rows) -> Result<(), AllocError>
    requires { rows.old.width ≡ COLUMNS }
    ensures width { rows.new.width ≡ rows.old.width }
    ensures rows { OnOk result (plain_rows rows.new.list ≡ plain_rows rows.old.list ++ stated_rows kind) }
{
    match kind {
        Builtin::Is => add_assignment(alloc, rows),
        Builtin::Equal => add_equality(alloc, rows),
        Builtin::NotEqual => Ok(()),
        Builtin::Less => rows.push(second_exceeds(alloc, -1)?),
        Builtin::AtMost => rows.push(second_exceeds(alloc, 0)?),
        Builtin::Greater => rows.push(first_exceeds(alloc, -1)?),
        Builtin::AtLeast => rows.push(first_exceeds(alloc, 0)?),
    }
}

/// The size rows that are stated of a built-in predicate, over the size, above and below of its first argument and of
/// its second.
pub fn stated_value_rows(alloc: Global, kind: Builtin) -> Result<Rows, AllocError>
    ensures width { IfOk result (λ r. r.width ≡ COLUMNS) }
    ensures widths { IfOk result (λ r. HaveWidth COLUMNS r.list) }
    ensures rows { IfOk result (λ r. plain_rows r.list ≡ stated_rows kind) }
{
    let mut rows = Rows::new(alloc, COLUMNS);
    add_stated(alloc, kind, &mut rows)?;
    Ok(rows)
}
