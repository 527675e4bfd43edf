//! Rows over arguments, with size expressions in the arguments' places.

ghost use Rattle.std.specs.Prelude.{◌≡◌, ◌≤◌, ◌<◌, ◌+◌, ◌++◌, map, length, IfOk, OnOk, IsTrue, sum_by, All};
ghost use Rattle.std.specs.List.{AllByRecursion};
ghost use Rattle.cti_terms.specs.Tree.{is_below, nodes_of};
ghost use Rattle.exact128.specs.Sums.{entry};
ghost use Rattle.linear_rows.specs.Plain.{HaveWidth, plain_row, plain_rows};
ghost use Rattle.termination_model.specs.sizes.Replacing.{AreColumns, IsRowIfFits, column_over, unit_at, over_columns};

use cti_terms::{MOST_NODES, MOST_VARIABLES, Terms};
use exact128::sum_of_products;
use linear_rows::{Numbers, Row, Rows};
use std::alloc::{AllocError, Global};
use term_size::Norm;

/// Appends the size expressions of arguments over the first variables, as many as the width of the rows.
pub fn add_expressions<N: Norm>(
    alloc: Global,
    norm: &N,
    arguments: &Terms,
    rows: &mut Rows,
) -> Result<(), AllocError>
    requires few { rows.old.width ≤ MOST_VARIABLES }
    requires below { AllByRecursion (λ t. IsTrue (is_below rows.old.width t)) arguments.now }
    requires small { sum_by nodes_of arguments.now ≤ MOST_NODES }
    requires wide { HaveWidth rows.old.width rows.old.list }
    ensures width { rows.new.width ≡ rows.old.width }
    ensures wide { HaveWidth rows.new.width rows.new.list }
    ensures each { OnOk result (plain_rows rows.new.list ≡ plain_rows rows.old.list
        ++ map (N.expression norm.now rows.old.width) arguments.now) }
{
    let vars = rows.width;
    for argument in arguments.as_slice() {
        let size = norm.size_expr(alloc, argument, vars)?;
        rows.push(Row {
            constant: size.constant,
            coeffs: Numbers::from_vec(size.coeffs.into_vec()),
        })?;
    }
    Ok(())
}

/// The columns of expressions: the constants first, then each variable's coefficients.
///
/// Before a column's numbers stands what a row's own constant counts there, which is 1 in the first column and 0 in
/// the others.
pub fn columns(alloc: Global, expressions: &Rows) -> Result<Vec<Numbers>, AllocError>
    ensures { IfOk result (λ columns. AreColumns
        (plain_rows expressions.now.list) expressions.now.width columns.items) }
{
    let mut columns = Vec::new(alloc);
    for x in 0..expressions.width as usize + 1 {
        let numbers = column(alloc, expressions, x)?;
        columns.push(numbers)?;
    }
    Ok(columns)
}

/// One column, after what a row's own constant counts there.
fn column(alloc: Global, expressions: &Rows, x: usize) -> Result<Numbers, AllocError>
    ensures { IfOk result (λ numbers. numbers ≡ column_over (plain_rows expressions.now.list) x) }
{
    let mut numbers = Numbers::new(alloc);
    numbers.push(unit_at(x))?;
    for expression in expressions.list.as_slice() {
        numbers.push(number_at(expression, x))?;
    }
    Ok(numbers)
}

/// What a row's own constant counts in a column.
fn unit_at(x: usize) -> i128
    ensures { result ≡ unit_at x }
{
    if x == 0 { 1 } else { 0 }
}

/// The number of a row in a column.
fn number_at(row: &Row, x: usize) -> i128
    ensures { result ≡ entry (plain_row row.now) x }
{
    if x == 0 {
        row.constant
    } else {
        row.coeffs.entry(x - 1)
    }
}

/// A row over arguments, its constant first, with the expressions of these columns in the arguments' places.
///
/// It is there where each of its numbers fits. Only finished numbers count, so each is formed by the exact wide sum.
pub fn replaced(alloc: Global, row: &[i128], columns: &[Numbers]) -> Result<Option<Row>, AllocError>
    requires some { 1 ≤ length columns.now }
    requires lengths { All (λ c. length c ≡ length row.now) columns.now }
    ensures { IfOk result (IsRowIfFits (over_columns columns.now row.now)) }
{
    let Some(constant) = sum_of_products(row, columns[0].as_slice()) else {
        return Ok(None);
    };
    let mut coeffs = Numbers::new(alloc);
    for x in 1..columns.len() {
        let Some(number) = sum_of_products(row, columns[x].as_slice()) else {
            return Ok(None);
        };
        coeffs.push(number)?;
    }
    Ok(Some(Row { constant, coeffs }))
}
