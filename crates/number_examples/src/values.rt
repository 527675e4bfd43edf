//! Worked rows of what values of terms have above 0 and below, over the variables X and Y. Of each variable a row has
//! the numbers of its size, and of what its value has above 0 and below.

use cti_terms::{Arith, Name, Term};
use linear_rows::Row;
use number_columns::value_rows;
use std::alloc::{AllocError, Global};

const ARITH: Arith = Arith {
    plus: Name(0),
    minus: Name(1),
    times: Name(2),
};

const PLUS: u32 = 0;

const MINUS: u32 = 1;

const TIMES: u32 = 2;

const OTHER: u32 = 3;

/// A name with an integer and a variable, or with two variables where there is no integer.
fn term(alloc: Global, name: u32, number: Option<i128>) -> Result<Term, AllocError> {
    let first = match number {
        Some(number) => Term::Int(number),
        None => Term::Var(0),
    };
    Ok(Term::Fun(Name(name), vec![in alloc; first, Term::Var(1)]?))
}

/// Whether a row has these numbers, the constant first; or there is no row, and none is wanted.
fn is_row(row: Option<&Row>, want: &[i128]) -> bool {
    match row {
        Some(row) => match want.split_first() {
            Some((constant, coeffs)) => {
                row.constant == *constant && row.coeffs.as_slice() == coeffs
            }
            None => false,
        },
        None => want.is_empty(),
    }
}

/// Whether the term has these rows, over two variables.
fn has_rows(
    alloc: Global,
    name: u32,
    number: Option<i128>,
    above: &[i128],
    below: &[i128],
) -> Result<bool, AllocError> {
    let t = term(alloc, name, number)?;
    let rows = value_rows(alloc, Some(ARITH), &t, 2)?;
    Ok(is_row(rows.above.as_ref(), above) && is_row(rows.below.as_ref(), below))
}

/// Of `5-Y` what is above 0 is 5 and what Y has below; of `-2*Y` twice what Y has below; `X*Y` is not linear; a term
/// that is no operation has no value; and a number of 128 bits does not fit.
#[test]
fn rows_of_values(rt: HostRuntime) {
    let most = i128::MAX;
    let cases: [(u32, Option<i128>, &[i128], &[i128]); 7] = [
        (
            MINUS,
            Some(5),
            &[5, 0, 0, 0, 0, 0, 1],
            &[0, 0, 0, 0, 0, 1, 0],
        ),
        (
            TIMES,
            Some(-2),
            &[0, 0, 0, 0, 0, 0, 2],
            &[0, 0, 0, 0, 0, 2, 0],
        ),
        (PLUS, None, &[0, 0, 1, 0, 0, 1, 0], &[0, 0, 0, 1, 0, 0, 1]),
        (TIMES, None, &[], &[]),
        (
            OTHER,
            Some(7),
            &[0, 0, 0, 0, 0, 0, 0],
            &[0, 0, 0, 0, 0, 0, 0],
        ),
        (
            PLUS,
            Some(most),
            &[most, 0, 0, 0, 0, 1, 0],
            &[0, 0, 0, 0, 0, 0, 1],
        ),
        (PLUS, Some(i128::MIN), &[0, 0, 0, 0, 0, 1, 0], &[]),
    ];
    for (name, number, above, below) in cases {
        assert!(rt;
            matches!(has_rows(rt.alloc(), name, number, above, below), Ok(true)),
            "at {name}"
        );
    }
}
