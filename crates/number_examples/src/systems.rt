//! A row over sizes, with ample memory.

use linear_rows::Numbers;
use std::alloc::{AllocError, Global};
use termination_model::replaced;

/// Whether this is the constant of a row over two arguments of size 4 each; none where it does not fit.
fn is_constant(alloc: Global, row: &[i128; 3], want: Option<i128>) -> Result<bool, AllocError> {
    let sizes = [Numbers::from_vec(vec![in alloc; 1, 4, 4]?)];
    match replaced(alloc, row.as_slice(), &sizes)? {
        Some(row) => Ok(want == Some(row.constant)),
        None => Ok(want.is_none()),
    }
}

// A number whose products do not fit.
const BIG: i128 = 1 << 126;

/// Rows, and their constants over the sizes.
const ROWS: [([i128; 3], Option<i128>); 4] = [
    ([0, BIG, -BIG], Some(0)),
    ([3, BIG, -BIG], Some(3)),
    ([0, BIG, BIG], None),
    ([i128::MAX, 1, 0], None),
];

/// Only finished numbers count: products and running sums may be of any size.
#[test]
fn rows_over_sizes(rt: HostRuntime) {
    for (row, want) in &ROWS {
        assert!(rt;
            matches!(is_constant(rt.alloc(), row, *want), Ok(true)),
            "{row:?}"
        );
    }
}
