//! The stated rows of built-in predicates, over the size, above and below of both arguments.

use cti_terms::Builtin;
use linear_rows::Row;
use number_columns::stated_value_rows;
use std::alloc::Global;

/// Whether a row has these numbers, the constant first.
fn is_row(row: &Row, want: &[i128]) -> bool {
    match want.split_first() {
        Some((constant, coeffs)) => row.constant == *constant && row.coeffs.as_slice() == coeffs,
        None => false,
    }
}

/// Whether a built-in predicate has so many stated rows, the first of which is this.
fn has_rows(alloc: Global, kind: Builtin, count: usize, first: &[i128]) -> bool {
    let Ok(rows) = stated_value_rows(alloc, kind) else {
        return false;
    };
    if rows.list.len() != count {
        return false;
    }
    count == 0 || is_row(rows.list.get(0), first)
}

/// Of `is` the size of the first argument is 0; `<` asks for 1 more than `=<`; `=\=` says nothing.
#[test]
fn rows_of_builtins(rt: HostRuntime) {
    let cases: [(Builtin, usize, &[i128]); 7] = [
        (Builtin::Is, 5, &[0, -1, 0, 0, 0, 0, 0]),
        (Builtin::Equal, 2, &[0, 0, 1, -1, 0, -1, 1]),
        (Builtin::NotEqual, 0, &[]),
        (Builtin::Less, 1, &[-1, 0, -1, 1, 0, 1, -1]),
        (Builtin::AtMost, 1, &[0, 0, -1, 1, 0, 1, -1]),
        (Builtin::Greater, 1, &[-1, 0, 1, -1, 0, -1, 1]),
        (Builtin::AtLeast, 1, &[0, 0, 1, -1, 0, -1, 1]),
    ];
    for (kind, count, first) in cases {
        assert!(rt; has_rows(rt.alloc(), kind, count, first), "at {kind:?}");
    }
}
