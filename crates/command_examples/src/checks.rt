//! Worked facts, with ample memory.

use cert_checker::{check_fall, check_size};
use linear_rows::{Multipliers, Numbers, Proof, Row, Rows};
use std::test::Fail;

/// The rows of app(T,L,R) over H, T, L and R show that app([H|T],L,[H|R]) keeps its first row.
#[test]
fn rows_of_append(rt: HostRuntime) -> Result<(), Fail> {
    let alloc = rt.alloc();
    let mut rows = Rows::new(alloc, 4);
    rows.push(Row {
        constant: 0,
        coeffs: Numbers::from_vec(vec![in alloc; 0, 1, 1, -1]?),
    })?;
    rows.push(Row {
        constant: 0,
        coeffs: Numbers::from_vec(vec![in alloc; 0, -1, -1, 1]?),
    })?;
    let target = Row {
        constant: 0,
        coeffs: Numbers::from_vec(vec![in alloc; 0, 1, 1, -1]?),
    };
    for (scale, first, proof) in [
        (1, 1, Proof::Holds),
        (1, 2, Proof::Fails),
        (2, i128::MAX, Proof::Fails),
        (i128::MAX, 1, Proof::Fails),
    ] {
        let by = Multipliers {
            scale,
            list: Numbers::from_vec(vec![in alloc; first, 0]?),
        };
        assert_eq!(rt; check_size(&rows, &target, &by), proof);
    }
    Ok(())
}

/// The size of the first argument falls by 1 + H, from [H|T] to T, less 1.
#[test]
fn fall_of_append(rt: HostRuntime) -> Result<(), Fail> {
    let alloc = rt.alloc();
    let rows = Rows::new(alloc, 1);
    for (constant, scale, proof) in [
        (0, 1, Proof::Holds),
        (-1, 1, Proof::Fails),
        (2, i128::MAX, Proof::Wide),
        (0, 0, Proof::Fails),
    ] {
        let target = Row {
            constant,
            coeffs: Numbers::from_vec(vec![in alloc; 1]?),
        };
        let by = Multipliers {
            scale,
            list: Numbers::new(alloc),
        };
        assert_eq!(rt; check_fall(&rows, &target, &by), proof);
    }
    Ok(())
}
