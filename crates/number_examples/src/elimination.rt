//! Worked rows: elimination of a variable, and solving by it.

use crate::given::{crowd, rows};
use fourier::{ElimFault, Solved, eliminate, solve};
use std::alloc::Global;

/// How many rows are left of a crowd without its first variable.
fn left_of_crowd(alloc: Global, many: u8) -> Result<usize, ElimFault> {
    let given = crowd(alloc, many).ok_or(ElimFault::Memory)?;
    Ok(eliminate(alloc, &given, 0)?.list.len())
}

#[test]
fn crowds(rt: HostRuntime) {
    let many = ElimFault::Blown {
        step: 1,
        wide: false,
    };
    assert!(rt; left_of_crowd(rt.alloc(), 64) == Ok(4096));
    assert!(rt; left_of_crowd(rt.alloc(), 65) == Err(many));
}

/// Why the row of the least number is not eliminated, and why it is not solved.
fn faults_of_least(alloc: Global) -> Option<(ElimFault, ElimFault)> {
    let least = rows(alloc, 1, &[&[i128::MIN, 1]])?;
    Some((
        eliminate(alloc, &least, 0).err()?,
        solve(alloc, &least).err()?,
    ))
}

#[test]
fn least_number(rt: HostRuntime) {
    let wide = ElimFault::Blown {
        step: 0,
        wide: true,
    };
    assert!(rt; faults_of_least(rt.alloc()) == Some((wide, wide)));
}

/// Whether the rows have the point of this `t` and these `w`, or are refuted by multipliers of this scale, which is 0,
/// and this list.
fn is_solved(
    alloc: Global,
    width: u32,
    list: &[&[i128]],
    scale: i128,
    numbers: &[i128],
) -> Option<bool> {
    let given = rows(alloc, width, list)?;
    match solve(alloc, &given).ok()? {
        Solved::Point(point) => Some(point.t == scale && point.w.as_slice() == numbers),
        Solved::Refuted(by) => Some(by.scale == scale && by.list.as_slice() == numbers),
    }
}

#[test]
fn points_and_refutations(rt: HostRuntime) {
    let alloc = rt.alloc();
    assert!(rt; is_solved(alloc, 2, &[&[-2, 1, 0]], 1, &[2, 0]) == Some(true));
    assert!(rt; is_solved(alloc, 2, &[&[-2, 3, 0], &[0, -1, 2]], 3, &[2, 1]) == Some(true));
    assert!(rt; is_solved(alloc, 1, &[&[-2, 1], &[1, -1]], 0, &[1, 1]) == Some(true));
}
