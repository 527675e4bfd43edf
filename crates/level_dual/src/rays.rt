//! Rays of the size rows before a call: directions in which its variables can grow for ever while the rows hold.
//!
//! A ray begins with one variable. Where a row falls along it, another variable is added that raises the row. What
//! comes of this is tested where it is used.

use exact128::{minus, plus};
use level_systems::OwnCall;
use linear_rows::{Numbers, Row, Rows};
use sequences::Sequence;
use std::alloc::{AllocError, Global};

/// How often a variable is added to a ray at most.
const MOST_ADDED: usize = 16;

/// Directions for the variables that the call has, one for each, most of which are rays.
pub(crate) fn rays_of(alloc: Global, own: &OwnCall) -> Result<Sequence<Numbers>, AllocError> {
    let mut rays = Sequence::new(alloc);
    for variable in 0..own.rows.width as usize {
        if occurs(own, variable) {
            rays.push(ray_from(alloc, &own.rows, variable)?)?;
        }
    }
    Ok(rays)
}

/// Whether the size of an argument of the call has a variable.
fn occurs(own: &OwnCall, variable: usize) -> bool {
    for size in own.callee_sizes.list.as_slice() {
        if size.coeffs.entry(variable) != 0 {
            return true;
        }
    }
    false
}

/// A direction that begins with a variable.
fn ray_from(alloc: Global, rows: &Rows, variable: usize) -> Result<Numbers, AllocError> {
    let mut ray = vec![in alloc; 0; rows.width as usize]?;
    add(&mut ray, variable, 1);
    for _added in 0..MOST_ADDED {
        if !mend(rows, &mut ray) {
            return Ok(Numbers::from_vec(ray));
        }
    }
    Ok(Numbers::from_vec(ray))
}

/// Adds to a direction a variable that raises the first row that falls along it. Says whether that is done.
fn mend(rows: &Rows, ray: &mut Vec<i128>) -> bool {
    for row in rows.list.as_slice() {
        let value = row.value_at(0, ray.as_slice()).unwrap_or(0);
        if value < 0 {
            return raise(row, value, ray);
        }
    }
    false
}

/// Adds the first variable that raises a row so often that the row's value, which is below 0, no longer is. Says
/// whether there is one.
fn raise(row: &Row, value: i128, ray: &mut Vec<i128>) -> bool {
    for variable in 0..row.coeffs.len() {
        let number = row.coeffs.entry(variable);
        if number > 0 {
            add(ray, variable, times_to_raise(value, number).unwrap_or(0));
            return true;
        }
    }
    false
}

/// How often a number above 0 has to be added to a value for a sum of at least 0.
fn times_to_raise(value: i128, number: i128) -> Option<i128> {
    minus(number, plus(value, 1)?)?.checked_div(number)
}

/// Adds a variable to a direction so often, if there is such a variable.
fn add(ray: &mut Vec<i128>, variable: usize, times: i128) {
    if variable < ray.len() {
        ray[variable] = plus(ray[variable], times).unwrap_or(0);
    }
}
