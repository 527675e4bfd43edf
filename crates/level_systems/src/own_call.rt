//! A component's call of itself, as its mappings see it.

use cti_terms::PredId;
use linear_rows::{Multipliers, Numbers, Rows};

/// A call of a member in a clause of a member, both counted from 1: the sizes of the arguments of the head and of the
/// call, their columns, and the size rows of the atoms before the call, all over the clause's variables.
///
/// `empty` has multipliers with scale 0 where these rows hold nowhere.
pub struct OwnCall {
    pub clause: u32,
    pub call: u32,
    pub caller: PredId,
    pub callee: PredId,
    pub caller_sizes: Rows,
    pub callee_sizes: Rows,
    pub columns: Vec<Numbers>,
    pub rows: Rows,
    pub empty: Option<Multipliers>,
}

impl Drop for OwnCall {
    fn drop(self) {
        let OwnCall {
            clause: _,
            call: _,
            caller: _,
            callee: _,
            caller_sizes: _,
            callee_sizes: _,
            columns: _,
            rows: _,
            empty: _,
        } = self;
    }
}
