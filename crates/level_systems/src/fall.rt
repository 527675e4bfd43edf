//! Falls of mappings.

use linear_rows::Multipliers;

/// The multipliers that show that a mapping falls from the head of a clause to a call of its body, both counted from 1.
#[derive(Drop)]
pub struct Fall {
    pub clause: u32,
    pub call: u32,
    pub by: Multipliers,
}
