//! What is noted of a step of the chain.

use linear_rows::Rows;
use std::rc::Rc;
use termination_model::How;

/// A step of the chain: what it did to the size rows of its clause's head. Steps share rows that are the same.
pub struct Step {
    /// The number of the clause. Clauses count from 1.
    pub clause: u32,
    /// The sizes that the head's arguments have where the size rows of the clause's body hold.
    pub image: Rc<Rows>,
    /// Whether the image's system was blown. Then the image has no rows.
    pub image_weak: bool,
    pub how: How,
    /// The size rows of the head's predicate after the step.
    pub rows: Rc<Rows>,
    /// Whether a test or join that the step needed was blown.
    pub step_weak: bool,
}

impl Drop for Step {
    fn drop(self) {
        let Step {
            clause: _,
            image: _,
            image_weak: _,
            how: _,
            rows: _,
            step_weak: _,
        } = self;
    }
}
