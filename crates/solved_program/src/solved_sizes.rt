//! Size rows by component.

use numeric_model::Step;
use sequences::Sequence;
use termination_model::Sizes;

/// What is found of the size rows of a program's predicates.
///
/// Each component has its part: its steps, the rows of its members, and the proofs of its clauses. That it is right for
/// a program is `AreSolved`.
pub struct SolvedSizes {
    /// For each component the steps of its run above the last rows of the predicates that it calls.
    pub steps: Sequence<Sequence<Step>>,
    /// The last rows of each predicate, and for each clause the proofs of its head's rows.
    pub sizes: Sizes,
}

impl Drop for SolvedSizes {
    fn drop(self) {
        let SolvedSizes { steps: _, sizes: _ } = self;
    }
}
