//! A component with its clauses.

use call_components::Components;
use cti_terms::Program;

/// A component of a program, with the numbers of its clauses.
#[derive(Clone, Copy)]
pub struct ComponentClauses<'a> {
    pub program: &'a Program,
    pub comps: &'a Components,
    /// The component.
    pub number: u32,
    /// The numbers of its clauses, in order.
    pub clauses: &'a [u32],
}
