//! Edits of a program.

use call_components::Components;
use cti_terms::Program;

/// A program before and after an edit, each with its components, and which of its clauses were kept.
#[derive(Clone, Copy)]
pub struct Edit<'a> {
    /// The program before the edit.
    pub before: &'a Program,
    /// The components of the program before the edit.
    pub components_before: &'a Components,
    /// The program after the edit.
    pub after: &'a Program,
    /// The components of the program after the edit.
    pub components: &'a Components,
    /// For each clause after the edit the number of the same clause before it, if it was kept. Clauses count from 1.
    pub kept: &'a [Option<u32>],
}
