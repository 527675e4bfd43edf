//! Clauses.

use crate::atom_list::{Atom, Atoms};

/// A definite clause: its head holds where all atoms of its body do. A fact has an empty body.
///
/// Each variable of its terms is below `vars`, and belongs to this clause alone.
pub struct Clause {
    pub head: Atom,
    pub body: Atoms,
    pub vars: u32,
}

impl Drop for Clause {
    fn drop(self) {
        let Clause {
            head: _,
            body: _,
            vars: _,
        } = self;
    }
}
