//! Goals.

use crate::atom_list::Atoms;

/// A goal: the atoms that are left to be resolved, the leftmost first.
///
/// Each variable of its terms is below `fresh`, so that those from `fresh` on are new to it.
pub struct Goal {
    pub atoms: Atoms,
    pub fresh: u32,
}

impl Drop for Goal {
    fn drop(self) {
        let Goal { atoms: _, fresh: _ } = self;
    }
}
