//! The variables that the arguments of a clause's atoms ask for.

use crate::sizing::Sizing;
use cti_terms::{Atom, Clause};
use std::alloc::{AllocError, Global};

/// An atom of a clause: its predicate, and which of the clause's sets are its arguments'.
#[derive(Clone, Copy)]
pub struct AtomSets {
    pub pred: u32,
    start: usize,
    count: usize,
}

/// The atoms of a clause, the head first, and for each argument the set of the variables that have to be rigid for it
/// to be.
pub struct RigidSets {
    pub atoms: Vec<AtomSets>,
    sets: Vec<u64>,
}

impl Drop for RigidSets {
    fn drop(self) {
        let RigidSets { atoms: _, sets: _ } = self;
    }
}

impl RigidSets {
    /// The sets of a clause.
    pub fn of(alloc: Global, sizing: Sizing<'_>, clause: &Clause) -> Result<RigidSets, AllocError> {
        let mut made = RigidSets {
            atoms: Vec::new(alloc),
            sets: Vec::new(alloc),
        };
        made.push(sizing, &clause.head)?;
        for atom in clause.body.as_slice() {
            made.push(sizing, atom)?;
        }
        Ok(made)
    }

    /// Adds an atom.
    fn push(&mut self, sizing: Sizing<'_>, atom: &Atom) -> Result<(), AllocError> {
        let start = self.sets.len();
        for arg in atom.args.as_slice() {
            let mut set = 0u64;
            sizing.add_rigid(arg, &mut set);
            self.sets.push(set)?;
        }
        let count = self.sets.len().saturating_sub(start);
        self.atoms.push(AtomSets {
            pred: atom.pred.0,
            start,
            count,
        })?;
        Ok(())
    }

    /// The sets of an atom's arguments.
    pub fn of_atom(&self, atom: AtomSets) -> &[u64] {
        let rest = self.sets.get(atom.start..).unwrap_or(&[]);
        rest.get(..atom.count).unwrap_or(rest)
    }

    /// The sets of the arguments of the head.
    pub fn of_head(&self) -> &[u64] {
        match self.atoms.first() {
            Some(head) => self.of_atom(*head),
            None => &[],
        }
    }
}
