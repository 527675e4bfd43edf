//! Which variables of a clause are known at each of its calls.

use crate::finding_causes::View;
use crate::rigid_sets::{AtomSets, RigidSets};
use crate::truths::{known_after, known_arguments, may_have, variables_of};

/// How often what is known may grow: a clause has at most 48 variables.
const MOST_ROUNDS: u32 = 64;

/// A clause before one of its calls.
pub struct Walk<'s, 'p, 'c, 'f> {
    view: View<'p, 'c, 'f>,
    sets: &'s RigidSets,
    /// The arguments of the head that are known before the first call.
    arguments: u32,
    /// The variables that are known.
    pub known: u64,
    /// Whether no more arguments of the head are known than before the first call, and the calls before may succeed
    /// with no other variable known.
    pub is_sure: bool,
}

impl Drop for Walk<'_, '_, '_, '_> {
    fn drop(self) {
        let Walk {
            view: _,
            sets: _,
            arguments: _,
            known: _,
            is_sure: _,
        } = self;
    }
}

impl<'s, 'p, 'c, 'f> Walk<'s, 'p, 'c, 'f> {
    /// A clause before its first call, where these arguments of the head are known.
    pub fn new(
        view: View<'p, 'c, 'f>,
        sets: &'s RigidSets,
        arguments: u32,
    ) -> Walk<'s, 'p, 'c, 'f> {
        let known = variables_of(sets.of_head(), arguments);
        let mut walk = Walk {
            view,
            sets,
            arguments,
            known,
            is_sure: false,
        };
        walk.is_sure = walk.has_head();
        walk
    }

    /// Whether no more arguments of the head are known than before the first call: of others nothing is asked here.
    fn has_head(&self) -> bool {
        known_arguments(self.sets.of_head(), self.known) == self.arguments
    }

    /// The arguments of an atom that are known.
    pub fn arguments(&self, atom: AtomSets) -> u32 {
        known_arguments(self.sets.of_atom(atom), self.known)
    }

    /// Takes note that a call has succeeded. After one that never does, everything is known.
    fn learn(&mut self, atom: AtomSets) {
        let before = self.arguments(atom);
        match known_after(self.view.grounds(atom.pred), before) {
            Some(after) => self.known |= variables_of(self.sets.of_atom(atom), after),
            None => self.known = u64::MAX,
        }
    }

    /// Takes note that these calls have succeeded.
    fn learn_each(&mut self, atoms: &[AtomSets]) {
        for atom in atoms {
            self.learn(*atom);
        }
    }

    /// Takes note once more that these calls have succeeded, until nothing more is known.
    fn learn_again(&mut self, atoms: &[AtomSets]) {
        for _ in 0..MOST_ROUNDS {
            let before = self.known;
            self.learn_each(atoms);
            if self.known == before {
                return;
            }
        }
    }

    /// Whether a call may succeed with just what is known.
    fn may_succeed(&self, atom: AtomSets) -> bool {
        may_have(self.view.grounds(atom.pred), self.arguments(atom))
    }

    /// Whether these calls may all succeed with just what is known.
    fn may_all_succeed(&self, atoms: &[AtomSets]) -> bool {
        atoms.iter().all(|atom| self.may_succeed(*atom))
    }

    /// Goes past a call, the last of these.
    pub fn pass(&mut self, atom: AtomSets, atoms: &[AtomSets]) {
        let before = self.known;
        self.learn(atom);
        if self.known == before {
            self.is_sure = self.is_sure && self.may_succeed(atom);
        } else {
            self.learn_again(atoms);
            self.is_sure = self.has_head() && self.may_all_succeed(atoms);
        }
    }
}
