//! How far the size rows of a program after an edit have come.

ghost use Rattle.std.specs.Prelude.{◌≡◌};

use crate::solved_sizes::SolvedSizes;
use numeric_model::State;

/// What is found of the components so far, and the state in which the next one is solved.
pub(crate) struct Progress<D> {
    /// The last rows of the components so far.
    pub(crate) state: State<D>,
    /// What is found of them. Later components have their rows and proofs from before the edit.
    pub(crate) solved: SolvedSizes,
}

impl<D: Drop> Drop for Progress<D> {
    fn drop(self) {
        let Progress {
            state: _,
            solved: _,
        } = self;
    }
}

impl<D: Drop> Progress<D> {
    /// What is found.
    pub(crate) fn into_solved(self) -> SolvedSizes
        ensures { result ≡ self.solved }
    {
        let Progress { state: _, solved } = self;
        solved
    }
}
