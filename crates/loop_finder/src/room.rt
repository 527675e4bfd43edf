//! How much may still be copied and compared.

use crate::limits::{MOST_GOAL_NODES, MOST_TRIES, MOST_WORK, take_one};
use std::alloc::AllocError;

/// How many nodes of terms a search may still go over, how many of them the goal may have that is being made, and how
/// many heads it may still unify.
#[derive(Drop)]
pub struct Room {
    search: u64,
    goal: u64,
    tries: u64,
}

impl Room {
    /// The room of a whole search.
    pub fn of_search() -> Room {
        Room {
            search: MOST_WORK,
            goal: 0,
            tries: MOST_TRIES,
        }
    }

    /// Makes room for a goal.
    pub fn begin_goal(&mut self) {
        self.goal = MOST_GOAL_NODES;
    }

    /// Takes one node of a goal that is made. Where there is no room for it, it is out of memory.
    pub fn take_one(&mut self) -> Result<(), AllocError> {
        take_one(&mut self.goal)?;
        take_one(&mut self.search)
    }

    /// Takes one head that is unified. Where there is no room for it, it is out of memory.
    pub fn try_one(&mut self) -> Result<(), AllocError> {
        take_one(&mut self.tries)
    }

    /// Takes one node of terms that are compared. Where there is no room for it, it is out of memory.
    pub fn compare_one(&mut self) -> Result<(), AllocError> {
        take_one(&mut self.search)
    }
}
