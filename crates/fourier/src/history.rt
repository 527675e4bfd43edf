//! The rows before each step.

ghost use Rattle.std.specs.Prelude.{◌≡◌, length, ◌<◌, slice_index_or, [], ◌∷◌, ◌++◌, OnOk};

use sparse_rows::Lines;
use std::alloc::{AllocError, Global};
use std::marker::Model;

/// Lists of rows.
#[derive(Drop)]
pub struct History {
    items: Vec<Lines>,
}

impl Model for History {
    ghost use Rattle.std.specs.Prelude.{ℤ, List};

    ghost Value = { List (List (List ℤ)) };

    ghost view = { λ n. n.items.items };
}

impl History {
    /// Makes the empty list.
    pub fn new(alloc: Global) -> Self
        ensures { result ≡ [] }
    {
        History {
            items: Vec::new(alloc),
        }
    }

    /// How many lists there are.
    pub fn len(&self) -> usize
        ensures { result ≡ length self.now }
    {
        self.items.len()
    }

    /// The list at a place.
    pub fn get(&self, k: usize) -> &Lines
        requires { k < length self.now }
        ensures { result.now ≡ slice_index_or self.now k [] }
    {
        &self.items[k]
    }

    /// Appends a list.
    pub fn push(&mut self, rows: Lines) -> Result<(), AllocError>
        ensures { OnOk result (self.new ≡ self.old ++ rows ∷ []) }
    {
        self.items.push(rows)?;
        Ok(())
    }
}
