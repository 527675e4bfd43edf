//! Names, numbered in the order of their first use.

ghost use Rattle.std.specs.Prelude.{◌≡◌, ◌≢◌, ℕ, ◌<◌, ◌-◌, ◌^◌, [], length, slice_get, Some, IfOk, OnOk, OnErr};
ghost use Rattle.std.specs.List.{AllPairs};
ghost use Rattle.cti_terms.specs.Numbers.{number_of, with_text};

use indexmap::IndexSet;
use std::alloc::{AllocError, Global};
use std::marker::Model;

/// A name, by its number. Numbers count from 0.
#[derive(Clone, Copy, Debug, PartialEq, Eq, Hash)]
pub struct Name(pub u32);

/// The texts of names, each at its name's number. Contracts see the list of the texts.
pub struct Names {
    texts: IndexSet<Vec<u8>>,
}

impl Drop for Names {
    fn drop(self) {
        let Names { texts: _ } = self;
    }
}

impl Model for Names {
    ghost use Rattle.std.specs.Prelude.{List, ℕ, map, ◌<◌, ◌^◌, length};

    ghost Value = { List (List ℕ) };

    ghost view = { λ n. map (λ t. t.items) n.texts.keys };

    ghost invariant = { λ n. length n.texts.keys < 2 ^ 32 };
}

impl Names {
    /// No names. It takes no memory.
    pub fn new(alloc: Global) -> Names
        ensures { result ≡ [] }
    {
        Names {
            texts: IndexSet::new(alloc),
        }
    }

    /// How many names are there. No two of them have the same text.
    pub fn count(&self) -> u32
        ensures count { result ≡ length self.now }
        ensures distinct { AllPairs (λ a b. a ≢ b) self.now }
    {
        self.texts.len() as u32
    }

    /// The text of a name that these names gave.
    pub fn text(&self, name: Name) -> &[u8]
        requires { name.0 < length self.now }
        ensures { slice_get self.now name.0 ≡ Some result.now }
    {
        match self.texts.get_index(name.0 as usize) {
            Some(text) => text,
            None => unreachable!(),
        }
    }

    /// The name of a text: the old one where the text is there, else the next.
    pub fn intern(&mut self, text: &[u8]) -> Result<Name, AllocError>
        requires { length self.old < 2 ^ 32 - 1 }
        ensures number { IfOk result (λ n. n.0 ≡ number_of self.old text.now) }
        ensures added { OnOk result (self.new ≡ with_text self.old text.now) }
        ensures spelled { IfOk result (λ n. slice_get self.new n.0 ≡ Some text.now) }

        // Earlier names keep their numbers, and out of memory, nothing is changed.
        ensures kept { (i : ℕ) → i < length self.old → slice_get self.new i ≡ slice_get self.old i }
        ensures err { OnErr result (self.new ≡ self.old) }
    {
        if let Some(i) = self.texts.get_index_of(text) {
            return Ok(Name(i as u32));
        }
        let alloc = *self.texts.allocator();
        let copy = Vec::from_slice(alloc, text)?;
        let (i, _) = self.texts.insert_full(copy)?;
        Ok(Name(i as u32))
    }
}
