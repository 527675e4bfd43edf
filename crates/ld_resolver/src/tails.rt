//! Rests of goals that are shared.

ghost use Rattle.std.specs.Prelude.{◌≡◌, ℕ, ◌≤◌, ◌<◌, ◌+◌, ◌++◌, [], ◌∷◌, IfOk, OnOk, length, map};
ghost use Rattle.cti_terms.specs.Resolve.{raised};
ghost use Rattle.ld_resolver.specs.Tails.{tail_at};

use cti_terms::Atom;
use std::alloc::{AllocError, Global};
use std::marker::Model;

/// Atoms of a clause whose variables are raised, and the number of the rest that comes after them.
#[derive(Clone, Copy, Drop)]
pub struct Tail<'p> {
    pub atoms: &'p [Atom],
    pub base: u32,
    pub next: usize,
}

/// Rests of goals, by number. Contracts see the list of the rests. The number 0 stands for no atoms.
#[derive(Drop)]
pub struct Tails<'p> {
    items: Vec<Tail<'p>>,
}

impl<'p> Model for Tails<'p> {
    ghost use Rattle.std.specs.Prelude.{List};
    ghost use Rattle.std.specs.Coded.{coded_list};
    ghost use Rattle.cti_terms.specs.declared.atom_list.Atom.{Atom};
    ghost use Rattle.cti_terms.specs.Codes.{coded_atom};
    ghost use Rattle.ld_resolver.specs.Tails.{rests_of, AreTails};

    ghost Value = { List (List Atom) };

    ghost coded = { coded_list (coded_list coded_atom) };

    ghost view = { λ a. rests_of a.items.items };

    ghost invariant = { λ a. AreTails a.items.items };
}

impl<'p> Tails<'p> {
    /// No rests. It takes no memory.
    pub fn new(alloc: Global) -> Tails<'p>
        ensures { result ≡ [] }
    {
        Tails {
            items: Vec::new(alloc),
        }
    }

    /// How many rests there are.
    pub fn len(&self) -> usize
        ensures { result ≡ length self.now }
    {
        self.items.len()
    }

    /// Gives back all rests but the first ones, of this number.
    pub fn keep(&mut self, count: usize)
        ensures kept { (n : ℕ) → n ≤ count → tail_at self.new n ≡ tail_at self.old n }
        ensures enough { count ≤ length self.old → count ≤ length self.new }
    {
        self.items.truncate(count);
    }

    /// Adds a rest, and gives its number.
    pub fn push(&mut self, tail: Tail<'p>) -> Result<usize, AllocError>
        requires atoms { 0 < length tail.atoms.now }
        requires earlier { tail.next ≤ length self.old }
        ensures number { IfOk result (λ n. n ≡ length self.new) }
        ensures rests { OnOk result
            (self.new ≡ self.old ++ (map (raised tail.entry.base) tail.entry.atoms.now
            ++ tail_at self.old tail.entry.next) ∷ []) }
    {
        self.items.push(tail)?;
        Ok(self.items.len())
    }

    /// The rest of a number.
    pub fn get(&self, number: usize) -> Tail<'p>
        requires first { 1 ≤ number }
        requires last { number ≤ length self.now }
        ensures rest { tail_at self.now number ≡ map (raised result.base) result.atoms.now
            ++ tail_at self.now result.next }
        ensures atoms { 0 < length result.atoms.now }
        ensures earlier { result.next < number }
    {
        self.items[number - 1]
    }
}
