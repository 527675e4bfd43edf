//! The terms that variables are bound to, by the variables' numbers.

ghost use Rattle.std.specs.Prelude.{◌≡◌, ℕ, ◌≤◌, ◌<◌, [], ◌∷◌, OnOk, Some, None, length, set, drop, option_map, false};
ghost use Rattle.unifier.specs.Raised.{raised_tree};
ghost use Rattle.unifier.specs.Slots.{slot, slot_tree, trees, bound, is_in};

use crate::raised_term::RaisedTerm;
use crate::slot::{FREE, Slot};
use cti_terms::Term;
use std::alloc::{AllocError, Global};
use std::marker::Model;

/// How many slots are made beyond those that are needed, so that few steps of a run make any.
const SPARE: usize = 64;

/// The terms of bound variables. Contracts see a list that has the tree of each bound variable, and nothing for each
/// other one, and the list of the bound variables, the last one first.
///
/// Each slot of a bound variable has the number of the one that was bound before it. So the order takes no memory of
/// its own.
#[derive(Drop)]
pub struct Slots<'p> {
    items: Vec<Slot<'p>>,
    /// The variable that was bound last, and any where none is bound.
    last: u32,
    /// How many variables are bound.
    count: usize,
}

impl<'p> Model for Slots<'p> {
    ghost use Rattle.std.specs.Prelude.{ℕ, ◌≤◌, List, Option, length, map};
    ghost use Rattle.std.specs.Coded.{coded_list, coded_option, coded×, coded_ℕ};
    ghost use Rattle.cti_terms.specs.Coding.{coded_tree};
    ghost use Rattle.unifier.specs.Slots.{free, slot_tree, linked, AreLinked, Trees};

    ghost Value = { Trees };

    ghost coded = { coded× (coded_list (coded_option coded_tree)) (coded_list coded_ℕ) };

    ghost view = { λ a. (map slot_tree a.items.items, linked a.items.items a.count a.last) };

    ghost invariant = { λ a. (length a.items.items ≤ free) × AreLinked a.items.items a.count a.last };
}

impl<'p> Slots<'p> {
    /// No slots. It takes no memory.
    pub fn new(alloc: Global) -> Slots<'p>
        ensures { result ≡ ([], []) }
    {
        Slots {
            items: Vec::new(alloc),
            last: 0,
            count: 0,
        }
    }

    /// How many variables are bound.
    pub fn len(&self) -> usize
        ensures { result ≡ length (bound self.now) }
    {
        self.count
    }

    /// Makes slots for the variables below this number, which are more than there are, and some to spare. Most bindings
    /// need none, so it is not compiled into them. The term may be any. More than 2^32 - 1 slots are out of memory.
    #[inline(never)]
    fn grow(&mut self, count: usize, term: &'p Term) -> Result<(), AllocError>
        requires { length (trees self.old) ≤ count }
        ensures room { OnOk result (count ≤ length (trees self.new)) }
        ensures same { (x : ℕ) → slot (trees self.new) x ≡ slot (trees self.old) x }
        ensures bound { bound self.new ≡ bound self.old }
    {
        if count > FREE as usize {
            return Err(AllocError);
        }
        let slot = Slot {
            term,
            base: 0,
            previous: FREE,
        };
        self.items.resize((count + SPARE).min(FREE as usize), slot)?;
        Ok(())
    }

    /// Makes slots for the variables below this number. The term may be any.
    #[inline(always)]
    pub fn reserve(&mut self, count: usize, term: &'p Term) -> Result<(), AllocError>
        ensures room { OnOk result (count ≤ length (trees self.new)) }
        ensures same { (x : ℕ) → slot (trees self.new) x ≡ slot (trees self.old) x }
        ensures bound { bound self.new ≡ bound self.old }
    {
        if count > self.items.len() {
            return self.grow(count, term);
        }
        Ok(())
    }

    /// The term of a variable, where it is bound.
    #[inline(always)]
    pub fn get(&self, variable: usize) -> Option<RaisedTerm<'p>>
        ensures { option_map raised_tree result ≡ slot (trees self.now) variable }
    {
        match self.items.get(variable) {
            Some(slot) => slot.value(),
            None => None,
        }
    }

    /// Binds a free variable to a term.
    #[inline(always)]
    pub fn bind(&mut self, variable: usize, term: RaisedTerm<'p>)
        requires within { variable < length (trees self.old) }
        requires new { is_in variable (bound self.old) ≡ false }
        ensures trees { trees self.new
            ≡ set (trees self.old) variable (Some (raised_tree term.entry)) }
        ensures bound { bound self.new ≡ variable ∷ bound self.old }
    {
        self.items[variable] = Slot {
            term: term.term,
            base: term.base,
            previous: self.last,
        };
        self.last = variable as u32;
        self.count += 1;
    }

    /// Frees the variable that was bound last, and gives it.
    pub fn unbind(&mut self) -> u32
        requires { 0 < length (bound self.old) }
        ensures within { result < length (trees self.old) }
        ensures last { bound self.old ≡ result ∷ bound self.new }
        ensures trees { trees self.new ≡ set (trees self.old) result None }
    {
        let variable = self.last;
        let slot = self.items[variable as usize];
        self.items[variable as usize] = Slot {
            previous: FREE,
            ..slot
        };
        self.last = slot.previous;
        self.count -= 1;
        variable
    }
}
