//! Where variables occur in a list.

ghost use Rattle.std.specs.Prelude.{◌≡◌, ◌<◌, ◌||◌, length, nat_lt, slice_index, IfOk};
ghost use Rattle.std.specs.List.{AllByRecursion};
ghost use Rattle.clause_variables.specs.Occurring.{AreEnds, AreFirsts, AreNoted, HasSize};

use std::alloc::{AllocError, Global};

/// Where each variable of a list occurs first, and the place after its last occurrence.
pub struct Occurrences {
    /// Where each one occurs first.
    pub firsts: Vec<usize>,
    /// The place after the last occurrence of each one.
    pub ends: Vec<usize>,
}

impl Drop for Occurrences {
    fn drop(self) {
        let Occurrences { firsts: _, ends: _ } = self;
    }
}

impl Occurrences {
    /// Room for the given number of variables.
    pub fn new(alloc: Global, vars: u32) -> Result<Occurrences, AllocError>
        ensures { IfOk result (HasSize vars) }
    {
        Ok(Occurrences {
            firsts: vec![in alloc; 0; vars as usize]?,
            ends: vec![in alloc; 0; vars as usize]?,
        })
    }

    /// Notes where these variables occur first.
    fn note_firsts(&mut self, variables: &[u32])
        requires { AllByRecursion (λ x. x < length self.old.firsts.items) variables.now }
        ensures firsts { AreFirsts variables.now 0 self.new.firsts.items }
        ensures size { length self.new.firsts.items ≡ length self.old.firsts.items }
        ensures ends { self.new.ends ≡ self.old.ends }
    {
        let mut place = variables.len();
        'places: while place > 0 {
            place -= 1;
            self.firsts[variables[place] as usize] = place;
        }
    }

    /// Notes where these variables do not occur any more.
    fn note_ends(&mut self, variables: &[u32])
        requires { AllByRecursion (λ x. x < length self.old.ends.items) variables.now }
        ensures ends { AreEnds variables.now (length variables.now) self.new.ends.items }
        ensures size { length self.new.ends.items ≡ length self.old.ends.items }
        ensures firsts { self.new.firsts ≡ self.old.firsts }
    {
        let mut place = 0;
        'places: while place < variables.len() {
            let x = variables[place];
            place += 1;
            self.ends[x as usize] = place;
        }
    }

    /// Notes where these variables occur.
    pub fn note(&mut self, variables: &[u32])
        requires size { HasSize (length self.old.firsts.items) self.old }
        requires below { AllByRecursion (λ x. x < length self.old.firsts.items) variables.now }
        ensures size { HasSize (length self.old.firsts.items) self.new }
        ensures noted { AreNoted variables.now self.new }
    {
        self.note_firsts(variables);
        self.note_ends(variables);
    }

    /// Whether a variable occurs before a place, or from another place on.
    pub fn is_outside(&self, x: u32, start: usize, end: usize) -> bool
        requires firsts { x < length self.now.firsts.items }
        requires ends { x < length self.now.ends.items }
        ensures { result ≡ (nat_lt (slice_index self.now.firsts.items x) start
            || nat_lt end (slice_index self.now.ends.items x)) }
    {
        self.firsts[x as usize] < start || end < self.ends[x as usize]
    }
}
