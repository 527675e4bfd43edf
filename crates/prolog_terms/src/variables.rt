//! The variables of a clause.

ghost use Rattle.std.specs.Prelude.{◌≡◌, ◌<◌, ◌^◌, ◌-◌, IfOk, OnOk};
ghost use Rattle.prolog_terms.specs.Symbols.{is_anonymous, none_seen, variable_number, with_variable};
ghost use Rattle.prolog_terms.specs.Numbering.{seen_of, AreNumbered};

use cti_terms::Names;
use std::alloc::{AllocError, Global};

/// The variables of the clause that is under way: the names of those that have one, the number of each of these, and
/// how many variables there are with each `_`.
pub struct Variables {
    names: Names,
    numbers: Vec<u32>,
    count: u32,
}

impl Drop for Variables {
    fn drop(self) {
        let Variables {
            names: _,
            numbers: _,
            count: _,
        } = self;
    }
}

/// Whether a variable is `_`.
fn is_anonymous(name: &[u8]) -> bool
    ensures { result ≡ is_anonymous name.now }
{
    name == b"_".as_slice()
}

impl Variables {
    /// No variables. It takes no memory.
    pub fn new(alloc: Global) -> Variables
        ensures none { seen_of result ≡ none_seen }
        ensures numbered { AreNumbered result }
    {
        Variables {
            names: Names::new(alloc),
            numbers: Vec::new(alloc),
            count: 0,
        }
    }

    /// How many variables there are.
    pub fn count(&self) -> u32
        ensures { result ≡ (seen_of self.now).count }
    {
        self.count
    }

    /// The number of a variable: its own where it was there, or the next. The variable `_` is another one each time.
    /// After an error nothing is said of the variables.
    pub fn number(&mut self, name: &[u8]) -> Result<u32, AllocError>
        requires numbered { AreNumbered self.old }
        requires few { (seen_of self.old).count < 2 ^ 32 - 1 }
        ensures number { IfOk result (λ n. n ≡ variable_number (seen_of self.old) name.now) }
        ensures within { IfOk result (λ n. n < (seen_of self.new).count) }
        ensures added { OnOk result (seen_of self.new ≡ with_variable (seen_of self.old) name.now) }
        ensures numbered { OnOk result (AreNumbered self.new) }
    {
        let next = self.count;
        if is_anonymous(name) {
            self.count += 1;
            return Ok(next);
        }
        let place = self.names.intern(name)?;
        let at = place.0 as usize;
        if at < self.numbers.len() {
            return Ok(self.numbers[at]);
        }
        self.numbers.push(next)?;
        self.count += 1;
        Ok(next)
    }
}
