//! What is kept of a variable.

ghost use Rattle.std.specs.Prelude.{◌≡◌, option_map};
ghost use Rattle.unifier.specs.Raised.{raised_tree};
ghost use Rattle.unifier.specs.Slots.{slot_tree};

use crate::raised_term::RaisedTerm;
use cti_terms::Term;

/// No variable that is bound has this number, so a slot with it in the place of a variable is that of a free one.
pub const FREE: u32 = u32::MAX;

/// A variable that is free, or one that is bound to a term, as the program spells it, whose variables are raised by a
/// number.
///
/// An enum would take 24 bytes in the place of 16, and there are as many slots as variables.
#[derive(Clone, Copy, Drop)]
pub struct Slot<'p> {
    /// The term of a bound variable, and any term for a free one.
    pub term: &'p Term,
    pub base: u32,
    /// The variable that was bound before this one, and `FREE` for a free one.
    pub previous: u32,
}

impl<'p> Slot<'p> {
    /// The term of the variable, where it is bound.
    #[inline(always)]
    pub fn value(self) -> Option<RaisedTerm<'p>>
        ensures { option_map raised_tree result ≡ slot_tree self.entry }
    {
        if self.previous == FREE {
            return None;
        }
        Some(RaisedTerm {
            term: self.term,
            base: self.base,
        })
    }
}
