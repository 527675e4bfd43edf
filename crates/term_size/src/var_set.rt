//! Sets of variables.

ghost use Rattle.std.specs.Prelude.{◌≡◌, ◌↔◌, ◌<◌, ◌⊎◌, ℕ, IsTrue, Contains, []};
ghost use Rattle.term_size.specs.Members.{members};

/// How many variables a set can have: 0 to 63.
pub const SET_VARIABLES: u32 = 64;

/// A set of variables below 64. Contracts speak of the list of its members.
#[derive(Clone, Copy, PartialEq, Eq)]
pub struct VarSet(u64);

impl VarSet {
    /// The set without members.
    pub fn new() -> VarSet
        ensures { members result ≡ [] }
    {
        VarSet(0)
    }

    /// Whether a variable is a member.
    pub fn contains(self, variable: u32) -> bool
        ensures { IsTrue result ↔ Contains (members self) variable }
    {
        variable < SET_VARIABLES && (self.0 >> variable) & 1 == 1
    }

    /// Adds a member. One that is there changes nothing.
    pub fn insert(&mut self, variable: u32)
        requires { variable < SET_VARIABLES }
        ensures { (x : ℕ) → Contains (members self.new) x
            ↔ (Contains (members self.old) x ⊎ (x ≡ variable)) }
    {
        self.0 |= 1 << variable;
    }
}
