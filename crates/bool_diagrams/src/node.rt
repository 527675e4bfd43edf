//! A node of a table.

ghost use Rattle.std.specs.Prelude.{◌≡◌};
ghost use Rattle.std.specs.Hash as fed;
ghost use Rattle.std.specs.Cmp.Rules.{hashing};
ghost use Rattle.std.proofs.Common.{rules};
ghost use Rattle.bool_diagrams.specs.Nodes.{mixed};

use std::hash::{Hash, Hasher};

/// Asks a variable, and goes on at one of two older diagrams, each by its number.
#[derive(Clone, Copy, PartialEq, Eq)]
pub(crate) struct Node {
    pub(crate) variable: u32,
    pub(crate) low: u64,
    pub(crate) high: u64,
}

impl Node {
    /// The node as one number.
    fn mixed(self) -> u128
        ensures { result ≡ mixed self }
    {
        let branches = (self.low as u128) * (1 << 64) + self.high as u128;
        branches.wrapping_add((self.variable as u128) * (1 << 88))
    }
}

// A node is looked for at each step, so it is hashed in one piece.
impl Hash for Node {
    ghost hash_input = { λ node. fed.u128 (mixed node) };

    ghost respects_eq = { Prim.search (hashing, rules) };

    fn hash<H: Hasher>(&self, state: &mut H) {
        state.write_u128(self.mixed());
    }
}
