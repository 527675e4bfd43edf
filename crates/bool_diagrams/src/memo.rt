//! The answers that a table's operations have found so far, by operation and operands.

ghost use Rattle.std.specs.Prelude.{◌≡◌, ◌⊎◌, ℕ, Contains, IfOk, IfSome, []};
ghost use Rattle.std.specs.Hash as fed;
ghost use Rattle.bool_diagrams.specs.Joins.{operands};
ghost use Rattle.std.specs.Cmp.Rules.{hashing};
ghost use Rattle.std.proofs.Common.{rules};

use crate::connective::Connective;
use lru::LruCache;
use std::alloc::{AllocError, Global};
use std::hash::{Hash, Hasher};
use std::num::NonZeroUsize;

/// An operation with its operands: diagrams by their numbers.
#[derive(Clone, Copy, PartialEq, Eq)]
pub(crate) enum Key {
    /// Two diagrams, joined row by row.
    Join(Connective, u64, u64),
    /// A diagram whose halves, the variable false and true, are joined.
    Quantify(Connective, u64, u32),
}

impl Key {
    /// The operands as one number.
    fn operands(self) -> u128
        ensures { result ≡ operands self }
    {
        let (a, b) = match self {
            Key::Join(_, a, b) => (a, b),
            Key::Quantify(_, a, variable) => (a, variable as u64),
        };
        (a as u128) * (1 << 64) + b as u128
    }
}

// A key is looked for at each step, so it is hashed in one piece: few operations have the same operands.
impl Hash for Key {
    ghost hash_input = { λ key. fed.u128 (operands key) };

    ghost respects_eq = { Prim.search (hashing, rules) };

    fn hash<H: Hasher>(&self, state: &mut H) {
        state.write_u128(self.operands());
    }
}

// How many answers a memo keeps at most.
const ANSWERS: usize = 65_536;

/// Maps each key to the number of the diagram that answers it. Where there are too many answers, it forgets those that
/// were not asked for longest: an answer that is forgotten is found anew.
#[derive(Drop)]
pub(crate) struct Memo {
    answers: LruCache<Key, u64>,
}

impl Memo {
    /// A memo without answers.
    pub(crate) fn new(alloc: Global) -> Result<Memo, AllocError>
        ensures { IfOk result (λ memo. memo.answers.entries ≡ []) }
    {
        let most = NonZeroUsize::new(ANSWERS).unwrap_or(NonZeroUsize::MIN);
        Ok(Memo {
            answers: LruCache::sparse(alloc, most)?,
        })
    }

    /// The answer that was kept for a key, where it is not forgotten.
    pub(crate) fn answer(&mut self, key: Key) -> Option<u64>
        ensures kept { IfSome result (λ number. Contains self.old.answers.entries (key, number)) }
        ensures within { (entry : Key × ℕ) → Contains self.new.answers.entries entry
            → Contains self.old.answers.entries entry }
    {
        self.answers.get(&key).copied()
    }

    /// Keeps an answer. Without memory for it, the memo stays as it was.
    pub(crate) fn keep(&mut self, key: Key, number: u64)
        ensures { (entry : Key × ℕ) → Contains self.new.answers.entries entry
            → Contains self.old.answers.entries entry ⊎ (entry ≡ (key, number)) }
    {
        let _ = self.answers.put(key, number);
    }
}
