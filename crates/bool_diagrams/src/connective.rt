//! What joins two truth values to one, and its answers that need no node.

ghost use Rattle.std.specs.Prelude.{◌≡◌, ◌<◌, ◌≤◌, IfNone, IfSome, List, ℕ};
ghost use Rattle.bool_diagrams.specs.Joins.{IsDecided, Joins, absorbing, neutral, with_itself};
ghost use Rattle.bool_diagrams.specs.Rows.{IsOf};

/// A connective of two truth values.
#[derive(Clone, Copy, PartialEq, Eq, Hash)]
pub(crate) enum Connective {
    And,
    Or,
    Iff,
}

impl Connective {
    /// The constant that leaves the other operand as it is.
    fn neutral(self) -> u64
        ensures { result ≡ neutral self }
    {
        match self {
            Connective::And | Connective::Iff => 1,
            Connective::Or => 0,
        }
    }

    /// The constant that decides alone, where there is one.
    fn absorbing(self) -> Option<u64>
        ensures { result ≡ absorbing self }
    {
        match self {
            Connective::And => Some(0),
            Connective::Or => Some(1),
            Connective::Iff => None,
        }
    }

    /// What a diagram and itself give.
    pub(crate) fn with_itself(self, a: u64) -> u64
        ensures { result ≡ with_itself self a }
    {
        match self {
            Connective::And | Connective::Or => a,
            Connective::Iff => 1,
        }
    }

    /// The answer where an operand is a constant that decides, or both are the same.
    pub(crate) fn decided(self, a: u64, b: u64) -> Option<u64>
        ensures some { IfSome result (IsDecided self a b) }
        ensures none { IfNone result (a < 2 → 2 ≤ b) }
    {
        let passes = self.neutral();
        if a == passes {
            return Some(b);
        }
        if b == passes {
            return Some(a);
        }
        if a == b {
            return Some(self.with_itself(a));
        }
        let stops = self.absorbing()?;
        if a == stops || b == stops {
            return Some(stops);
        }
        None
    }
}
