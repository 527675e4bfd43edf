//! What a value has above 0 and below, in numbers of at most 128 bits.

ghost use Rattle.std.specs.Prelude.{◌≡◌, ℕ};
ghost use Rattle.termination_model.specs.columns.Measures.{minus_parts, no_parts, of_integer, product_parts, sum_parts};
ghost use Rattle.number_columns.specs.Cells.{IsCapped};

/// What a value has above 0, and below. The greatest number of 128 bits stands for all from it on.
#[derive(Clone, Copy)]
pub(crate) struct Parts {
    pub(crate) above: u128,
    pub(crate) below: u128,
}

impl Parts {
    /// The parts of 0.
    pub(crate) fn none() -> Parts
        ensures { IsCapped no_parts result }
    {
        Parts { above: 0, below: 0 }
    }

    /// The parts of an integer.
    pub(crate) fn of_integer(number: i128) -> Parts
        ensures { IsCapped (of_integer number) result }
    {
        let size = number.unsigned_abs();
        if number < 0 {
            Parts {
                above: 0,
                below: size,
            }
        } else {
            Parts {
                above: size,
                below: 0,
            }
        }
    }

    /// The parts of the negated value.
    pub(crate) fn negated(self) -> Parts
        ensures { (p : ℕ × ℕ) → IsCapped p self → IsCapped (minus_parts p) result }
    {
        Parts {
            above: self.below,
            below: self.above,
        }
    }

    /// The parts of a sum.
    #[tactic(auto, using(crate::proofs::CapLaws::capped_sum))]
    pub(crate) fn plus(self, other: Parts) -> Parts
        ensures { (p q : ℕ × ℕ) → IsCapped p self → IsCapped q other
            → IsCapped (sum_parts p q) result }
    {
        Parts {
            above: self.above.saturating_add(other.above),
            below: self.below.saturating_add(other.below),
        }
    }

    /// The parts of a product.
    #[tactic(auto, using(crate::proofs::CapLaws::capped_sum_of_products))]
    pub(crate) fn times(self, other: Parts) -> Parts
        ensures { (p q : ℕ × ℕ) → IsCapped p self → IsCapped q other
            → IsCapped (product_parts p q) result }
    {
        let both = self.above.saturating_mul(other.above);
        let neither = self.below.saturating_mul(other.below);
        let first = self.above.saturating_mul(other.below);
        let second = self.below.saturating_mul(other.above);
        Parts {
            above: both.saturating_add(neither),
            below: first.saturating_add(second),
        }
    }
}
