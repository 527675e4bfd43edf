//! Integers of a text, before a sign is put to them.

ghost use Rattle.std.specs.Prelude.{◌≡◌, ◌<◌, ◌^◌, pos, neg_ℤ, nat_abs};

use std::marker::Model;

/// A number from 0 to 2^127 - 1. Contracts see the number.
#[derive(Clone, Copy, PartialEq, Eq)]
pub struct Natural {
    value: u128,
}

impl Model for Natural {
    ghost use Rattle.std.specs.Prelude.{ℕ, ◌<◌, ◌^◌};

    ghost Value = { ℕ };

    ghost view = { λ n. n.value };

    ghost invariant = { λ n. n.value < 2 ^ 127 };

    ghost inverse = { λ n. record { value = n } };
}

impl Natural {
    /// The absolute value of an integer.
    pub fn of(value: i128) -> Natural
        requires { nat_abs value < 2 ^ 127 }
        ensures { result ≡ nat_abs value }
    {
        Natural {
            value: value.unsigned_abs(),
        }
    }

    /// The number itself.
    pub fn positive(self) -> i128
        ensures { result ≡ pos self }
    {
        self.value as i128
    }

    /// The number with a minus sign. -0 is 0.
    pub fn negative(self) -> i128
        ensures { result ≡ neg_ℤ (pos self) }
    {
        -(self.value as i128)
    }
}
