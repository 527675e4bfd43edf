//! The numbers of a mode in their order.

use std::fmt;

/// The most arguments of a predicate.
pub const MOST_ARGUMENTS: usize = 12;

/// Numbers from 1 to 12, shown as a list in which they ascend.
#[derive(Clone, Copy)]
pub struct ModeNumbers {
    /// Whether a number is there, by the number.
    has: [bool; 13],
}

impl ModeNumbers {
    /// No numbers.
    pub fn none() -> ModeNumbers {
        ModeNumbers { has: [false; 13] }
    }

    /// Adds a number, and answers whether it is one from 1 to 12.
    pub fn add(&mut self, number: usize) -> bool {
        if number == 0 || number > MOST_ARGUMENTS {
            return false;
        }
        self.has[number] = true;
        true
    }
}

impl fmt::Display for ModeNumbers {
    fn fmt<W: fmt::Write>(&self, f: &mut fmt::Formatter<W>) -> fmt::Result {
        let mut before = "";
        f.write_str("[")?;
        for number in 0..self.has.len() {
            if self.has[number] {
                write!(f, "{before}{number}")?;
                before = ",";
            }
        }
        f.write_str("]")
    }
}
