//! Files that differ from others in a line.

use std::alloc::{AllocError, Global};

/// What a file is that differs from another in one line: its name, the name of the other, and the number of the line,
/// from 1.
pub(crate) struct Change {
    pub(crate) name: String,
    pub(crate) base: String,
    pub(crate) number: usize,
}

impl Drop for Change {
    fn drop(self) {
        let Change {
            name: _,
            base: _,
            number: _,
        } = self;
    }
}

impl Change {
    /// The names and the number of a line, with spaces between them.
    pub(crate) fn of(alloc: Global, line: &str) -> Result<Change, AllocError> {
        let mut words = line.split(' ');
        let name = words.next().unwrap_or("");
        let base = words.next().unwrap_or("");
        let number = words.next().unwrap_or("");
        Ok(Change {
            name: String::from_str(alloc, name)?,
            base: String::from_str(alloc, base)?,
            number: number.parse::<usize>().unwrap_or(usize::MAX),
        })
    }
}
