//! Places in named texts.

use std::fmt;

/// A line and a column of a named text, shown as `NAME:LINE:COLUMN`. Both count from 1, and columns count bytes.
#[derive(Clone, Copy)]
pub struct Place<'a> {
    pub name: &'a str,
    pub line: u64,
    pub column: u64,
}

impl<'a> Place<'a> {
    /// The place of a byte of a named text, or of its end.
    pub fn of(name: &'a str, text: &[u8], at: u32) -> Place<'a> {
        let before = text.get(..at as usize).unwrap_or(text);
        let mut place = Place {
            name,
            line: 1,
            column: 1,
        };
        for byte in before {
            if *byte == b'\n' {
                place.line = place.line.saturating_add(1);
                place.column = 1;
            } else {
                place.column = place.column.saturating_add(1);
            }
        }
        place
    }
}

impl fmt::Display for Place<'_> {
    fn fmt<W: fmt::Write>(&self, f: &mut fmt::Formatter<W>) -> fmt::Result {
        let Place { name, line, column } = *self;
        write!(f, "{name}:{line}:{column}")
    }
}
