//! Words as a shell takes them.

use std::fmt;

/// A word of a command line, shown so that a POSIX shell takes it as it is: in single quotes where it has other than
/// plain characters.
#[derive(Clone, Copy, Debug, PartialEq, Eq)]
pub struct ShellWord<'a> {
    text: &'a str,
    /// Whether it names a file whose name begins with `-`.
    is_dashed_file: bool,
}

/// Whether a byte means nothing to a shell.
fn is_plain(byte: u8) -> bool {
    byte.is_ascii_alphanumeric() || b"_-./,:=+@%".contains(&byte)
}

impl<'a> ShellWord<'a> {
    /// The word of this text.
    pub fn new(text: &'a str) -> ShellWord<'a> {
        ShellWord {
            text,
            is_dashed_file: false,
        }
    }

    /// The word that names a file. A name that begins with `-` would be taken as an option, so its directory is named.
    pub fn file(name: &'a str) -> ShellWord<'a> {
        ShellWord {
            text: name,
            is_dashed_file: name.starts_with('-'),
        }
    }

    /// Whether the text needs no quotes.
    fn is_plain(self) -> bool {
        !self.text.is_empty() && self.text.bytes().all(is_plain)
    }
}

impl fmt::Display for ShellWord<'_> {
    fn fmt<W: fmt::Write>(&self, f: &mut fmt::Formatter<W>) -> fmt::Result {
        if self.is_dashed_file {
            f.write_str("./")?;
        }
        if self.is_plain() {
            return f.write_str(self.text);
        }
        let mut is_first = true;
        f.write_str("'")?;
        for part in self.text.split('\'') {
            // A quote stands between the parts.
            if !is_first {
                f.write_str("'\\''")?;
            }
            f.write_str(part)?;
            is_first = false;
        }
        f.write_str("'")
    }
}
