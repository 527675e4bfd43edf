//! Arguments before their variables are numbered.

use prolog_reader::ReadTerm;

/// Arguments: terms of the text, or variables.
pub enum Args<'a> {
    /// Terms of the text.
    Terms(&'a [ReadTerm]),
    /// Variables, each an argument.
    Variables(Vec<u32>),
}

impl Drop for Args<'_> {
    fn drop(self) {
        match self {
            Args::Terms(_) => {}
            Args::Variables(_) => {}
        }
    }
}
