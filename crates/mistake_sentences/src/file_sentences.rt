//! Files that are not what they are taken for.

use crate::sentence::Shown;
use crate::shell_word::ShellWord;

/// What a file has that belongs elsewhere, shown as what to do about it.
#[derive(Clone, Copy)]
pub enum FileMistake<'a> {
    Query {
        file: ShellWord<'a>,
        query: ShellWord<'a>,
    },
    Exchanged,
    NoProgram,
    OtherProgram {
        name: &'a str,
        arity: u64,
        other: &'a str,
    },
}

impl<'a> FileMistake<'a> {
    /// The sentence of the mistake, with a `{}` for each thing that `shown` gives.
    pub fn sentence(self) -> &'static str {
        match self {
            Self::Query { .. } => "run it with `cti run {} {}`",
            Self::Exchanged => "the first file is a certificate: the two files may be swapped",
            Self::NoProgram => "the first file is a certificate: name the program there",
            Self::OtherProgram { .. } =>
                "the program's first predicate is `{}/{}`, and the certificate's is `{}`",
        }
    }

    /// What stands in the places of its sentence, in their order.
    pub fn shown(self) -> [Shown<'a>; 3] {
        match self {
            Self::Query { file, query } => [Shown::Word(file), Shown::Word(query), Shown::Nothing],
            Self::Exchanged | Self::NoProgram => [Shown::Nothing; 3],
            Self::OtherProgram { name, arity, other } => {
                [Shown::Text(name), Shown::Count(arity), Shown::Text(other)]
            }
        }
    }
}
