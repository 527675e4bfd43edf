//! Why a file was not loaded.

use std::io::ErrorKind;

/// Why a file was not loaded.
#[derive(Clone, Copy)]
pub enum FileCause {
    Missing,
    /// The file is missing, and the word for a query is a file's name.
    Exchanged,
    Denied,
    Directory,
    Failed,
}

impl FileCause {
    /// The cause that a kind of error is.
    pub fn of(kind: ErrorKind) -> FileCause {
        match kind {
            ErrorKind::NotFound => FileCause::Missing,
            ErrorKind::PermissionDenied => FileCause::Denied,
            ErrorKind::IsADirectory => FileCause::Directory,
            _ => FileCause::Failed,
        }
    }

    /// What it is shown as.
    pub(crate) fn sentence(self) -> &'static str {
        match self {
            FileCause::Missing | FileCause::Exchanged => "there is no such file",
            FileCause::Denied => "permission denied",
            FileCause::Directory => "this is a directory",
            FileCause::Failed => "the file could not be read",
        }
    }

    /// What to do about it.
    pub fn advice(self) -> &'static str {
        match self {
            FileCause::Missing =>
                "check the spelling of the name, and the directory that you are in",
            FileCause::Exchanged => "the file comes before the query: the two may be swapped",
            FileCause::Denied => "ask for permission to read it",
            FileCause::Directory => "name a file in it",
            FileCause::Failed => "try again, and check that the disk works",
        }
    }
}
