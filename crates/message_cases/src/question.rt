//! What a case asks for.

use messages::FileCause;
use std::io::ErrorKind;

/// What a case asks for.
#[derive(Copy, Clone)]
pub(crate) enum Question {
    /// The message about the call.
    Message,
    /// All that is said about the call.
    All,
    /// The first line of the message.
    FirstLine,
    /// The last line of the message.
    LastLine,
    /// The words that name what the call is about.
    Words,
    /// The sentence and the advice of a kind of refusal.
    Refusal(u64),
    /// The sentence and the advice of a reason of a No.
    Reason(u64),
    /// The message about a file that was not loaded.
    Cause(FileCause),
    /// The warnings about the program.
    Warnings,
    /// The warnings about the query.
    QueryWarnings,
    /// The notes about the program by its certificate.
    Notes,
    /// The note about a certificate that is not valid.
    CheckNote,
    /// The note about the norm of a certificate.
    NormNote,
}

impl Question {
    /// The question of these words.
    pub(crate) fn of(words: &str) -> Option<Question> {
        match words {
            "message" => Some(Question::Message),
            "all" => Some(Question::All),
            "first line" => Some(Question::FirstLine),
            "last line" => Some(Question::LastLine),
            "words" => Some(Question::Words),
            "warnings" => Some(Question::Warnings),
            "query warnings" => Some(Question::QueryWarnings),
            "notes" => Some(Question::Notes),
            "check note" => Some(Question::CheckNote),
            "norm note" => Some(Question::NormNote),
            _ => Question::about(words),
        }
    }

    /// The question of a word and what it is about.
    fn about(words: &str) -> Option<Question> {
        let (word, what) = words.split_once(' ')?;
        match word {
            "refusal" => Some(Question::Refusal(what.parse::<u64>().ok()?)),
            "reason" => Some(Question::Reason(what.parse::<u64>().ok()?)),
            "cause" => Some(Question::Cause(cause_named(what)?)),
            _ => None,
        }
    }
}

/// The cause of a name; but for one, these are the causes of kinds of errors.
fn cause_named(name: &str) -> Option<FileCause> {
    match name {
        "missing" => Some(FileCause::of(ErrorKind::NotFound)),
        "denied" => Some(FileCause::of(ErrorKind::PermissionDenied)),
        "directory" => Some(FileCause::of(ErrorKind::IsADirectory)),
        "other" => Some(FileCause::of(ErrorKind::Other)),
        "exchanged" => Some(FileCause::Exchanged),
        _ => None,
    }
}
