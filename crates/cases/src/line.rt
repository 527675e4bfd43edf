//! Lines of the file of cases.

/// A line of the file of cases.
#[derive(Copy, Clone)]
pub(crate) enum Line<'a> {
    /// The name of a file whose text begins.
    File(&'a str),
    /// The names of a file and of the file that it changes, and the number of the line that it changes.
    Change(&'a str),
    /// A word of a command.
    Word(&'a str),
    /// What the lines of the output begin with that count, for the next command.
    Only(&'a str),
    /// The status of a command whose output begins.
    Status(&'a str),
    /// A line of a text, with a newline after it.
    Text(&'a str),
    /// A line of a text, without one.
    Open(&'a str),
    /// A comment.
    Comment,
}

impl<'a> Line<'a> {
    /// What a line is.
    pub(crate) fn of(line: &'a str) -> Line<'a> {
        if let Some(name) = line.strip_prefix(": ") {
            Line::File(name)
        } else if let Some(names) = line.strip_prefix("~ ") {
            Line::Change(names)
        } else if let Some(word) = line.strip_prefix("$ ") {
            Line::Word(word)
        } else if let Some(words) = line.strip_prefix("@ ") {
            Line::Only(words)
        } else if let Some(status) = line.strip_prefix("= ") {
            Line::Status(status)
        } else if let Some(text) = line.strip_prefix("|") {
            Line::Text(text)
        } else if let Some(text) = line.strip_prefix("!") {
            Line::Open(text)
        } else {
            Line::Comment
        }
    }
}
