//! Lines of the file of cases.

/// A line of the file of cases.
#[derive(Copy, Clone)]
pub(crate) enum Line<'a> {
    /// The name of a text that begins.
    Text(&'a str),
    /// A word of a call.
    Word(&'a str),
    /// The status of a call whose output begins.
    Status(&'a str),
    /// What is asked for; the answer that is wanted begins.
    Question(&'a str),
    /// A line of what began, with a newline after it.
    Full(&'a str),
    /// A line of what began, without one.
    Open(&'a str),
    /// The numbers of bytes of what began.
    Bytes(&'a str),
    /// A comment.
    Comment,
}

impl<'a> Line<'a> {
    /// What a line is.
    pub(crate) fn of(line: &'a str) -> Line<'a> {
        if let Some(name) = line.strip_prefix(": ") {
            Line::Text(name)
        } else if line == "$" {
            Line::Word("")
        } else if let Some(word) = line.strip_prefix("$ ") {
            Line::Word(word)
        } else if let Some(status) = line.strip_prefix("= ") {
            Line::Status(status)
        } else if let Some(question) = line.strip_prefix("? ") {
            Line::Question(question)
        } else if let Some(text) = line.strip_prefix("|") {
            Line::Full(text)
        } else if let Some(text) = line.strip_prefix("!") {
            Line::Open(text)
        } else if let Some(numbers) = line.strip_prefix("+ ") {
            Line::Bytes(numbers)
        } else {
            Line::Comment
        }
    }
}
