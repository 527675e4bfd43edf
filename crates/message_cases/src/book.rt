//! The cases that are read so far.

use crate::answering::answer;
use crate::call::Call;
use crate::line::Line;
use crate::question::Question;
use std::alloc::{AllocError, Global};

/// What the text that is being read is for.
#[derive(Copy, Clone)]
enum Purpose {
    Nothing,
    Text,
    Output,
    Answer,
}

/// The call of the next case, the text that is being read, and what was found.
pub(crate) struct Book {
    call: Call,
    purpose: Purpose,
    /// The name of a text, a status, or what is asked for.
    head: String,
    text: Vec<u8>,
    /// The number of the line that was read last, and of that of the head.
    line: u64,
    head_line: u64,
    count: u64,
    /// What differs, in lines.
    differences: String,
}

impl Drop for Book {
    fn drop(self) {
        let Book {
            call: _,
            purpose: _,
            head: _,
            text: _,
            line: _,
            head_line: _,
            count: _,
            differences: _,
        } = self;
    }
}

impl Book {
    /// A book without cases.
    pub(crate) fn new(alloc: Global) -> Book {
        Book {
            call: Call::new(alloc),
            purpose: Purpose::Nothing,
            head: String::new(alloc),
            text: Vec::new(alloc),
            line: 0,
            head_line: 0,
            count: 0,
            differences: String::new(alloc),
        }
    }

    /// Takes the next line.
    pub(crate) fn take(&mut self, alloc: Global, line: Line<'_>) -> Result<(), AllocError> {
        self.line = self.line.saturating_add(1);
        match line {
            Line::Text(name) => self.begin(alloc, Purpose::Text, name),
            Line::Status(status) => self.begin(alloc, Purpose::Output, status),
            Line::Question(question) => self.begin(alloc, Purpose::Answer, question),
            Line::Word(word) => {
                self.settle(alloc)?;
                self.call.add_word(alloc, word)
            }
            Line::Full(text) => {
                self.text.extend_from_slice(text.as_bytes())?;
                self.text.push(b'\n')?;
                Ok(())
            }
            Line::Open(text) => self.text.extend_from_slice(text.as_bytes()),
            Line::Bytes(numbers) => add_bytes(&mut self.text, numbers),
            Line::Comment => Ok(()),
        }
    }

    /// Begins a text.
    fn begin(&mut self, alloc: Global, purpose: Purpose, head: &str) -> Result<(), AllocError> {
        self.settle(alloc)?;
        self.head = String::from_str(alloc, head)?;
        self.head_line = self.line;
        self.purpose = purpose;
        Ok(())
    }

    /// Does what the text is for that was read last.
    pub(crate) fn settle(&mut self, alloc: Global) -> Result<(), AllocError> {
        match self.purpose {
            Purpose::Nothing => {}
            Purpose::Text => self.call.keep(alloc, &self.head, &self.text)?,
            Purpose::Output => self.call.end(alloc, &self.head, &self.text)?,
            Purpose::Answer => self.compare(alloc)?,
        }
        self.purpose = Purpose::Nothing;
        self.text.clear();
        Ok(())
    }

    /// Asks for what the head asks for, notes a difference, and ends the case.
    fn compare(&mut self, alloc: Global) -> Result<(), AllocError> {
        self.count = self.count.saturating_add(1);
        match Question::of(&self.head) {
            Some(question) => {
                let said = answer(alloc, &self.call, question)?;
                if said != self.text {
                    self.note(alloc, &said)?;
                }
            }
            None => self.note(alloc, b"(no such question)")?,
        }
        self.call = Call::new(alloc);
        Ok(())
    }

    /// Notes an answer that differs, with the number and the text of the line that asks for it.
    fn note(&mut self, alloc: Global, said: &[u8]) -> Result<(), AllocError> {
        let head = format!(in alloc; "line {}: ? {}\n", self.head_line, self.head)?;
        self.differences.push_str(&head)?;
        let said = std::str::from_utf8(said).unwrap_or("(no UTF-8)");
        for line in said.lines() {
            self.differences.push('|')?;
            self.differences.push_str(line)?;
            self.differences.push('\n')?;
        }
        Ok(())
    }

    /// What differs, and how many cases there are.
    pub(crate) fn report(&self, alloc: Global) -> Result<String, AllocError> {
        let last = if self.differences.is_empty() {
            "as written"
        } else {
            "not all as written"
        };
        format!(in alloc; "{}{} cases, {last}", self.differences, self.count)
    }
}

/// Adds the bytes of these numbers, with spaces between them; what is no such number counts as 0.
fn add_bytes(text: &mut Vec<u8>, numbers: &str) -> Result<(), AllocError> {
    for number in numbers.split(' ') {
        text.push(number.parse::<u8>().unwrap_or(0))?;
    }
    Ok(())
}
