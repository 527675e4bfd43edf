//! The cases that are read so far.

use crate::change::Change;
use crate::line::Line;
use cti_top::{MemFiles, MemSink, Status, command};
use std::alloc::{AllocError, Global};
use std::collections::BTreeMap;

/// What the text that is being read is for.
#[derive(Copy, Clone)]
enum Purpose {
    Nothing,
    File,
    Change,
    Output,
}

/// The files, the words of the next command, the text that is being read, and what was found.
pub(crate) struct Book {
    store: MemFiles,
    words: Vec<String>,
    purpose: Purpose,
    /// What the lines begin with that count, or nothing where all do.
    only: String,
    /// The name of a file, the names of a change, or a status.
    head: String,
    text: Vec<u8>,
    count: u64,
    /// What differs, in lines.
    differences: String,
}

impl Drop for Book {
    fn drop(self) {
        let Book {
            store: _,
            words: _,
            purpose: _,
            only: _,
            head: _,
            text: _,
            count: _,
            differences: _,
        } = self;
    }
}

impl Book {
    /// A book without files, words or cases.
    pub(crate) fn new(alloc: Global) -> Book {
        Book {
            store: MemFiles {
                files: BTreeMap::new(alloc),
                fails: Vec::new(alloc),
                calls: 0,
                faults: 0,
            },
            words: Vec::new(alloc),
            purpose: Purpose::Nothing,
            only: String::new(alloc),
            head: String::new(alloc),
            text: Vec::new(alloc),
            count: 0,
            differences: String::new(alloc),
        }
    }

    /// Takes the next line.
    pub(crate) fn take(&mut self, alloc: Global, line: Line<'_>) -> Result<(), AllocError> {
        match line {
            Line::File(name) => self.begin(alloc, Purpose::File, name),
            Line::Change(names) => self.begin(alloc, Purpose::Change, names),
            Line::Status(status) => self.begin(alloc, Purpose::Output, status),
            Line::Word(word) => {
                self.settle(alloc)?;
                self.words.push(String::from_str(alloc, word)?)?;
                Ok(())
            }
            Line::Only(words) => {
                self.settle(alloc)?;
                self.only = String::from_str(alloc, words)?;
                Ok(())
            }
            Line::Text(text) => {
                self.text.extend_from_slice(text.as_bytes())?;
                self.text.push(b'\n')?;
                Ok(())
            }
            Line::Open(text) => {
                self.text.extend_from_slice(text.as_bytes())?;
                Ok(())
            }
            Line::Comment => Ok(()),
        }
    }

    /// Begins a text.
    fn begin(&mut self, alloc: Global, purpose: Purpose, head: &str) -> Result<(), AllocError> {
        self.settle(alloc)?;
        self.head = String::from_str(alloc, head)?;
        self.purpose = purpose;
        Ok(())
    }

    /// Does what the text is for that was read last.
    pub(crate) fn settle(&mut self, alloc: Global) -> Result<(), AllocError> {
        match self.purpose {
            Purpose::Nothing => {}
            Purpose::File => self.keep_file(alloc)?,
            Purpose::Change => self.keep_change(alloc)?,
            Purpose::Output => self.compare(alloc)?,
        }
        self.purpose = Purpose::Nothing;
        self.text.clear();
        Ok(())
    }

    /// Keeps the text as the file of the head.
    fn keep_file(&mut self, alloc: Global) -> Result<(), AllocError> {
        let text = Vec::from_slice(alloc, &self.text)?;
        self.store
            .files
            .insert(String::from_str(alloc, &self.head)?, text)?;
        Ok(())
    }

    /// Keeps a file with the text in the place of one of its lines.
    fn keep_change(&mut self, alloc: Global) -> Result<(), AllocError> {
        let change = Change::of(alloc, &self.head)?;
        let whole = self.changed(alloc, change.base.as_str(), change.number)?;
        self.store
            .files
            .insert(String::from_str(alloc, &change.name)?, whole)?;
        Ok(())
    }

    /// A file with the text in the place of the line of a number; nothing, where there is no such file.
    fn changed(&self, alloc: Global, base: &str, number: usize) -> Result<Vec<u8>, AllocError> {
        let mut whole = Vec::new(alloc);
        if let Some(base) = self.store.files.get(base) {
            add_changed(&mut whole, base, number, &self.text)?;
        }
        Ok(whole)
    }

    /// Runs the command, and notes a difference.
    fn compare(&mut self, alloc: Global) -> Result<(), AllocError> {
        let (status, taken) = self.answer(alloc)?;
        let taken = lines_that_begin(alloc, &taken, self.only.as_bytes())?;
        let status = format!(in alloc; "{}", status.number())?;
        self.count = self.count.saturating_add(1);
        if status != self.head || taken != self.text {
            self.note(&status, &taken)?;
        }
        self.words.clear();
        self.only.clear();
        Ok(())
    }

    /// What the command answers and writes.
    fn answer(&mut self, alloc: Global) -> Result<(Status, Vec<u8>), AllocError> {
        let mut words = Vec::new(alloc);
        for word in &self.words {
            words.push(word.as_str())?;
        }
        let mut sink = MemSink {
            taken: Vec::new(alloc),
            chunk: 4096,
            fails: Vec::new(alloc),
            calls: 0,
            faults: 0,
            refused: 0,
        };
        let status = command(alloc, &words, &mut self.store, &mut sink);
        Ok((status, sink.taken))
    }

    /// Notes what a command answered.
    fn note(&mut self, status: &str, taken: &[u8]) -> Result<(), AllocError> {
        for word in &self.words {
            self.differences.push_str("$ ")?;
            self.differences.push_str(word)?;
            self.differences.push('\n')?;
        }
        self.differences.push_str("= ")?;
        self.differences.push_str(status)?;
        self.differences.push('\n')?;
        self.differences
            .push_str(std::str::from_utf8(taken).unwrap_or("(no UTF-8)"))?;
        self.differences.push('\n')
    }

    /// What differs, and how many cases there are.
    pub(crate) fn report(&self, alloc: Global) -> Result<String, AllocError> {
        let last = if self.differences.is_empty() {
            "as written"
        } else {
            "not all as written"
        };
        format!(in alloc; "{}{} cases, {last}", self.differences, self.count)
    }
}

/// The lines of a text that begin with these bytes.
fn lines_that_begin(alloc: Global, text: &[u8], begin: &[u8]) -> Result<Vec<u8>, AllocError> {
    let mut lines = Vec::new(alloc);
    for line in text.split_inclusive(|byte| *byte == b'\n') {
        if line.starts_with(begin) {
            lines.extend_from_slice(line)?;
        }
    }
    Ok(lines)
}

/// Adds the lines of a text, with another text in the place of the line of a number, from 1.
fn add_changed(
    whole: &mut Vec<u8>,
    base: &[u8],
    number: usize,
    text: &[u8],
) -> Result<(), AllocError> {
    for (place, line) in base.split_inclusive(|byte| *byte == b'\n').enumerate() {
        if place.checked_add(1) == Some(number) {
            whole.extend_from_slice(text)?;
        } else {
            whole.extend_from_slice(line)?;
        }
    }
    Ok(())
}
