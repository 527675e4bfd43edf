//! The call that a case is about.

use messages::Ending;
use std::alloc::{AllocError, Global};
use std::collections::BTreeMap;
use word_faults::Words;

/// The words of a call, the texts that it is about, its status, and what it wrote.
pub(crate) struct Call {
    words: Vec<String>,
    texts: BTreeMap<String, Vec<u8>>,
    status: u8,
    output: Vec<u8>,
}

impl Drop for Call {
    fn drop(self) {
        let Call {
            words: _,
            texts: _,
            status: _,
            output: _,
        } = self;
    }
}

impl Call {
    /// A call without words, texts or output.
    pub(crate) fn new(alloc: Global) -> Call {
        Call {
            words: Vec::new(alloc),
            texts: BTreeMap::new(alloc),
            status: 0,
            output: Vec::new(alloc),
        }
    }

    /// Adds a word.
    pub(crate) fn add_word(&mut self, alloc: Global, word: &str) -> Result<(), AllocError> {
        self.words.push(String::from_str(alloc, word)?)?;
        Ok(())
    }

    /// Keeps a text under its name.
    pub(crate) fn keep(
        &mut self,
        alloc: Global,
        name: &str,
        text: &[u8],
    ) -> Result<(), AllocError> {
        let text = Vec::from_slice(alloc, text)?;
        self.texts.insert(String::from_str(alloc, name)?, text)?;
        Ok(())
    }

    /// Ends it with a status, after it wrote this.
    pub(crate) fn end(
        &mut self,
        alloc: Global,
        status: &str,
        output: &[u8],
    ) -> Result<(), AllocError> {
        self.status = status.parse::<u8>().unwrap_or(0);
        self.output = Vec::from_slice(alloc, output)?;
        Ok(())
    }

    /// The text of a name; it is empty where there is none.
    pub(crate) fn text(&self, name: &str) -> &[u8] {
        match self.texts.get(name) {
            Some(text) => text,
            None => b"",
        }
    }

    /// What it wrote.
    pub(crate) fn output(&self) -> &str {
        std::str::from_utf8(&self.output).unwrap_or("")
    }

    /// The words of the call, lent.
    pub(crate) fn words(&self, alloc: Global) -> Result<Vec<&str>, AllocError> {
        let mut words = Vec::new(alloc);
        for word in &self.words {
            words.push(word.as_str())?;
        }
        Ok(words)
    }

    /// How it ended, with its words.
    pub(crate) fn ending<'a>(&'a self, words: &'a [&'a str]) -> Ending<'a> {
        let told = Words::of(words);
        Ending {
            status: self.status,
            words: Some(words),
            output: &self.output,
            written: self.output.len() as u64,
            program: self.text(told.file()),
            certificate: self.text(told.second()),
        }
    }
}
