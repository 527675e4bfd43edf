//! How a call of the command ended.

use crate::status::{MEMORY, NO, OUT_FAULT, OVERFLOW, REFUSED, STOPPED, USAGE};
use crate::texts::Texts;
use crate::told::Subject;
use crate::trouble::Trouble;
use word_faults::{WordFault, Words};

/// How a call of the command ended.
#[derive(Clone, Copy)]
pub struct Ending<'a> {
    /// The exit status.
    pub status: u8,
    /// The words after the program's name, if all of them are UTF-8.
    pub words: Option<&'a [&'a str]>,
    /// The beginning of what was written on standard output.
    pub output: &'a [u8],
    /// How many bytes were written there.
    pub written: u64,
    /// The text of the program, or of the edits. It is empty where it was not loaded, or not kept.
    pub program: &'a [u8],
    /// The text of the certificate, in the same way.
    pub certificate: &'a [u8],
}

impl<'a> Ending<'a> {
    /// The words, sorted by what they are.
    pub fn told_words(self) -> Words<'a> {
        Words::of(self.words.unwrap_or(&[]))
    }

    /// What the call has to say, as far as no file has to be looked at for it.
    pub fn trouble(self) -> Option<Trouble<'a>> {
        let words = self.told_words();
        if words.looks_for_loop()
            && let Some(trouble) = loop_trouble(self.status)
        {
            return Some(trouble);
        }
        let output = std::str::from_utf8(self.output).unwrap_or("");
        match self.status {
            NO => Trouble::not_valid(words, output),
            USAGE if self.words.is_none() => Some(Trouble::Words(WordFault::NotText)),
            USAGE => Some(usage_trouble(words)),
            REFUSED => Trouble::refused(words, output),
            OUT_FAULT => Some(Trouble::Output(self.written)),
            MEMORY => Some(Trouble::Memory),
            OVERFLOW => Some(Trouble::Overflow),
            _ => None,
        }
    }

    /// The texts that a message about a trouble is made from: the one that has its place, and the program's.
    pub fn texts(self, trouble: Trouble<'a>) -> Texts<'a> {
        let told = match trouble {
            Trouble::Refused(Subject::Query, ..) => self.told_words().second().as_bytes(),
            Trouble::Refused(Subject::Certificate, ..) | Trouble::NotValid(..) => self.certificate,
            _ => self.program,
        };
        Texts {
            told,
            program: self.program,
        }
    }
}

/// What `loop` has to say where no loop was found.
fn loop_trouble<'a>(status: u8) -> Option<Trouble<'a>> {
    match status {
        NO => Some(Trouble::NoLoop),
        MEMORY => Some(Trouble::LoopMemory),
        STOPPED => Some(Trouble::ManyDerivations),
        _ => None,
    }
}

/// What words that are not a command have to say.
fn usage_trouble(words: Words<'_>) -> Trouble<'_> {
    match words.asked() {
        Some(asked) => Trouble::Asked(asked),
        None => Trouble::Words(words.fault()),
    }
}
