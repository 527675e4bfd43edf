//! Sentences that show something of a text.

use crate::mode_numbers::ModeNumbers;
use crate::shell_word::ShellWord;
use std::fmt::{self, Display};

/// What a sentence shows at a place of it.
#[derive(Clone, Copy)]
pub enum Shown<'a> {
    Nothing,
    Text(&'a str),
    Word(ShellWord<'a>),
    Sign(char),
    Count(u64),
    Mode(ModeNumbers),
}

impl fmt::Display for Shown<'_> {
    fn fmt<W: fmt::Write>(&self, f: &mut fmt::Formatter<W>) -> fmt::Result {
        match self {
            Self::Nothing => Ok(()),
            Self::Text(text) => f.write_str(text),
            Self::Word(word) => word.fmt(f),
            Self::Sign(sign) => sign.fmt(f),
            Self::Count(count) => count.fmt(f),
            Self::Mode(numbers) => numbers.fmt(f),
        }
    }
}

/// A sentence, whose text has a `{}` where each of the things stands that it shows, in their order.
#[derive(Clone, Copy)]
pub struct Sentence<'a> {
    pub text: &'static str,
    pub shown: [Shown<'a>; 3],
}

impl fmt::Display for Sentence<'_> {
    fn fmt<W: fmt::Write>(&self, f: &mut fmt::Formatter<W>) -> fmt::Result {
        let mut shown = self.shown.iter();
        for part in self.text.split("{}") {
            f.write_str(part)?;
            if let Some(shown) = shown.next() {
                shown.fmt(f)?;
            }
        }
        Ok(())
    }
}
