//! Faults of the words of a command line.

use crate::command::Command;
use crate::command_option::CommandOption;
use mistake_sentences::{ShellWord, Shown};

/// Why the words are not a command.
#[derive(Clone, Copy)]
pub enum WordFault<'a> {
    NotText,
    NoCommand,
    UnknownCommand(&'a str),
    FileFirst(ShellWord<'a>),
    UnknownOption(&'a str),
    Missing(Command, &'static str),
    /// The command, and the query that stands in the place of the file.
    NoFile(Command, &'a str),
    Extra(&'a str),
    BareValue(CommandOption, &'a str),
    OneWord(Command, &'a str),
    NoValue(CommandOption),
    BadValue(CommandOption, &'a str),
    BadCount(&'a str),
    Twice(CommandOption),
    Other,
}

/// Three texts, of which the last are empty where a sentence shows fewer.
fn texts<'a>(first: &'a str, second: &'a str, third: &'a str) -> [Shown<'a>; 3] {
    [Shown::Text(first), Shown::Text(second), Shown::Text(third)]
}

impl<'a> WordFault<'a> {
    /// What it is shown as.
    pub fn sentence(self) -> &'static str {
        match self {
            Self::NotText => "the words are not UTF-8",
            Self::NoCommand => "a command is missing",
            Self::UnknownCommand(_) => "`{}` is not a command",
            Self::FileFirst(_) => "a command comes first: `cti infer {}`",
            Self::UnknownOption(_) => "`{}` is not an option of this command",
            Self::Missing(..) => "`cti {}` needs one more word: {}",
            Self::NoFile(..) => "`cti {}` needs a file's name before `{}`",
            Self::Extra(_) => "`{}` is one word too many",
            Self::BareValue(..) => "`{}` is one word too many: write `{} {}`",
            Self::OneWord(..) => "`cti {}` takes one word, {}: `{}` is one too many",
            Self::NoValue(_) => "{} needs {}",
            Self::BadValue(..) => "`{}` is not {}",
            Self::BadCount(_) => "`{}` is not a number of predicates",
            Self::Twice(_) => "{} is given twice",
            Self::Other => "these words are not a command",
        }
    }

    /// What its sentence shows.
    pub fn shown(self) -> [Shown<'a>; 3] {
        // An array of fixed texts alone would have another lifetime than those with words.
        let none: &'a str = "";
        match self {
            Self::NotText | Self::NoCommand | Self::Other => [Shown::Nothing; 3],
            Self::FileFirst(word) => [Shown::Word(word), Shown::Nothing, Shown::Nothing],
            Self::UnknownCommand(word)
            | Self::UnknownOption(word)
            | Self::Extra(word)
            | Self::BadCount(word) => texts(word, none, none),
            Self::Missing(command, name) => texts(command.name(), name, none),
            Self::NoFile(command, query) => texts(command.name(), query, none),
            Self::BareValue(option, word) => texts(word, option.name(), word),
            Self::OneWord(command, word) => texts(command.name(), command.first(), word),
            Self::NoValue(option) => texts(option.name(), option.value(), none),
            Self::BadValue(option, word) => texts(word, option.kind(), none),
            Self::Twice(option) => texts(option.name(), none, none),
        }
    }

    /// What to do about it.
    pub fn advice(self) -> &'static str {
        match self {
            Self::NotText => "give the file another name, and write a query in UTF-8",
            Self::NoCommand | Self::UnknownCommand(_) | Self::FileFirst(_) => {
                "the commands are infer, check, run, gen, lex, loop and session"
            }
            Self::UnknownOption(_) => {
                "infer has the option --norm, run has --steps and loop has --depth; write -- before a word that begins with -"
            }
            Self::Missing(..)
            | Self::NoFile(..)
            | Self::BareValue(..)
            | Self::OneWord(Command::Gen, _)
            | Self::Other => "the usage has a line for each command",
            Self::OneWord(..) => { "call it once for each file; put a name with spaces in quotes" }
            Self::Extra(_) => "put a query or a name with spaces in quotes",
            Self::NoValue(option) | Self::BadValue(option, _) => option.advice(),
            Self::BadCount(_) => "write a number from 1 to 300",
            Self::Twice(_) => "leave one of them out",
        }
    }
}
