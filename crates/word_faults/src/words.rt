//! The words of a command line, sorted by what they are.

use crate::asked::Asked;
use crate::command::Command;
use crate::command_option::CommandOption;
use crate::word_fault::WordFault;
use mistake_sentences::ShellWord;

/// The most digits of a number of steps or of predicates, and of a depth.
const MOST_DIGITS: usize = 7;

const MOST_DEPTH_DIGITS: usize = 2;

/// What the next word is.
#[derive(Clone, Copy)]
enum Next {
    /// A plain word or an option.
    Any,
    /// The value of this option.
    Value(CommandOption),
    /// A plain word, however it begins.
    Plain,
}

/// The words after the program's name, sorted by what they are.
#[derive(Clone, Copy)]
pub struct Words<'a> {
    command: Option<Command>,
    file: Option<&'a str>,
    second: Option<&'a str>,
    /// Whether an option was given.
    has_option: bool,
    next: Next,
    /// What is asked about the program itself.
    asked: Option<Asked>,
    /// The first fault that was seen.
    fault: Option<WordFault<'a>>,
}

/// The fault of a first word.
fn command_fault<'a>(word: Option<&'a str>) -> Option<WordFault<'a>> {
    let Some(word) = word else {
        return Some(WordFault::NoCommand);
    };
    match Command::of(word) {
        Some(_) => None,
        None if word.ends_with(".pl") => Some(WordFault::FileFirst(ShellWord::file(word))),
        None => Some(WordFault::UnknownCommand(word)),
    }
}

impl<'a> Words<'a> {
    /// Sorts the words after the program's name.
    pub fn of(words: &[&'a str]) -> Words<'a> {
        let first = words.first().copied();
        let mut told = Words {
            command: first.and_then(Command::of),
            file: None,
            second: None,
            has_option: false,
            next: Next::Any,
            asked: first.and_then(Asked::of),
            fault: command_fault(first),
        };
        for word in words.get(1..).unwrap_or(&[]) {
            told.take(word);
        }
        told
    }

    /// The file that has the program, or an empty text if none is named.
    pub fn file(self) -> &'a str {
        self.file.unwrap_or("")
    }

    /// The file that has the certificate, or the query; an empty text if there is none.
    pub fn second(self) -> &'a str {
        self.second.unwrap_or("")
    }

    /// What is asked about the program itself.
    pub fn asked(self) -> Option<Asked> {
        self.asked
    }

    /// Whether the modes are inferred of a file's program.
    pub fn infers(self) -> bool {
        matches!(self.command, Some(Command::Infer))
    }

    /// Whether a loop is looked for.
    pub fn looks_for_loop(self) -> bool {
        matches!(self.command, Some(Command::Loop))
    }

    /// Whether the second word is a file's name.
    pub fn has_certificate(self) -> bool {
        matches!(self.command, Some(Command::Check))
    }

    /// Whether the second word is a query.
    pub fn has_query(self) -> bool {
        matches!(self.command, Some(Command::Run | Command::Loop))
    }

    /// What is wrong with the words, which are not a command.
    pub fn fault(self) -> WordFault<'a> {
        if let Some(fault) = self.fault {
            return fault;
        }
        if let Next::Value(option) = self.next {
            return WordFault::NoValue(option);
        }
        let Some(command) = self.command else {
            return WordFault::NoCommand;
        };
        if self.file.is_none() {
            return WordFault::Missing(command, command.first());
        }
        match command.second() {
            Some(_) if self.second.is_none() && self.has_query() && is_query(self.file()) => {
                WordFault::NoFile(command, self.file())
            }
            Some(name) if self.second.is_none() => WordFault::Missing(command, name),
            _ => WordFault::Other,
        }
    }

    /// Takes the next word.
    fn take(&mut self, word: &'a str) {
        match self.next {
            Next::Value(option) => self.take_value(option, word),
            Next::Any if word == "--" => self.next = Next::Plain,
            Next::Any if word.len() > 1 && word.starts_with('-') => self.take_option(word),
            _ => self.take_plain(word),
        }
    }

    /// Takes a word that begins with `-`.
    fn take_option(&mut self, word: &'a str) {
        if self.command.is_some() && self.asked.is_none() {
            self.asked = Asked::of_option(word);
        }
        let Some(option) = CommandOption::of(self.command) else {
            return self.blame(WordFault::UnknownOption(word));
        };
        if word == option.name() {
            self.next = Next::Value(option);
        } else if let Some(value) = option.value_in(word) {
            self.take_value(option, value);
        } else {
            self.blame(WordFault::UnknownOption(word));
        }
    }

    /// Takes the value of an option.
    fn take_value(&mut self, option: CommandOption, word: &'a str) {
        self.next = Next::Any;
        if self.has_option {
            self.blame(WordFault::Twice(option));
        } else if word.is_empty() || word.starts_with('-') {
            self.blame(WordFault::NoValue(option));
        } else if !takes(option, word) {
            self.blame(WordFault::BadValue(option, word));
        }
        self.has_option = true;
    }

    /// Takes a word that is not an option.
    fn take_plain(&mut self, word: &'a str) {
        let has_second = self.command.and_then(Command::second).is_some();
        if self.file.is_none() {
            self.take_first(word);
        } else if has_second && self.second.is_none() {
            self.second = Some(word);
        } else {
            self.blame(extra_fault(self.command, word));
        }
    }

    /// Takes the first word after the command.
    fn take_first(&mut self, word: &'a str) {
        if matches!(self.command, Some(Command::Gen)) && !is_number_up_to(word, MOST_DIGITS, 300) {
            self.blame(WordFault::BadCount(word));
        }
        self.file = Some(word);
    }

    /// Keeps a fault, if it is the first.
    fn blame(&mut self, fault: WordFault<'a>) {
        if self.fault.is_none() {
            self.fault = Some(fault);
        }
    }
}

/// Whether a word looks like a query, and not like a file's name.
fn is_query(word: &str) -> bool {
    word.ends_with(')') || word.ends_with(").")
}

/// Whether a word has digits alone.
fn is_digits(word: &str) -> bool {
    word.bytes().all(|byte| byte.is_ascii_digit())
}

/// Whether a word is a norm.
fn is_norm(word: &str) -> bool {
    word == "term" || word == "list"
}

/// Whether a word looks like the value of an option.
fn is_value(option: CommandOption, word: &str) -> bool {
    match option {
        CommandOption::Steps | CommandOption::Depth => !word.is_empty() && is_digits(word),
        CommandOption::Norm => is_norm(word),
    }
}

/// Whether an option takes a word as its value.
fn takes(option: CommandOption, word: &str) -> bool {
    match option {
        CommandOption::Steps => is_number_up_to(word, MOST_DIGITS, 1_000_000),
        CommandOption::Depth => is_number_up_to(word, MOST_DEPTH_DIGITS, 12),
        CommandOption::Norm => is_norm(word),
    }
}

/// The fault of a word that is one too many for a command.
fn extra_fault<'a>(command: Option<Command>, word: &'a str) -> WordFault<'a> {
    if let Some(option) = CommandOption::of(command)
        && is_value(option, word)
    {
        return WordFault::BareValue(option, word);
    }
    match command {
        Some(command) if command.second().is_none() => { WordFault::OneWord(command, word) }
        _ => WordFault::Extra(word),
    }
}

/// Whether a word is a number from 1 to the greatest, of at most this many digits.
fn is_number_up_to(word: &str, digits: usize, greatest: u32) -> bool {
    let is_short = word.len() <= digits && is_digits(word);
    match word.parse::<u32>() {
        Ok(number) => is_short && number >= 1 && number <= greatest,
        Err(_) => false,
    }
}
