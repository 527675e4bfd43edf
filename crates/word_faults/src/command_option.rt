//! The options of commands.

use crate::command::Command;

/// An option of a command.
#[derive(Clone, Copy)]
pub enum CommandOption {
    /// How many derivations of a query are looked at.
    Steps,
    /// The norm that the modes are found by.
    Norm,
    /// The most clauses of a derivation that is looked at.
    Depth,
}

impl CommandOption {
    /// The option that a command has.
    pub fn of(command: Option<Command>) -> Option<CommandOption> {
        match command {
            Some(Command::Infer) => Some(CommandOption::Norm),
            Some(Command::Run) => Some(CommandOption::Steps),
            Some(Command::Loop) => Some(CommandOption::Depth),
            _ => None,
        }
    }

    /// The name of the option.
    pub(crate) fn name(self) -> &'static str {
        match self {
            CommandOption::Steps => "--steps",
            CommandOption::Norm => "--norm",
            CommandOption::Depth => "--depth",
        }
    }

    /// What its value is, as it is asked for.
    pub(crate) fn value(self) -> &'static str {
        match self {
            CommandOption::Steps | CommandOption::Depth => "a number",
            CommandOption::Norm => "term or list",
        }
    }

    /// What its value tells.
    pub(crate) fn kind(self) -> &'static str {
        match self {
            CommandOption::Steps => "a number of steps",
            CommandOption::Norm => "a norm",
            CommandOption::Depth => "a depth",
        }
    }

    /// What to do about a value that it does not take.
    pub(crate) fn advice(self) -> &'static str {
        match self {
            CommandOption::Steps => "write --steps and a number from 1 to 1000000",
            CommandOption::Norm => "--norm takes term or list",
            CommandOption::Depth => "--depth takes a number from 1 to 12",
        }
    }

    /// The value in a word that has the option's name and value, as `--steps=5` has.
    pub(crate) fn value_in(self, word: &str) -> Option<&str> {
        word.strip_prefix(self.name())?.strip_prefix('=')
    }
}
