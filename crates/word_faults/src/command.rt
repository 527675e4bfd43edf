//! The commands.

/// A command.
#[derive(Clone, Copy)]
pub enum Command {
    Infer,
    Check,
    Run,
    Gen,
    Lex,
    Loop,
    Session,
}

impl Command {
    /// The command of a name.
    pub fn of(name: &str) -> Option<Command> {
        match name {
            "infer" => Some(Command::Infer),
            "check" => Some(Command::Check),
            "run" => Some(Command::Run),
            "gen" => Some(Command::Gen),
            "lex" => Some(Command::Lex),
            "loop" => Some(Command::Loop),
            "session" => Some(Command::Session),
            _ => None,
        }
    }

    /// The name of the command.
    pub(crate) fn name(self) -> &'static str {
        match self {
            Command::Infer => "infer",
            Command::Check => "check",
            Command::Run => "run",
            Command::Gen => "gen",
            Command::Lex => "lex",
            Command::Loop => "loop",
            Command::Session => "session",
        }
    }

    /// What its first word is, in the usage.
    pub(crate) fn first(self) -> &'static str {
        match self {
            Command::Gen => "N",
            _ => "FILE",
        }
    }

    /// What its second word is, in the usage.
    pub fn second(self) -> Option<&'static str> {
        match self {
            Command::Infer | Command::Gen | Command::Lex | Command::Session => None,
            Command::Check => Some("CERT"),
            Command::Run | Command::Loop => Some("QUERY"),
        }
    }
}
