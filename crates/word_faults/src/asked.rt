//! What the words ask about the program itself.

/// What is asked about the program itself.
#[derive(Clone, Copy)]
pub enum Asked {
    Help,
    Version,
}

/// The help: a line for each command, the exit statuses and two examples.
const HELP: &str = "cti finds and checks which queries of a pure logic program end.

  cti infer FILE [--norm NORM]      find the modes; NORM is term (the default) or list
  cti check FILE CERT               check a certificate of the program
  cti run FILE QUERY [--steps N]    run a query: its first N derivations, by default 100000
  cti gen N                         make a program of N predicates, and count its modes
  cti lex FILE                      find the modes by lists of mappings, not by one
  cti loop FILE QUERY [--depth D]   look for a loop of at most D clauses, by default 8
  cti session FILE                  do the edits of FILE, and print the modes they ask for

Exit status: 0 done, or the certificate is valid; 1 it is not valid, or no loop was
found; 2 the words are not a command; 3 a text was refused; 4 a file could not be
loaded; 5 standard output failed; 6 out of memory, or a limit on the work was
met; 7 the search was stopped; 8 a value was too large.

  cti infer append.pl
  cti run append.pl 'app(X,Y,[a])' --steps 20
";

/// What is said of the version.
const VERSION: &str =
    "cti 0.4: writes and checks certificates of the versions 1, by term size, and 2, which names its norm
";

impl Asked {
    /// What a first word asks.
    pub fn of(word: &str) -> Option<Asked> {
        match word {
            "--help" | "-h" | "help" => Some(Asked::Help),
            "--version" | "-V" => Some(Asked::Version),
            _ => None,
        }
    }

    /// What an option of a command asks.
    pub(crate) fn of_option(word: &str) -> Option<Asked> {
        match word {
            "--help" | "-h" => Some(Asked::Help),
            _ => None,
        }
    }

    /// The answer.
    pub fn text(self) -> &'static str {
        match self {
            Asked::Help => HELP,
            Asked::Version => VERSION,
        }
    }
}
