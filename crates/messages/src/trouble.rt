//! What a call has to say, in one line.

use crate::file_cause::FileCause;
use crate::no_reason::NoReason;
use crate::place::Place;
use crate::refusal_kind::RefusalKind;
use crate::told::{Subject, ToldNo, ToldRefusal};
use mistake_sentences::{Sentence, Shown};
use std::fmt::{self, Display};
use word_faults::{Asked, WordFault, Words};

/// Why a call did not do what was asked for, or what its answer does not say. It is shown as the first line of the
/// message.
#[derive(Clone, Copy)]
pub enum Trouble<'a> {
    Refused(Subject, Place<'a>, RefusalKind),
    NotValid(Place<'a>, NoReason),
    Words(WordFault<'a>),
    Asked(Asked),
    File(&'a str, FileCause),
    /// How many bytes were written before standard output failed.
    Output(u64),
    Memory,
    Overflow,
    NoLoop,
    ManyDerivations,
    LoopMemory,
}

/// What to do about a file of this name that was not loaded.
fn file_advice(name: &str, cause: FileCause) -> &'static str {
    match cause {
        FileCause::Missing if name == "-" => "standard input is /dev/stdin",
        FileCause::Missing | FileCause::Failed if name.ends_with('/') => {
            "leave out the `/` at its end, if it is a file"
        }
        _ => cause.advice(),
    }
}

impl<'a> Trouble<'a> {
    /// The refusal at the beginning of the output.
    pub fn refused(words: Words<'a>, output: &str) -> Option<Trouble<'a>> {
        let told = ToldRefusal::read(output)?;
        let name = match told.subject {
            Subject::Program => words.file(),
            Subject::Certificate => words.second(),
            Subject::Query => "query",
        };
        let place = Place {
            name,
            line: told.line,
            column: told.column,
        };
        let kind = RefusalKind::of(told.kind)?;
        Some(Trouble::Refused(told.subject, place, kind))
    }

    /// The No at the beginning of the output.
    pub fn not_valid(words: Words<'a>, output: &str) -> Option<Trouble<'a>> {
        let told = ToldNo::read(output)?;
        let place = Place {
            name: words.second(),
            line: told.line,
            column: 1,
        };
        Some(Trouble::NotValid(place, NoReason::of(told.reason)?))
    }

    /// The place that it is about, where a line can be shown.
    pub fn place(self) -> Option<Place<'a>> {
        match self {
            Trouble::Refused(_, _, RefusalKind::Long) => None,
            Trouble::Refused(_, place, _) | Trouble::NotValid(place, _) => Some(place),
            _ => None,
        }
    }

    /// What stands between the name or the place that it is about and its sentence.
    fn introduction(self) -> &'static str {
        match self {
            Trouble::NotValid(..) => ": error: the certificate is not valid: ",
            Trouble::NoLoop | Trouble::ManyDerivations => ": note: ",
            Trouble::Asked(_) => ": ",
            _ => ": error: ",
        }
    }

    /// The text of its sentence.
    fn text(self) -> &'static str {
        match self {
            Trouble::Refused(_, _, kind) => kind.sentence(),
            Trouble::NotValid(_, reason) => reason.sentence(),
            Trouble::Words(fault) => fault.sentence(),
            // The help is written instead.
            Trouble::Asked(_) => "",
            Trouble::File(_, cause) => cause.sentence(),
            Trouble::Output(_) => "standard output failed after {} bytes",
            Trouble::Memory => "out of memory, or a limit on the work was met",
            Trouble::Overflow =>
                "the search ended at a goal with a value above 2^127 - 1 in absolute value",
            Trouble::NoLoop => "no loop was found, which does not say that the query ends",
            Trouble::ManyDerivations => {
                "the first 100,000 derivations have no loop, and there are more"
            }
            Trouble::LoopMemory => "out of memory, or the search grew too large",
        }
    }

    /// What its sentence shows.
    fn shown(self) -> [Shown<'a>; 3] {
        match self {
            Trouble::Words(fault) => fault.shown(),
            Trouble::Output(written) => [Shown::Count(written), Shown::Nothing, Shown::Nothing],
            _ => [Shown::Nothing; 3],
        }
    }

    /// What to do about it.
    pub fn advice(self) -> &'static str {
        match self {
            Trouble::Refused(_, _, kind) => kind.advice(),
            Trouble::NotValid(_, reason) => reason.advice(),
            Trouble::Words(fault) => fault.advice(),
            Trouble::Asked(_) => "",
            Trouble::File(name, cause) => file_advice(name, cause),
            Trouble::Output(_) => {
                "the answer was cut short: free space on the disk, or let the reader of the pipe read to the end"
            }
            Trouble::Memory => {
                "nothing was written: allow more memory, split a group of predicates that call each other, or make expressions smaller"
            }
            Trouble::Overflow => {
                "the answers before it were written; the goal is the first one that the last counted step leaves, or the first of the query if no step is counted"
            }
            Trouble::NoLoop => {
                "a greater --depth, up to 12, looks further; `cti run` with --steps 20 shows how the search goes"
            }
            Trouble::ManyDerivations => {
                "give a smaller --depth, or a query with fewer answers; `cti run` with --steps 20 shows how the search goes"
            }
            Trouble::LoopMemory => {
                "nothing was written: give a smaller --depth, or a query with smaller terms or fewer clauses to try"
            }
        }
    }
}

impl fmt::Display for Trouble<'_> {
    fn fmt<W: fmt::Write>(&self, f: &mut fmt::Formatter<W>) -> fmt::Result {
        match self {
            Trouble::Refused(_, place, _) | Trouble::NotValid(place, _) => place.fmt(f)?,
            Trouble::File(name, _) if !name.is_empty() => f.write_str(name)?,
            _ => f.write_str("cti")?,
        }
        f.write_str(self.introduction())?;
        Sentence {
            text: self.text(),
            shown: self.shown(),
        }
        .fmt(f)
    }
}
