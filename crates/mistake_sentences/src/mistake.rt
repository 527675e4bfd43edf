//! The usual mistakes, and what to do about each.

use crate::byte_sentences::ByteMistake;
use crate::clause_sentences::ClauseMistake;
use crate::edit_sentences::EditMistake;
use crate::fact_sentences::FactMistake;
use crate::file_sentences::FileMistake;
use crate::goal_sentences::GoalMistake;
use crate::head_sentences::HeadMistake;
use crate::operator_sentences::OperatorMistake;
use crate::query_sentences::QueryMistake;
use crate::sentence::{Sentence, Shown};
use std::fmt;

/// A mistake that a text shows, by the part of a text that has it. It is shown as what to do about it.
#[derive(Clone, Copy)]
pub enum Mistake<'a> {
    Byte(ByteMistake),
    Operator(OperatorMistake<'a>),
    Clause(ClauseMistake<'a>),
    Head(HeadMistake),
    Goal(GoalMistake),
    Query(QueryMistake),
    File(FileMistake<'a>),
    Edit(EditMistake),
    Fact(FactMistake<'a>),
}

impl<'a> Mistake<'a> {
    /// The text of the sentence that it is shown as.
    fn text(self) -> &'static str {
        match self {
            Self::Byte(mistake) => mistake.sentence(),
            Self::Operator(mistake) => mistake.sentence(),
            Self::Clause(mistake) => mistake.sentence(),
            Self::Head(mistake) => mistake.sentence(),
            Self::Goal(mistake) => mistake.sentence(),
            Self::Query(mistake) => mistake.sentence(),
            Self::File(mistake) => mistake.sentence(),
            Self::Edit(mistake) => mistake.sentence(),
            Self::Fact(mistake) => mistake.sentence(),
        }
    }

    /// What that sentence shows.
    fn shown(self) -> [Shown<'a>; 3] {
        match self {
            Self::Byte(mistake) => mistake.shown(),
            Self::Operator(mistake) => mistake.shown(),
            Self::Clause(mistake) => mistake.shown(),
            Self::File(mistake) => mistake.shown(),
            Self::Fact(mistake) => mistake.shown(),
            Self::Head(_) | Self::Goal(_) | Self::Query(_) | Self::Edit(_) => [Shown::Nothing; 3],
        }
    }
}

impl fmt::Display for Mistake<'_> {
    fn fmt<W: fmt::Write>(&self, f: &mut fmt::Formatter<W>) -> fmt::Result {
        Sentence {
            text: self.text(),
            shown: self.shown(),
        }
        .fmt(f)
    }
}
