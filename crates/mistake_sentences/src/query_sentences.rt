//! What is wrong with a query.

/// What is wrong with a query, shown as what to do about it.
#[derive(Clone, Copy)]
pub enum QueryMistake {
    Empty,
    Prompt,
    Second,
    FileName,
    Clause,
    Goal,
    Branches,
    GoalAlone,
}

impl QueryMistake {
    /// The sentence of the mistake.
    pub fn sentence(self) -> &'static str {
        match self {
            Self::Empty => "the query is empty",
            Self::Prompt => "leave out `?-`",
            Self::Second => "a query ends at its dot: run what stands after it by itself",
            Self::FileName => "a query belongs here, and this is the name of a file",
            Self::Clause => "a query is not a clause: write only its goals",
            Self::Goal =>
                "leave it out: a query calls predicates of the program, `=`, `is` and comparisons of integers",
            Self::Branches => "a query has no branches: run each of them by itself",
            Self::GoalAlone => "run its goal by itself",
        }
    }
}
