//! What is wrong with the head of a clause.

/// What is wrong with the head of a clause, shown as what to do about it.
#[derive(Clone, Copy)]
pub enum HeadMistake {
    Comma,
    Semicolon,
    Arrow,
    Negation,
    Op,
}

impl HeadMistake {
    /// The sentence of the mistake.
    pub fn sentence(self) -> &'static str {
        match self {
            Self::Comma =>
                "a head has no comma outside parentheses: does a clause end with a comma in place of its dot?",
            Self::Semicolon =>
                "a head has no `;` outside parentheses: does a clause end with `;` in place of its dot?",
            Self::Arrow => "write `:-` for `->` between a head and its body",
            Self::Negation => "a head has no negation: clauses say what holds",
            Self::Op => "operators are declared by a directive: write `:- op(..)`",
        }
    }
}
