//! What is wrong with a goal.

/// What is wrong with a goal of a clause, shown as what to do about it.
#[derive(Clone, Copy)]
pub enum GoalMistake {
    Variable,
    Number,
    GrammarRule,
    Cut,
    IfThenElse,
    SoftCut,
    If,
    Negation,
    NotOperator,
    AllSolutions,
    Test,
    Output,
    Call,
    Assert,
    Unknown,
    Catch,
    Exit,
    Repeat,
    Unify,
}

impl GoalMistake {
    /// The sentence of the mistake.
    pub fn sentence(self) -> &'static str {
        match self {
            Self::Variable => "a variable as a goal is not read: name the predicate",
            Self::Number => "a number is not a goal: name a predicate",
            Self::GrammarRule =>
                "grammar rules are not read: write `p(S0,S) :- q(S0,S).` for `p --> q.`",
            Self::Cut => "leave the cut out: modes without it hold with it",
            Self::IfThenElse =>
                "write `(C,A ; B)` for `(C -> A ; B)`: modes with the comma hold with the arrow",
            Self::SoftCut =>
                "write `(C,A ; B)` for `(C *-> A ; B)`: modes with the comma hold with the arrow",
            Self::If => "write `(C,A ; B)` for `if C then A else B`",
            Self::Negation =>
                "write `(G,fail ; true)` for `\\+ G`: modes with it hold for the negation",
            Self::NotOperator =>
                "`not` is not an operator here: write `(G,fail ; true)` for `not G`",
            Self::AllSolutions =>
                "write `(G,fail ; true)` for `findall(T,G,L)` and the like: their lists stay unknown",
            Self::Test => "leave it out: modes without it hold with it",
            Self::Output => "leave it out: what is written does not change whether a query ends",
            Self::Call => "write the goal itself: goals are not taken from terms",
            Self::Assert =>
                "write the facts into the file: clauses are not added or removed while a query runs",
            Self::Unknown =>
                "leave it out: modes without it hold with it, and what it binds stays unknown",
            Self::Catch => "write `(G ; R)` for `catch(G,E,R)`: modes with it hold for the catch",
            Self::Exit => "write `fail` for it: the derivation ends there",
            Self::Repeat => "leave it out, with what relies on it: no query that calls it ends",
            Self::Unify =>
                "write `X = Y` for `unify_with_occurs_check(X,Y)`: that is what `=` does here",
        }
    }
}
