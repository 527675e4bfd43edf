//! The reasons why a certificate is not valid.

use std::fmt;

/// What of a fact does not hold.
#[derive(Clone, Copy)]
pub enum NoReason {
    Version,
    Missing,
    Extra,
    Shape,
    SizeRow,
    Measure,
    Ground,
    Precondition,
    Mode,
    Refutation,
    Wide,
}

/// The reasons, in the order of their numbers.
const REASONS: [NoReason; 11] = [
    NoReason::Version,
    NoReason::Missing,
    NoReason::Extra,
    NoReason::Shape,
    NoReason::SizeRow,
    NoReason::Measure,
    NoReason::Ground,
    NoReason::Precondition,
    NoReason::Mode,
    NoReason::Refutation,
    NoReason::Wide,
];

impl NoReason {
    /// The reason of a number, which counts from 1.
    pub fn of(number: u64) -> Option<NoReason> {
        match number {
            1..=11 => Some(REASONS[number as usize - 1]),
            _ => None,
        }
    }

    /// What it is shown as.
    pub(crate) fn sentence(self) -> &'static str {
        match self {
            NoReason::Version => "the version is neither 1 nor 2",
            NoReason::Missing => "a fact is missing here",
            NoReason::Extra => "this fact may not stand here",
            NoReason::Shape => "this fact has a list of a wrong length or a number out of range",
            NoReason::SizeRow =>
                "the multipliers do not show this size row, or a built-in predicate does not have it",
            NoReason::Measure =>
                "the measure does not fall as this line says, or is not 0 where nothing recurses",
            NoReason::Ground =>
                "the grounds of this predicate lack a row that one of its clauses gives, or that it has as a built-in",
            NoReason::Precondition => "the pre rows of this predicate break their rule",
            NoReason::Mode => "a mode on this line is not admitted by the pre rows",
            NoReason::Refutation => "this line refutes nothing, or a row is below 0 at its point",
            NoReason::Wide => "this line needs a number above 2^127 - 1 in absolute value",
        }
    }

    /// What to do about it.
    pub fn advice(self) -> &'static str {
        match self {
            NoReason::Version => "this program checks certificates of the versions 1 and 2",
            NoReason::Missing =>
                "the facts end too early, or the certificate is of another program",
            NoReason::Extra => {
                "the facts do not stand in their order, or the certificate is of another program"
            }
            NoReason::Shape => {
                "compare it with the predicate and the clause that it names; the certificate may be of another program"
            }
            NoReason::SizeRow =>
                "find other multipliers, or leave out the size row and its by lines",
            NoReason::Measure => {
                "find other multipliers or another measure; one of a component without recursion is 0"
            }
            NoReason::Ground => "add the row to the grounds, for each clause of the predicate",
            NoReason::Precondition => {
                "a pre row has 1 where the measure counts, and each call has to stay within the pre rows"
            }
            NoReason::Mode => "drop the mode, or add the mapping and the pre rows that admit it",
            NoReason::Refutation => {
                "each row has to be at least 0 at each point, some T has to be above 0, and summed over all points no coefficient or offset may weigh more in the heads than in the calls"
            }
            NoReason::Wide => "use smaller numbers",
        }
    }
}

impl fmt::Display for NoReason {
    fn fmt<W: fmt::Write>(&self, f: &mut fmt::Formatter<W>) -> fmt::Result {
        f.write_str(self.sentence())
    }
}
