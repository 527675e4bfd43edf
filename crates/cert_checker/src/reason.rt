//! Why a certificate is not valid.

/// What is wrong with a fact of a certificate. The reasons are numbered from 1.
#[derive(Clone, Copy, PartialEq, Eq, Debug)]
pub enum Reason {
    /// The version is neither 1 nor 2.
    Version,
    /// The facts end where another must come.
    Missing,
    /// The fact may not stand at its place.
    Extra,
    /// The fact has a list of a wrong length, or a number out of range.
    Shape,
    /// Multipliers do not show that a clause keeps a size row, or a built-in predicate has one that is not stated of
    /// it.
    SizeRow,
    /// A measure that has to be 0 is not, or multipliers do not show that it falls.
    Measure,
    /// A clause gives a row that the ground rows lack, or a built-in predicate lacks its stated one.
    Ground,
    /// A precondition breaks its rule.
    Precondition,
    /// A mode is not admitted by any precondition.
    Mode,
    /// A refutation refutes nothing, or rows do not hold at one of its points.
    Refutation,
    /// A number does not fit.
    Wide,
}
