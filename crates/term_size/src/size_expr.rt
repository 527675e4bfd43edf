//! Sizes as expressions over variables.

use sequences::Sequence;

/// The size of a term as an expression: a constant, and a coefficient for each variable of the clause.
#[derive(Drop)]
pub struct SizeExpr {
    /// What the term counts by itself.
    pub constant: i128,

    /// By how much the size of each variable counts, that of variable 0 first.
    pub coeffs: Coefficients,
}

/// A list of coefficients.
pub type Coefficients = Sequence<i128>;
