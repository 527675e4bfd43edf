//! Why queries end. Each is a function that does nothing, and whose clauses are proved.

ghost use Rattle.termination_model.specs.claims.Descent.{ModesEnd, RowsEnd};
ghost use Rattle.termination_model.specs.sizes.Short.{ProofsShow};

/// Where claims show it, each query that meets an admitted row, or an admitted mode, is bounded.
pub fn a_query_is_bounded()
    ensures rows { RowsEnd }
    ensures modes { ModesEnd }
{}

/// Claims whose size rows and falls are proved by multipliers over short systems show that queries end.
pub fn proofs_show()
    ensures { ProofsShow }
{}
