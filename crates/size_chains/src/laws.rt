//! Laws of the definitions. Each is a function that does nothing, and whose clauses are proved.

ghost use Rattle.size_chains.specs.AppendChain.{AppendHasThisChain};
ghost use Rattle.size_chains.specs.Kept.{LastRowsAreKept, LastRowsAreStated};
ghost use Rattle.size_chains.specs.Norms.{NormsHaveTheseChains};

/// The last rows of a legal chain are kept by the program's clauses, and those of built-in predicates are the stated
/// ones.
pub fn last_rows_are_kept()
    ensures kept { LastRowsAreKept }
    ensures stated { LastRowsAreStated }
{}

/// Over a norm the legal chains are those of `termination_model`.
pub fn norms_have_these_chains()
    ensures { NormsHaveTheseChains }
{}

/// An example: append's chain by term size.
pub fn append_has_this_chain()
    ensures { AppendHasThisChain }
{}
