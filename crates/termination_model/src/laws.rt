//! Laws of the definitions. Each is a function that does nothing, and whose clauses are proved.

ghost use Rattle.std.specs.Prelude.{◌↔◌, ℕ, Bool, IsTrue, List};
ghost use Rattle.cti_terms.specs.Listing.{Listing};
ghost use Rattle.cti_terms.specs.Tree.{Tree};
ghost use Rattle.termination_model.specs.examples.Append.{AppendEnds};
ghost use Rattle.termination_model.specs.examples.AppendChain.{AppendHasThisChain};
ghost use Rattle.termination_model.specs.chains.ChainKept.{ChainsKeep, ChainsState};
ghost use Rattle.termination_model.specs.examples.Loop.{LoopGoesOn};
ghost use Rattle.termination_model.specs.mappings.Refutation.{NoneDecreases};
ghost use Rattle.termination_model.specs.grounds.Grounds.{Family, InEachClosedIsClosed, IsClosed, IsInEachClosed, IsInside, IsLeast};

/// What is in each closed family, and the least closed family.
pub fn closed_families()
    // A truth row that clauses give from rows that are in each closed family is in each closed family.
    ensures closed { (truth : (ℕ → Bool) → Tree → Bool) (p : Listing)
        → InEachClosedIsClosed truth p }

    // A family that is closed and has only such rows is the least one, and the least one has exactly them.
    ensures least { (truth : (ℕ → Bool) → Tree → Bool) (p : Listing) (family : Family)
        → IsLeast truth p family
        ↔ (IsClosed truth p family × ((q : ℕ) (row : List Bool) → IsTrue (family q row)
        → IsInEachClosed truth p q row)) }
    ensures exact { (truth : (ℕ → Bool) → Tree → Bool) (p : Listing) (family : Family)
        → IsLeast truth p family
        → (q : ℕ) (row : List Bool) → IsTrue (family q row) ↔ IsInEachClosed truth p q row }

    // So two least families have the same rows.
    ensures one { (truth : (ℕ → Bool) → Tree → Bool) (p : Listing) (family other : Family)
        → IsLeast truth p family → IsLeast truth p other → IsInside family other }
{}

/// Where a refutation stands, no mapping decreases.
pub fn a_refutation_excludes_mappings()
    ensures { NoneDecreases }
{}

/// An example: append's queries with a rigid first argument are bounded.
pub fn append_is_bounded()
    ensures { AppendEnds }
{}

/// An example: a query that calls itself is not bounded.
pub fn a_self_call_is_unbounded()
    ensures { LoopGoesOn }
{}

/// The last rows of a legal chain hold wherever the rows of a clause's body do, and those of built-in predicates are
/// the stated ones.
pub fn last_rows_are_kept()
    ensures kept { ChainsKeep }
    ensures stated { ChainsState }
{}

/// An example: append has a legal chain of four steps, which ends with x1 + x2 = x3.
pub fn append_has_this_chain()
    ensures { AppendHasThisChain }
{}
