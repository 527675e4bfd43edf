//! What a chain needs of a program's clauses.

ghost use Rattle.std.specs.Prelude.{◌≡◌, ◌≤◌, ◌<◌, ◌-◌, IfOk, length, slice_get, Some};
ghost use Rattle.cti_terms.specs.Arithmetic.{kind_of};
ghost use Rattle.cti_terms.specs.Listing.{IsProgram, Listing};
ghost use Rattle.cti_terms.specs.declared.clauses.Clause.{Clause};
ghost use Rattle.linear_rows.specs.Plain.{HaveWidth, plain_rows};
ghost use Rattle.termination_model.specs.sizes.Sizes.{rows_of};
ghost use Rattle.size_chains.specs.Making.{IsClauseSystem};
ghost use Rattle.size_chains.specs.Systems.{AreSizes, AreSystems, Systems};

use crate::clause_system::ClauseSystem;
use cti_terms::{Builtin, PredId, Program};
use linear_rows::Rows;
use std::alloc::{AllocError, Global};
use termination_model::Sizes;

/// The systems of a program's clauses: how many columns predicates have, and what the rows of a clause's atoms say over
/// the clause's naturals.
///
/// The only error is running out of memory.
pub trait ClauseSystems {
    /// The program.
    ghost listing: { Self → Listing };

    /// What its clauses say of the columns of their atoms.
    ghost systems: { Self → Systems };

    /// The program. It takes no memory.
    fn program(&self) -> &Program
        ensures same { result.now ≡ listing self.now }
        ensures sound { IsProgram (listing self.now) }
        ensures lawful { AreSystems (listing self.now) (systems self.now) };

    /// How many columns a predicate has.
    fn width(&self, q: PredId) -> u32
        requires { q.0 < length (listing self.now).preds }
        ensures { result ≡ (systems self.now).width q.0 };

    /// The stated rows of a built-in predicate, which is of this kind.
    fn stated_rows(&self, alloc: Global, q: PredId, kind: Builtin) -> Result<Rows, AllocError>
        requires { kind_of (listing self.now).arithmetic q.0 ≡ Some kind }
        ensures width { IfOk result (λ r. r.width ≡ (systems self.now).width q.0) }
        ensures widths { IfOk result (λ r. HaveWidth r.width r.list) }
        ensures rows { IfOk result (λ r. plain_rows r.list ≡ (systems self.now).stated kind) };

    /// The system of clause `k`, for size rows of the program's predicates. Clauses count from 1.
    fn system(&self, alloc: Global, sizes: &Sizes, k: u32) -> Result<ClauseSystem, AllocError>
        requires first { 1 ≤ k }
        requires last { k ≤ length (listing self.now).clauses }
        requires sizes { AreSizes (systems self.now) (listing self.now).preds sizes.now.rows }
        ensures { IfOk result (λ s. (c : Clause)
            → slice_get (listing self.now).clauses (k - 1) ≡ Some c
            → IsClauseSystem (systems self.now) (rows_of sizes.now.rows) c s) };
}
