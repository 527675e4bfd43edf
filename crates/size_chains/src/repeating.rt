//! A step that repeats an earlier one: where the rows that it reads are the same, so is the image.

ghost use Rattle.std.specs.Prelude.{◌≡◌, ◌≢◌, ◌≤◌, ◌-◌, ℕ, true, false, IfOk, IfSome, length, slice_get, Some};
ghost use Rattle.cti_terms.specs.declared.clauses.Clause.{Clause};
ghost use Rattle.termination_model.specs.sizes.Sizes.{rows_of};
ghost use Rattle.size_chains.specs.Noting.{IsNoted};
ghost use Rattle.size_chains.specs.Repeating.{IsRepeatable};
ghost use Rattle.size_chains.specs.Systems.{AreSizes};

use crate::clause_systems::ClauseSystems;
use crate::filled::Filled;
use crate::making::system_of;
use crate::noting::Noted;
use crate::step::Step;
use crate::stepped::Stepped;
use cti_terms::Program;
use polyhedra::Domain;
use std::alloc::{AllocError, Global};
use termination_model::{How, Sizes};

/// One more step on the clause of an earlier one, if that noted an image with a point and the rows of the head's
/// predicate hold on the clause, so that they stay.
pub(crate) fn note_again<D: Domain, S: ClauseSystems>(
    alloc: Global,
    p: &Program,
    systems: &S,
    sizes: &Sizes,
    old: &D,
    earlier: &Step,
) -> Result<Option<Noted<D>>, AllocError>
    requires same { S.listing systems.now ≡ p.now }
    requires first { 1 ≤ earlier.now.clause }
    requires last { earlier.now.clause ≤ length p.now.clauses }
    requires sizes { AreSizes (S.systems systems.now) p.now.preds sizes.now.rows }
    requires earlier { (c : Clause) → slice_get p.now.clauses (earlier.now.clause - 1) ≡ Some c
        → IsRepeatable D.speaks (S.systems systems.now) (rows_of sizes.now.rows) c (D.width old.now)
        (D.listed old.now) earlier.now }
    ensures { IfOk result (λ again. IfSome again (λ noted. (pass : ℕ) (c : Clause)
        → slice_get p.now.clauses (earlier.now.clause - 1) ≡ Some c
        → IsNoted D.width D.listed D.speaks (S.systems systems.now) pass
        (rows_of sizes.now.rows) c earlier.now.clause Filled.Inhabited noted)) }
{
    if !has_point(earlier) {
        return Ok(None);
    }
    let _program = systems.program();
    let _clause = p.clause(earlier.clause);
    let system = system_of(alloc, systems, sizes, earlier.clause)?;
    let kept = old.widen(alloc, &system)?;
    if kept.failed || kept.weak {
        return Ok(None);
    }
    let image = earlier.image.clone()?;
    Ok(Some(Noted {
        image,
        image_weak: earlier.image_weak,
        stepped: Stepped {
            how: How::Same,
            weak: false,
            next: None,
            filled: Filled::Inhabited,
            by: kept.by,
        },
    }))
}

/// Whether what a step did shows that its image has a point.
fn has_point(step: &Step) -> bool
    ensures strong { result ≡ true → step.now.step_weak ≡ false }
    ensures some { result ≡ true → step.now.how ≢ How.None }
{
    !step.step_weak && step.how != How::None
}
