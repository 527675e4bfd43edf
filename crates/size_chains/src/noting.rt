//! A step of the chain, on the clause of a number.

ghost use Rattle.std.specs.Prelude.{◌≡◌, ◌≤◌, ◌-◌, IfOk, length, slice_get, Some};
ghost use Rattle.cti_terms.specs.declared.clauses.Clause.{Clause};
ghost use Rattle.linear_rows.specs.Plain.{plain_rows};
ghost use Rattle.polyhedra.specs.Making.{SaysImage, arity_of};
ghost use Rattle.polyhedra.specs.Telling.{HasNaturalHead, IsSystem};
ghost use Rattle.termination_model.specs.sizes.Sizes.{rows_of};
ghost use Rattle.size_chains.specs.Filling.{IsFilled};
ghost use Rattle.size_chains.specs.Noting.{IsNoted, HasRowsOf};
ghost use Rattle.size_chains.specs.Stepping.{IsStep};
ghost use Rattle.size_chains.specs.Systems.{AreSizes};

use crate::clause_systems::ClauseSystems;
use crate::filled::Filled;
use crate::making::system_of;
use crate::stepped::Stepped;
use crate::stepping::step_on;
use crate::value::Value;
use cti_terms::Program;
use linear_rows::{Rows, System};
use polyhedra::Domain;
use std::alloc::{AllocError, Global};
use std::rc::Rc;
use termination_model::Sizes;

/// What a step does to its head's value, and the image that it notes.
#[derive(Drop)]
pub(crate) struct Noted<D> {
    pub(crate) image: Rc<Rows>,
    pub(crate) image_weak: bool,
    pub(crate) stepped: Stepped<D>,
}

/// A step on the system of a clause's body.
fn note_on<D: Domain>(
    alloc: Global,
    system: &System,
    old: &D,
    filled: Filled,
    pass: u32,
) -> Result<Noted<D>, AllocError>
    requires system { IsSystem system.now }
    requires head { HasNaturalHead system.now }
    requires old_width { D.width old.now ≡ arity_of system.now }
    requires filled { IsFilled (arity_of system.now) filled (D.listed old.now) }
    ensures image { IfOk result
        (λ noted. SaysImage D.speaks system.now (plain_rows noted.image.value.list) noted.image_weak) }
    ensures step { IfOk result
        (λ noted. IsStep D.width D.listed D.speaks system.now pass (D.listed old.now)
        (plain_rows noted.image.value.list) filled noted.stepped) }
{
    let made = D::image(alloc, system)?;
    let image = Rc::new(alloc, made.value.rows().copy(alloc)?)?;
    let image_weak = made.weak;
    let stepped = step_on(alloc, system, old, filled, made, pass)?;
    Ok(Noted {
        image,
        image_weak,
        stepped,
    })
}

/// One step of the chain: the image of clause `k`, and what becomes of the rows of its head's predicate.
pub(crate) fn note_step<D: Domain, S: ClauseSystems>(
    alloc: Global,
    p: &Program,
    systems: &S,
    sizes: &Sizes,
    old: &Value<D>,
    k: u32,
    pass: u32,
) -> Result<Noted<D>, AllocError>
    requires same { S.listing systems.now ≡ p.now }
    requires first { 1 ≤ k }
    requires last { k ≤ length p.now.clauses }
    requires sizes { AreSizes (S.systems systems.now) p.now.preds sizes.now.rows }
    requires old { (c : Clause) → slice_get p.now.clauses (k - 1) ≡ Some c
        → HasRowsOf (length ((S.systems systems.now).heads c)) (rows_of sizes.now.rows) c old.now.filled
        (D.width old.now.of) (D.listed old.now.of) }
    ensures { IfOk result (λ noted. (c : Clause) → slice_get p.now.clauses (k - 1) ≡ Some c
        → IsNoted D.width D.listed D.speaks (S.systems systems.now) pass
        (rows_of sizes.now.rows) c k old.now.filled noted) }
{
    let _program = systems.program();
    let _clause = p.clause(k);
    let system = system_of(alloc, systems, sizes, k)?;
    note_on(alloc, &system, &old.of, old.filled, pass)
}
