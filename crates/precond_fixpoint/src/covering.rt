//! The rows that a mapping covers: where the search begins.

ghost use Rattle.std.specs.Prelude.{◌≡◌, ◌↔◌, ◌≤◌, ◌<◌, ℕ, Bool, IsTrue, IfOk, List, OnOk, length, map, slice_get, Some};
ghost use Rattle.bool_diagrams.specs.Cubes.{truth_rows};
ghost use Rattle.bool_diagrams.specs.Rows.{IsDiagram, Keeps, ReadsBelow};
ghost use Rattle.cti_terms.specs.Listing.{IsProgram};
ghost use Rattle.cti_terms.specs.declared.predicates.PredId.{PredId as ThePred};
ghost use Rattle.number_tests.specs.Levels.{coefficients_of, is_positive, items_of, natural};
ghost use Rattle.precond_fixpoint.specs.Removing.{IsCovering};
ghost use Rattle.precond_fixpoint.specs.Solving.{HaveParts};
ghost use Rattle.termination_model.specs.sizes.Rows.{Covers};
ghost use Rattle.truth_rows.specs.Sets.{AreSets, family_of};

use bool_diagrams::{Diagram, Table};
use cti_terms::{MOST_ARGUMENTS, PredId, Program};
use number_tests::LevelPart;
use sequences::Sequence;
use std::alloc::AllocError;

/// Puts into the places of these predicates the rows that their coefficients cover in the mapping of this number.
pub(crate) fn put_covering(
    p: &Program,
    table: &mut Table,
    members: &[PredId],
    levels: &[Sequence<LevelPart>],
    m: usize,
    sets: &mut [Diagram],
) -> Result<(), AllocError>
    requires program { IsProgram p.now }
    requires there { (j : ℕ) (a : ThePred) → slice_get members.now j ≡ Some a
        → a.0 < length p.now.preds }
    requires levels { HaveParts p.now.preds levels.now }
    requires mapping { (j : ℕ) (a : ThePred) → slice_get members.now j ≡ Some a
        → m < length (items_of levels.now a.0) }
    requires sets { AreSets p.now.preds table.old sets.old }
    ensures keeps { Keeps table.old table.new }
    ensures sets { OnOk result (AreSets p.now.preds table.new sets.new) }
    ensures covering { OnOk result ((j : ℕ) (a : ThePred) → slice_get members.now j ≡ Some a
        → IsCovering p.now.preds (coefficients_of levels.now m)
        (family_of p.now.preds table.new sets.new) a.0) }
{
    for member in members {
        cover_member(p, table, *member, levels, m, sets)?;
    }
    Ok(())
}

/// Puts in the rows that a predicate's coefficients cover.
fn cover_member(
    p: &Program,
    table: &mut Table,
    member: PredId,
    levels: &[Sequence<LevelPart>],
    m: usize,
    sets: &mut [Diagram],
) -> Result<(), AllocError>
    requires program { IsProgram p.now }
    requires there { member.0 < length p.now.preds }
    requires levels { HaveParts p.now.preds levels.now }
    requires mapping { m < length (items_of levels.now member.0) }
    requires sets { AreSets p.now.preds table.old sets.old }
    ensures keeps { Keeps table.old table.new }
    ensures sets { OnOk result (AreSets p.now.preds table.new sets.new) }
    ensures own { OnOk result
        (IsCovering p.now.preds (coefficients_of levels.now m)
        (family_of p.now.preds table.new sets.new) member.0) }
    ensures others { OnOk result ((r : ℕ) → ((r ≡ member.0) → ⊥)
        → family_of p.now.preds table.new sets.new r
        ≡ family_of p.now.preds table.old sets.old r) }
{
    let place = member.0 as usize;
    let part = &levels[place].as_slice()[m];
    let set = covering_rows(table, part.coeffs.as_slice())?;
    sets[place] = set;
    Ok(())
}

/// Gives the rows that are true wherever a coefficient is positive.
fn covering_rows(table: &mut Table, coefficients: &[i128]) -> Result<Diagram, AllocError>
    requires narrow { length coefficients.now ≤ MOST_ARGUMENTS }
    ensures keeps { Keeps table.old table.new }
    ensures known { IfOk result (λ d. IsDiagram table.new d) }
    ensures reads { IfOk result (λ d. ReadsBelow table.new d (length coefficients.now)) }
    ensures covering { IfOk result (λ d. (row : List Bool)
        → length row ≡ length coefficients.now
        → IsTrue (truth_rows table.new d row) ↔ Covers (map natural coefficients.now) row) }
{
    let mut covering = table.truth(true);
    for (argument, coefficient) in coefficients.iter().enumerate() {
        if !is_positive(*coefficient) {
            continue;
        }
        let rigid = table.var(argument as u32)?;
        covering = table.and(covering, rigid)?;
    }
    Ok(covering)
}

/// Whether a coefficient is positive.
fn is_positive(coefficient: i128) -> bool
    ensures { result ≡ is_positive coefficient }
{
    coefficient > 0
}
