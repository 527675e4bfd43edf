//! Which components keep their preconditions, and marks of the predicates whose values stayed.

ghost use Rattle.std.specs.Prelude.{◌≡◌, ◌<◌, ◌↔◌, IsTrue, length};
ghost use Rattle.solved_program.specs.Marks.{AreMarked};
ghost use Rattle.truth_rows.specs.Sets.{AreSets};
ghost use Rattle.carried_preconditions.specs.Resolving.{AreSources, HasStayed, StandsKept};

use crate::comparing::{are_kept, has_stayed};
use crate::sources::PreconditionSources;
use bool_diagrams::{Diagram, Table};

/// Whether a component stands for an old one, and has the mappings and the ground rows that it had.
pub(crate) fn stands<N>(
    sources: &PreconditionSources<N>,
    c: u32,
    table: &Table,
    stayed: &[bool],
) -> bool
    requires sources { AreSources sources.now table.now }
    requires inner { c < length sources.now.clauses.now.edit.now.components.now.members }
    requires each { length stayed.now ≡ length sources.now.clauses.now.edit.now.after.now.preds }
    ensures { IsTrue result ↔ StandsKept sources.now table.now stayed.now c }
{
    let edit = sources.clauses.edit;
    match sources.clauses.standing(c, stayed) {
        Some(_) => are_kept(edit, &sources.before.inputs, sources.inputs, table, c),
        None => false,
    }
}

/// Marks the members of a component that have the ground rows that they had, and the same rows allowed, and no others
/// of them.
pub(crate) fn mark_stayed<N>(
    sources: &PreconditionSources<N>,
    c: u32,
    table: &Table,
    allowed: &[Diagram],
    stayed: &mut [bool],
)
    requires sources { AreSources sources.now table.now }
    requires old { AreSets sources.now.clauses.now.edit.now.before.now.preds table.now
        sources.now.before.now.solved.now.allowed }
    requires inner { c < length sources.now.clauses.now.edit.now.components.now.members }
    requires allowed { AreSets sources.now.clauses.now.edit.now.after.now.preds
        table.now allowed.now }
    requires each { length stayed.old ≡ length sources.now.clauses.now.edit.now.after.now.preds }
    ensures { AreMarked sources.now.clauses.now.edit.now.components.now c
        (HasStayed sources.now table.now allowed.now) stayed.old stayed.new }
{
    let edit = sources.clauses.edit;
    for member in edit.components.members(c) {
        let place = member.0 as usize;
        stayed[place] = has_stayed(
            edit,
            sources.before,
            sources.inputs,
            table,
            allowed,
            *member,
        );
    }
}
