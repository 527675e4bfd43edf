//! When a term is rigid, as a set of rows over the variables of its clause.

ghost use Rattle.std.specs.Prelude.{◌≡◌, ◌&&◌, ◌≤◌, ◌<◌, ℕ, Bool, IsTrue, IfOk};
ghost use Rattle.bool_diagrams.specs.Rows.{IsDiagram, Keeps, holds, iff};
ghost use Rattle.cti_terms.specs.Spell.{tree_of};
ghost use Rattle.cti_terms.specs.Tree.{is_below, nodes_of};

use bool_diagrams::{Diagram, Table, VARIABLES};
use cti_terms::{MOST_NODES, MOST_VARIABLES, Term};
use std::alloc::AllocError;
use term_size::Norm;

/// The rows on which a term is rigid.
pub(crate) fn rigid_rows<N: Norm>(
    norm: &N,
    table: &mut Table,
    t: &Term,
    vars: u32,
) -> Result<Diagram, AllocError>
    requires few { vars ≤ MOST_VARIABLES }
    requires below { IsTrue (is_below vars (tree_of t.now)) }
    requires small { nodes_of (tree_of t.now) ≤ MOST_NODES }
    ensures keeps { Keeps table.old table.new }
    ensures known { IfOk result (IsDiagram table.new) }
    ensures rows { IfOk result (λ d. (row : ℕ → Bool)
        → holds table.new d row ≡ N.truth norm.now row (tree_of t.now)) }
{
    let listed = norm.rigid_vars(t, vars);
    let mut rows = table.truth(true);
    for x in 0..vars {
        if !listed.contains(x) {
            continue;
        }
        let rigid = table.var(x)?;
        rows = table.and(rows, rigid)?;
    }
    Ok(rows)
}

/// The rows of a set on which a variable says whether a term is rigid.
pub fn bound_rows<N: Norm>(
    norm: &N,
    table: &mut Table,
    set: Diagram,
    place: u32,
    t: &Term,
    vars: u32,
) -> Result<Diagram, AllocError>
    requires known { IsDiagram table.old set }
    requires place { place < VARIABLES }
    requires few { vars ≤ MOST_VARIABLES }
    requires below { IsTrue (is_below vars (tree_of t.now)) }
    requires small { nodes_of (tree_of t.now) ≤ MOST_NODES }
    ensures keeps { Keeps table.old table.new }
    ensures known { IfOk result (IsDiagram table.new) }
    ensures rows { IfOk result (λ d. (row : ℕ → Bool)
        → holds table.new d row ≡ (holds table.old set row
        && iff (row place) (N.truth norm.now row (tree_of t.now)))) }
{
    let rigid = rigid_rows(norm, table, t, vars)?;
    let variable = table.var(place)?;
    let agrees = table.iff(variable, rigid)?;
    table.and(set, agrees)
}
