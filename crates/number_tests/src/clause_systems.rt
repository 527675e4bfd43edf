//! The system of a clause, an atom at a time.

ghost use Rattle.std.specs.Prelude.{◌≤◌, IfOk, OnOk, length};
ghost use Rattle.number_tests.specs.Systems.{IsSizedClause, IsSystemUpTo};
ghost use Rattle.termination_model.specs.sizes.Sizes.{rows_of};

use cti_terms::Clause;
use linear_rows::{Rows, System};
use std::alloc::{AllocError, Global};
use term_size::Norm;
use termination_model::{SizeRows, add_atom, add_expressions};

/// The system of a clause before its first atom: no rows, and the sizes of the head's arguments.
pub fn first_system<N: Norm>(
    alloc: Global,
    norm: &N,
    sizes: &SizeRows,
    clause: &Clause,
) -> Result<System, AllocError>
    requires { IsSizedClause sizes.now clause.now }
    ensures { IfOk result (λ s. IsSystemUpTo (N.expression norm.now)
        (rows_of sizes.now) clause.now 0 s) }
{
    let mut head = Rows::new(alloc, clause.vars);
    add_expressions(alloc, norm, &clause.head.args, &mut head)?;
    Ok(System {
        variables: clause.vars,
        rows: Rows::new(alloc, clause.vars),
        head,
        wide: false,
    })
}

/// Takes the atoms from one place up to another into the system of a clause.
pub fn extend<N: Norm>(
    alloc: Global,
    norm: &N,
    sizes: &SizeRows,
    clause: &Clause,
    from: usize,
    to: usize,
    system: &mut System,
) -> Result<(), AllocError>
    requires sized { IsSizedClause sizes.now clause.now }
    requires order { from ≤ to }
    requires last { to ≤ length clause.now.body }
    requires before { IsSystemUpTo (N.expression norm.now)
        (rows_of sizes.now) clause.now from system.old }
    ensures { OnOk result (IsSystemUpTo (N.expression norm.now)
        (rows_of sizes.now) clause.now to system.new) }
{
    for i in from..to {
        add_atom(alloc, norm, sizes, &clause.body.as_slice()[i], system)?;
    }
    Ok(())
}
