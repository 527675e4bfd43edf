//! Rows by which mappings fall at calls.

ghost use Rattle.std.specs.Prelude.{◌≡◌, ◌≤◌, IfOk, IsTrue, map};
ghost use Rattle.std.specs.List.{AllByRecursion};
ghost use Rattle.cti_terms.specs.Listing.{atom_nodes};
ghost use Rattle.cti_terms.specs.Tree.{is_below};
ghost use Rattle.linear_rows.specs.Plain.{plain_rows};
ghost use Rattle.number_tests.specs.Targets.{AreFallColumns};

use crate::targets::join_columns;
use cti_terms::{Atom, MOST_NODES, MOST_VARIABLES};
use linear_rows::{Numbers, Rows, System};
use std::alloc::{AllocError, Global};
use term_size::Norm;
use termination_model::{add_expressions, columns};

/// The columns of a clause's head and of a call of its body, over the clause's variables.
pub fn fall_columns<N: Norm>(
    alloc: Global,
    norm: &N,
    system: &System,
    call: &Atom,
) -> Result<Vec<Numbers>, AllocError>
    requires few { system.now.head.width ≤ MOST_VARIABLES }
    requires below { AllByRecursion (λ t. IsTrue (is_below system.now.head.width t)) call.now.args }
    requires small { atom_nodes call.now ≤ MOST_NODES }
    ensures { IfOk result (λ columns. AreFallColumns (plain_rows system.now.head.list)
        (map (N.expression norm.now system.now.head.width) call.now.args)
        system.now.head.width columns.items) }
{
    let head = columns(alloc, &system.head)?;
    let mut sizes = Rows::new(alloc, system.head.width);
    add_expressions(alloc, norm, &call.args, &mut sizes)?;
    let own = columns(alloc, &sizes)?;
    join_columns(alloc, head.as_slice(), own.as_slice())
}
