//! The columns of an atom's arguments.

ghost use Rattle.std.specs.Prelude.{◌≡◌, ◌≤◌, ◌<◌, IfOk, IsTrue, length, suc, sum, ◌*◌};
ghost use Rattle.std.specs.List.{AllByRecursion};
ghost use Rattle.cti_terms.specs.Listing.{atom_nodes};
ghost use Rattle.cti_terms.specs.Tree.{is_below};
ghost use Rattle.number_columns.specs.ColumnLists.{HaveLength, columns_over, counts_at, kinds_at, plain_columns};

use crate::columns::{ColumnList, Columns};
use cti_terms::{Atom, MOST_NODES, MOST_VARIABLES};
use std::alloc::{AllocError, Global};

/// The columns of an atom's arguments, in order, over the numbers of the first variables.
pub fn atom_columns<C: Columns>(
    alloc: Global,
    columns: &C,
    atom: &Atom,
    vars: u32,
) -> Result<ColumnList, AllocError>
    requires known { atom.now.pred.0 < length (C.listed columns.now) }
    requires arity { length (kinds_at (C.listed columns.now) atom.now.pred.0) ≡ length atom.now.args }
    requires below { AllByRecursion (λ t. IsTrue (is_below vars t)) atom.now.args }
    requires few { vars ≤ MOST_VARIABLES }
    requires small { atom_nodes atom.now ≤ MOST_NODES }
    ensures columns { IfOk result (λ list. plain_columns list ≡ columns_over (C.columns columns.now)
        (counts_at (C.count columns.now) (C.listed columns.now)) vars atom.now) }
    ensures lengths { IfOk result (λ list. HaveLength (vars * (C.columns columns.now).width)
        (plain_columns list)) }
    ensures count { IfOk result (λ list. length list
        ≡ sum (counts_at (C.count columns.now) (C.listed columns.now) atom.now.pred.0)) }
{
    let kinds = columns.kinds().get(atom.pred.0 as usize).as_slice();
    let args = atom.args.as_slice();
    let mut list = ColumnList::new(alloc);
    for i in 0..args.len() {
        columns.add_columns(alloc, &args[i], kinds[i], vars, &mut list)?;
    }
    Ok(list)
}
