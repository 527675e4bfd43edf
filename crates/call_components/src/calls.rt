//! The calls of a program, by caller.

ghost use Rattle.std.specs.Prelude.{IfOk, length};
ghost use Rattle.call_components.specs.Table.{IsTable, AreWithin};

use crate::pred_lists::PredLists;
use cti_terms::Program;
use std::alloc::{AllocError, Global};

/// For each predicate those that its clauses call, in order.
pub(crate) fn call_table(alloc: Global, p: &Program) -> Result<PredLists, AllocError>
    ensures table { IfOk result (IsTable p.now) }
    ensures within { IfOk result (λ table. AreWithin (length table) table) }
{
    let mut table = PredLists::new(alloc, p.preds())?;
    for k in 0..p.clauses() {
        let clause = p.clause(k + 1);
        table.extend(clause.head.pred.0, &clause.body)?;
    }
    Ok(table)
}
