//! The numbers of the components.

ghost use Rattle.std.specs.Prelude.{IfOk, length};
ghost use Rattle.call_components.specs.Search.{AreNumbers};
ghost use Rattle.call_components.specs.Table.{AreWithin};

use crate::pred_lists::PredLists;
use crate::search::Search;
use cti_terms::PredId;
use std::alloc::{AllocError, Global};

/// The component of each predicate, and how many components there are.
#[derive(Drop)]
pub(crate) struct Numbering {
    pub(crate) of: Vec<u32>,
    pub(crate) count: u32,
}

/// Numbers the components of these calls, callees first.
pub(crate) fn component_numbers(alloc: Global, table: &PredLists) -> Result<Numbering, AllocError>
    requires { AreWithin (length table.now) table.now }
    ensures { IfOk result (λ n. AreNumbers table.now n.of.items n.count) }
{
    let mut search = Search::new(alloc, table)?;
    for root in 0..table.count() {
        search.follow(table, PredId(root))?;
        search.finish(table)?;
    }
    Ok(Numbering {
        of: search.marks.numbers(alloc)?,
        count: search.count,
    })
}
