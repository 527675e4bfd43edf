//! The clauses of each component.

ghost use Rattle.std.specs.Prelude.{◌≡◌, ◌<◌, ◌++◌, ◌∷◌, [], IfOk, OnOk, length, replicate, slice_index_or, slice_set};
ghost use Rattle.call_components.specs.Partition.{AreComponents};
ghost use Rattle.component_clauses.specs.Numbered.{AreOwnClauses};

use call_components::Components;
use cti_terms::Program;
use sequences::Sequence;
use std::alloc::{AllocError, Global};

/// An empty list for each component.
fn empty_lists(alloc: Global, count: u32) -> Result<Vec<Sequence<u32>>, AllocError>
    ensures { IfOk result (λ lists. lists.items ≡ replicate count []) }
{
    let mut lists = Vec::new(alloc);
    for _c in 0..count {
        lists.push(Sequence::new(alloc))?;
    }
    Ok(lists)
}

/// Puts the number of a clause last in the list of its component.
fn push_own(lists: &mut Vec<Sequence<u32>>, c: u32, k: u32) -> Result<(), AllocError>
    requires { c < length lists.old.items }
    ensures { OnOk result (lists.new.items ≡ slice_set lists.old.items c
        (slice_index_or lists.old.items c [] ++ k ∷ [])) }
{
    let own = &mut lists[c as usize];
    own.push(k)?;
    Ok(())
}

/// For each component the numbers of its predicates' clauses, in order.
pub fn own_clauses(
    alloc: Global,
    p: &Program,
    comps: &Components,
) -> Result<Vec<Sequence<u32>>, AllocError>
    requires { AreComponents p.now comps.now }
    ensures { IfOk result (λ lists. AreOwnClauses p.now comps.now lists.items) }
{
    let mut lists = empty_lists(alloc, comps.count())?;
    for i in 0..p.clauses() {
        let c = comps.of(p.clause(i + 1).head.pred);
        push_own(&mut lists, c, i + 1)?;
    }
    Ok(lists)
}
