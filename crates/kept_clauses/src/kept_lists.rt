//! Which elements of a list are kept where one is put in or taken out.

ghost use Rattle.std.specs.Prelude.{◌≡◌, ◌<◌, ◌≤◌, ◌^◌, List, IfOk, length};
ghost use Rattle.std.specs.List.{insert, remove};
ghost use Rattle.prolog_terms.specs.Clauses.{Clause};
ghost use Rattle.kept_clauses.specs.KeptLists.{AreKeptList, IsIncreasing, IsOnto, IsTotal};
ghost use Rattle.kept_clauses.specs.KeptLists.{kept_by_insertion, kept_by_removal, kept_from};

use std::alloc::{AllocError, Global};

/// The numbers of `count` elements, from 1 on: all are kept.
#[tactic(auto, using(crate::proofs::KeptListLaws::from_more))]
pub fn all_kept(alloc: Global, count: usize) -> Result<Vec<Option<u32>>, AllocError>
    requires { count < 2 ^ 32 }
    ensures { IfOk result (λ v. v.items ≡ kept_from 1 count) }
{
    let mut kept = Vec::new(alloc);
    for i in 0..count {
        kept.push(Some(i as u32 + 1))?;
    }
    Ok(kept)
}

/// What is kept of a list of `count` clauses where one is put in after the first `at`: for each clause of the new list
/// its number before, from 1 on, and none for the new one.
pub fn kept_with(alloc: Global, count: usize, at: usize) -> Result<Vec<Option<u32>>, AllocError>
    requires few { count < 2 ^ 32 }
    requires within { at ≤ count }

    // Exactly which clauses: all but the new one.
    ensures exact { IfOk result (λ v. v.items ≡ kept_by_insertion count at) }

    // They are those of the list with it, in their order, and each of the old ones is one of them.
    ensures kept { IfOk result (λ v. (cs : List Clause) (c : Clause) → length cs ≡ count
        → AreKeptList cs (insert cs at c) v.items) }
    ensures order { IfOk result (λ v. IsIncreasing v.items) }
    ensures onto { IfOk result (λ v. IsOnto count v.items) }
{
    let mut kept = all_kept(alloc, count)?;
    kept.insert(at, None)?;
    Ok(kept)
}

/// What is kept of a list of `count` clauses where the one after the first `at` is taken out: for each clause of the
/// new list its number before, from 1 on.
pub fn kept_without(alloc: Global, count: usize, at: usize) -> Result<Vec<Option<u32>>, AllocError>
    requires few { count < 2 ^ 32 }
    requires within { at < count }

    // Exactly which clauses: all but that one.
    ensures exact { IfOk result (λ v. v.items ≡ kept_by_removal count at) }

    // They are those of the list without it, in their order, and each clause of that list is one of them.
    ensures kept { IfOk result (λ v. (cs : List Clause) → length cs ≡ count
        → AreKeptList cs (remove cs at) v.items) }
    ensures order { IfOk result (λ v. IsIncreasing v.items) }
    ensures total { IfOk result (λ v. IsTotal v.items) }
{
    let mut kept = all_kept(alloc, count)?;
    kept.remove(at);
    Ok(kept)
}
