//! Which clauses of a program are kept from one list of definite clauses to the next.

ghost use Rattle.std.specs.Prelude.{◌≡◌, ℕ, nat_lt, List, Some, None, IfOk, length, if◌then◌else◌};
ghost use Rattle.cti_terms.specs.Listing.{IsProgram};
ghost use Rattle.prolog_terms.specs.Clauses.{Clause as TextClause};
ghost use Rattle.solved_program.specs.Kept.{AreKept};
ghost use Rattle.kept_clauses.specs.KeptLists.{IsIncreasing, IsOnto, IsTotal};
ghost use Rattle.kept_clauses.specs.KeptPrograms.{IsListEdit, kept_of_program};

use cti_terms::Program;
use std::alloc::{AllocError, Global};

/// The number that the clause of `=`/2 had, which was the last one of a program with more clauses than its list.
fn equality_before(before: &Program, clauses_before: usize) -> Option<u32>
    ensures { result ≡ (if nat_lt clauses_before (length before.now.clauses)
        then Some (length before.now.clauses) else None) }
{
    let count = before.clauses();
    if clauses_before < count as usize {
        Some(count)
    } else {
        None
    }
}

/// What is kept of the list, and then of the clause of `=`/2, if there is one.
fn with_equality(
    alloc: Global,
    before: &Program,
    after: &Program,
    clauses_before: usize,
    kept: &[Option<u32>],
) -> Result<Vec<Option<u32>>, AllocError>
    ensures { IfOk result (λ v. v.items
        ≡ kept_of_program before.now after.now clauses_before kept.now) }
{
    let mut all = Vec::from_slice(alloc, kept)?;
    if kept.len() >= after.clauses() as usize {
        return Ok(all);
    }
    all.push(equality_before(before, clauses_before))?;
    Ok(all)
}

/// For each clause of a program of definite clauses the number, from 1 on, of the same clause in the program of another
/// list, if it was kept.
///
/// `kept` says this of the clauses of the two lists, and the earlier list has `clauses_before` of them. The clause of
/// `=`/2 is kept where both programs have it.
pub fn kept_clauses(
    alloc: Global,
    before: &Program,
    after: &Program,
    clauses_before: usize,
    kept: &[Option<u32>],
) -> Result<Vec<Option<u32>>, AllocError>
    // Exactly what is kept of the list, and then of the clause of =/2.
    ensures exact { IfOk result (λ v. v.items
        ≡ kept_of_program before.now after.now clauses_before kept.now) }

    // These are clauses that the two programs have in common.
    ensures kept { IfOk result (λ v. (names : List (List ℕ)) (cs ds : List TextClause)
        → IsListEdit names cs ds clauses_before kept.now before.now after.now
        → AreKept before.now after.now v.items) }

    // They keep their order where the list's do.
    ensures order { IfOk result (λ v. (names : List (List ℕ)) (cs ds : List TextClause)
        → IsListEdit names cs ds clauses_before kept.now before.now after.now
        → IsIncreasing kept.now → IsIncreasing v.items) }

    // Each new clause is kept where each of the list is, and each old one where each of the list is.
    ensures total { IfOk result (λ v. (names : List (List ℕ)) (cs ds : List TextClause)
        → IsListEdit names cs ds clauses_before kept.now before.now after.now
        → IsTotal kept.now → IsTotal v.items) }
    ensures onto { IfOk result (λ v. (names : List (List ℕ)) (cs ds : List TextClause)
        → IsListEdit names cs ds clauses_before kept.now before.now after.now
        → IsOnto clauses_before kept.now → IsOnto (length before.now.clauses) v.items) }
{
    let all = with_equality(alloc, before, after, clauses_before, kept)?;
    Ok(all)
}
