//! Clauses that are added all in one edit.

ghost use Rattle.std.specs.Prelude.{◌≡◌, ◌≤◌, ◌+◌, ◌<◌, ◌-◌, ◌^◌, ◌++◌, ◌∷◌, [], List, None, Some, IfOk, OnOk, OnErr, MatchResult, length, map};
ghost use Rattle.std.specs.List.{AllByRecursion};
ghost use Rattle.prolog_reader.specs.Fit.{IsFit};
ghost use Rattle.prolog_terms.specs.Terms.{clause_of};
ghost use Rattle.kept_clauses.specs.KeptLists.{AreKeptList};
ghost use Rattle.prolog_terms.specs.Clauses.{Clause};
ghost use Rattle.cti_session.specs.Extending.{IsPushed, StartsWith, first_fault};
ghost use Rattle.cti_session.specs.Faults.{IfNorm};
ghost use Rattle.edit_texts.specs.Following.{IsOneEdit, snapshot};
ghost use Rattle.edit_texts.specs.Snapshot.{HasProgram, KeepUntouched, nodes_in};

use crate::counting::term_nodes;
use crate::edit::EditFault;
use clause_normal::check_added;
use cti_terms::Names;
use edit_texts::follow;
use kept_clauses::all_kept;
use kept_program::KeptProgram;
use prolog_terms::ReadClause;
use std::alloc::{AllocError, Global};

/// Puts a clause last.
fn push(clauses: &mut Vec<ReadClause>, clause: ReadClause) -> Result<(), AllocError>
    ensures ok { OnOk result (clauses.new.items ≡ clauses.old.items ++ clause ∷ []) }
    ensures err { OnErr result (clauses.new.items ≡ clauses.old.items) }
{
    clauses.push(clause)?;
    Ok(())
}

/// Puts clauses after others, one after the other, up to the first that has a fault there. Gives how many nodes they
/// have together.
fn push_all(
    clauses: &mut Vec<ReadClause>,
    more: Vec<ReadClause>,
    names: &Names,
) -> Result<u32, EditFault>
    requires fit { AllByRecursion (IsFit (length names.now)) (map clause_of more.items) }
    requires small { nodes_in (map clause_of more.items) ≤ 2097152 }
    ensures pushed { IfOk result (IsPushed clauses.old.items more.items clauses.new.items) }
    ensures exact { let fault = first_fault names.now (length clauses.old.items)
        (map clause_of more.items) in
        MatchResult result (λ _. fault ≡ None) (λ e. IfNorm e (λ f. fault ≡ Some f)) }
    ensures before { StartsWith clauses.old.items clauses.new.items }
{
    let alloc = *clauses.allocator();
    let mut nodes = 0;
    for clause in more {
        check_added(alloc, &clause, names, clauses.len())?;
        nodes += term_nodes(alloc, &clause.term)?;
        push(clauses, clause)?;
    }
    Ok(nodes)
}

/// Which clauses of a list of `count` are those of the list with so many more after them: all of it.
fn kept_before(alloc: Global, count: usize, more: usize) -> Result<Vec<Option<u32>>, AllocError>
    requires few { count < 2 ^ 32 }
    ensures one { IfOk result (λ v. IsOneEdit count v.items) }
    ensures kept { IfOk result (λ v. (cs ds : List Clause) → length cs ≡ count → length ds ≡ more
        → AreKeptList cs (cs ++ ds) v.items) }
{
    let mut kept = all_kept(alloc, count)?;
    for _ in 0..more {
        kept.push(None)?;
    }
    Ok(kept)
}

/// Puts clauses after the first `count` ones, which are all, and follows. After an error the program is as before, and
/// some of the clauses may stand there.
fn extended(
    kept: &mut KeptProgram,
    clauses: &mut Vec<ReadClause>,
    count: usize,
    more: Vec<ReadClause>,
    names: &mut Names,
) -> Result<u32, EditFault>
    requires count { count ≡ length clauses.old.items }
    requires known { HasProgram names.old (snapshot clauses.old.items kept.old) }
    requires fit { AllByRecursion (IsFit (length names.old)) (map clause_of more.items) }
    requires small { nodes_in (map clause_of clauses.old.items) + nodes_in (map clause_of more.items)
        ≤ 2097152 }
    requires room { length names.old < 2 ^ 32 - 3 }
    ensures pushed { IfOk result (IsPushed clauses.old.items more.items clauses.new.items) }
    ensures program { OnOk result (HasProgram names.new (snapshot clauses.new.items kept.new)) }
    ensures untouched { OnOk result (KeepUntouched kept.old kept.new) }
    ensures exact { let fault = first_fault names.old (length clauses.old.items)
        (map clause_of more.items) in
        MatchResult result (λ _. fault ≡ None) (λ e. IfNorm e (λ f. fault ≡ Some f)) }
    ensures before { StartsWith clauses.old.items clauses.new.items }
    ensures err { OnErr result (kept.new ≡ kept.old) }
    ensures names { names.new ≡ names.old }
{
    let nodes = push_all(clauses, more, names)?;
    let since = kept_before(*clauses.allocator(), count, clauses.len() - count)?;
    follow(kept, clauses, count, &since, names)?;
    Ok(nodes)
}

/// Puts clauses after others, all in one edit, and gives how many nodes they have together. After an error all is as
/// before.
pub(crate) fn extend(
    kept: &mut KeptProgram,
    clauses: &mut Vec<ReadClause>,
    more: Vec<ReadClause>,
    names: &mut Names,
) -> Result<u32, EditFault>
    requires known { HasProgram names.old (snapshot clauses.old.items kept.old) }
    requires fit { AllByRecursion (IsFit (length names.old)) (map clause_of more.items) }
    requires small { nodes_in (map clause_of clauses.old.items) + nodes_in (map clause_of more.items)
        ≤ 2097152 }
    requires room { length names.old < 2 ^ 32 - 3 }
    ensures pushed { IfOk result (IsPushed clauses.old.items more.items clauses.new.items) }
    ensures program { OnOk result (HasProgram names.new (snapshot clauses.new.items kept.new)) }
    ensures untouched { OnOk result (KeepUntouched kept.old kept.new) }
    ensures exact { let fault = first_fault names.old (length clauses.old.items)
        (map clause_of more.items) in
        MatchResult result (λ _. fault ≡ None) (λ e. IfNorm e (λ f. fault ≡ Some f)) }
    ensures err { OnErr result ((clauses.new.items ≡ clauses.old.items) × (kept.new ≡ kept.old)) }
    ensures names { names.new ≡ names.old }
{
    let count = clauses.len();
    match extended(kept, clauses, count, more, names) {
        Ok(nodes) => Ok(nodes),
        Err(fault) => {
            clauses.truncate(count);
            Err(fault)
        }
    }
}
