//! The program of clauses that come and go, with what is kept of it.

ghost use Rattle.std.specs.Prelude.{◌≡◌, ◌≤◌, ◌<◌, ◌-◌, ◌^◌, [], IfOk, OnOk, OnErr, length, map, vec_len};
ghost use Rattle.std.specs.List.{insert as inserted, remove as removed};
ghost use Rattle.clause_normal.specs.ChoiceNames.{HasOperations};
ghost use Rattle.clause_normal.specs.Definite.{AreDefinite};
ghost use Rattle.clause_normal.specs.Numbering.{operation_texts};
ghost use Rattle.prolog_reader.specs.Fit.{AreFit};
ghost use Rattle.prolog_reader.specs.Names.{Extends};
ghost use Rattle.prolog_reader.specs.Naming.{with_names};
ghost use Rattle.prolog_terms.specs.Terms.{clause_of};
ghost use Rattle.edit_texts.specs.Following.{IsBefore, IsOneEdit, snapshot};
ghost use Rattle.edit_texts.specs.Snapshot.{HasProgram, KeepUntouched};

use clause_normal::definite_program;
use cti_terms::Names;
use kept_clauses::{kept_clauses, kept_with, kept_without};
use kept_program::KeptProgram;
use prolog_terms::ReadClause;
use std::alloc::{AllocError, Global};

/// The program of no clauses. The names of arithmetic operations are added.
pub fn first_program(alloc: Global, names: &mut Names) -> Result<KeptProgram, AllocError>
    requires room { length names.old < 2 ^ 32 - 3 }
    ensures program { IfOk result (λ kept. HasProgram names.new (snapshot [] kept)) }
    ensures names { OnOk result (names.new ≡ with_names names.old operation_texts) }
    ensures kept { Extends names.old names.new }
{
    let program = definite_program(alloc, &[], names)?;
    KeptProgram::new(alloc, program)
}

/// Puts the program of these clauses in the place of an earlier one, that of `count` clauses. `since` says which of
/// those each of these is.
///
/// After an error all is as before.
pub fn follow(
    kept: &mut KeptProgram,
    clauses: &Vec<ReadClause>,
    count: usize,
    since: &[Option<u32>],
    names: &mut Names,
) -> Result<(), AllocError>
    requires before { IsBefore names.old kept.old.program count (map clause_of clauses.now.items)
        since.now }
    requires fit { AreFit (length names.old) (map clause_of clauses.now.items) }
    requires definite { AreDefinite names.old (map clause_of clauses.now.items) }
    requires operations { HasOperations names.old }
    requires room { length names.old < 2 ^ 32 - 3 }
    ensures program { OnOk result (HasProgram names.new (snapshot clauses.now.items kept.new)) }
    ensures untouched { OnOk result (IsOneEdit count since.now → KeepUntouched kept.old kept.new) }
    ensures err { OnErr result (kept.new ≡ kept.old) }
    ensures names { names.new ≡ names.old }
{
    let _names = names.count();
    let alloc = *clauses.allocator();
    let program = definite_program(alloc, clauses.as_slice(), names)?;
    let same = kept_clauses(alloc, kept.program(), &program, count, since)?;
    kept.edit(alloc, program, &same)
}

/// Puts in a clause after the first `at` ones, and follows. After an error all is as before.
pub fn follow_with(
    kept: &mut KeptProgram,
    clauses: &mut Vec<ReadClause>,
    at: usize,
    clause: ReadClause,
    names: &mut Names,
) -> Result<(), AllocError>
    requires at { at ≤ vec_len clauses.old }
    requires known { HasProgram names.old (snapshot clauses.old.items kept.old) }
    requires fit { AreFit (length names.old)
        (inserted (map clause_of clauses.old.items) at (clause_of clause)) }
    requires definite { AreDefinite names.old
        (inserted (map clause_of clauses.old.items) at (clause_of clause)) }
    requires room { length names.old < 2 ^ 32 - 3 }
    ensures clauses { OnOk result (map clause_of clauses.new.items
        ≡ inserted (map clause_of clauses.old.items) at (clause_of clause)) }
    ensures program { OnOk result (HasProgram names.new (snapshot clauses.new.items kept.new)) }
    ensures untouched { OnOk result (KeepUntouched kept.old kept.new) }
    ensures err { OnErr result ((clauses.new.items ≡ clauses.old.items) × (kept.new ≡ kept.old)) }
    ensures names { names.new ≡ names.old }
{
    let alloc = *clauses.allocator();
    let count = clauses.len();
    let since = kept_with(alloc, count, at)?;
    clauses.insert(at, clause)?;
    match follow(kept, clauses, count, &since, names) {
        Ok(()) => Ok(()),
        Err(error) => {
            let _refused = clauses.remove(at);
            Err(error)
        }
    }
}

/// Takes out the clause after the first `at` ones, and follows. After an error all is as before.
pub fn follow_without(
    kept: &mut KeptProgram,
    clauses: &mut Vec<ReadClause>,
    at: usize,
    names: &mut Names,
) -> Result<(), AllocError>
    requires at { at < vec_len clauses.old }
    requires known { HasProgram names.old (snapshot clauses.old.items kept.old) }
    requires room { length names.old < 2 ^ 32 - 3 }
    ensures clauses { OnOk result (map clause_of clauses.new.items
        ≡ removed (map clause_of clauses.old.items) at) }
    ensures program { OnOk result (HasProgram names.new (snapshot clauses.new.items kept.new)) }
    ensures untouched { OnOk result (KeepUntouched kept.old kept.new) }
    ensures err { OnErr result ((clauses.new.items ≡ clauses.old.items) × (kept.new ≡ kept.old)) }
    ensures names { names.new ≡ names.old }
{
    let alloc = *clauses.allocator();
    let count = clauses.len();
    let since = kept_without(alloc, count, at)?;
    let clause = clauses.remove(at);
    match follow(kept, clauses, count, &since, names) {
        Ok(()) => Ok(()),
        Err(error) => {
            // Its place in memory is still there, so this does not fail.
            clauses.insert(at, clause)?;
            Err(error)
        }
    }
}
