//! Falls of mappings at calls.

ghost use Rattle.std.specs.Io.Iter.{u64_saturate};
ghost use Rattle.std.specs.Prelude.{◌≡◌, ◌↔◌, ◌+◌, ◌-◌, ◌≤◌, ℕ, List, IfOk, IfSome, IsTrue, None, Some, length, map, slice_get};
ghost use Rattle.std.specs.List.{AllByRecursion};
ghost use Rattle.call_components.specs.Partition.{AreComponents};
ghost use Rattle.cert_checker.specs.CallFalls.{FindsCall, IsReadyCall};
ghost use Rattle.cert_checker.specs.Finding.{FallsFail, Finds, MappingsFail};
ghost use Rattle.cert_checker.specs.Proved.{CallsFall, FallsHold};
ghost use Rattle.cert_structure.specs.Order.{fall_facts, falls_line};
ghost use Rattle.cert_structure.specs.Numbered.{facts_from, lines_from};
ghost use Rattle.number_tests.specs.Failing.{MultipliersFail, before};
ghost use Rattle.linear_rows.specs.Showing.{AreMultipliers, IsShown};
ghost use Rattle.number_tests.specs.Shape.{list_at};
ghost use Rattle.cert_checker.specs.Shape.{HaveFalls, HaveLevels};
ghost use Rattle.number_tests.specs.Targets.{AreFallColumns, CanBeWeighed, fall_weights};
ghost use Rattle.number_tests.specs.declared.level_part.LevelPart.{LevelPart};
ghost use Rattle.cti_terms.specs.Listing.{atom_nodes};
ghost use Rattle.cti_terms.specs.Tree.{is_below};
ghost use Rattle.cti_terms.specs.declared.clauses.Clause.{Clause as TheClause};
ghost use Rattle.linear_rows.specs.Plain.{HaveWidth, plain_rows};
ghost use Rattle.linear_rows.specs.declared.multipliers.Multipliers.{Multipliers as TheMultipliers};
ghost use Rattle.termination_model.specs.sizes.Replacing.{over_columns};
ghost use Rattle.termination_model.specs.sizes.Sizes.{AreSizes};

use crate::fault::Fault;
use crate::reason::Reason;
use call_components::Components;
use cert_structure::{LevelPart, Parts};
use cti_terms::{Atom, Clause, Program};
use linear_rows::{Multipliers, Numbers, Rows, System};
use number_tests::{Flaw, extend, fall_columns, first_system, multipliers_flaw, weigh_drop};
use sequences::Sequence;
use std::alloc::{AllocError, Global};
use term_size::Norm;
use termination_model::replaced;

/// Why multipliers do not show that a mapping falls over the rows of a system, if they do not.
///
/// The columns are those of the head's arguments and of the call's.
fn mapping_flaw(
    alloc: Global,
    rows: &Rows,
    columns: &[Numbers],
    head: &LevelPart,
    call: &LevelPart,
    by: &Multipliers,
) -> Result<Option<Flaw>, AllocError>
    requires multipliers { AreMultipliers (length rows.now.list) by.now }
    requires weighed { CanBeWeighed columns.now head.now call.now }
    requires width { HaveWidth rows.now.width rows.now.list }
    requires count { length columns.now ≡ rows.now.width + 1 }
    ensures shown { IfOk result
        (λ flaw. (flaw ≡ None) ↔ IsShown (plain_rows rows.now.list)
        (over_columns columns.now (fall_weights head.now call.now)) by.now) }
    ensures fails { IfOk result
        (λ flaw. IfSome flaw (MultipliersFail (plain_rows rows.now.list) by.now.list
        (over_columns columns.now (fall_weights head.now call.now)) by.now.scale)) }
{
    let weights = weigh_drop(alloc, head, call, true)?;
    let target = replaced(alloc, weights.as_slice(), columns)?;
    Ok(multipliers_flaw(rows, target, by))
}

/// The first mapping that its multipliers do not show to fall. The first one has this line.
///
/// The columns are those of the head's arguments and of the call's.
fn mapping_fault(
    alloc: Global,
    rows: &Rows,
    columns: &[Numbers],
    heads: &[LevelPart],
    calls: &[LevelPart],
    proofs: &[Multipliers],
    line: u64,
) -> Result<Option<Fault>, AllocError>
    requires heads { length heads.now ≡ length proofs.now }
    requires calls { length calls.now ≡ length proofs.now }
    requires multipliers { AllByRecursion (AreMultipliers (length rows.now.list)) proofs.now }
    requires parts { (m : ℕ) (head call : LevelPart) → slice_get heads.now m ≡ Some head
        → slice_get calls.now m ≡ Some call → CanBeWeighed columns.now head call }
    requires width { HaveWidth rows.now.width rows.now.list }
    requires count { length columns.now ≡ rows.now.width + 1 }
    ensures hold { IfOk result
        (λ fault. (fault ≡ None) ↔ ((m : ℕ) (head call : LevelPart) (by : TheMultipliers)
        → slice_get heads.now m ≡ Some head → slice_get calls.now m ≡ Some call
        → slice_get proofs.now m ≡ Some by
        → IsShown (plain_rows rows.now.list)
        (over_columns columns.now (fall_weights head call)) by)) }
    ensures first { IfOk result (λ fault. (k j : ℕ)
        → Finds (MappingsFail (plain_rows rows.now.list) columns.now heads.now calls.now) line
        (lines_from 0 (falls_line k j) proofs.now) fault) }
{
    for m in 0..proofs.len() {
        let flaw = mapping_flaw(alloc, rows, columns, &heads[m], &calls[m], &proofs[m])?;
        if let Some(flaw) = flaw {
            return Ok(Some(Fault {
                line: line.saturating_add(m as u64),
                reason: Reason::of(flaw, Reason::Measure),
            }));
        }
    }
    Ok(None)
}

/// A call of a clause's own component, with all parts of mappings and the system of the atoms before the call.
#[derive(Clone, Copy)]
struct OwnCall<'a> {
    levels: &'a [Sequence<LevelPart>],
    clause: &'a Clause,
    call: &'a Atom,
    system: &'a System,
}

/// The first mapping that its multipliers do not show to fall at a call. The first one has this line.
fn call_fault<N: Norm>(
    alloc: Global,
    norm: &N,
    own: &OwnCall,
    proofs: &[Multipliers],
    line: u64,
) -> Result<Option<Fault>, AllocError>
    requires { IsReadyCall (N.expression norm.now) own.now.levels.now own.now.clause.now
        own.now.call.now own.now.system.now proofs.now }
    ensures { IfOk result (FindsCall (N.expression norm.now) own.now.levels.now
        own.now.clause.now own.now.call.now own.now.system.now proofs.now line) }
{
    let heads = own.levels[own.clause.head.pred.0 as usize].as_slice();
    let calls = own.levels[own.call.pred.0 as usize].as_slice();
    let columns = fall_columns(alloc, norm, own.system, own.call)?;
    let columns = columns.as_slice();
    mapping_fault(alloc, &own.system.rows, columns, heads, calls, proofs, line)
}

/// The first fall of a clause that is not shown. Clauses count from 1, and the first fall has the line `first`.
fn clause_fall_fault<N: Norm>(
    alloc: Global,
    p: &Program,
    comps: &Components,
    norm: &N,
    parts: &Parts,
    k: u32,
    first: u64,
) -> Result<Option<Fault>, AllocError>
    requires first { 1 ≤ k }
    requires last { k ≤ length p.now.clauses }
    requires components { AreComponents p.now comps.now }
    requires sizes { AreSizes p.now.preds parts.now.rows }
    requires levels { HaveLevels p.now comps.now parts.now }
    requires falls { HaveFalls p.now comps.now parts.now }
    ensures hold { IfOk result (λ fault. (c : TheClause) → slice_get p.now.clauses (k - 1) ≡ Some c
        → (fault ≡ None) ↔ CallsFall (N.expression norm.now) comps.now parts.now c
        (list_at parts.now.falls (k - 1))) }
    ensures first { IfOk result
        (Finds (FallsFail (N.expression norm.now) p.now comps.now parts.now) first
        (facts_from 0 (λ j ms. lines_from 0 (falls_line (k - 1) j) ms)
        (list_at parts.now.falls (k - 1)))) }
{
    let clause = p.clause(k);
    let component = comps.of(clause.head.pred);
    let levels = parts.levels.as_slice();
    let proofs = parts.falls.as_slice()[k as usize - 1].as_slice();
    let mut system = first_system(alloc, norm, &parts.rows, clause)?;
    let mut atoms = 0;
    let mut line = first;
    for j in 0..clause.body.len() {
        let call = &clause.body.as_slice()[j];
        let own = proofs[j].as_slice();
        let start = line;
        line = line.saturating_add(own.len() as u64);
        if comps.of(call.pred) != component {
            continue;
        }
        extend(alloc, norm, &parts.rows, clause, atoms, j, &mut system)?;
        atoms = j;
        let own_call = OwnCall {
            levels,
            clause,
            call,
            system: &system,
        };
        if let Some(fault) = call_fault(alloc, norm, &own_call, own, start)? {
            return Ok(Some(fault));
        }
    }
    Ok(None)
}

/// The line after the falls of a clause, the first of which has the line `first`.
fn line_after(proofs: &[Sequence<Multipliers>], first: u64) -> u64
    ensures { (n : ℕ) → u64_saturate (result + n)
        ≡ u64_saturate (first + before (λ (ms : List TheMultipliers). length ms) proofs.now
        (length proofs.now) + n) }
{
    let mut line = first;
    for own in proofs {
        line = line.saturating_add(own.len() as u64);
    }
    line
}

/// The first mapping that its multipliers do not show to fall at a call of the clause's own component.
///
/// There is one line for each clause, each such call and each mapping, from the line `first` on. `Measure` says that
/// the multipliers fail over the rows of the atoms before the call, and `Wide` that a number does not fit.
pub fn fall_fault<N: Norm>(
    alloc: Global,
    p: &Program,
    comps: &Components,
    norm: &N,
    parts: &Parts,
    first: u64,
) -> Result<Option<Fault>, AllocError>
    requires components { AreComponents p.now comps.now }
    requires sizes { AreSizes p.now.preds parts.now.rows }
    requires levels { HaveLevels p.now comps.now parts.now }
    requires falls { HaveFalls p.now comps.now parts.now }
    ensures hold { IfOk result
        (λ fault. (fault ≡ None) ↔ FallsHold (N.expression norm.now) p.now comps.now parts.now) }
    ensures first { IfOk result
        (Finds (FallsFail (N.expression norm.now) p.now comps.now parts.now) first
        (fall_facts parts.now.falls)) }
{
    let mut line = first;
    for k in 0..p.clauses() {
        let fault = clause_fall_fault(alloc, p, comps, norm, parts, k + 1, line)?;
        if let Some(fault) = fault {
            return Ok(Some(fault));
        }
        line = line_after(parts.falls.as_slice()[k as usize].as_slice(), line);
    }
    Ok(None)
}
