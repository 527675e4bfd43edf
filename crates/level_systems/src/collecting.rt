//! The calls of a component of itself, in the order of its clauses.

ghost use Rattle.std.specs.Prelude.{◌≡◌, ◌-◌, ◌≤◌, ◌<◌, ◌++◌, IfOk, IfSome, None, Some, length, map, slice_get, true, false};
ghost use Rattle.std.specs.List.{AllByRecursion};
ghost use Rattle.call_components.specs.Partition.{AreComponents, IsIn};
ghost use Rattle.component_clauses.specs.Numbered.{HasItsClauses};
ghost use Rattle.cti_terms.specs.declared.clauses.Clause.{Clause};
ghost use Rattle.level_systems.specs.Collected.{IsHeldIn, SomeGivenUp};
ghost use Rattle.level_systems.specs.Held.{IsGivenUp, IsHeldAs, numbers_of_call};
ghost use Rattle.level_systems.specs.Pairs.{calls_from, clause_at, pairs_of};
ghost use Rattle.termination_model.specs.sizes.Sizes.{AreSizes, rows_of};

use crate::own_call::OwnCall;
use crate::reaching::{Reach, emptiness};
use call_components::Components;
use component_clauses::ComponentClauses;
use cti_terms::Program;
use linear_rows::Rows;
use number_tests::fall_columns;
use std::alloc::{AllocError, Global};
use term_size::Norm;
use termination_model::{Sizes, add_expressions, system};

/// A call, where its rows fit and their test is not blown. Clause and call count from 1.
fn own_call<N: Norm>(
    alloc: Global,
    p: &Program,
    norm: &N,
    sizes: &Sizes,
    k: u32,
    j: u32,
) -> Result<Option<OwnCall>, AllocError>
    requires first { 1 ≤ k }
    requires last { k ≤ length p.now.clauses }
    requires call { 1 ≤ j }
    requires body { (c : Clause) → slice_get p.now.clauses (k - 1) ≡ Some c → j ≤ length c.body }
    requires sizes { AreSizes p.now.preds sizes.now.rows }
    ensures held { IfOk result
        (λ o. IfSome o (IsHeldAs (N.expression norm.now) p.now (rows_of sizes.now.rows) k j)) }
    ensures none { IfOk result (λ o. o ≡ None
        → IsGivenUp (N.expression norm.now) p.now (rows_of sizes.now.rows) k j) }
{
    let clause = p.clause(k);
    let call = &clause.body.as_slice()[j as usize - 1];
    let before = system(alloc, p, norm, sizes, k, j - 1)?;
    if before.wide {
        return Ok(None);
    }
    let mut callee_sizes = Rows::new(alloc, clause.vars);
    add_expressions(alloc, norm, &call.args, &mut callee_sizes)?;
    let columns = fall_columns(alloc, norm, &before, call)?;
    let empty = match emptiness(alloc, &before.rows)? {
        Reach::Live => None,
        Reach::Empty(by) => Some(by),
        Reach::Blown => return Ok(None),
    };
    Ok(Some(OwnCall {
        clause: k,
        call: j,
        caller: clause.head.pred,
        callee: call.pred,
        caller_sizes: before.head,
        callee_sizes,
        columns,
        rows: before.rows,
        empty,
    }))
}

/// What the calls of a component are collected from: a program with its components, a norm, and sizes of its
/// predicates.
struct Setting<'a, N> {
    program: &'a Program,
    comps: &'a Components,
    norm: &'a N,
    sizes: &'a Sizes,
}

impl<N> Drop for Setting<'_, N> {
    fn drop(self) {
        let Setting {
            program: _,
            comps: _,
            norm: _,
            sizes: _,
        } = self;
    }
}

/// Adds the calls of a clause, and says whether none was given up.
fn add_calls<N: Norm>(
    alloc: Global,
    setting: &Setting<N>,
    c: u32,
    k: u32,
    calls: &mut Vec<OwnCall>,
) -> Result<bool, AllocError>
    requires components { AreComponents setting.now.program.now setting.now.comps.now }
    requires first { 1 ≤ k }
    requires last { k ≤ length setting.now.program.now.clauses }
    requires inside { IsIn setting.now.comps.now c (clause_at setting.now.program.now k).head.pred.0 }
    requires sizes { AreSizes setting.now.program.now.preds setting.now.sizes.now.rows }
    requires held { AllByRecursion
        (IsHeldIn (N.expression setting.now.norm.now) setting.now.program.now
        (rows_of setting.now.sizes.now.rows) setting.now.comps.now c) calls.old.items }
    ensures pairs { IfOk result (λ all. all ≡ true
        → map numbers_of_call calls.new.items ≡ map numbers_of_call calls.old.items
        ++ calls_from setting.now.comps.now c k 0 (clause_at setting.now.program.now k).body) }
    ensures held { IfOk result
        (λ all. AllByRecursion (IsHeldIn (N.expression setting.now.norm.now) setting.now.program.now
        (rows_of setting.now.sizes.now.rows) setting.now.comps.now c) calls.new.items) }
    ensures given_up { IfOk result (λ all. all ≡ false
        → SomeGivenUp (N.expression setting.now.norm.now) setting.now.program.now
        (rows_of setting.now.sizes.now.rows)
        (calls_from setting.now.comps.now c k 0 (clause_at setting.now.program.now k).body)) }
{
    let clause = setting.program.clause(k);
    for j in 0..clause.body.len() {
        let call = &clause.body.as_slice()[j];
        if setting.comps.of(call.pred) != c {
            continue;
        }
        let Some(own) = own_call(
            alloc,
            setting.program,
            setting.norm,
            setting.sizes,
            k,
            j as u32 + 1,
        )?
        else {
            return Ok(false);
        };
        calls.push(own)?;
    }
    Ok(true)
}

/// The calls of members in clauses of members, by clause and call, where none is given up.
///
/// A call is given up where a size row before it has a number that does not fit over the clause's variables, or where
/// the test whether these rows are empty is blown.
pub fn own_calls<N: Norm>(
    alloc: Global,
    own: &ComponentClauses<'_>,
    norm: &N,
    sizes: &Sizes,
) -> Result<Option<Vec<OwnCall>>, AllocError>
    requires clauses { HasItsClauses own.now }
    requires sizes { AreSizes own.now.program.now.preds sizes.now.rows }
    ensures pairs { IfOk result
        (λ o. IfSome o (λ calls. map numbers_of_call calls.items
        ≡ pairs_of own.now.program.now own.now.comps.now own.now.number)) }
    ensures held { IfOk result
        (λ o. IfSome o (λ calls. AllByRecursion
        (IsHeldIn (N.expression norm.now) own.now.program.now
        (rows_of sizes.now.rows) own.now.comps.now own.now.number) calls.items)) }
    ensures given_up { IfOk result (λ o. o ≡ None
        → SomeGivenUp (N.expression norm.now) own.now.program.now (rows_of sizes.now.rows)
        (pairs_of own.now.program.now own.now.comps.now own.now.number)) }
{
    // What every program keeps.
    own.program.preds();
    let setting = Setting {
        program: own.program,
        comps: own.comps,
        norm,
        sizes,
    };
    let mut calls = Vec::new(alloc);
    for k in own.clauses {
        if !add_calls(alloc, &setting, own.number, *k, &mut calls)? {
            return Ok(None);
        }
    }
    Ok(Some(calls))
}
