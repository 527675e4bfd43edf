//! The calls of a component of itself, in the order of its clauses.

ghost use Rattle.std.specs.Prelude.{◌≡◌, ◌-◌, ◌≤◌, ◌++◌, IfOk, IfSome, None, Some, length, map, slice_get, true, false};
ghost use Rattle.std.specs.List.{AllByRecursion};
ghost use Rattle.call_components.specs.Partition.{AreComponents, IsIn};
ghost use Rattle.component_clauses.specs.Numbered.{HasItsClauses};
ghost use Rattle.cti_terms.specs.declared.clauses.Clause.{Clause};
ghost use Rattle.level_systems.specs.Pairs.{calls_from, clause_at, pairs_of};
ghost use Rattle.number_columns.specs.ColumnLists.{AreColumnSizes, HaveKinds, counts_at};
ghost use Rattle.termination_model.specs.sizes.Sizes.{rows_of};
ghost use Rattle.component_transitions.specs.OwnTransitions.{IsGivenUp, IsHeldAs, IsHeldIn, SomeGivenUp, numbers_of_call};

use crate::own_transition::OwnTransition;
use call_components::Components;
use component_clauses::ComponentClauses;
use cti_terms::Program;
use level_systems::{Reach, emptiness};
use number_columns::{Columns, atom_columns, column_system};
use number_turns::{AtomColumns, Transition};
use std::alloc::{AllocError, Global};
use termination_model::SizeRows;

/// A call's transition, where its rows fit and their test is not blown. Clause and call count from 1.
fn own_transition<C: Columns>(
    alloc: Global,
    p: &Program,
    columns: &C,
    sizes: &SizeRows,
    k: u32,
    j: u32,
) -> Result<Option<OwnTransition>, AllocError>
    requires first { 1 ≤ k }
    requires last { k ≤ length p.now.clauses }
    requires call { 1 ≤ j }
    requires body { (c : Clause) → slice_get p.now.clauses (k - 1) ≡ Some c → j ≤ length c.body }
    requires suits { C.suits columns.now p.now.arithmetic.names }
    requires kinds { HaveKinds p.now.preds (C.listed columns.now) }
    requires sizes { AreColumnSizes p.now.preds
        (counts_at (C.count columns.now) (C.listed columns.now)) sizes.now }
    ensures held { IfOk result (λ o. IfSome o (IsHeldAs (C.columns columns.now)
        (counts_at (C.count columns.now) (C.listed columns.now)) (rows_of sizes.now) p.now k j)) }
    ensures none { IfOk result (λ o. o ≡ None → IsGivenUp (C.columns columns.now)
        (counts_at (C.count columns.now) (C.listed columns.now)) (rows_of sizes.now) p.now k j) }
{
    let clause = p.clause(k);
    let call = &clause.body.as_slice()[j as usize - 1];
    let before = column_system(alloc, p, columns, sizes, k, j - 1)?;
    if before.wide {
        return Ok(None);
    }
    let list = atom_columns(alloc, columns, call, clause.vars)?;
    let empty = match emptiness(alloc, &before.rows)? {
        Reach::Live => None,
        Reach::Empty(by) => Some(by),
        Reach::Blown => return Ok(None),
    };
    let (rows, head) = before.into_parts();
    Ok(Some(OwnTransition {
        clause: k,
        call: j,
        transition: Transition {
            rows,
            head: AtomColumns {
                member: clause.head.pred.0,
                columns: head,
            },
            call: AtomColumns {
                member: call.pred.0,
                columns: list,
            },
        },
        empty,
    }))
}

/// What the calls of a component are collected from: a program with its components, columns, and size rows of its
/// predicates over these.
struct Setting<'a, C> {
    program: &'a Program,
    comps: &'a Components,
    columns: &'a C,
    sizes: &'a SizeRows,
}

impl<C> Drop for Setting<'_, C> {
    fn drop(self) {
        let Setting {
            program: _,
            comps: _,
            columns: _,
            sizes: _,
        } = self;
    }
}

/// Adds the calls of a clause, and says whether none was given up.
fn add_calls<C: Columns>(
    alloc: Global,
    setting: &Setting<C>,
    c: u32,
    k: u32,
    calls: &mut Vec<OwnTransition>,
) -> Result<bool, AllocError>
    requires components { AreComponents setting.now.program.now setting.now.comps.now }
    requires first { 1 ≤ k }
    requires last { k ≤ length setting.now.program.now.clauses }
    requires inside { IsIn setting.now.comps.now c (clause_at setting.now.program.now k).head.pred.0 }
    requires suits { C.suits setting.now.columns.now setting.now.program.now.arithmetic.names }
    requires kinds { HaveKinds setting.now.program.now.preds (C.listed setting.now.columns.now) }
    requires sizes { AreColumnSizes setting.now.program.now.preds
        (counts_at (C.count setting.now.columns.now) (C.listed setting.now.columns.now)) setting.now.sizes.now }
    requires held { AllByRecursion (IsHeldIn (C.columns setting.now.columns.now)
        (counts_at (C.count setting.now.columns.now) (C.listed setting.now.columns.now))
        (rows_of setting.now.sizes.now) setting.now.program.now setting.now.comps.now c) calls.old.items }
    ensures pairs { IfOk result (λ all. all ≡ true
        → map numbers_of_call calls.new.items ≡ map numbers_of_call calls.old.items
        ++ calls_from setting.now.comps.now c k 0 (clause_at setting.now.program.now k).body) }
    ensures held { IfOk result
        (λ all. AllByRecursion (IsHeldIn (C.columns setting.now.columns.now)
        (counts_at (C.count setting.now.columns.now) (C.listed setting.now.columns.now))
        (rows_of setting.now.sizes.now) setting.now.program.now setting.now.comps.now c) calls.new.items) }
    ensures given_up { IfOk result (λ all. all ≡ false
        → SomeGivenUp (C.columns setting.now.columns.now)
        (counts_at (C.count setting.now.columns.now) (C.listed setting.now.columns.now))
        (rows_of setting.now.sizes.now) setting.now.program.now
        (calls_from setting.now.comps.now c k 0 (clause_at setting.now.program.now k).body)) }
{
    let clause = setting.program.clause(k);
    for j in 0..clause.body.len() {
        let call = &clause.body.as_slice()[j];
        if setting.comps.of(call.pred) != c {
            continue;
        }
        let Some(own) = own_transition(
            alloc,
            setting.program,
            setting.columns,
            setting.sizes,
            k,
            j as u32 + 1,
        )?
        else {
            return Ok(false);
        };
        calls.push(own)?;
    }
    Ok(true)
}

/// The calls of members in clauses of members, by clause and call, where none is given up.
///
/// A call is given up where a size row before it has a number that does not fit over the numbers of the clause's
/// variables, or where the test whether these rows are empty is blown.
pub fn own_transitions<C: Columns>(
    alloc: Global,
    own: &ComponentClauses<'_>,
    columns: &C,
    sizes: &SizeRows,
) -> Result<Option<Vec<OwnTransition>>, AllocError>
    requires clauses { HasItsClauses own.now }
    requires suits { C.suits columns.now own.now.program.now.arithmetic.names }
    requires kinds { HaveKinds own.now.program.now.preds (C.listed columns.now) }
    requires sizes { AreColumnSizes own.now.program.now.preds
        (counts_at (C.count columns.now) (C.listed columns.now)) sizes.now }
    ensures pairs { IfOk result
        (λ o. IfSome o (λ calls. map numbers_of_call calls.items
        ≡ pairs_of own.now.program.now own.now.comps.now own.now.number)) }
    ensures held { IfOk result
        (λ o. IfSome o (λ calls. AllByRecursion (IsHeldIn (C.columns columns.now)
        (counts_at (C.count columns.now) (C.listed columns.now))
        (rows_of sizes.now) own.now.program.now own.now.comps.now own.now.number) calls.items)) }
    ensures given_up { IfOk result (λ o. o ≡ None
        → SomeGivenUp (C.columns columns.now) (counts_at (C.count columns.now) (C.listed columns.now))
        (rows_of sizes.now) own.now.program.now
        (pairs_of own.now.program.now own.now.comps.now own.now.number)) }
{
    // What every program keeps.
    own.program.preds();
    let setting = Setting {
        program: own.program,
        comps: own.comps,
        columns,
        sizes,
    };
    let mut calls = Vec::new(alloc);
    for k in own.clauses {
        if !add_calls(alloc, &setting, own.number, *k, &mut calls)? {
            return Ok(None);
        }
    }
    Ok(Some(calls))
}
