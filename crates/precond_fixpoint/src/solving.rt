//! The preconditions of a program, component by component.

ghost use Rattle.std.specs.Prelude.{◌≡◌, ◌<◌, [], ℕ, IfOk, OnOk, length, replicate, slice_get};
ghost use Rattle.bool_diagrams.specs.Rows.{Keeps};
ghost use Rattle.call_components.specs.Partition.{AreComponents, IsIn};
ghost use Rattle.precond_fixpoint.specs.Setting.{IsSetting, rows_of};
ghost use Rattle.precond_fixpoint.specs.Solving.{AreLevels, AreMappingSets, AreModes, AreUnions, IsSolved, allowed_family};
ghost use Rattle.truth_rows.specs.Sets.{AreSets, family_of};

use crate::columns::{no_sets, put_members};
use crate::families::member_sets;
use crate::mode::Mode;
use crate::modes::all_modes;
use crate::preconditions::Preconditions;
use crate::ranks::component_ranks;
use crate::setting::{Component, Setting};
use bool_diagrams::{Diagram, Table};
use call_components::Components;
use cti_terms::Program;
use groundness::{Marks, heads, users};
use number_tests::LevelPart;
use sequences::Sequence;
use std::alloc::{AllocError, Global};
use term_size::Norm;

/// The greatest preconditions for the mappings of each component, and the minimal modes that they allow.
///
/// `levels` has for each predicate its part in each mapping of its component, and `grounds` the ground rows. Components
/// go callees first. For each mapping the preconditions of a component are the greatest that keep the rule: each of
/// their rows is true at positive coefficients, and from a row of a clause's head each call that is reached has a row
/// in turn, in the same precondition within the component and an allowed one below it. What is allowed of a predicate
/// are the rows that some mapping's precondition has with all upper rows; its minimal ones are the modes.
/// Out of memory, the table keeps its earlier diagrams.
pub fn solve_levels<N: Norm>(
    alloc: Global,
    p: &Program,
    comps: &Components,
    norm: &N,
    table: &mut Table,
    grounds: &[Diagram],
    levels: &[Sequence<LevelPart>],
) -> Result<Preconditions, AllocError>
    requires components { AreComponents p.now comps.now }
    requires grounds { AreSets p.now.preds table.old grounds.now }
    requires levels { AreLevels p.now comps.now levels.now }
    ensures keeps { Keeps table.old table.new }
    ensures sets { IfOk result (λ pre. AreMappingSets p.now.preds table.new pre.sets) }
    ensures greatest { IfOk result (λ pre. (c : ℕ) → c < length comps.now.members
        → IsSolved (N.truth norm.now) p.now comps.now
        (family_of p.now.preds table.old grounds.now) levels.now table.new pre.sets c) }
    ensures modes { IfOk result
        (λ pre. AreModes p.now.preds (allowed_family p.now.preds table.new pre.sets) pre.modes) }
{
    let _program = p.preds();
    let ranks = component_ranks(alloc, p, comps)?;
    let heads = heads(alloc, p)?;
    let users = users(alloc, p)?;
    let setting = Setting {
        program: p,
        comps,
        norm,
        ranks: &ranks,
        heads: &heads,
        users: &users,
        grounds,
        levels,
    };
    solve_components(alloc, &setting, table)
}

/// The preconditions of all components, in a setting.
fn solve_components<N: Norm>(
    alloc: Global,
    setting: &Setting<N>,
    table: &mut Table,
) -> Result<Preconditions, AllocError>
    requires setting { IsSetting setting.now table.old }
    ensures keeps { Keeps table.old table.new }
    ensures sets { IfOk result
        (λ pre. AreMappingSets setting.now.program.now.preds table.new pre.sets) }
    ensures greatest { IfOk result (λ pre. (c : ℕ) → c < length setting.now.comps.now.members
        → IsSolved (N.truth setting.now.norm.now) setting.now.program.now setting.now.comps.now
        (rows_of setting.now table.old setting.now.grounds.now) setting.now.levels.now table.new pre.sets c) }
    ensures modes { IfOk result
        (λ pre. AreModes setting.now.program.now.preds
        (allowed_family setting.now.program.now.preds table.new pre.sets) pre.modes) }
{
    let mut sets = no_sets(alloc, setting.program.preds() as usize)?;
    let modes = solve_all(alloc, setting, table, &mut sets)?;
    Ok(Preconditions {
        sets: Sequence::from_vec(sets),
        modes,
    })
}

/// Puts the sets of all components into their places, which are empty before, and gives the modes that they allow.
fn solve_all<N: Norm>(
    alloc: Global,
    setting: &Setting<N>,
    table: &mut Table,
    sets: &mut [Sequence<Diagram>],
) -> Result<Sequence<Sequence<Mode>>, AllocError>
    requires setting { IsSetting setting.now table.old }
    requires empty { sets.old ≡ replicate (length setting.now.program.now.preds) [] }
    ensures keeps { Keeps table.old table.new }
    ensures sets { IfOk result
        (λ modes. AreMappingSets setting.now.program.now.preds table.new sets.new) }
    ensures solved { IfOk result (λ modes. (c : ℕ) → c < length setting.now.comps.now.members
        → IsSolved (N.truth setting.now.norm.now) setting.now.program.now setting.now.comps.now
        (rows_of setting.now table.old setting.now.grounds.now) setting.now.levels.now table.new sets.new c) }
    ensures modes { IfOk result
        (AreModes setting.now.program.now.preds
        (allowed_family setting.now.program.now.preds table.new sets.new)) }
{
    let count = setting.program.preds() as usize;
    let mut allowed = vec![in alloc; table.truth(false); count]?;
    solve_in_turn(alloc, setting, table, sets, &mut allowed)?;
    all_modes(alloc, table, setting.program, &allowed)
}

/// Solves the components in turn, callees first.
fn solve_in_turn<N: Norm>(
    alloc: Global,
    setting: &Setting<N>,
    table: &mut Table,
    sets: &mut [Sequence<Diagram>],
    allowed: &mut [Diagram],
) -> Result<(), AllocError>
    requires setting { IsSetting setting.now table.old }
    requires sets { AreMappingSets setting.now.program.now.preds table.old sets.old }
    requires allowed { AreUnions setting.now.program.now.preds table.old sets.old allowed.old }
    ensures keeps { Keeps table.old table.new }
    ensures sets { OnOk result (AreMappingSets setting.now.program.now.preds table.new sets.new) }
    ensures allowed { OnOk result
        (AreUnions setting.now.program.now.preds table.new sets.new allowed.new) }
    ensures solved { OnOk result ((c : ℕ) → c < length setting.now.comps.now.members
        → IsSolved (N.truth setting.now.norm.now) setting.now.program.now setting.now.comps.now
        (rows_of setting.now table.old setting.now.grounds.now) setting.now.levels.now table.new sets.new c) }
{
    let marks = Marks::none(alloc, setting.program.clauses())?;
    let pre = Vec::from_slice(alloc, allowed)?;
    let mut state = SearchState { marks, pre };
    solve_each(alloc, setting, table, &mut state, sets, allowed)
}

/// Marks and sets that the search uses for one component after the other. What they hold before does not matter.
struct SearchState {
    /// The clauses that are still to be tried.
    marks: Marks,
    /// The sets of all predicates for one mapping.
    pre: Vec<Diagram>,
}

impl Drop for SearchState {
    fn drop(self) {
        let SearchState { marks: _, pre: _ } = self;
    }
}

/// The preconditions of each component, with marks and sets for the search.
fn solve_each<N: Norm>(
    alloc: Global,
    setting: &Setting<N>,
    table: &mut Table,
    state: &mut SearchState,
    sets: &mut [Sequence<Diagram>],
    allowed: &mut [Diagram],
) -> Result<(), AllocError>
    requires setting { IsSetting setting.now table.old }
    requires marks { length state.old.marks ≡ length setting.now.program.now.clauses }
    requires pre { AreSets setting.now.program.now.preds table.old state.old.pre.items }
    requires sets { AreMappingSets setting.now.program.now.preds table.old sets.old }
    requires allowed { AreUnions setting.now.program.now.preds table.old sets.old allowed.old }
    ensures keeps { Keeps table.old table.new }
    ensures sets { OnOk result (AreMappingSets setting.now.program.now.preds table.new sets.new) }
    ensures allowed { OnOk result
        (AreUnions setting.now.program.now.preds table.new sets.new allowed.new) }
    ensures solved { OnOk result ((c : ℕ) → c < length setting.now.comps.now.members
        → IsSolved (N.truth setting.now.norm.now) setting.now.program.now setting.now.comps.now
        (rows_of setting.now table.old setting.now.grounds.now) setting.now.levels.now table.new sets.new c) }
{
    for c in 0..setting.comps.count() {
        solve_component(
            alloc,
            setting,
            table,
            c,
            &mut state.marks,
            &mut state.pre,
            sets,
            allowed,
        )?;
    }
    Ok(())
}

/// Puts into the places of a component's members its greatest preconditions for each of its mappings, and what these
/// allow.
///
/// `sets` and `allowed` are those of the components that it calls. What the places of members hold before does not
/// matter, nor do the marks there are, and the places of other predicates stay. `pre` has a set for each predicate,
/// whatever it is, and is used for the members' sets of one mapping at a time. Out of memory, the table keeps its
/// earlier diagrams.
pub fn solve_component<N: Norm>(
    alloc: Global,
    setting: &Setting<N>,
    table: &mut Table,
    c: u32,
    marks: &mut Marks,
    pre: &mut [Diagram],
    sets: &mut [Sequence<Diagram>],
    allowed: &mut [Diagram],
) -> Result<(), AllocError>
    requires setting { IsSetting setting.now table.old }
    requires component { c < length setting.now.comps.now.members }
    requires marks { length marks.old ≡ length setting.now.program.now.clauses }
    requires pre { AreSets setting.now.program.now.preds table.old pre.old }
    requires sets { AreMappingSets setting.now.program.now.preds table.old sets.old }
    requires allowed { AreUnions setting.now.program.now.preds table.old sets.old allowed.old }
    ensures keeps { Keeps table.old table.new }
    ensures marks { OnOk result (length marks.new ≡ length setting.now.program.now.clauses) }
    ensures pre { OnOk result (AreSets setting.now.program.now.preds table.new pre.new) }
    ensures sets { OnOk result (AreMappingSets setting.now.program.now.preds table.new sets.new) }
    ensures allowed { OnOk result
        (AreUnions setting.now.program.now.preds table.new sets.new allowed.new) }
    ensures solved { OnOk result
        (IsSolved (N.truth setting.now.norm.now) setting.now.program.now setting.now.comps.now
        (rows_of setting.now table.old setting.now.grounds.now) setting.now.levels.now table.new sets.new c) }
    ensures others { OnOk result ((q : ℕ) → (IsIn setting.now.comps.now c q → ⊥)
        → slice_get sets.new q ≡ slice_get sets.old q) }
{
    let _count = setting.comps.count();
    let members = setting.comps.members(c);
    let mappings = setting.levels[members[0].0 as usize].len();
    let component = Component {
        rank: c + 1,
        members,
        mappings,
        allowed,
    };
    let mut columns = member_sets(alloc, setting, &component, table, marks, pre)?;
    put_members(setting.program, table, members, &mut columns, sets, allowed)?;
    Ok(())
}
