//! The system of a clause up to an atom of its body.

ghost use Rattle.std.specs.Prelude.{◌≡◌, ◌≤◌, ◌<◌, ◌-◌, ◌+◌, ◌++◌, ◌||◌, not, map, length, take, slice_get, Some, IfOk, OnOk, IsTrue, All, Contains};
ghost use Rattle.std.specs.List.{AllByRecursion};
ghost use Rattle.cti_terms.specs.Listing.{atom_nodes};
ghost use Rattle.cti_terms.specs.Tree.{is_below};
ghost use Rattle.cti_terms.specs.declared.clauses.Clause.{Clause};
ghost use Rattle.linear_rows.specs.Plain.{HaveWidth, plain_row, plain_rows};
ghost use Rattle.linear_rows.specs.Solving.{zeros as zero_numbers};
ghost use Rattle.linear_rows.specs.declared.row.Row.{Row};
ghost use Rattle.linear_rows.specs.declared.row.Rows.{Rows};
ghost use Rattle.termination_model.specs.sizes.Replacing.{over_columns};
ghost use Rattle.termination_model.specs.sizes.Sizes.{AreSizes, rows_of, wide_rows, wide_system};
ghost use Rattle.termination_model.specs.sizes.Systems.{row_fits, row_over};
ghost use Rattle.termination_model.specs.sizes.ShortSystems.{short_row, short_system};

use crate::replacing::{add_expressions, columns, replaced};
use crate::sizes::{SizeRows, Sizes};
use cti_terms::{Atom, MOST_NODES, MOST_VARIABLES, Program};
use linear_rows::{Numbers, Row, Rows, System, zeros};
use std::alloc::{AllocError, Global};
use term_size::Norm;

/// The rows of the first `j` body atoms of clause `k` over the clause's variables, and the sizes of its head's
/// arguments.
///
/// A row whose numbers do not all fit is the row of zeros, and then `wide` is true. Clauses count from 1. The size rows
/// are those of the program's predicates.
pub fn system<N: Norm>(
    alloc: Global,
    p: &Program,
    norm: &N,
    sizes: &Sizes,
    k: u32,
    j: u32,
) -> Result<System, AllocError>
    requires first { 1 ≤ k }
    requires last { k ≤ length p.now.clauses }
    requires body { (c : Clause) → slice_get p.now.clauses (k - 1) ≡ Some c → j ≤ length c.body }
    requires sizes { AreSizes p.now.preds sizes.now.rows }
    ensures variables { IfOk result (λ s. (c : Clause) → slice_get p.now.clauses (k - 1) ≡ Some c
        → s.variables ≡ c.vars) }
    ensures widths { IfOk result (λ s. (s.rows.width ≡ s.variables) × (s.head.width ≡ s.variables)
        × HaveWidth s.variables s.rows.list × HaveWidth s.variables s.head.list) }

    // The rows are the short system, and `wide` says whether a row was replaced.
    ensures rows { IfOk result (λ s. (c : Clause) → slice_get p.now.clauses (k - 1) ≡ Some c
        → plain_rows s.rows.list ≡ short_system (N.expression norm.now)
        (rows_of sizes.now.rows) c.vars (take j c.body)) }
    ensures wide { IfOk result (λ s. (c : Clause) → slice_get p.now.clauses (k - 1) ≡ Some c
        → s.wide ≡ wide_system (N.expression norm.now) (rows_of sizes.now.rows) c.vars
        (take j c.body)) }

    // The head's arguments have their size expressions.
    ensures head { IfOk result (λ s. (c : Clause) → slice_get p.now.clauses (k - 1) ≡ Some c
        → plain_rows s.head.list ≡ map (N.expression norm.now c.vars) c.head.args) }
{
    let _program = p.preds();
    let clause = p.clause(k);
    let mut head = Rows::new(alloc, clause.vars);
    add_expressions(alloc, norm, &clause.head.args, &mut head)?;
    let mut system = System {
        variables: clause.vars,
        rows: Rows::new(alloc, clause.vars),
        head,
        wide: false,
    };
    for i in 0..j as usize {
        add_atom(
            alloc,
            norm,
            &sizes.rows,
            &clause.body.as_slice()[i],
            &mut system,
        )?;
    }
    Ok(system)
}

/// Appends the rows of one more atom to a system over the atom's variables.
pub fn add_atom<N: Norm>(
    alloc: Global,
    norm: &N,
    sizes: &SizeRows,
    atom: &Atom,
    system: &mut System,
) -> Result<(), AllocError>
    requires there { atom.now.pred.0 < length sizes.now }
    requires own { (r : Rows) → slice_get sizes.now atom.now.pred.0 ≡ Some r
        → HaveWidth (length atom.now.args) r.list }
    requires below { AllByRecursion (λ t. IsTrue (is_below system.old.variables t)) atom.now.args }
    requires few { system.old.variables ≤ MOST_VARIABLES }
    requires small { atom_nodes atom.now ≤ MOST_NODES }
    requires width { system.old.rows.width ≡ system.old.variables }
    requires rows { HaveWidth system.old.variables system.old.rows.list }
    ensures variables { system.new.variables ≡ system.old.variables }
    ensures head { system.new.head ≡ system.old.head }
    ensures width { system.new.rows.width ≡ system.old.variables }
    ensures widths { HaveWidth system.old.variables system.new.rows.list }
    ensures rows { OnOk result (plain_rows system.new.rows.list ≡ plain_rows system.old.rows.list
        ++ map short_row (map (row_over (N.expression norm.now) system.old.variables atom.now.args)
        (rows_of sizes.now atom.now.pred.0))) }
    ensures wide { OnOk result (system.new.wide ≡ (system.old.wide
        || wide_rows (map (row_over (N.expression norm.now) system.old.variables atom.now.args)
        (rows_of sizes.now atom.now.pred.0)))) }
{
    let mut expressions = Rows::new(alloc, system.variables);
    add_expressions(alloc, norm, &atom.args, &mut expressions)?;
    let columns = columns(alloc, &expressions)?;
    let own = sizes.get(atom.pred.0 as usize);
    add_rows(alloc, own, columns.as_slice(), system)
}

/// Appends rows over arguments, with the expressions of these columns in the arguments' places.
fn add_rows(
    alloc: Global,
    own: &Rows,
    columns: &[Numbers],
    system: &mut System,
) -> Result<(), AllocError>
    requires count { length columns.now ≡ system.old.variables + 1 }
    requires lengths { (r : Row) → Contains own.now.list r
        → All (λ c. length c ≡ length (plain_row r)) columns.now }
    requires width { system.old.rows.width ≡ system.old.variables }
    requires rows { HaveWidth system.old.variables system.old.rows.list }
    ensures variables { system.new.variables ≡ system.old.variables }
    ensures head { system.new.head ≡ system.old.head }
    ensures width { system.new.rows.width ≡ system.old.variables }
    ensures widths { HaveWidth system.old.variables system.new.rows.list }
    ensures rows { OnOk result (plain_rows system.new.rows.list ≡ plain_rows system.old.rows.list
        ++ map short_row (map (over_columns columns.now) (plain_rows own.now.list))) }
    ensures wide { OnOk result (system.new.wide ≡ (system.old.wide
        || wide_rows (map (over_columns columns.now) (plain_rows own.now.list)))) }
{
    for row in own.list.as_slice() {
        let short = short_row(alloc, row, columns)?;
        system.wide |= short.wide;
        system.rows.push(short.row)?;
    }
    Ok(())
}

// A row of a short system, and whether zeros stand in the place of a row that does not fit.
#[derive(Drop)]
struct ShortRow {
    row: Row,
    wide: bool,
}

/// The replaced row where it fits, and else zeros.
fn short_row(alloc: Global, row: &Row, columns: &[Numbers]) -> Result<ShortRow, AllocError>
    requires some { 1 ≤ length columns.now }
    requires lengths { All (λ c. length c ≡ length (plain_row row.now)) columns.now }
    ensures row { IfOk result
        (λ s. plain_row s.row ≡ short_row (over_columns columns.now (plain_row row.now))) }
    ensures wide { IfOk result
        (λ s. s.wide ≡ not (row_fits (over_columns columns.now (plain_row row.now)))) }
{
    let numbers = row.numbers(alloc)?;
    match replaced(alloc, numbers.as_slice(), columns)? {
        Some(row) => Ok(ShortRow { row, wide: false }),
        None => Ok(ShortRow {
            row: zero_row(alloc, columns.len() - 1)?,
            wide: true,
        }),
    }
}

/// The row of zeros.
fn zero_row(alloc: Global, width: usize) -> Result<Row, AllocError>
    ensures { IfOk result (λ r. plain_row r ≡ zero_numbers (width + 1)) }
{
    let coeffs = zeros(alloc, width)?;
    Ok(Row {
        constant: 0,
        coeffs,
    })
}
