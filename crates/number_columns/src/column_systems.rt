//! The system of a clause over columns, up to an atom of its body.

ghost use Rattle.std.specs.Prelude.{◌≡◌, ◌≤◌, ◌<◌, ◌-◌, ◌+◌, ◌*◌, ◌++◌, ◌||◌, not, false, [], map, length, take, slice_get, Some, IfOk, OnOk, IsTrue, sum};
ghost use Rattle.std.specs.List.{AllByRecursion};
ghost use Rattle.cti_terms.specs.Listing.{atom_nodes};
ghost use Rattle.cti_terms.specs.Tree.{is_below};
ghost use Rattle.cti_terms.specs.declared.clauses.Clause.{Clause};
ghost use Rattle.linear_rows.specs.Plain.{HaveWidth, plain_row, plain_rows};
ghost use Rattle.linear_rows.specs.Replacing.{AreColumns, row_fits};
ghost use Rattle.linear_rows.specs.declared.row.Rows.{Rows};
ghost use Rattle.termination_model.specs.sizes.ShortSystems.{short_row};
ghost use Rattle.termination_model.specs.sizes.Sizes.{rows_of, wide_rows};
ghost use Rattle.termination_model.specs.columns.ColumnRows.{or_zeros};
ghost use Rattle.number_columns.specs.ColumnLists.{AreColumnSizes, HaveKinds, HaveLength, columns_over, counts_at, kinds_at, plain_columns};
ghost use Rattle.number_columns.specs.ColumnSystems.{has_wide_row, row_or_zeros, short_rows};

use crate::arguments::atom_columns;
use crate::columns::{ColumnList, Columns};
use crate::rows_over::{RowOver, by_number, row_by_number, zero_row};
use cti_terms::{Atom, MOST_NODES, MOST_VARIABLES, Program};
use linear_rows::{Numbers, Row, Rows};
use std::alloc::{AllocError, Global};
use termination_model::SizeRows;

/// The rows of a clause's body atoms, and the columns of its head's arguments, over the numbers of its variables.
///
/// `wide` says that a row had a number that does not fit, and stands as the row of zeros.
pub struct ColumnSystem {
    pub variables: u32,
    pub rows: Rows,
    pub head: ColumnList,
    pub wide: bool,
}

impl Drop for ColumnSystem {
    fn drop(self) {
        let ColumnSystem {
            variables: _,
            rows: _,
            head: _,
            wide: _,
        } = self;
    }
}

impl ColumnSystem {
    /// The rows, and the columns of the head.
    pub fn into_parts(self) -> (Rows, ColumnList)
        ensures rows { result.0 ≡ self.rows }
        ensures head { result.1 ≡ self.head }
    {
        let ColumnSystem {
            variables: _,
            rows,
            head,
            wide: _,
        } = self;
        (rows, head)
    }
}

/// The rows of the first `j` body atoms of clause `k` over the numbers of the clause's variables, and the columns of
/// its head.
///
/// A row that needs a column which is not there is the row of zeros. So is a row whose numbers do not all fit, and then
/// `wide` is true. Clauses count from 1.
pub fn column_system<C: Columns>(
    alloc: Global,
    p: &Program,
    columns: &C,
    sizes: &SizeRows,
    k: u32,
    j: u32,
) -> Result<ColumnSystem, AllocError>
    requires first { 1 ≤ k }
    requires last { k ≤ length p.now.clauses }
    requires body { (c : Clause) → slice_get p.now.clauses (k - 1) ≡ Some c → j ≤ length c.body }
    requires kinds { HaveKinds p.now.preds (C.listed columns.now) }
    requires sizes { AreColumnSizes p.now.preds
        (counts_at (C.count columns.now) (C.listed columns.now)) sizes.now }
    ensures variables { IfOk result (λ s. (c : Clause) → slice_get p.now.clauses (k - 1) ≡ Some c
        → s.variables ≡ c.vars) }
    ensures width { IfOk result (λ s. (s.rows.width ≡ s.variables * (C.columns columns.now).width)
        × HaveWidth s.rows.width s.rows.list) }

    // The rows are the short system, and `wide` says whether a row was replaced.
    ensures rows { IfOk result (λ s. (c : Clause) → slice_get p.now.clauses (k - 1) ≡ Some c
        → plain_rows s.rows.list ≡ short_rows (C.columns columns.now)
        (counts_at (C.count columns.now) (C.listed columns.now)) (rows_of sizes.now) c.vars (take j c.body)) }
    ensures wide { IfOk result (λ s. (c : Clause) → slice_get p.now.clauses (k - 1) ≡ Some c
        → s.wide ≡ has_wide_row (C.columns columns.now)
        (counts_at (C.count columns.now) (C.listed columns.now)) (rows_of sizes.now) c.vars (take j c.body)) }

    // The head's arguments have their columns.
    ensures head { IfOk result (λ s. (c : Clause) → slice_get p.now.clauses (k - 1) ≡ Some c
        → plain_columns s.head ≡ columns_over (C.columns columns.now)
        (counts_at (C.count columns.now) (C.listed columns.now)) c.vars c.head) }
{
    let _program = p.preds();
    let clause = p.clause(k);
    let mut system = empty_system(alloc, columns, &clause.head, clause.vars)?;
    for i in 0..j as usize {
        add_atom(
            alloc,
            columns,
            sizes,
            &clause.body.as_slice()[i],
            &mut system,
        )?;
    }
    Ok(system)
}

/// The system without rows of a clause with this head.
fn empty_system<C: Columns>(
    alloc: Global,
    columns: &C,
    head: &Atom,
    vars: u32,
) -> Result<ColumnSystem, AllocError>
    requires known { head.now.pred.0 < length (C.listed columns.now) }
    requires arity { length (kinds_at (C.listed columns.now) head.now.pred.0) ≡ length head.now.args }
    requires below { AllByRecursion (λ t. IsTrue (is_below vars t)) head.now.args }
    requires few { vars ≤ MOST_VARIABLES }
    requires small { atom_nodes head.now ≤ MOST_NODES }
    ensures variables { IfOk result (λ s. s.variables ≡ vars) }
    ensures width { IfOk result (λ s. s.rows.width ≡ vars * (C.columns columns.now).width) }
    ensures rows { IfOk result (λ s. plain_rows s.rows.list ≡ []) }
    ensures widths { IfOk result (λ s. HaveWidth s.rows.width s.rows.list) }
    ensures wide { IfOk result (λ s. s.wide ≡ false) }
    ensures head { IfOk result (λ s. plain_columns s.head ≡ columns_over (C.columns columns.now)
        (counts_at (C.count columns.now) (C.listed columns.now)) vars head.now) }
{
    let list = atom_columns(alloc, columns, head, vars)?;
    Ok(ColumnSystem {
        variables: vars,
        rows: Rows::new(alloc, vars * columns.width()),
        head: list,
        wide: false,
    })
}

/// Appends the rows of one more atom to a system over the atom's variables.
pub fn add_atom<C: Columns>(
    alloc: Global,
    columns: &C,
    sizes: &SizeRows,
    atom: &Atom,
    system: &mut ColumnSystem,
) -> Result<(), AllocError>
    requires there { atom.now.pred.0 < length sizes.now }
    requires known { atom.now.pred.0 < length (C.listed columns.now) }
    requires arity { length (kinds_at (C.listed columns.now) atom.now.pred.0) ≡ length atom.now.args }
    requires own { (r : Rows) → slice_get sizes.now atom.now.pred.0 ≡ Some r
        → HaveWidth (sum (counts_at (C.count columns.now) (C.listed columns.now) atom.now.pred.0)) r.list }
    requires below { AllByRecursion (λ t. IsTrue (is_below system.old.variables t)) atom.now.args }
    requires few { system.old.variables ≤ MOST_VARIABLES }
    requires small { atom_nodes atom.now ≤ MOST_NODES }
    requires width { system.old.rows.width ≡ system.old.variables * (C.columns columns.now).width }
    requires rows { HaveWidth system.old.rows.width system.old.rows.list }
    ensures variables { system.new.variables ≡ system.old.variables }
    ensures head { system.new.head ≡ system.old.head }
    ensures width { system.new.rows.width ≡ system.old.rows.width }
    ensures widths { HaveWidth system.old.rows.width system.new.rows.list }
    ensures rows { OnOk result (plain_rows system.new.rows.list ≡ plain_rows system.old.rows.list
        ++ map short_row (map (row_or_zeros system.old.rows.width (columns_over (C.columns columns.now)
        (counts_at (C.count columns.now) (C.listed columns.now)) system.old.variables atom.now))
        (rows_of sizes.now atom.now.pred.0))) }
    ensures wide { OnOk result (system.new.wide ≡ (system.old.wide
        || wide_rows (map (row_or_zeros system.old.rows.width (columns_over (C.columns columns.now)
        (counts_at (C.count columns.now) (C.listed columns.now)) system.old.variables atom.now))
        (rows_of sizes.now atom.now.pred.0)))) }
{
    let list = atom_columns(alloc, columns, atom, system.variables)?;
    let own = sizes.get(atom.pred.0 as usize);
    add_rows(alloc, own, list.as_slice(), system)
}

/// Appends rows over these columns, over the numbers of the variables instead.
fn add_rows(
    alloc: Global,
    own: &Rows,
    list: &[Option<Row>],
    system: &mut ColumnSystem,
) -> Result<(), AllocError>
    requires own { HaveWidth (length list.now) own.now.list }
    requires lengths { HaveLength system.old.rows.width (plain_columns list.now) }
    requires rows { HaveWidth system.old.rows.width system.old.rows.list }
    ensures variables { system.new.variables ≡ system.old.variables }
    ensures head { system.new.head ≡ system.old.head }
    ensures width { system.new.rows.width ≡ system.old.rows.width }
    ensures widths { HaveWidth system.old.rows.width system.new.rows.list }
    ensures rows { OnOk result (plain_rows system.new.rows.list ≡ plain_rows system.old.rows.list
        ++ map short_row (map (row_or_zeros system.old.rows.width (plain_columns list.now))
        (plain_rows own.now.list))) }
    ensures wide { OnOk result (system.new.wide ≡ (system.old.wide
        || wide_rows (map (row_or_zeros system.old.rows.width (plain_columns list.now))
        (plain_rows own.now.list)))) }
{
    let numbers = by_number(alloc, list, system.rows.width)?;
    for row in own.list.as_slice() {
        let short = short_row(alloc, row, list, numbers.as_slice(), system.rows.width)?;
        system.wide |= short.wide;
        system.rows.push(short.row)?;
    }
    Ok(())
}

// A row of a short system, and whether zeros stand in the place of a row that does not fit.
#[derive(Drop)]
struct ShortRow {
    row: Row,
    wide: bool,
}

/// The row over columns where it is there and fits, and else zeros.
fn short_row(
    alloc: Global,
    row: &Row,
    list: &[Option<Row>],
    numbers: &[Numbers],
    width: u32,
) -> Result<ShortRow, AllocError>
    requires same { length row.now.coeffs ≡ length list.now }
    requires lengths { HaveLength width (plain_columns list.now) }
    requires numbers { AreColumns (map (or_zeros width) (plain_columns list.now)) width numbers.now }
    ensures length { IfOk result (λ s. length s.row.coeffs ≡ width) }
    ensures row { IfOk result (λ s. plain_row s.row
        ≡ short_row (row_or_zeros width (plain_columns list.now) (plain_row row.now))) }
    ensures wide { IfOk result (λ s. s.wide
        ≡ not (row_fits (row_or_zeros width (plain_columns list.now) (plain_row row.now)))) }
{
    match row_by_number(alloc, row, list, numbers, width)? {
        RowOver::There(row) => Ok(ShortRow { row, wide: false }),
        RowOver::Missing => Ok(ShortRow {
            row: zero_row(alloc, width)?,
            wide: false,
        }),
        RowOver::Wide => Ok(ShortRow {
            row: zero_row(alloc, width)?,
            wide: true,
        }),
    }
}
