//! The size rows of clauses' heads.

ghost use Rattle.std.specs.Prelude.{◌≡◌, ◌↔◌, ◌+◌, ℕ, All, IfOk, IfSome, None, Some, length, slice_get};
ghost use Rattle.std.specs.List.{AllByRecursion};
ghost use Rattle.cert_checker.specs.Finding.{ByFails, Finds};
ghost use Rattle.cert_structure.specs.Numbered.{lines_from};
ghost use Rattle.cert_structure.specs.Order.{by_line, proof_facts};
ghost use Rattle.cti_terms.specs.Listing.{Listing};
ghost use Rattle.number_tests.specs.Failing.{MultipliersFail};
ghost use Rattle.number_tests.specs.Proved.{RowsAreKept};
ghost use Rattle.cert_checker.specs.Proved.{ByHold};
ghost use Rattle.linear_rows.specs.Showing.{AreMultipliers, IsShown};
ghost use Rattle.number_tests.specs.Shape.{row_count};
ghost use Rattle.cert_checker.specs.Shape.{HaveRowProofs};
ghost use Rattle.number_tests.specs.Systems.{IsSizedClause};
ghost use Rattle.linear_rows.specs.Plain.{HaveWidth, plain_row, plain_rows};
ghost use Rattle.termination_model.specs.sizes.Replacing.{over_columns};
ghost use Rattle.termination_model.specs.sizes.Sizes.{AreSizes, rows_of};

use crate::fault::Fault;
use crate::reason::Reason;
use cert_structure::Parts;
use cti_terms::{Clause, Program};
use linear_rows::{Multipliers, Numbers, Row, Rows};
use number_tests::{Flaw, extend, first_system, multipliers_flaw, size_target};
use std::alloc::{AllocError, Global};
use term_size::Norm;
use termination_model::{SizeRows, columns};

/// Why multipliers do not show a size row over the rows of a system, if they do not. The columns are those of the
/// head's arguments.
fn row_flaw(
    alloc: Global,
    rows: &Rows,
    columns: &[Numbers],
    row: &Row,
    by: &Multipliers,
) -> Result<Option<Flaw>, AllocError>
    requires multipliers { AreMultipliers (length rows.now.list) by.now }
    requires width { HaveWidth rows.now.width rows.now.list }
    requires count { length columns.now ≡ rows.now.width + 1 }
    requires long { All (λ c. length c ≡ length (plain_row row.now)) columns.now }
    ensures shown { IfOk result
        (λ flaw. (flaw ≡ None) ↔ IsShown (plain_rows rows.now.list)
        (over_columns columns.now (plain_row row.now)) by.now) }
    ensures fails { IfOk result
        (λ flaw. IfSome flaw (MultipliersFail (plain_rows rows.now.list) by.now.list
        (over_columns columns.now (plain_row row.now)) by.now.scale)) }
{
    let target = size_target(alloc, row, columns)?;
    Ok(multipliers_flaw(rows, target, by))
}

/// The first size row of a clause's head that its multipliers do not show. The first one has this line.
fn clause_size_fault<N: Norm>(
    alloc: Global,
    norm: &N,
    sizes: &SizeRows,
    clause: &Clause,
    proofs: &[Multipliers],
    line: u64,
) -> Result<Option<Fault>, AllocError>
    requires sized { IsSizedClause sizes.now clause.now }
    requires each { length proofs.now ≡ length (rows_of sizes.now clause.now.head.pred.0) }
    requires multipliers { AllByRecursion
        (AreMultipliers (row_count (rows_of sizes.now) clause.now.body)) proofs.now }
    ensures hold { IfOk result
        (λ fault. (fault ≡ None) ↔ RowsAreKept
        (N.expression norm.now) sizes.now clause.now proofs.now) }
    ensures first { IfOk result (λ fault. (p : Listing) (k : ℕ)
        → slice_get p.clauses k ≡ Some clause.now
        → Finds (ByFails (N.expression norm.now) p sizes.now) line
        (lines_from 0 (by_line k) proofs.now) fault) }
{
    let own = sizes.get(clause.head.pred.0 as usize);
    let mut system = first_system(alloc, norm, sizes, clause)?;
    extend(
        alloc,
        norm,
        sizes,
        clause,
        0,
        clause.body.len(),
        &mut system,
    )?;
    let head = columns(alloc, &system.head)?;
    for i in 0..proofs.len() {
        let row = own.list.get(i);
        let flaw = row_flaw(alloc, &system.rows, head.as_slice(), row, &proofs[i])?;
        if let Some(flaw) = flaw {
            return Ok(Some(Fault {
                line: line.saturating_add(i as u64),
                reason: Reason::of(flaw, Reason::SizeRow),
            }));
        }
    }
    Ok(None)
}

/// The first size row of a clause's head that its multipliers do not show over the rows of its body.
///
/// There is one line for each clause and each row of its head, from the line `first` on. `SizeRow` says that the
/// multipliers fail, and `Wide` that a number does not fit.
pub fn size_fault<N: Norm>(
    alloc: Global,
    p: &Program,
    norm: &N,
    parts: &Parts,
    first: u64,
) -> Result<Option<Fault>, AllocError>
    requires sizes { AreSizes p.now.preds parts.now.rows }
    requires proofs { HaveRowProofs p.now parts.now }
    ensures hold { IfOk result
        (λ fault. (fault ≡ None) ↔ ByHold (N.expression norm.now) p.now parts.now) }
    ensures first { IfOk result (Finds (ByFails (N.expression norm.now) p.now parts.now.rows) first
        (proof_facts parts.now.row_proofs)) }
{
    let mut line = first;
    for k in 0..p.clauses() {
        let proofs = parts.row_proofs.as_slice()[k as usize].as_slice();
        let fault = clause_size_fault(alloc, norm, &parts.rows, p.clause(k + 1), proofs, line)?;
        if let Some(fault) = fault {
            return Ok(Some(fault));
        }
        line = line.saturating_add(proofs.len() as u64);
    }
    Ok(None)
}
