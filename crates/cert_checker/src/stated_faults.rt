//! The size rows of built-in predicates.

ghost use Rattle.std.specs.Prelude.{◌≡◌, ◌≢◌, ◌↔◌, ℕ, IsTrue, List, None, Some};
ghost use Rattle.std.specs.List.{AllByRecursion, AllPairs};
ghost use Rattle.certificate.specs.declared.pred_text.PredText.{PredText};
ghost use Rattle.cert_structure.specs.Numbered.{lines_from};
ghost use Rattle.cert_structure.specs.Order.{size_facts, size_line};
ghost use Rattle.cert_structure.specs.Structure.{AreNamed};
ghost use Rattle.cert_checker.specs.Finding.{Finds, IsForeign, SizesFail};
ghost use Rattle.cti_terms.specs.declared.builtins.Builtin.{Builtin as TheBuiltin};
ghost use Rattle.linear_rows.specs.Members.{In};
ghost use Rattle.linear_rows.specs.Plain.{plain_row, plain_rows};
ghost use Rattle.termination_model.specs.sizes.Sizes.{AreSizes, rows_of};
ghost use Rattle.termination_model.specs.sizes.Stated.{AreStated, is_row, stated_rows};

use crate::fault::Fault;
use crate::reason::Reason;
use cti_terms::{Builtin, PredId, Program};
use linear_rows::{Row, Rows};
use termination_model::SizeRows;

/// Whether a row is the one that is stated of `is`: the size of its first argument is 0.
fn is_row_of_is(row: &Row) -> bool
    ensures { IsTrue result ↔ (is_row ≡ plain_row row.now) }
{
    row.constant == 0 && row.coeffs.as_slice() == [-1, 0].as_slice()
}

/// Whether a row is stated of built-in predicates of this kind.
fn is_stated(kind: Builtin, row: &Row) -> bool
    ensures { IsTrue result ↔ In (plain_row row.now) (stated_rows kind) }
{
    kind == Builtin::Is && is_row_of_is(row)
}

/// The first row that is not stated of predicates of this kind, where they are built in. The first one has this line.
fn foreign_fault(kind: Option<Builtin>, rows: &Rows, line: u64) -> Option<Fault>
    ensures hold { (result ≡ None) ↔ ((b : TheBuiltin) → kind ≡ Some b
        → AllByRecursion (λ r. In r (stated_rows b)) (plain_rows rows.now.list)) }
    ensures first { (pred : PredText) (b : TheBuiltin) → kind ≡ Some b
        → Finds (IsForeign b) line (lines_from 0 (size_line pred) rows.now.list) result }
{
    let kind = kind?;
    for i in 0..rows.list.len() {
        if !is_stated(kind, rows.list.get(i)) {
            return Some(Fault {
                line: line.saturating_add(i as u64),
                reason: Reason::SizeRow,
            });
        }
    }
    None
}

/// The first size row of a built-in predicate that is none of its stated ones.
///
/// There is one line for each predicate and each of its size rows, from the line `first` on. The reason is `SizeRow`.
/// It takes no memory.
pub fn stated_fault(p: &Program, sizes: &SizeRows, first: u64) -> Option<Fault>
    requires sizes { AreSizes p.now.preds sizes.now }
    ensures hold { (result ≡ None) ↔ AreStated p.now.arithmetic (rows_of sizes.now) }

    // Predicates are distinguished by their texts.
    ensures first { (names : List (List ℕ)) → AreNamed names p.now.preds
        → AllPairs (λ a b. a ≢ b) names
        → Finds (SizesFail p.now names) first (size_facts p.now names sizes.now) result }
{
    let mut line = first;
    for q in 0..p.preds() {
        let rows = sizes.get(q as usize);
        if let Some(fault) = foreign_fault(p.builtin(PredId(q)), rows, line) {
            return Some(fault);
        }
        line = line.saturating_add(rows.list.len() as u64);
    }
    None
}
