//! The sum of multiplied rows.

ghost use Rattle.std.specs.Prelude.{◌≡◌, length, IfOk, All, pos, ◌≤ℤ◌, ◌+◌};
ghost use Rattle.linear_rows.specs.Combine.{CombineFits, IsCombination};
ghost use Rattle.linear_rows.specs.Plain.{plain_row, plain_rows, HaveWidth};

use crate::columns::column_sum;
use crate::numbers::Numbers;
use crate::row::{Row, Rows};
use std::alloc::{AllocError, Global};

/// Why rows were not combined.
#[derive(Clone, Copy, PartialEq, Eq, Debug)]
pub enum RowFault {
    /// A product or a running sum does not fit.
    Wide,
    /// Memory was refused.
    Memory,
}

impl From<AllocError> for RowFault {
    ghost use Rattle.linear_rows.specs.declared.combining.RowFault.TheVariants.{Memory};

    ghost from_gives = { λ _ fault. fault ≡ Memory };

    fn from(_: AllocError) -> RowFault {
        RowFault::Memory
    }
}

/// Sums rows, each times its multiplier.
///
/// Products and running sums are formed in the order of the rows.
pub fn combine(alloc: Global, rows: &Rows, multipliers: &[i128]) -> Result<Row, RowFault>
    requires lengths { length multipliers.now ≡ length rows.now.list }
    requires naturals { All (λ m. pos 0 ≤ℤ m) multipliers.now }
    requires width { HaveWidth rows.now.width rows.now.list }
    ensures sum { IfOk result
        (λ row. IsCombination (rows.now.width + 1) (plain_rows rows.now.list) multipliers.now
        (plain_row row)) }

    // Wide exactly where one of these numbers does not fit.
    ensures fits { IfOk result
        (λ _. CombineFits (rows.now.width + 1) (plain_rows rows.now.list) multipliers.now) }
    ensures wide { result ≡ Err RowFault.Wide
        → CombineFits (rows.now.width + 1) (plain_rows rows.now.list) multipliers.now → ⊥ }
{
    let Some(constant) = column_sum(rows.list.as_slice(), multipliers, 0) else {
        return Err(RowFault::Wide);
    };
    let mut coeffs = Numbers::new(alloc);
    for k in 0..rows.width as usize {
        let Some(sum) = column_sum(rows.list.as_slice(), multipliers, k + 1) else {
            return Err(RowFault::Wide);
        };
        coeffs.push(sum)?;
    }
    Ok(Row { constant, coeffs })
}
