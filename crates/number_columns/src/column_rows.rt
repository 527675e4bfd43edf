//! The rows of what a term's value has above 0 and below.

ghost use Rattle.std.specs.Prelude.{◌≡◌, ◌++◌, ◌∷◌, [], ℕ, suc, IfOk, OnOk};
ghost use Rattle.cti_terms.specs.Spell.{tree_of};
ghost use Rattle.termination_model.specs.columns.Expressions.{expression};
ghost use Rattle.number_columns.specs.Lines.{AreLinesTo};
ghost use Rattle.number_columns.specs.Rows.{IsExpressionRow};

use crate::cell::{Column, cell_at};
use crate::columns::ColumnList;
use crate::line::Lines;
use cti_terms::{Arith, Term};
use linear_rows::Row;
use std::alloc::{AllocError, Global};

/// The rows of what a term's value has above 0 and below, over three numbers for each variable. Each is there where the
/// term is linear and all numbers of the row have at most 127 bits.
pub struct ValueRows {
    pub above: Option<Row>,
    pub below: Option<Row>,
}

impl Drop for ValueRows {
    fn drop(self) {
        let ValueRows { above: _, below: _ } = self;
    }
}

impl ValueRows {
    /// Puts them last into a list of columns.
    pub(crate) fn add_to(self, list: &mut ColumnList) -> Result<(), AllocError>
        ensures { OnOk result (list.new ≡ list.old ++ self.above ∷ (self.below ∷ [])) }
    {
        let ValueRows { above, below } = self;
        list.push(above)?;
        list.push(below)
    }
}

/// Adds the three numbers of a variable in the rows of a term.
fn push_variable(
    arith: Option<Arith>,
    t: &Term,
    variable: u32,
    lines: &mut Lines,
) -> Result<(), AllocError>
    ensures { OnOk result ((vars : ℕ)
        → AreLinesTo arith vars (tree_of t.now) variable lines.old
        → AreLinesTo arith vars (tree_of t.now) (suc variable) lines.new) }
{
    lines.push(cell_at(arith, t, Column::Number(variable, 0)).numbers)?;
    lines.push(cell_at(arith, t, Column::Number(variable, 1)).numbers)?;
    lines.push(cell_at(arith, t, Column::Number(variable, 2)).numbers)?;
    Ok(())
}

/// The rows of what a term's value has above 0 and below, over the numbers of so many variables.
///
/// `arith` names the arithmetic operations. Fails only for want of memory.
pub fn value_rows(
    alloc: Global,
    arith: Option<Arith>,
    t: &Term,
    vars: u32,
) -> Result<ValueRows, AllocError>
    ensures above { IfOk result
        (λ rows. IsExpressionRow (expression arith vars (tree_of t.now) 1) rows.above) }
    ensures below { IfOk result
        (λ rows. IsExpressionRow (expression arith vars (tree_of t.now) 2) rows.below) }
{
    let constant = cell_at(arith, t, Column::Constant);
    if !constant.is_linear {
        return Ok(ValueRows {
            above: None,
            below: None,
        });
    }
    let mut lines = Lines::new(alloc, constant.numbers);
    for variable in 0..vars {
        push_variable(arith, t, variable, &mut lines)?;
    }
    let (above, below) = lines.into_rows();
    Ok(ValueRows { above, below })
}
