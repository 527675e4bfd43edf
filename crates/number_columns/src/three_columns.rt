//! The three columns: size, and what a value has above 0 and below.

ghost use Rattle.std.specs.Prelude.{◌≡◌, ◌≤◌, ◌++◌, ◌∷◌, [], IsTrue, IfOk, OnOk, refl};
ghost use Rattle.cti_terms.specs.Spell.{tree_of};
ghost use Rattle.cti_terms.specs.Tree.{is_below, nodes_of, truth};
ghost use Rattle.termination_model.specs.columns.Expressions.{expression, size_row};
ghost use Rattle.number_columns.specs.ColumnLists.{if_fits, plain_column, plain_columns, value_columns, value_count};
ghost use Rattle.number_columns.specs.ColumnLaws.{value_lengths, value_laws};

use crate::column_rows::value_rows;
use crate::columns::{ColumnList, Columns};
use crate::kind::{Kind, Kinds};
use crate::line::Line;
use crate::stated::stated_value_rows;
use cti_terms::{Arith, Builtin, MOST_NODES, MOST_VARIABLES, Term};
use linear_rows::{Row, Rows};
use std::alloc::{AllocError, Global};
use term_size::{Norm, TermSize};

/// Size, above and below: a position of kind `Size` has the first column alone.
pub struct ThreeColumns {
    /// The names of the arithmetic operations.
    pub arith: Option<Arith>,

    /// The kinds of each predicate's arguments.
    pub kinds: Kinds,
}

impl Drop for ThreeColumns {
    fn drop(self) {
        let ThreeColumns { arith: _, kinds: _ } = self;
    }
}

/// The row of a term's size over the numbers of the first variables, where all its numbers fit.
fn size_column(alloc: Global, t: &Term, vars: u32) -> Result<Option<Row>, AllocError>
    requires few { vars ≤ MOST_VARIABLES }
    requires below { IsTrue (is_below vars (tree_of t.now)) }
    requires small { nodes_of (tree_of t.now) ≤ MOST_NODES }
    ensures { IfOk result (λ row. plain_column row ≡ if_fits (Some (size_row vars (tree_of t.now)))) }
{
    let size = TermSize.size_expr(alloc, t, vars)?;
    let mut line = Line::new(alloc, size.constant.unsigned_abs());
    for variable in 0..vars {
        let count = size.coeffs.entry(variable as usize);
        line.push_variable(count.unsigned_abs())?;
    }
    Ok(line.into_row())
}

/// Appends the columns of what a term's value has above 0 and below.
fn add_values(
    alloc: Global,
    arith: Option<Arith>,
    t: &Term,
    vars: u32,
    list: &mut ColumnList,
) -> Result<(), AllocError>
    ensures { OnOk result (plain_columns list.new ≡ plain_columns list.old
        ++ if_fits (expression arith vars (tree_of t.now) 1) ∷ if_fits (expression arith vars (tree_of t.now) 2) ∷ []) }
{
    value_rows(alloc, arith, t, vars)?.add_to(list)
}

impl Columns for ThreeColumns {
    ghost columns = { λ c. value_columns c.arith };

    ghost truth = { λ c. truth };

    ghost count = { λ c. value_count };

    ghost listed = { λ c. c.kinds };

    ghost suits = { λ c o. c.arith ≡ o };

    ghost evaluated = { λ c. refl };

    ghost lengths = { λ c. value_lengths c.arith };

    ghost laws = { λ c. value_laws c.arith };

    fn width(&self) -> u32 {
        3
    }

    fn kinds(&self) -> &Kinds {
        &self.kinds
    }

    fn add_columns(
        &self,
        alloc: Global,
        t: &Term,
        kind: Kind,
        vars: u32,
        list: &mut ColumnList,
    ) -> Result<(), AllocError> {
        list.push(size_column(alloc, t, vars)?)?;
        match kind {
            Kind::Size => Ok(()),
            Kind::Number => add_values(alloc, self.arith, t, vars, list),
        }
    }

    fn stated_rows(&self, alloc: Global, builtin: Builtin) -> Result<Rows, AllocError> {
        stated_value_rows(alloc, builtin)
    }
}
