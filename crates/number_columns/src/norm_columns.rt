//! A norm as the case of one column for each argument.

ghost use Rattle.std.specs.Prelude.{◌≡◌, refl};
ghost use Rattle.termination_model.specs.columns.NormColumns.{norm_columns};
ghost use Rattle.number_columns.specs.NormLaws.{one_column, norm_lengths, norm_laws, AnyOperations};

use crate::columns::{ColumnList, Columns};
use crate::kind::{Kind, Kinds};
use cti_terms::{Builtin, Term};
use linear_rows::{Numbers, Row, Rows};
use std::alloc::{AllocError, Global};
use term_size::Norm;
use termination_model::stated_rows;

/// The size by a norm: each argument has one column, whatever its kind.
#[derive(Drop)]
pub struct NormColumns<N> {
    pub norm: N,

    /// The kinds of each predicate's arguments.
    pub kinds: Kinds,
}

impl<N: Norm> Columns for NormColumns<N> {
    ghost columns = { λ c. norm_columns (N.size c.norm) (N.expression c.norm) };

    ghost truth = { λ c. N.truth c.norm };

    ghost count = { λ c. one_column };

    ghost listed = { λ c. c.kinds };

    ghost suits = { λ c. AnyOperations };

    ghost evaluated = { λ c. refl };

    ghost lengths = { λ c. norm_lengths (N.size c.norm) (N.truth c.norm) (N.expression c.norm) (N.laws c.norm) };

    ghost laws = { λ c. norm_laws (N.size c.norm) (N.truth c.norm) (N.expression c.norm) (N.laws c.norm) };

    fn width(&self) -> u32 {
        1
    }

    fn kinds(&self) -> &Kinds {
        &self.kinds
    }

    fn add_columns(
        &self,
        alloc: Global,
        t: &Term,
        _kind: Kind,
        vars: u32,
        list: &mut ColumnList,
    ) -> Result<(), AllocError> {
        let size = self.norm.size_expr(alloc, t, vars)?;
        list.push(Some(Row {
            constant: size.constant,
            coeffs: Numbers::from_vec(size.coeffs.into_vec()),
        }))
    }

    fn stated_rows(&self, alloc: Global, builtin: Builtin) -> Result<Rows, AllocError> {
        stated_rows(alloc, builtin)
    }
}
