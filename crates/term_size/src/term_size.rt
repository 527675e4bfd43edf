//! The norm that counts the names with arguments.

ghost use Rattle.cti_terms.specs.Tree.{size, truth};
ghost use Rattle.term_size.specs.Occurrences.{size_row};
ghost use Rattle.term_size.specs.TermSize.{is_a_norm};

use crate::counting::Counts;
use crate::norm::Norm;
use crate::size_expr::{Coefficients, SizeExpr};
use crate::var_set::VarSet;
use cti_terms::Term;
use std::alloc::{AllocError, Global};

/// Term size: the number of names that have arguments. Atoms and integers have size 0.
///
/// A term is rigid exactly where it has no variable.
///
/// Source: the structural term size of Sohn and Van Gelder 1991.
#[derive(Clone, Copy, PartialEq, Eq)]
pub struct TermSize;

impl Norm for TermSize {
    ghost size = { λ n. size };

    ghost truth = { λ n. truth };

    ghost expression = { λ n. size_row };

    ghost laws = { λ n. is_a_norm };

    fn size_expr(&self, alloc: Global, t: &Term, vars: u32) -> Result<SizeExpr, AllocError> {
        let counts = Counts::of(t);
        Ok(SizeExpr {
            constant: i128::from(counts.names),
            coeffs: counts.first_variables(alloc, vars)?,
        })
    }

    fn rigid_vars(&self, t: &Term, vars: u32) -> VarSet {
        Counts::of(t).occurring(vars)
    }
}
