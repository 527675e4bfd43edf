//! Either norm, as one type.

ghost use Rattle.std.specs.Prelude.{◌≡◌};
ghost use Rattle.term_size.specs.AnyNorm.{any_size, any_truth, any_row, any_is_a_norm, dot_among, is_dot_text};

use crate::list_size::ListSize;
use crate::norm::Norm;
use crate::size_expr::SizeExpr;
use crate::term_size::TermSize;
use crate::var_set::VarSet;
use cti_terms::{Name, Names, Term};
use std::alloc::{AllocError, Global};

/// A norm by its name.
#[derive(Clone, Copy, PartialEq, Eq)]
pub enum NormName {
    /// Term size.
    Term,

    /// List size.
    List,
}

/// The norm in force: term size, or list size.
#[derive(Clone, Copy)]
pub enum AnyNorm {
    Terms(TermSize),
    Lists(ListSize),
}

impl Norm for AnyNorm {
    ghost size = { any_size };

    ghost truth = { any_truth };

    ghost expression = { any_row };

    ghost laws = { any_is_a_norm };

    fn size_expr(&self, alloc: Global, t: &Term, vars: u32) -> Result<SizeExpr, AllocError> {
        match self {
            AnyNorm::Terms(norm) => norm.size_expr(alloc, t, vars),
            AnyNorm::Lists(norm) => norm.size_expr(alloc, t, vars),
        }
    }

    fn rigid_vars(&self, t: &Term, vars: u32) -> VarSet {
        match self {
            AnyNorm::Terms(norm) => norm.rigid_vars(t, vars),
            AnyNorm::Lists(norm) => norm.rigid_vars(t, vars),
        }
    }
}

/// Whether a text is a dot.
fn is_dot_text(text: &[u8]) -> bool
    ensures { result ≡ is_dot_text text.now }
{
    text.len() == 1 && text[0] == b'.'
}

impl ListSize {
    /// List size by the names of a program: a cell's name is the one whose text is a dot, if there is one.
    ///
    /// It takes no memory.
    pub fn among(names: &Names) -> ListSize
        ensures { result.dot ≡ dot_among names.now }
    {
        for i in 0..names.count() {
            if is_dot_text(names.text(Name(i))) {
                return ListSize { dot: Some(Name(i)) };
            }
        }
        ListSize { dot: None }
    }
}
