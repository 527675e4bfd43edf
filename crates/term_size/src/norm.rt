//! What a norm is.

ghost use Rattle.std.specs.Prelude.{◌≡◌, ◌<◌, ◌≤◌, ◌∷◌, ℕ, ℤ, Bool, List, IsTrue, IfOk, All};
ghost use Rattle.cti_terms.specs.Spell.{tree_of};
ghost use Rattle.cti_terms.specs.Tree.{Tree, is_below, nodes_of};
ghost use Rattle.term_size.specs.Members.{members};
ghost use Rattle.term_size.specs.Norm.{IsNorm, ListsRigid};

use crate::size_expr::SizeExpr;
use crate::var_set::VarSet;
use cti_terms::{MOST_NODES, MOST_VARIABLES, Term};
use std::alloc::{AllocError, Global};

/// A way to measure terms.
///
/// A term is rigid where its size is the same whatever stands for its variables.
pub trait Norm {
    /// The size of a term, where each variable has a size.
    ghost size: { Self → (ℕ → ℕ) → Tree → ℕ };

    /// Whether a term is rigid, where each variable stands for a rigid term or not.
    ghost truth: { Self → (ℕ → Bool) → Tree → Bool };

    /// The size over the given number of variables as a row: the constant first, then a number for each variable.
    ghost expression: { Self → ℕ → Tree → List ℤ };

    /// The size of a term as an expression over the first `vars` variables.
    fn size_expr(&self, alloc: Global, t: &Term, vars: u32) -> Result<SizeExpr, AllocError>
        requires few { vars ≤ MOST_VARIABLES }
        requires below { IsTrue (is_below vars (tree_of t.now)) }
        requires small { nodes_of (tree_of t.now) ≤ MOST_NODES }
        ensures { IfOk result (λ e. e.constant ∷ e.coeffs ≡ expression self.now vars
            (tree_of t.now)) };

    /// The variables that a term's rigidity asks for: it is rigid exactly where what stands for each of them is.
    ///
    /// It takes no memory.
    fn rigid_vars(&self, t: &Term, vars: u32) -> VarSet
        requires few { vars ≤ MOST_VARIABLES }
        requires below { IsTrue (is_below vars (tree_of t.now)) }
        requires small { nodes_of (tree_of t.now) ≤ MOST_NODES }
        ensures lists { ListsRigid (truth self.now) (tree_of t.now) (members result) }
        ensures below { All (λ x. x < vars) (members result) };

    /// Size, truth and row obey the laws of norms.
    ghost laws: { (n : Self) → IsNorm (size n) (truth n) (expression n) };
}
