//! What holds of every norm. Each is a function that does nothing, and whose clauses are proved.

ghost use Rattle.std.specs.Prelude.{◌≡◌, ◌↔◌, ◌≤ℤ◌, ℕ, List, IsTrue, All, pos};
ghost use Rattle.cti_terms.specs.Tree.{Tree, instance, is_below};
ghost use Rattle.term_size.specs.Norm.{IsRigid, ListsRigid, value_of};

use crate::norm::Norm;

/// The expression of a norm is the size of the term and of its instances.
pub fn laws_of_sizes<N: Norm>(norm: &N)
    // Under every valuation by naturals the expression's value is the term's size, a natural.
    ensures value { (vars : ℕ) (s : ℕ → ℕ) (t : Tree) → IsTrue (is_below vars t)
        → value_of (N.expression norm.now vars t) s ≡ pos (N.size norm.now s t) }
    ensures natural { (vars : ℕ) (s : ℕ → ℕ) (t : Tree) → IsTrue (is_below vars t)
        → pos 0 ≤ℤ value_of (N.expression norm.now vars t) s }

    // The size of an instance is that value at the sizes of what stands for the variables.
    ensures instances { (vars : ℕ) (s : ℕ → ℕ) (a : ℕ → Tree) (t : Tree) → IsTrue (is_below vars t)
        → value_of (N.expression norm.now vars t) (λ x. N.size norm.now s (a x))
        ≡ pos (N.size norm.now s (instance a t)) }
{}

/// The variables that a norm lists say which instances are rigid, and those have one size.
pub fn laws_of_rigid_terms<N: Norm>(norm: &N)
    // An instance is rigid exactly where what stands for each listed variable is.
    ensures instances { (a : ℕ → Tree) (t : Tree) (variables : List ℕ)
        → ListsRigid (N.truth norm.now) t variables
        → IsRigid (N.truth norm.now) (instance a t)
        ↔ All (λ x. IsRigid (N.truth norm.now) (a x)) variables }

    // The size of a rigid term does not change under instances.
    ensures fixed { (r s : ℕ → ℕ) (a : ℕ → Tree) (t : Tree) → IsRigid (N.truth norm.now) t
        → N.size norm.now r (instance a t) ≡ N.size norm.now s t }
{}
