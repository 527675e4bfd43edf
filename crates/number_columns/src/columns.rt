//! What columns are.

ghost use Rattle.std.specs.Prelude.{◌≡◌, ◌≤◌, ◌+◌, ◌*◌, ◌++◌, ◌∷◌, [], ℕ, Bool, List, Option, Some, IsTrue, IfOk, OnOk, length, suc, ℤ};
ghost use Rattle.cti_terms.specs.Spell.{tree_of};
ghost use Rattle.cti_terms.specs.Tree.{Tree, is_below, nodes_of};
ghost use Rattle.cti_terms.specs.declared.builtins.Arith.{Arith};
ghost use Rattle.linear_rows.specs.Plain.{HaveWidth, plain_rows};
ghost use Rattle.termination_model.specs.columns.Columns.{AreColumns, Columns as TheColumns, counted};
ghost use Rattle.number_columns.specs.ColumnLists.{plain_columns};
ghost use Rattle.number_columns.specs.declared.kind.Kind.{Kind};
ghost use Rattle.number_columns.specs.declared.kind.Kind.TheVariants.{Number};

use crate::kind::{Kind, Kinds};
use cti_terms::{Builtin, MOST_NODES, MOST_VARIABLES, Term};
use linear_rows::{Row, Rows};
use sequences::Sequence;
use std::alloc::{AllocError, Global};

/// The most naturals that a variable has.
pub const MOST_WIDTH: u32 = 3;

/// Columns of terms, each as a row over the numbers of variables, or none where it has no expression that fits.
pub type ColumnList = Sequence<Option<Row>>;

/// A way to measure the arguments of a program's predicates, by columns of naturals.
///
/// A variable has `width` naturals, and each argument of a predicate as many columns as its kind says.
pub trait Columns {
    /// What measures terms.
    ghost columns: { Self → TheColumns };

    /// Whether a term is rigid, where each variable stands for a rigid term or not.
    ghost truth: { Self → (ℕ → Bool) → Tree → Bool };

    /// How many columns an argument of a kind has.
    ghost count: { Self → Kind → ℕ };

    /// The kinds of each predicate's arguments.
    ghost listed: { Self → List (List Kind) };

    /// Whether these are columns for programs with these arithmetic operations.
    ghost suits: { Self → Option Arith → Type 0 };

    /// How many naturals a variable has.
    fn width(&self) -> u32
        ensures width { result ≡ (columns self.now).width }
        ensures few { result ≤ MOST_WIDTH };

    /// The kinds of each predicate's arguments. It takes no memory.
    fn kinds(&self) -> &Kinds
        ensures { result.now ≡ listed self.now };

    /// Appends the columns of an argument of this kind, over the numbers of the first variables.
    fn add_columns(
        &self,
        alloc: Global,
        t: &Term,
        kind: Kind,
        vars: u32,
        list: &mut ColumnList,
    ) -> Result<(), AllocError>
        requires few { vars ≤ MOST_VARIABLES }
        requires below { IsTrue (is_below vars (tree_of t.now)) }
        requires small { nodes_of (tree_of t.now) ≤ MOST_NODES }
        ensures { OnOk result (plain_columns list.new ≡ plain_columns list.old
            ++ counted 0 (count self.now kind) ((columns self.now).expression vars (tree_of t.now))) };

    /// The size rows that are stated of a built-in predicate, over the columns of its two arguments.
    fn stated_rows(&self, alloc: Global, builtin: Builtin) -> Result<Rows, AllocError>
        ensures widths { IfOk result
            (λ r. HaveWidth (count self.now Number + count self.now Number) r.list) }
        ensures rows { IfOk result (λ r. plain_rows r.list ≡ (columns self.now).stated builtin) };

    /// An argument of a built-in predicate has as many columns as a number.
    ghost evaluated: { (c : Self) → (columns c).evaluated ≡ count c Number ∷ (count c Number ∷ []) };

    /// An expression has a constant and a number for each natural of each variable.
    ghost lengths: { (c : Self) (vars : ℕ) (t : Tree) (j : ℕ) (e : List ℤ)
        → (columns c).expression vars t j ≡ Some e → length e ≡ suc (vars * (columns c).width) };

    /// Measures, truth and expressions obey the laws of columns.
    ghost laws: { (c : Self) (o : Option Arith) → suits c o → AreColumns o (truth c) (columns c) };
}
