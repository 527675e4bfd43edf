//! What a domain of size rows is.

ghost use Rattle.std.specs.Prelude.{◌≡◌, ℕ, suc, ℤ, Bool, true, List, [], ◌∷◌, IfOk, length, All};
ghost use Rattle.linear_rows.specs.Plain.{HaveWidth, plain_row, plain_rows};
ghost use Rattle.termination_model.specs.chains.ChainRows.{bottom_row, AreSpoken};
ghost use Rattle.linear_rows.specs.Replacing.{row_fits};
ghost use Rattle.simplex.specs.Telling.{Tells};
ghost use Rattle.polyhedra.specs.Telling.{TellsHead, IsSystem, HasNaturalHead};
ghost use Rattle.polyhedra.specs.Making.{arity_of, SaysImage, SaysJoin, SaysWidened};

use crate::made::Made;
use crate::widened::Widened;
use linear_rows::{Row, Rows, System};
use simplex::Held;
use std::alloc::{AllocError, Global};

/// Sets of sizes of a predicate's arguments, each given by the rows that it lists.
///
/// A call answers weakly, or that a test is blown, only where a system or test that it names is blown, as linear_rows
/// defines that. The only error is running out of memory.
pub trait Domain: Drop + Sized {
    /// How many arguments the rows speak of.
    ghost width: { Self → ℕ };

    /// The rows that a value lists.
    ghost listed: { Self → List (List ℤ) };

    /// Which rows the domain speaks of.
    ghost speaks: { List ℤ → Bool };

    /// The value that no sizes are in: it lists the one row of constant -1 and zeros.
    fn bottom(alloc: Global, arity: u32) -> Result<Self, AllocError>
        ensures arity { IfOk result (λ d. width d ≡ arity) }
        ensures rows { IfOk result (λ d. listed d ≡ bottom_row arity ∷ []) };

    /// The listed rows. It takes no memory.
    fn rows(&self) -> &Rows
        ensures width { result.now.width ≡ width self.now }
        ensures widths { HaveWidth result.now.width result.now.list }
        ensures rows { plain_rows result.now.list ≡ listed self.now };

    /// Tests whether a row holds wherever the listed rows hold.
    ///
    /// Yes comes with multipliers that show it, No with a point of the value at which the row fails.
    fn holds(&self, alloc: Global, row: &Row) -> Result<Held, AllocError>
        requires { length row.now.coeffs ≡ width self.now }
        ensures { IfOk result (Tells (width self.now) (listed self.now) (plain_row row.now)) };

    /// Tests whether a row over the head's arguments holds on a clause's system.
    ///
    /// The row is read with the head's size expressions in the arguments' places. The test is blown also where that row
    /// does not fit, and on a system one of whose rows did not fit.
    fn holds_on(alloc: Global, system: &System, row: &Row) -> Result<Held, AllocError>
        requires system { IsSystem system.now }
        requires arity { length row.now.coeffs ≡ arity_of system.now }
        ensures { IfOk result (TellsHead system.now (plain_row row.now)) };

    /// The sizes that the head's arguments have over a clause's system.
    ///
    /// The same rows hold on it as on the system. It is weak, and lists no rows, exactly where its own system is
    /// blown.
    fn image(alloc: Global, system: &System) -> Result<Made<Self>, AllocError>
        requires system { IsSystem system.now }
        requires head { HasNaturalHead system.now }
        ensures arity { IfOk result (λ made. width made.value ≡ arity_of system.now) }
        ensures rows { IfOk result
            (λ made. SaysImage speaks system.now (listed made.value) made.weak) };

    /// The least value over both.
    ///
    /// The same rows hold on it as on both. It is weak, and lists no rows, only where its system is blown, or the
    /// test whether one of the two is empty.
    fn join(&self, alloc: Global, other: &Self) -> Result<Made<Self>, AllocError>
        requires { width other.now ≡ width self.now }
        ensures arity { IfOk result (λ made. width made.value ≡ width self.now) }
        ensures rows { IfOk result
            (λ made. SaysJoin speaks (width self.now) (listed self.now) (listed other.now)
            (listed made.value) made.weak) };

    /// The listed rows that hold on the head of a clause's system, each with multipliers that show it.
    ///
    /// Each row that is left out is known to fail there or has a blown test there. Of each of these two kinds the
    /// answer tells whether there are some.
    fn widen(&self, alloc: Global, system: &System) -> Result<Widened<Self>, AllocError>
        requires system { IsSystem system.now }
        requires arity { width self.now ≡ arity_of system.now }
        ensures arity { IfOk result (λ made. width made.value ≡ width self.now) }
        ensures rows { IfOk result (SaysWidened listed system.now self.now) };

    /// The row of constant -1 and zeros is spoken of, each row that a value lists has the value's arity and is spoken
    /// of, and rows that are spoken of fit.
    ghost laws: { ((n : ℕ) → speaks (bottom_row n) ≡ true) × ((d : Self) → AreSpoken speaks (width d)
        (listed d)) × ((r : List ℤ) → speaks r ≡ true → row_fits r ≡ true) };
}
