//! The laws of rows, each a function without a body.

ghost use Rattle.std.specs.Prelude.{◌≡◌, ℕ, suc, ℤ, pos, List, All, length, ◌≤ℤ◌, ◌+◌, ◌↔◌};
ghost use Rattle.exact128.specs.Sums.{entry};
ghost use Rattle.linear_rows.specs.Members.{In, Distinct};
ghost use Rattle.linear_rows.specs.Rows.{HoldsOn, AreEmpty, IsPoint};
ghost use Rattle.linear_rows.specs.Proves.{Proves, Refutes};
ghost use Rattle.linear_rows.specs.Step.{all_eliminated, HasFloor, Within};
ghost use Rattle.linear_rows.specs.Solving.{solution};
ghost use Rattle.linear_rows.specs.Solving.Solution.{Found, Refuted};

/// What rows prove holds wherever they hold; what they prove with scale 0 shows that they hold nowhere.
///
/// Source: the easy direction of Farkas' lemma, as in Schrijver 1986.
pub fn proofs_are_sound()
    ensures holds { (rows : List (List ℤ)) (ms target : List ℤ) (scale : ℕ)
        → All (λ m. pos 0 ≤ℤ m) ms → Proves rows ms target (pos (suc scale))
        → HoldsOn (length target) rows target }
    ensures empty { (rows : List (List ℤ)) (ms target : List ℤ) → All (λ m. pos 0 ≤ℤ m) ms
        → Proves rows ms target (pos 0) → AreEmpty (length target) rows }
{}

/// Elimination projects: the rows left say exactly what the rows say without the variables.
///
/// A variable may be eliminated without loss where some row says that it is at least 0.
///
/// Source: Fourier-Motzkin elimination, as in Schrijver 1986.
pub fn elimination_projects()
    ensures vanish { (m : ℕ) (ks : List ℕ) (rows : List (List ℤ)) → Within m ks → (row : List ℤ)
        → In row (all_eliminated m ks rows) → (k : ℕ) → In k ks → entry row k ≡ pos 0 }
    ensures left { (m : ℕ) (ks : List ℕ) (rows : List (List ℤ)) → Within m ks → (row : List ℤ)
        → In row (all_eliminated m ks rows) → HoldsOn (m + 1) rows row }
    ensures same { (m : ℕ) (ks : List ℕ) (rows : List (List ℤ)) → Within m ks → Distinct ks
        → ((k : ℕ) → In k ks → HasFloor m k rows) → (row : List ℤ)
        → ((k : ℕ) → In k ks → entry row k ≡ pos 0) → HoldsOn (m + 1) (all_eliminated m ks rows) row
        ↔ HoldsOn (m + 1) rows row }
{}

/// Solving decides: a found point is one of the rows, and a refutation refutes them.
pub fn solving_decides()
    ensures found { (n : ℕ) (rows : List (List ℤ)) (t : ℤ) (w : List ℤ)
        → All (λ r. length r ≡ n + 1) rows → solution n rows ≡ Found t w → IsPoint n rows t w }
    ensures refuted { (n : ℕ) (rows : List (List ℤ)) (ms : List ℤ)
        → All (λ r. length r ≡ n + 1) rows → solution n rows ≡ Refuted ms → Refutes n rows ms }
{}
