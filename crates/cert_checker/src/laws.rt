//! Laws of the definitions. Each is a function that does nothing, and whose clauses are proved.

ghost use Rattle.std.specs.Prelude.{◌≡◌, ◌≢◌, ◌↔◌, ℕ, ℤ, Bool, List};
ghost use Rattle.std.specs.List.{AllPairs};
ghost use Rattle.call_components.specs.Partition.{AreComponents, Partition};
ghost use Rattle.certificate.specs.declared.fact.Fact.{Fact};
ghost use Rattle.cert_structure.specs.Structure.{AreNamed};
ghost use Rattle.cti_terms.specs.Listing.{IsProgram, Listing};
ghost use Rattle.cti_terms.specs.Tree.{Tree};
ghost use Rattle.cert_checker.specs.Excluded.{RefutationsExclude};
ghost use Rattle.cert_checker.specs.Fault.{IsFault};
ghost use Rattle.cert_checker.specs.Shows.{ClausesAreRanked, FallsAreProved, SizesAreProved};
ghost use Rattle.cert_checker.specs.Valid.{IsValid};
ghost use Rattle.cert_checker.specs.declared.reason.Reason.{Reason};

/// Where a certificate's numbers hold, its claims have proved sizes and falls.
///
/// Together with the rules of truth rows these are the premises of `termination_model`'s `proofs_show`.
pub fn numbers_show_claims()
    ensures ranked { (size : (ℕ → ℕ) → Tree → ℕ) (truth : (ℕ → Bool) → Tree → Bool) (expression : ℕ
        → Tree → List ℤ) → ClausesAreRanked size truth expression }
    ensures sizes { (size : (ℕ → ℕ) → Tree → ℕ) (truth : (ℕ → Bool) → Tree → Bool) (expression : ℕ
        → Tree → List ℤ) → SizesAreProved size truth expression }
    ensures falls { (size : (ℕ → ℕ) → Tree → ℕ) (truth : (ℕ → Bool) → Tree → Bool) (expression : ℕ
        → Tree → List ℤ) → FallsAreProved size truth expression }
{}

/// Where a certificate's refutations hold, they are refutations of the views of its claims.
pub fn refutations_are_those_of_views()
    ensures { (size : (ℕ → ℕ) → Tree → ℕ) (truth : (ℕ → Bool) → Tree → Bool) (expression : ℕ → Tree
        → List ℤ) → RefutationsExclude size truth expression }
{}

/// A certificate of a program is valid exactly where it has no fault: at no line, and for no reason.
///
/// The names are those of the program's predicates, and no two are alike. The partition is one into the program's
/// components, as `components` finds it; which one does not matter.
pub fn valid_certificates_have_no_fault()
    ensures { (p : Listing) (names : List (List ℕ)) (facts : List Fact) (comps : Partition)
        → IsProgram p → AreNamed names p.preds → AllPairs (λ a b. a ≢ b) names
        → AreComponents p comps
        → IsValid p names facts ↔ ((line : ℕ) (why : Reason) → ¬ IsFault p names facts line why) }
{}

/// No certificate of a program has two faults: two are of one line and for one reason.
///
/// The names are those of the program's predicates, and no two are alike.
pub fn a_certificate_has_one_fault()
    ensures { (p : Listing) (names : List (List ℕ)) (facts : List Fact) (line other : ℕ)
        (why because : Reason)
        → IsProgram p → AreNamed names p.preds → AllPairs (λ a b. a ≢ b) names
        → IsFault p names facts line why → IsFault p names facts other because → (line ≡ other)
        × (why ≡ because) }
{}
