//! What the stuck sets of a valid certificate of lists say. It is a function whose clause is proved.

ghost use Rattle.std.specs.Prelude.{◌≢◌, ℕ, List};
ghost use Rattle.std.specs.List.{AllPairs};
ghost use Rattle.cert_structure.specs.Structure.{AreNamed};
ghost use Rattle.cti_terms.specs.Listing.{IsProgram, Listing};
ghost use Rattle.lex_certificate.specs.declared.fact.LexFact.{LexFact};
ghost use Rattle.lex_checker.specs.NoList.{StuckComponentsHaveNoList};
ghost use Rattle.lex_checker.specs.Valid.{IsValid};

use lex_certificate::one_reading;

/// Where a certificate of lists is valid, no list of mappings drops at each call of a component that has a stuck set,
/// for the size rows of the certificate.
///
/// The names are those of the program's predicates, and no two are alike.
pub fn stuck_components_have_no_list()
    ensures { (p : Listing) (names : List (List ℕ)) (facts : List LexFact) → IsProgram p
        → AreNamed names p.preds
        → AllPairs (λ a b. a ≢ b) names → IsValid p names facts
        → StuckComponentsHaveNoList p names facts }
{
    one_reading();
}
