//! What a valid certificate of lists says of queries. It is a function whose clause is proved.

ghost use Rattle.std.specs.Prelude.{◌≢◌, ℕ, List};
ghost use Rattle.std.specs.List.{AllPairs};
ghost use Rattle.cert_structure.specs.Structure.{AreNamed};
ghost use Rattle.cti_terms.specs.Listing.{IsProgram, Listing};
ghost use Rattle.lex_certificate.specs.declared.fact.LexFact.{LexFact};
ghost use Rattle.lex_checker.specs.Bounding.{ModesAreBounded};
ghost use Rattle.lex_checker.specs.Valid.{IsValid};

use cert_modes::laws::holding_modes_show;

/// Where a certificate of lists is valid, each query that meets one of its modes is bounded.
///
/// The names are those of the program's predicates, and no two are alike.
pub fn valid_lists_bound_their_modes()
    ensures { (p : Listing) (names : List (List ℕ)) (facts : List LexFact) → IsProgram p
        → AreNamed names p.preds
        → AllPairs (λ a b. a ≢ b) names → IsValid p names facts → ModesAreBounded p names facts }
{
    holding_modes_show();
}
