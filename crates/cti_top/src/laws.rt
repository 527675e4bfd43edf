//! What a valid certificate says of the runs of queries, and that a text has one answer. They are functions that do
//! nothing, and whose clauses are proved.

ghost use Rattle.std.specs.Prelude.{◌≡◌, ◌≢◌, ◌≤◌, ◌<◌, ◌⊎◌, ℕ, List, [], ◌∷◌, Some, codes, false, nat_eq, length, option_map};
ghost use Rattle.std.specs.List.{AllPairs};
ghost use Rattle.certificate.specs.Reading.{IsTextOf, most_bytes};
ghost use Rattle.certificate.specs.declared.certificate.Certificate.{Certificate as TheCertificate};
ghost use Rattle.certificate.specs.declared.fact.Fact.{Fact};
ghost use Rattle.cert_structure.specs.Structure.{AreNamed};
ghost use Rattle.cert_checker.specs.Valid.{IsValid};
ghost use Rattle.cti_terms.specs.Derive.{query};
ghost use Rattle.cti_terms.specs.Listing.{IsProgram, Listing};
ghost use Rattle.cti_terms.specs.declared.atom_list.Atom.{Atom};
ghost use Rattle.cti_terms.specs.declared.derivation.Goal.{Goal};
ghost use Rattle.ld_resolver.specs.Count.{HasNodes};
ghost use Rattle.term_size.specs.declared.any_norm.NormName.TheVariants as norm;
ghost use Rattle.edit_texts.specs.Edits.{Told};
ghost use Rattle.cti_top.specs.Checks.{IsRefusedCertificate};
ghost use Rattle.cti_top.specs.Meets.{MeetsMode};
ghost use Rattle.cti_top.specs.Programs.{IsRefused};
ghost use Rattle.cti_top.specs.Queries.{Known, IsQueryOf, IsQueryRefused};
ghost use Rattle.cti_top.specs.Runs.{IsFinished, IsKnown};
ghost use Rattle.cti_top.specs.Sessions.{IsRefusedSession, IsToldBy};
ghost use Rattle.command_words.specs.Words.{asks, infer, check, lex, loop, norm_in, run, session};

use cert_checker::valid_certificates_bound_their_modes;
use ld_resolver::laws::{a_budget_of_all_nodes_finishes, bounded_goals_have_finitely_many_nodes};

/// Where a certificate of a program is valid, each query that meets one of its modes has some number of nodes, and its
/// run with a budget of at least that number is not stopped: there are no more nodes, and the status is Done, or
/// Overflow where a value is too large.
///
/// The names are those of the program's predicates, and no two are alike.
pub fn valid_certificates_bound_their_nodes()
    ensures finished { (p : Listing) (names : List (List ℕ)) (facts : List Fact) → IsProgram p
        → AreNamed names p.preds → AllPairs (λ a b. a ≢ b) names
        → IsValid p names facts → (a : Atom) (counter : ℕ) → MeetsMode p names facts a
        → (n : ℕ) × HasNodes p (query a counter) n
        × ((budget : ℕ) → n ≤ budget → IsFinished p (query a counter) budget) }
{
    valid_certificates_bound_their_modes();
    bounded_goals_have_finitely_many_nodes();
    a_budget_of_all_nodes_finishes();
}

/// Bytes are exactly one program, with its names and operators, or they are refused, for one fault at one place; and
/// never both. The same of a query of a program. No two names of a program have the same text.
pub fn a_text_has_one_answer()
    ensures some { (bytes : List ℕ) → ((known : Known) × IsKnown bytes known)
        ⊎ ((kind : ℕ) × (at : ℕ) × IsRefused bytes kind at) }
    ensures program { (bytes : List ℕ) (known other : Known) → IsKnown bytes known
        → IsKnown bytes other → known ≡ other }
    ensures refused { (bytes : List ℕ) (kind at other place : ℕ) → IsRefused bytes kind at
        → IsRefused bytes other place → (kind ≡ other) × (at ≡ place) }
    ensures distinct { (bytes : List ℕ) (known : Known) → IsKnown bytes known
        → AllPairs (λ a b. a ≢ b) known.names }
    ensures apart { (bytes : List ℕ) (known : Known) → IsKnown bytes known → (kind at : ℕ)
        → IsRefused bytes kind at → ⊥ }
    ensures some_goal { (known : Known) (query : List ℕ)
        → ((names : List (List ℕ)) × (p : Listing) × (g : Goal) × IsQueryOf known query names p g)
        ⊎ ((kind : ℕ) × (at : ℕ) × IsQueryRefused known query kind at) }
    ensures goal { (known : Known) (query : List ℕ) (names other : List (List ℕ)) (p q : Listing)
        (g h : Goal) → IsQueryOf known query names p g → IsQueryOf known query other q h
        → (names ≡ other) × (p ≡ q) × (g ≡ h) }
    ensures query_refused { (known : Known) (query : List ℕ) (kind at other place : ℕ)
        → IsQueryRefused known query kind at → IsQueryRefused known query other place
        → (kind ≡ other) × (at ≡ place) }
    ensures query_apart { (known : Known) (query : List ℕ) (names : List (List ℕ)) (p : Listing)
        (g : Goal) (kind at : ℕ) → IsQueryOf known query names p g
        → IsQueryRefused known query kind at → ⊥ }
{}

/// The edits of a text tell exactly one thing, by its names, or the text is refused, for one fault at one place; and
/// never both.
pub fn edits_have_one_outcome()
    ensures some { (bytes : List ℕ)
        → ((names : List (List ℕ)) × (told : List Told) × IsToldBy bytes names told)
        ⊎ ((kind : ℕ) × (at : ℕ) × IsRefusedSession bytes kind at) }
    ensures told { (bytes : List ℕ) (names other : List (List ℕ)) (told more : List Told)
        → IsToldBy bytes names told → IsToldBy bytes other more
        → (names ≡ other) × (told ≡ more) }
    ensures refused { (bytes : List ℕ) (kind at other place : ℕ) → IsRefusedSession bytes kind at
        → IsRefusedSession bytes other place
        → (kind ≡ other) × (at ≡ place) }
    ensures apart { (bytes : List ℕ) (names : List (List ℕ)) (told : List Told) (kind at : ℕ)
        → IsToldBy bytes names told
        → IsRefusedSession bytes kind at → ⊥ }
{}

/// A text within the limit is that of one certificate at most, or it is refused, at one line; and never both. A longer
/// one is neither.
pub fn a_certificate_has_one_answer()
    ensures certificate { (text : List ℕ) (c d : TheCertificate) → IsTextOf c text → IsTextOf d text
        → c ≡ d }
    ensures refused { (text : List ℕ) (line other : ℕ) → IsRefusedCertificate text line
        → IsRefusedCertificate text other → line ≡ other }
    ensures apart { (text : List ℕ) (c : TheCertificate) (line : ℕ) → IsTextOf c text
        → IsRefusedCertificate text line → ⊥ }
    ensures long { (text : List ℕ) → most_bytes < length text
        → ((c : TheCertificate) → IsTextOf c text → ⊥)
        × ((line : ℕ) → IsRefusedCertificate text line → ⊥) }
{}

/// The place of a refusal is one of the text, or its end.
pub fn refusals_stand_in_their_texts()
    ensures text { (bytes : List ℕ) (kind at : ℕ) → IsRefused bytes kind at → at ≤ length bytes }
    ensures query { (known : Known) (query : List ℕ) (kind at : ℕ)
        → IsQueryRefused known query kind at → at ≤ length query }
    ensures edits { (bytes : List ℕ) (kind at : ℕ) → IsRefusedSession bytes kind at
        → at ≤ length bytes }
{}
