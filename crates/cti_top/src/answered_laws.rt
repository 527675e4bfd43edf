//! What the words ask for is answered, or memory runs out, where no load and no write fails. These are functions that
//! do nothing, and whose clauses are proved.
//!
//! `command` promises `Outcome` for its status, and says when a load or a write fails: only where a count of faults
//! rises.

ghost use Rattle.std.specs.Prelude.{◌≡◌, ◌<◌, ℕ, List, Some, None, length};
ghost use Rattle.certificate.specs.Reading.{IsTextOf, most_bytes};
ghost use Rattle.certificate.specs.declared.certificate.Certificate.{Certificate as TheCertificate};
ghost use Rattle.edit_texts.specs.Edits.{Told};
ghost use Rattle.cti_terms.specs.Listing.{Listing};
ghost use Rattle.cti_terms.specs.declared.derivation.Goal.{Goal};
ghost use Rattle.cti_top.specs.Checks.{IsRefusedCertificate};
ghost use Rattle.cti_top.specs.Outcome.{FileRose, HasFile, HasText, IsCheckedOrMemory, IsDoneOrMemory, IsLoopedOrMemory};
ghost use Rattle.cti_top.specs.Outcome.{IsRanOrMemory, IsRefusedOrMemory, IsUnfailed, IsUsageOrMemory, OriginRose};
ghost use Rattle.cti_top.specs.Queries.{IsQueryOf, Known};
ghost use Rattle.cti_top.specs.Runs.{IsKnown, IsRefusedQuery};
ghost use Rattle.cti_top.specs.Sessions.{IsRefusedFor, IsToldBy};
ghost use Rattle.command_words.specs.Words.{Ask, asks, check, gen, infer, lex, loop, origin, query_of, run, session};
ghost use Rattle.cti_top.specs.declared.status.Status.{Status as TheStatus};
ghost use Rattle.outside.specs.Told.{Map};
ghost use Rattle.term_size.specs.declared.any_norm.NormName.{NormName};

/// Where a file is a program, its modes are printed, and its certificate is checked; where edits can be done, their
/// modes are printed; and a generated program, for which no file is loaded, is always one.
pub fn programs_are_answered()
    ensures infer { (told : Map) (words : List (List ℕ)) (status : TheStatus)
        → IsUnfailed told words status → (name bytes : List ℕ) (norm : NormName) (known : Known)
        → asks words ≡ Some (infer name norm) → HasFile told name bytes → IsKnown bytes known
        → IsDoneOrMemory status }
    ensures lex { (told : Map) (words : List (List ℕ)) (status : TheStatus)
        → IsUnfailed told words status → (name bytes : List ℕ) (known : Known)
        → asks words ≡ Some (lex name) → HasFile told name bytes → IsKnown bytes known
        → IsDoneOrMemory status }
    ensures check { (told : Map) (words : List (List ℕ)) (status : TheStatus)
        → IsUnfailed told words status → (name certificate bytes certified : List ℕ)
        (known : Known) (c : TheCertificate) → asks words ≡ Some (check name certificate)
        → HasFile told name bytes → IsKnown bytes known → HasFile told certificate certified
        → IsTextOf c certified → IsCheckedOrMemory status }
    ensures session { (told : Map) (words : List (List ℕ)) (status : TheStatus)
        → IsUnfailed told words status → (name bytes : List ℕ) (names : List (List ℕ))
        (edits : List Told) → asks words ≡ Some (session name) → HasFile told name bytes
        → IsToldBy bytes names edits → IsDoneOrMemory status }
    ensures generated { (told : Map) (words : List (List ℕ)) (status : TheStatus)
        → IsUnfailed told words status → (n : ℕ) → asks words ≡ Some (gen n)
        → IsDoneOrMemory status }
{}

/// Where a query is a goal of the program, it is run, and a loop of it is looked for: the search may be stopped, and a
/// run may meet a value that is too large.
pub fn queries_are_answered()
    ensures run { (told : Map) (words : List (List ℕ)) (status : TheStatus)
        → IsUnfailed told words status → (name query bytes : List ℕ) (steps : ℕ) (known : Known)
        (names : List (List ℕ)) (program : Listing) (goal : Goal)
        → asks words ≡ Some (run name query steps) → HasFile told name bytes
        → IsKnown bytes known → IsQueryOf known query names program goal
        → IsRanOrMemory status }
    ensures find_loop { (told : Map) (words : List (List ℕ)) (status : TheStatus)
        → IsUnfailed told words status → (name query bytes : List ℕ) (depth : ℕ) (known : Known)
        (names : List (List ℕ)) (program : Listing) (goal : Goal)
        → asks words ≡ Some (loop name query depth) → HasFile told name bytes
        → IsKnown bytes known → IsQueryOf known query names program goal
        → IsLoopedOrMemory status }
{}

/// Where a text, a query or a certificate is refused, the answer is a refusal, and where the words ask for nothing, it
/// is the usage. The certificate's file is not loaded where the program is refused.
pub fn refusals_are_answered()
    ensures text { (told : Map) (words : List (List ℕ)) (status : TheStatus)
        → IsUnfailed told words status → (ask : Ask) (bytes : List ℕ) (kind at : ℕ)
        → asks words ≡ Some ask → HasText told (origin ask) bytes
        → IsRefusedFor ask bytes kind at → IsRefusedOrMemory status }
    ensures query { (told : Map) (words : List (List ℕ)) (status : TheStatus)
        → IsUnfailed told words status → (ask : Ask) (query bytes : List ℕ) (kind at : ℕ)
        → asks words ≡ Some ask → query_of ask ≡ Some query → HasText told (origin ask) bytes
        → IsRefusedQuery bytes query kind at → IsRefusedOrMemory status }
    ensures certificate { (told : Map) (words : List (List ℕ)) (status : TheStatus)
        → IsUnfailed told words status → (name certificate certified : List ℕ) (line : ℕ)
        → asks words ≡ Some (check name certificate) → HasFile told certificate certified
        → IsRefusedCertificate certified line → IsRefusedOrMemory status }
    ensures long_certificate { (told : Map) (words : List (List ℕ)) (status : TheStatus)
        → IsUnfailed told words status → (name certificate certified : List ℕ)
        → asks words ≡ Some (check name certificate) → HasFile told certificate certified
        → most_bytes < length certified → IsRefusedOrMemory status }
    ensures usage { (told : Map) (words : List (List ℕ)) (status : TheStatus)
        → IsUnfailed told words status → asks words ≡ None → IsUsageOrMemory status }
    ensures unloaded { (told : Map) (words : List (List ℕ)) (ask : Ask) (bytes : List ℕ) (kind at : ℕ)
        (before after : List ℕ → ℕ) → asks words ≡ Some ask → HasText told (origin ask) bytes
        → IsRefusedFor ask bytes kind at → FileRose told ask before after
        → OriginRose (origin ask) before after }
{}
