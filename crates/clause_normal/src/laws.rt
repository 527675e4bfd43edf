//! Where faults stand, what made clauses are, and definite clauses. Each is a function that does nothing, whose clauses
//! are proved.

ghost use Rattle.std.specs.Prelude.{◌≡◌, ◌≤◌, ◌+◌, ℕ, List, [], ◌∷◌, ◌++◌, None, Ok, Err, length, take, drop, sum_by};
ghost use Rattle.std.specs.List.{AllByRecursion};
ghost use Rattle.cti_terms.specs.Listing.{Listing};
ghost use Rattle.cti_terms.specs.declared.derivation.Goal.{Goal as Query};
ghost use Rattle.prolog_grammar.specs.Places.{IsPlaced};
ghost use Rattle.prolog_terms.specs.Clauses.{Clause, nodes};
ghost use Rattle.clause_normal.specs.ChoiceNames.{program_names, HasOperations};
ghost use Rattle.prolog_reader.specs.Fit.{IsFit};
ghost use Rattle.prolog_reader.specs.Names.{Extends};
ghost use Rattle.prolog_reader.specs.Naming.{with_names};
ghost use Rattle.prolog_reader.specs.Places.{ArePlacedClauses};
ghost use Rattle.clause_normal.specs.NormalForm.{Fault, normal_form, normal_rules};
ghost use Rattle.clause_normal.specs.Numbering.{operation_texts};
ghost use Rattle.clause_normal.specs.Rules.{Rule};
ghost use Rattle.clause_normal.specs.Small.{IsSmall, call_nodes};
ghost use Rattle.clause_normal.specs.Definite.{AreDefinite, added_fault, program_of};
ghost use Rattle.clause_normal.specs.Query.{query_form, query_calls, query_goals};

use cti_terms::{MOST_NODES, MOST_VARIABLES};

/// A fault of the normal form stands within the text, where its clauses do.
pub fn faults_stand_in_their_texts()
    ensures text { (size : ℕ) (names : List (List ℕ)) (clauses : List Clause) (f : Fault)
        → ArePlacedClauses size clauses → normal_form names clauses ≡ Err f → f.1 ≤ size }
    ensures query { (size : ℕ) (names : List (List ℕ)) (p : Listing) (clause : Clause) (f : Fault)
        → IsPlaced size clause.term → query_form names p clause ≡ Err f → f.1 ≤ size }
{}

/// The clauses of a text add few names and few predicates, so that there is a number for each of them.
///
/// The reader's clauses have at most 2,097,152 nodes together.
pub fn few_names_and_predicates()
    ensures names { (names : List (List ℕ)) (clauses : List Clause)
        → sum_by (λ (c : Clause). nodes c.term) clauses ≤ 2097152
        → length (program_names names clauses) ≤ length names + 4194307 }
    ensures preds { (names : List (List ℕ)) (clauses : List Clause) (p : Listing)
        → sum_by (λ (c : Clause). nodes c.term) clauses ≤ 2097152 → normal_form names clauses ≡ Ok p
        → length p.preds ≤ 4194304 }
{}

/// Each clause that is made of a text's clauses is within the limits, so that a program's clauses hold it.
///
/// The reader's clauses have at most 2,097,152 nodes together.
pub fn made_clauses_are_small()
    ensures { (names : List (List ℕ)) (clauses : List Clause) (made : List Rule)
        → sum_by (λ (c : Clause). nodes c.term) clauses ≤ 2097152
        → normal_rules names [] 1 clauses ≡ Ok made
        → AllByRecursion IsSmall made }
{}

/// The goal of a query is within the same limits, and adds few predicates.
pub fn goals_of_queries_are_small()
    ensures variables { (names : List (List ℕ)) (p q : Listing) (clause : Clause) (g : Query)
        → query_form names p clause ≡ Ok (q, g) → g.fresh ≤ MOST_VARIABLES }
    ensures nodes { (names : List (List ℕ)) (clause : Clause) → nodes clause.term ≤ 2097152
        → sum_by call_nodes (query_calls (query_goals names clause.term)) ≤ MOST_NODES }
    ensures preds { (names : List (List ℕ)) (p q : Listing) (clause : Clause) (g : Query)
        → nodes clause.term ≤ 2097152 → query_form names p clause ≡ Ok (q, g)
        → length q.preds ≤ length p.preds + 2097152 }
{}

/// The program of definite clauses is their normal form.
pub fn definite_programs_are_normal()
    ensures { (names : List (List ℕ)) (clauses : List Clause) → AreDefinite names clauses
        → normal_form names clauses ≡ Ok (program_of names clauses) }
{}

/// Definite clauses stay definite where one is added without a fault, where some in a row are taken out, and where
/// names are added.
pub fn definite_clauses_come_and_go()
    ensures added { (names : List (List ℕ)) (clauses : List Clause) (c : Clause)
        → AreDefinite names clauses → added_fault names (length clauses) c ≡ None
        → AreDefinite names (clauses ++ c ∷ []) }
    ensures taken { (names : List (List ℕ)) (clauses : List Clause) (i j : ℕ) → i ≤ j
        → AreDefinite names clauses
        → AreDefinite names (take i clauses ++ drop j clauses) }
    ensures later { (names later : List (List ℕ)) (clauses : List Clause) → Extends names later
        → AllByRecursion (IsFit (length names)) clauses → AreDefinite names clauses
        → AreDefinite later clauses }
{}

/// The program of definite clauses is the same where names are added, if those of arithmetic operations are there. Once
/// added, they are.
pub fn definite_programs_stay()
    ensures program { (names later : List (List ℕ)) (clauses : List Clause) → Extends names later
        → HasOperations names
        → AllByRecursion (IsFit (length names)) clauses → AreDefinite names clauses
        → program_of later clauses ≡ program_of names clauses }
    ensures named { (names : List (List ℕ)) → HasOperations (with_names names operation_texts) }
    ensures operations { (names later : List (List ℕ)) → Extends names later → HasOperations names
        → HasOperations later }
{}
