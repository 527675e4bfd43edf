//! Laws of the definitions that a run speaks of. Each is a function that does nothing, and whose clauses are proved.

ghost use Rattle.std.specs.Prelude.{◌≡◌, ◌≢◌, ◌↔◌, ◌≤◌, ◌<◌, ◌⊎◌, ◌++◌, ℕ, List, [], map, length};
ghost use Rattle.std.specs.List.{AllByRecursion};
ghost use Rattle.cti_terms.specs.declared.derivation.Goal.{Goal};
ghost use Rattle.cti_terms.specs.Listing.{Listing};
ghost use Rattle.cti_terms.specs.Derive.{IsDerivation, Bounded};
ghost use Rattle.cti_terms.specs.Nodes.{nodes, first_nodes, HasMoreNodes};
ghost use Rattle.cti_terms.specs.Answers.{answers};
ghost use Rattle.ld_resolver.specs.declared.answer.Answer.{Answer};
ghost use Rattle.ld_resolver.specs.declared.running.Running.{Running};
ghost use Rattle.ld_resolver.specs.Told.{told};
ghost use Rattle.ld_resolver.specs.Progress.{HasGiven};
ghost use Rattle.ld_resolver.specs.Order.{Before, IsIn, AreAscending};
ghost use Rattle.ld_resolver.specs.Count.{HasNodes};

/// The nodes of at most d steps are the derivations of at most d steps but the empty one, in lexicographic order.
pub fn nodes_are_derivations()
    ensures each { (p : Listing) (g : Goal) (d : ℕ) (ks : List ℕ)
        → IsIn ks (nodes p d g) ↔ ((ks ≢ []) × (length ks ≤ d) × IsDerivation p g ks) }
    ensures order { (p : Listing) (g : Goal) (d : ℕ) → AreAscending (nodes p d g) }
{}

/// A bounded goal has finitely many nodes.
pub fn bounded_goals_have_finitely_many_nodes()
    ensures finite { (p : Listing) (g : Goal) → Bounded p g → (n : ℕ) × HasNodes p g n }
{}

/// A run is finished exactly where its budget is at least the number of the goal's nodes, and then it has looked at all
/// of them.
pub fn a_budget_of_all_nodes_finishes()
    ensures finished { (p : Listing) (g : Goal) (n : ℕ) → HasNodes p g n → (budget : ℕ) → n ≤ budget
        → ¬ HasMoreNodes p g budget }
    ensures all { (p : Listing) (g : Goal) (n : ℕ) → HasNodes p g n → (budget : ℕ) → n ≤ budget
        → length (first_nodes p g budget) ≡ n }
    ensures stopped { (p : Listing) (g : Goal) (n : ℕ) → HasNodes p g n → (budget : ℕ) → budget < n
        → HasMoreNodes p g budget }
    ensures counted { (p : Listing) (g : Goal) (budget : ℕ) → ¬ HasMoreNodes p g budget
        → HasNodes p g (length (first_nodes p g budget)) }
{}

/// The first n nodes are derivations but the empty one, in lexicographic order, and every other such derivation comes
/// after all of them, however long it is. There are more exactly where there is another one.
pub fn first_nodes_come_first()
    ensures each { (p : Listing) (g : Goal) (n : ℕ) (ks : List ℕ) → IsIn ks (first_nodes p g n)
        → (ks ≢ []) × IsDerivation p g ks }
    ensures order { (p : Listing) (g : Goal) (n : ℕ) → AreAscending (first_nodes p g n) }
    ensures others { (p : Listing) (g : Goal) (n : ℕ) (ks : List ℕ) → ks ≢ [] → IsDerivation p g ks
        → IsIn ks (first_nodes p g n)
        ⊎ (HasMoreNodes p g n × ((length (first_nodes p g n) ≡ n)
        × AllByRecursion (λ (ls : List ℕ). Before ls ks) (first_nodes p g n))) }
    ensures more { (p : Listing) (g : Goal) (n : ℕ) → HasMoreNodes p g n
        → (ks : List ℕ) × (ks ≢ []) × IsDerivation p g ks × (IsIn ks (first_nodes p g n) → ⊥) }
    ensures enough { (p : Listing) (g : Goal) (n : ℕ) → ((d : ℕ) → length (nodes p d g) ≤ n)
        → (budget : ℕ) → n ≤ budget → ¬ HasMoreNodes p g budget }
{}

/// The answers that a run has given by now, in order, are the first ones of all its answers.
pub fn given_answers_are_the_first()
    ensures { (p : Listing) (g : Goal) (n : ℕ) (run : Running) (given : List Answer)
        → HasGiven p g n run given
        → (rest : List Answer) × (given ++ rest ≡ map told (answers p g n)) }
{}
