//! Laws of the definitions. Each is a function that does nothing, and whose clauses are proved.

ghost use Rattle.std.specs.Prelude.{◌≡◌, ◌≤◌, ◌<◌, ℕ, suc, ◌↔◌, List, [], ◌∷◌, None, Some, length, map};
ghost use Rattle.std.specs.List.{AllByRecursion};
ghost use Rattle.cti_terms.specs.Tree.{Tree, Variable, instance};
ghost use Rattle.cti_terms.specs.Unify.{Equation, Binding, Unifies, applied};
ghost use Rattle.cti_terms.specs.UnifyFunction.{unify};
ghost use Rattle.cti_terms.specs.MostGeneral.{IsMostGeneral, Solves};
ghost use Rattle.cti_terms.specs.Lifts.{IsGoalOf, IsMoreGeneral, left_after};
ghost use Rattle.cti_terms.specs.Resolve.{over, resolve};
ghost use Rattle.cti_terms.specs.ResolutionStep.{Resolves};
ghost use Rattle.cti_terms.specs.Derive.{query, IsDerivation, Bounded};
ghost use Rattle.cti_terms.specs.Arithmetic.{kind_of};
ghost use Rattle.cti_terms.specs.Listing.{Listing, IsFact, IsProgram, HasNoClause};
ghost use Rattle.cti_terms.specs.declared.atom_list.Atom.{Atom};
ghost use Rattle.cti_terms.specs.declared.builtins.Builtin.{Builtin};
ghost use Rattle.cti_terms.specs.declared.derivation.Goal.{Goal};
ghost use Rattle.std.specs.Prelude.{Bool, false};
ghost use Rattle.cti_terms.specs.Worlds.{World, resolve_in, IsDerivationAfter, BoundedIn};

/// Unification is a function, and what it gives unifies.
pub fn unification_is_a_function()
    // Equations have at most one unifier, and the function finds it exactly where there is one.
    ensures one { (es : List Equation) (bs cs : List Binding) → Unifies es bs → Unifies es cs → bs ≡ cs }
    ensures computed { (es : List Equation) (bs : List Binding) → Unifies es bs ↔ (unify es ≡ Some bs) }

    // Both sides of each equation become the same term, by what is one substitution.
    ensures unifies { (es : List Equation) (bs : List Binding) → Unifies es bs
        → AllByRecursion (λ (e : Equation). applied bs e.0 ≡ applied bs e.1) es }
    ensures substitution { (bs : List Binding) (t : Tree) → applied bs t ≡ instance (λ x. applied bs (Variable x)) t }
{}

/// The unifier is most general, and equations that some substitution solves have one.
///
/// So a head that could be unified with an atom is: a goal is not bounded because unification failed too often.
pub fn the_unifier_is_most_general()
    ensures found { (es : List Equation) (a : ℕ → Tree) → Solves a es → (bs : List Binding) × (unify es ≡ Some bs) }
    ensures general { (es : List Equation) (bs : List Binding) → unify es ≡ Some bs → IsMostGeneral es bs }
{}

/// Resolution is a function of the program, the goal and the clause's number.
pub fn resolution_is_a_function()
    // A clause resolves a goal in at most one way, and the function finds it exactly where there is one.
    ensures one { (p : Listing) (g : Goal) (k : ℕ) (bs cs : List Binding) (h i : Goal)
        → Resolves p g k bs h → Resolves p g k cs i → (bs ≡ cs) × (h ≡ i) }
    ensures computed { (p : Listing) (g : Goal) (k : ℕ) (bs : List Binding) (h : Goal)
        → Resolves p g k bs h ↔ (resolve p g k ≡ Some (bs, h)) }
{}

/// Where a program's built-in predicates have no clauses, number 0 alone resolves a goal that begins with one of them.
pub fn builtins_are_resolved_by_zero_alone()
    ensures { (p : Listing) (a : Atom) (rest : List Atom) (n i : ℕ) (b : Builtin) → IsProgram p
        → kind_of p.arithmetic a.pred.0 ≡ Some b
        → resolve p (record { atoms = a ∷ rest; fresh = n }) (suc i) ≡ None }
{}

/// A goal that nothing resolves is bounded: one without atoms, and one whose first atom's predicate has no clause and
/// is not built in.
pub fn finished_goals_are_bounded()
    ensures no_atoms { (p : Listing) (n : ℕ) → Bounded p (record { atoms = []; fresh = n }) }
    ensures no_clause { (p : Listing) (a : Atom) (rest : List Atom) (n : ℕ)
        → HasNoClause p a → kind_of p.arithmetic a.pred.0 ≡ None → Bounded p (record { atoms = a ∷ rest; fresh = n }) }
{}

/// In a program of facts every query is bounded, with any terms and any counter.
pub fn facts_are_bounded()
    ensures short { (p : Listing) (a : Atom) (n : ℕ) (ks : List ℕ)
        → AllByRecursion IsFact p.clauses → IsDerivation p (query a n) ks → length ks < 2 }
    ensures bounded { (p : Listing) (a : Atom) (n : ℕ) → AllByRecursion IsFact p.clauses → Bounded p (query a n) }
{}

/// A derivation by clauses from an atom lifts to each more general atom, and what it leaves there is more general too.
///
/// The atoms' counters may be any, but that of the more general one is above its variables. A step by a built-in atom
/// does not lift, since a more general atom may have no value.
pub fn derivations_lift()
    ensures { (p : Listing) (a b : Atom) (n m : ℕ) (ks : List ℕ) (h : Goal) → IsProgram p
        → AllByRecursion (λ (i : ℕ). 1 ≤ i) ks
        → IsMoreGeneral b a → IsGoalOf p (query b m) → left_after p (query a n) ks ≡ Some h
        → (l : Goal) × (left_after p (query b m) ks ≡ Some l)
        × (s : ℕ → Tree) × (h.atoms ≡ map (over (instance s)) l.atoms) }
{}

/// Where no predicate is open, steps, derivations and bounded goals in any world are those of the program.
pub fn worlds_without_open_predicates()
    ensures steps { (p : Listing) (w : World) (past : List ℕ) (g : Goal) (k : ℕ) → resolve_in p (λ _. false) w past g k ≡ resolve p g k }
    ensures derivations { (p : Listing) (w : World) (past : List ℕ) (g : Goal) (ks : List ℕ)
        → IsDerivationAfter p (λ _. false) w past g ks ↔ IsDerivation p g ks }
    ensures bounded { (p : Listing) (w : World) (g : Goal) → BoundedIn p (λ _. false) w g ↔ Bounded p g }
{}
