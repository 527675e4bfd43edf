//! Laws of the definitions. Each is a function that does nothing, and whose clauses are proved.

ghost use Rattle.std.specs.Prelude.{◌≡◌, ◌≤◌, ◌↔◌, ℕ, IsTrue, List, [], ◌∷◌, Some, map};
ghost use Rattle.std.specs.List.{AllByRecursion};
ghost use Rattle.cti_terms.specs.Tree.{Tree, instance};
ghost use Rattle.cti_terms.specs.Unify.{Equation, Binding};
ghost use Rattle.cti_terms.specs.UnifyFunction.{unify};
ghost use Rattle.cti_terms.specs.Resolve.{over};
ghost use Rattle.cti_terms.specs.Derive.{query, Bounded};
ghost use Rattle.cti_terms.specs.Listing.{Listing, IsProgram};
ghost use Rattle.cti_terms.specs.declared.atom_list.Atom.{Atom};
ghost use Rattle.cti_terms.specs.declared.derivation.Goal.{Goal};
ghost use Rattle.cti_terms.specs.Lifts.{IsGoalOf, IsMoreGeneral, left_after};
ghost use Rattle.loop_finder.specs.Loop.{GoesOn, IsLoop};
ghost use Rattle.loop_finder.specs.Matching.{is_more_general};
ghost use Rattle.cti_terms.specs.MostGeneral.{IsMostGeneral, Solves};

/// The cycle of a loop can be gone through over and over again, so its goal is not bounded.
pub fn a_loop_goes_on()
    ensures on { (p : Listing) (g : Goal) (u v : List ℕ) → IsProgram p → IsGoalOf p g
        → IsLoop p g u v → GoesOn p g u v }
    ensures unbounded { (p : Listing) (g : Goal) (u v : List ℕ) → IsProgram p → IsGoalOf p g
        → IsLoop p g u v → ¬ Bounded p g }
{}

/// Matching along the terms decides which atoms are more general.
pub fn matching_decides()
    ensures { (b a : Atom) → IsTrue (is_more_general b a) ↔ IsMoreGeneral b a }
{}
