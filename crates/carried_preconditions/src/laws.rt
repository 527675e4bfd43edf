//! Laws. Each is a function that does nothing, and whose clause is proved.

ghost use Rattle.carried_preconditions.specs.Carries.{SolvedCarriesOver};

/// A component that stands for an old one, and has the sets that it had, has its greatest preconditions.
pub fn solved_carries_over()
    ensures { SolvedCarriesOver }
{}
