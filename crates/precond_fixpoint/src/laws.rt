//! Laws.

ghost use Rattle.precond_fixpoint.specs.Allowed.{GreatestDependsBelow, GreatestDependsOnMembers};
ghost use Rattle.precond_fixpoint.specs.Greatest.{LargerInside, Searches, SmallerIsBetterIn};

/// The search from all covering rows downward ends at the greatest family.
pub fn searches_find_the_greatest()
    ensures { Searches }
{}

/// Mappings with the smallest supports admit what any mappings admit.
pub fn smaller_supports_admit_more()
    ensures better { SmallerIsBetterIn }
    ensures inside { LargerInside }
{}

/// The greatest rows of a component depend only on what is allowed of the lower predicates that its clauses call.
pub fn greatest_depends_below()
    ensures { GreatestDependsBelow }
{}

/// Whether rows are the greatest of a component does not depend on other predicates' rows.
pub fn greatest_depends_on_members()
    ensures { GreatestDependsOnMembers }
{}
