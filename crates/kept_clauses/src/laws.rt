//! Laws. Each is a function that does nothing, and whose clause is proved.

ghost use Rattle.kept_clauses.specs.AllKept.{ListEditKeepsUntouched, OneEditKeepsUntouched, UntouchedAreKept};
ghost use Rattle.kept_clauses.specs.AllKept.{UntouchedHaveStayed, UntouchedOfSetHaveStayed};

/// All clauses of untouched predicates are kept, in their order, where none of them is new or none is lost.
pub fn untouched_are_kept()
    ensures { UntouchedAreKept }
{}

/// So it is where clauses were only put in, or only taken out.
pub fn one_edit_keeps_untouched()
    ensures { OneEditKeepsUntouched }
{}

/// So it is with the programs of two lists of definite clauses.
pub fn list_edit_keeps_untouched()
    ensures { ListEditKeepsUntouched }
{}

/// Where all clauses of untouched predicates are kept, and components that stand and predicates without clauses keep
/// what was found of them, nothing of what was found of untouched predicates changes.
pub fn untouched_have_stayed<X>()
    ensures { UntouchedHaveStayed X }
{}

/// The components of untouched predicates may be any that have stayed, so that more may be known of their members.
pub fn untouched_of_set_have_stayed<X>()
    ensures { UntouchedOfSetHaveStayed X }
{}
