//! Laws of sessions. Each is a function that does nothing, and whose clauses are proved.

ghost use Rattle.std.specs.Prelude.{ℕ, List};
ghost use Rattle.prolog_reader.specs.Names.{Extends};
ghost use Rattle.edit_texts.specs.Snapshot.{Snapshot, HasProgram};

/// The program of a session stays that of its clauses where names are added, as those of a clause that is to be added.
/// This is what edits ask for.
pub fn sessions_stay()
    ensures { (names later : List (List ℕ)) (s : Snapshot) → Extends names later
        → HasProgram names s
        → HasProgram later s }
{}
