//! The laws of the tests, each a function without a body.

ghost use Rattle.transition_tests.specs.Laws.{DropsAreProved, GroupsStick, RowsOverZerosAreShown, SizeRowsAreProved};

/// A size row of a clause's head that multipliers show over the rows of its body is one that is proved; and one that
/// they show with zeros in the place of columns that are not there is shown.
pub fn size_rows_are_proved()
    ensures proved { SizeRowsAreProved }
    ensures shown { RowsOverZerosAreShown }
{}

/// At a call, a list of mappings that drops is one that is proved to fall there.
pub fn drops_are_proved()
    ensures { DropsAreProved }
{}

/// A stuck set is one over the transitions in the words of their laws, so no list descends over them.
pub fn groups_stick()
    ensures { GroupsStick }
{}
