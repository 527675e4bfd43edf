//! Laws of what is kept. Each is a function that does nothing, and whose clause is proved.

ghost use Rattle.solved_program.specs.Grounds.{SolvedGroundsAreLeast};
ghost use Rattle.solved_program.specs.Solved.{SolvedSizesAreProved};

/// The parts of all components are a legal chain whose rows are proved.
pub fn solved_sizes_are_proved()
    ensures { SolvedSizesAreProved }
{}

/// The ground rows of all components are the least ones of the program.
pub fn solved_grounds_are_least()
    ensures { SolvedGroundsAreLeast }
{}
