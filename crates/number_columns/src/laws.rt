//! The laws of systems over columns, each a function without a body.

ghost use Rattle.number_columns.specs.Laws.{SystemsAreOfSizes, SystemsExtend, SystemsOfNorms};

/// The system of more atoms begins with that of fewer.
pub fn systems_extend()
    ensures { SystemsExtend }
{}

/// A system depends on columns, kinds and size rows alone.
pub fn systems_are_of_sizes()
    ensures { SystemsAreOfSizes }
{}

/// Where each argument has the one column of a norm, the system is that over the norm.
pub fn systems_of_norms()
    ensures { SystemsOfNorms }
{}
