//! The laws of systems over columns, each a function without a body.

ghost use Rattle.column_systems.specs.Laws.{ClausesAreProved, KindsAreNumbers, NormsAreFew, NumbersAreEvaluated, ProgramsAreProved, RowsAreShort, RowsAreStated, SizesAreOfColumns, SystemsAreOfClaims, ThreeAreFew};

/// A clause's system is that of claims of the size rows, and its rows are the short system.
pub fn systems_are_of_claims()
    ensures systems { SystemsAreOfClaims }
    ensures short { RowsAreShort }
{}

/// Size rows over the columns of predicates are over those of their arguments.
pub fn sizes_are_of_columns()
    ensures { SizesAreOfColumns }
{}

/// Claims of size rows that have their proofs over the systems are proved.
pub fn sizes_are_proved()
    ensures clause { ClausesAreProved }
    ensures program { ProgramsAreProved }
{}

/// The last rows of a legal chain give a built-in predicate stated rows alone.
pub fn rows_are_stated()
    ensures { RowsAreStated }
{}

/// Where `Number` is the kind of each numeric position, the arguments of built-in predicates are numbers, and so have
/// the columns of evaluated arguments.
pub fn kinds_are_numbers()
    ensures numbers { KindsAreNumbers }
    ensures evaluated { NumbersAreEvaluated }
{}

/// The three columns and the one column of a norm are few enough for systems.
pub fn columns_are_few()
    ensures three { ThreeAreFew }
    ensures norms { NormsAreFew }
{}
