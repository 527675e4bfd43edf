//! Why queries end, over columns. Each is a function that does nothing, and whose clauses are proved.

ghost use Rattle.termination_model.specs.columns.ColumnDescent.{ModesEnd, RowsEnd};
ghost use Rattle.termination_model.specs.columns.Count.{CountEnds};
ghost use Rattle.termination_model.specs.columns.Down.{DownHasNoList};
ghost use Rattle.termination_model.specs.columns.ColumnShort.{ProofsShow};
ghost use Rattle.termination_model.specs.columns.ColumnStuck.{NoneDescends};
ghost use Rattle.termination_model.specs.columns.NormColumns.{NormsAreColumns};
ghost use Rattle.termination_model.specs.columns.MeasureLaws.{InstanceLaw, RigidLaw, StatedLaw, ThreeColumns, ValueLaw};

/// Where claims over columns show it, each query that meets an admitted row, or an admitted mode, is bounded.
pub fn a_query_over_columns_is_bounded()
    ensures rows { RowsEnd }
    ensures modes { ModesEnd }
{}

/// The three measures of instances, of rigid terms, of terms with a value, and of built-in atoms that succeed.
pub fn three_measures()
    ensures instances { InstanceLaw }
    ensures rigid { RigidLaw }
    ensures values { ValueLaw }
    ensures stated { StatedLaw }
    ensures columns { ThreeColumns }
{}

/// Claims over columns whose size rows, falls and floors are proved by multipliers over short systems show that queries
/// end.
pub fn column_proofs_show()
    ensures { ProofsShow }
{}

/// An example: a count down to 0 is bounded where its argument is rigid.
pub fn a_count_is_bounded()
    ensures { CountEnds }
{}

/// Each norm, with the one stated row of `is`, keeps the laws of columns.
pub fn norms_are_columns()
    ensures { NormsAreColumns }
{}

/// Where a stuck set over columns stands, no list of mappings of whole numbers descends.
pub fn stuck_sets_over_columns_exclude_lists()
    ensures { NoneDescends }
{}

/// An example: of a count down without a bound no list descends.
pub fn a_count_without_bound_is_stuck()
    ensures { DownHasNoList }
{}
