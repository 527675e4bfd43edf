//! Laws of the systems of supports. Each is a function that does nothing, and whose clauses are proved.

ghost use Rattle.termination_model.specs.mappings.AllPositions.{AllArePicked, PositionsCoverPairs};
ghost use Rattle.termination_model.specs.mappings.Excluding.{AllRefute, ExcludesAt, MultipliersRefute};
ghost use Rattle.termination_model.specs.mappings.Ready.{PositionsAreDistinct, SizesAreNatural, ViewsAreReady, ViewsHaveFew};
ghost use Rattle.termination_model.specs.mappings.SupportLaws.{PointsFall};
ghost use Rattle.termination_model.specs.mappings.Supports.{SystemsGiveMappings};

/// A point of a support's system gives a mapping, with multipliers that show each of its falls.
pub fn points_give_mappings()
    ensures { PointsFall }
{}

/// Multipliers that refute a support's system give a refutation, which excludes each mapping of this support, and with
/// all positions is a refutation of the component.
pub fn refuted_systems_exclude_mappings()
    ensures refute { MultipliersRefute }
    ensures exclude { ExcludesAt }
    ensures all { AllRefute }
{}

/// The systems of sets of positions give decreasing mappings, or exclude them.
pub fn systems_give_mappings()
    ensures { SystemsGiveMappings }
{}

/// What the calls and positions of a view have.
pub fn views_are_ready()
    ensures calls { ViewsAreReady }
    ensures few { ViewsHaveFew }
    ensures distinct { PositionsAreDistinct }
    ensures natural { SizesAreNatural }
{}

/// The full set picks all positions, and these cover the pairs of its calls.
pub fn all_positions_cover()
    ensures picked { AllArePicked }
    ensures cover { PositionsCoverPairs }
{}
