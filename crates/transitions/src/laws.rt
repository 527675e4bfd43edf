//! Laws of templates and of the turns that find lists. Each is a function that does nothing, and whose clauses are
//! proved.

ghost use Rattle.transitions.specs.Examples.{CountAndDown};
ghost use Rattle.transitions.specs.StuckSets.{NoneDescends};
ghost use Rattle.transitions.specs.Turns.{PointsFall, RefutedMarksExclude, RefutedTurnsStick, TurnsGiveLists};
ghost use Rattle.transitions.specs.TemplateLaws.{PointsProve, ProofsArePoints, RefutationsBalance};

/// A point of a template proves its targets, whatever proves them is a point, and multipliers that refute it are points
/// of its targets that balance.
pub fn templates_are_decided()
    ensures points { PointsProve }
    ensures made { ProofsArePoints }
    ensures refuted { RefutationsBalance }
{}

/// Where a stuck set stands, no list descends whose numbers are among those that it is about.
pub fn stuck_sets_exclude_lists()
    ensures { NoneDescends }
{}

/// A point of a turn's template gives a mapping that rises nowhere and falls where it is marked; where the template is
/// refuted, no mapping does so; and where the turns of all transitions are refuted, these are a stuck set.
pub fn turns_fall_or_stick()
    ensures points { PointsFall }
    ensures none { RefutedMarksExclude }
    ensures stuck { RefutedTurnsStick }
{}

/// What the multipliers of a turn show is so, turns that leave no transition give a list that descends, and a list that
/// descends does so over what a turn leaves.
pub fn turns_give_lists()
    ensures { TurnsGiveLists }
{}

/// An example: over a count down to 0 the value of its argument descends, and a count down without a bound is stuck.
pub fn a_count_descends()
    ensures { CountAndDown }
{}
