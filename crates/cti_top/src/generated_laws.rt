//! Generated texts are programs: a law, as a function that does nothing and whose clause is proved.

ghost use Rattle.std.specs.Prelude.{◌≤◌, ℕ};
ghost use Rattle.report.specs.Generated.{generated};
ghost use Rattle.cti_top.specs.Queries.{Known};
ghost use Rattle.cti_top.specs.Runs.{IsKnown};

/// The text of each number of predicates that can be asked for is a program, so that none is refused.
pub fn generated_texts_are_programs()
    ensures program { (n : ℕ) → 1 ≤ n → n ≤ 300 → (known : Known) × IsKnown (generated n) known }
{}
