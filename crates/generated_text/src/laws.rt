//! The law of generated texts. It is a function that does nothing, and whose clause is proved.

ghost use Rattle.std.specs.Prelude.{◌≤◌, ℕ};
ghost use Rattle.report.specs.Generated.{generated};
ghost use Rattle.generated_text.specs.Read.{IsRead};

/// The text of at most 300 generated predicates is read without a fault, and its clauses are a program.
pub fn generated_texts_are_read()
    ensures { (n : ℕ) → n ≤ 300 → IsRead (generated n) }
{}
