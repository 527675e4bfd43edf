//! Why queries end in each world that agrees with stated facts. Each is a function that does nothing, and whose clauses
//! are proved.

ghost use Rattle.termination_model.specs.claims.Answered.{AnswersAgree, AnswersKeep};
ghost use Rattle.termination_model.specs.claims.Linking.{AdmitsLink, ClaimsLink, FactsExtend, FactsLink, LinkedQueriesEnd, LinkedRowsEnd};
ghost use Rattle.termination_model.specs.claims.Renumbered.{RenumberedAdmit, RenumberedShow, RenumberedTake};
ghost use Rattle.termination_model.specs.claims.StatedFacts.{ModesEndIn, RowsEndIn};
ghost use Rattle.termination_model.specs.columns.ColumnAnswered;
ghost use Rattle.termination_model.specs.columns.ColumnLinking;
ghost use Rattle.termination_model.specs.columns.ColumnStated;
ghost use Rattle.termination_model.specs.columns.ColumnStronger;
ghost use Rattle.termination_model.specs.claims.Stronger.{StrongerShow};
ghost use Rattle.termination_model.specs.examples.Gen.{GenEnds, GenHasNoNumber};

/// Where claims show it, each query that meets an admitted row, or an admitted mode, is bounded in each world that
/// agrees with what is stated of open predicates, and each open call on the way meets a stated mode.
pub fn a_query_is_bounded_in_worlds()
    ensures rows { RowsEndIn }
    ensures modes { ModesEndIn }
{}

/// Claims of a program that takes another's claims as facts, and that one's claims, show for the clauses of both.
pub fn claims_link()
    ensures extend { FactsExtend }
    ensures claims { ClaimsLink }
    ensures facts { FactsLink }
    ensures admits { AdmitsLink }

    // So each query that either program's claims admit ends for the clauses of both.
    ensures rows { LinkedRowsEnd }
    ensures queries { LinkedQueriesEnd }
{}

/// What a program answers keeps its claims. So a world that gives its answers alone agrees with them as facts.
pub fn claims_are_facts()
    ensures keep { AnswersKeep }
    ensures agree { AnswersAgree }
{}

/// Claims show for a program with other numbers of predicates and names, and admit the same rows.
pub fn claims_are_renumbered()
    ensures show { RenumberedShow }
    ensures admit { RenumberedAdmit }
    ensures take { RenumberedTake }
{}

/// What is shown over some facts of predicates without clauses is shown over stronger ones.
pub fn stronger_facts_serve()
    ensures { StrongerShow }
{}

/// An example: queries over an open predicate are bounded in each world that agrees, and no number bounds them in all.
pub fn generated_queries_are_bounded()
    ensures ends { GenEnds }
    ensures no_number { GenHasNoNumber }
{}

/// Why queries over columns end in each world that agrees with stated facts.
pub fn a_query_over_columns_is_bounded_in_worlds()
    ensures rows { ColumnStated.RowsEndIn }
    ensures modes { ColumnStated.ModesEndIn }
{}

/// Claims over columns link as those over a norm do.
pub fn column_claims_link()
    ensures extend { ColumnLinking.FactsExtend }
    ensures claims { ColumnLinking.ClaimsLink }
    ensures facts { ColumnLinking.FactsLink }
    ensures admits { ColumnLinking.AdmitsLink }
    ensures rows { ColumnLinking.LinkedRowsEnd }
    ensures queries { ColumnLinking.LinkedQueriesEnd }
{}

/// What a program answers keeps its claims over columns.
pub fn column_claims_are_facts()
    ensures keep { ColumnAnswered.AnswersKeep }
    ensures agree { ColumnAnswered.AnswersAgree }
{}

/// Stronger facts of predicates without clauses serve over columns too.
pub fn stronger_column_facts_serve()
    ensures { ColumnStronger.StrongerShow }
{}
