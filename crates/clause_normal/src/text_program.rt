//! The program of a text.

ghost use Rattle.std.specs.Prelude.{◌≡◌, ◌<◌, ◌≤◌, ◌+◌, ◌-◌, ◌^◌, ◌++◌, [], ℕ, List, None, Ok, Err, length, map, position, option_map, IfOk, IfErr, OnOk, OnErr, MatchResult};
ghost use Rattle.std.specs.List.{AllByRecursion};
ghost use Rattle.cti_terms.specs.Listing.{IsProgram};
ghost use Rattle.cti_terms.specs.declared.predicates.Pred.{Pred as ThePred};
ghost use Rattle.prolog_reader.specs.Fit.{AreFit};
ghost use Rattle.prolog_reader.specs.Names.{Extends};
ghost use Rattle.prolog_reader.specs.Naming.{with_names};
ghost use Rattle.clause_normal.specs.ChoiceNames.{rule_texts, program_names, HasOperations};
ghost use Rattle.clause_normal.specs.Faults.{IfFault};
ghost use Rattle.clause_normal.specs.NormalForm.{normal_form};
ghost use Rattle.clause_normal.specs.Numbering.{arithmetic_of, empty_program, operation_texts, is_equality, with_equality, with_rules, equality_clause};
ghost use Rattle.clause_normal.specs.RuleViews.{rule_of, RuleIsFit, RuleIsNamed};
ghost use Rattle.clause_normal.specs.Kinds.{IsOrdinaryCall};
ghost use Rattle.clause_normal.specs.Rules.{Rule as TheRule};

use crate::clauses::text_rules;
use crate::fault::NormFault;
use crate::numbering::add_rule;
use crate::operations::empty_program;
use crate::rule::Rule;
use crate::words::text_of;
use cti_terms::{Atom, Atoms, Clause, MOST_CLAUSES, Names, Pred, PredId, Program, Term, Terms};
use prolog_reader::ReadText;
use std::alloc::{AllocError, Global};

/// The program of clauses.
fn program_of(alloc: Global, names: &mut Names, rules: &[Rule]) -> Result<Program, AllocError>
    requires few { length rules.now ≤ 16384 }
    requires fit { AllByRecursion (RuleIsFit (length names.old)) rules.now }
    requires ordinary { AllByRecursion (λ (r : TheRule). IsOrdinaryCall names.old r.head)
        (map rule_of rules.now) }
    requires room { length names.old < 2 ^ 32 - 3 }
    ensures kept { Extends names.old names.new }
    ensures program { IfOk result (λ p. (later : List (List ℕ)) → Extends names.new later
        → p ≡ with_rules later (empty_program later) (map rule_of rules.now)) }
    ensures added { OnOk result
        (names.new ≡ with_names names.old (operation_texts ++ rule_texts (map rule_of rules.now))) }
    ensures same { HasOperations names.old → AllByRecursion RuleIsNamed rules.now
        → names.new ≡ names.old }
    ensures arithmetic { IfOk result (λ p. (later : List (List ℕ)) → Extends names.new later
        → p.arithmetic ≡ arithmetic_of later p.preds) }
    ensures room { IfOk result (λ p. length p.clauses ≤ 16384) }
    ensures known { IfOk result
        (λ p. AllByRecursion (λ (q : ThePred). q.name.0 < length names.new) p.preds) }
{
    let mut program = empty_program(alloc, names)?;
    'rules: for rule in rules {
        add_rule(alloc, &mut program, names, rule)?;
    }
    Ok(program)
}

/// Whether a predicate is `=`/2.
fn is_equality(names: &Names, pred: &Pred) -> bool
    requires { pred.now.name.0 < length names.now }
    ensures { result ≡ is_equality names.now pred.now }
{
    text_of(names, pred.name) == b"=".as_slice() && pred.arity == 2
}

/// The predicate `=`/2, where a program has it.
pub(crate) fn equality_pred(names: &Names, program: &Program) -> Option<PredId>
    requires { AllByRecursion (λ (q : ThePred). q.name.0 < length names.now) program.now.preds }
    ensures { option_map (λ q. q.0) result ≡ position (is_equality names.now) program.now.preds }
{
    for i in 0..program.preds() {
        if is_equality(names, program.pred(PredId(i))) {
            return Some(PredId(i));
        }
    }
    None
}

/// The clause `X = X` of a predicate.
fn equality_clause(alloc: Global, pred: PredId) -> Result<Clause, AllocError>
    ensures { IfOk result (λ c. c ≡ equality_clause pred.0) }
{
    let mut args = Terms::new(alloc);
    args.push(Term::Var(0))?;
    args.push(Term::Var(0))?;
    Ok(Clause {
        head: Atom { pred, args },
        body: Atoms::new(alloc),
        vars: 1,
    })
}

/// Adds the clause of `=`/2, where it is a predicate of the program.
pub(crate) fn add_equality(
    alloc: Global,
    names: &Names,
    program: &mut Program,
) -> Result<(), AllocError>
    requires room { length program.old.clauses < MOST_CLAUSES }
    requires known { AllByRecursion
        (λ (q : ThePred). q.name.0 < length names.now) program.old.preds }
    requires arithmetic { program.old.arithmetic ≡ arithmetic_of names.now program.old.preds }
    ensures program { OnOk result (program.new ≡ with_equality names.now program.old) }
    ensures err { OnErr result (program.new ≡ program.old) }
{
    if let Some(pred) = equality_pred(names, program) {
        let clause = equality_clause(alloc, pred)?;
        program.add_clause(clause)?;
    }
    Ok(())
}

/// The program of clauses, with that of `=`/2 where it is called.
pub(crate) fn whole_program(
    alloc: Global,
    names: &mut Names,
    rules: &[Rule],
) -> Result<Program, AllocError>
    requires few { length rules.now ≤ 16384 }
    requires fit { AllByRecursion (RuleIsFit (length names.old)) rules.now }
    requires ordinary { AllByRecursion (λ (r : TheRule). IsOrdinaryCall names.old r.head)
        (map rule_of rules.now) }
    requires room { length names.old < 2 ^ 32 - 3 }
    ensures kept { Extends names.old names.new }
    ensures program { IfOk result
        (λ p. p ≡ with_equality names.new
        (with_rules names.new (empty_program names.new) (map rule_of rules.now))) }
    ensures added { OnOk result
        (names.new ≡ with_names names.old (operation_texts ++ rule_texts (map rule_of rules.now))) }
    ensures same { HasOperations names.old → AllByRecursion RuleIsNamed rules.now
        → names.new ≡ names.old }
    ensures arithmetic { IfOk result (λ p. (later : List (List ℕ)) → Extends names.new later
        → p.arithmetic ≡ arithmetic_of later p.preds) }
    ensures known { IfOk result
        (λ p. AllByRecursion (λ (q : ThePred). q.name.0 < length names.new) p.preds) }
    ensures sound { IfOk result IsProgram }
    ensures room { IfOk result (λ p. position (is_equality names.new) p.preds ≡ None
        → length p.clauses < 16385) }
{
    let mut program = program_of(alloc, names, rules)?;
    add_equality(alloc, names, &mut program)?;
    let _preds = program.preds();
    Ok(program)
}

/// The program of a text's clauses in normal form: bodies are conjunctions, each disjunction is a predicate of its own.
///
/// A clause is followed by those of the branches of its disjunctions, and the clause of `=`/2 is last, where `=`/2 is
/// called. Predicates and the variables of each clause are numbered by first occurrence. A fault is the first, and its
/// place counts bytes from 0.
///
/// After an error earlier names keep their numbers, and nothing else is left.
pub fn normal(alloc: Global, text: &ReadText, names: &mut Names) -> Result<Program, NormFault>
    // The terms have together at most 2,097,152 nodes, and names and variables are in range, as the reader gives them.
    requires fit { AreFit (length names.old) text.now.clauses }
    requires room { length names.old ≤ 4292870143 }

    // Exactly the program of the definition, or exactly its fault.
    ensures exact { MatchResult result (λ p. normal_form names.new text.now.clauses ≡ Ok p)
        (λ e. IfFault e (λ f. normal_form names.new text.now.clauses ≡ Err f)) }

    // The names are those of the definition, and after a fault those that were there. Earlier names keep their numbers,
    // and those of the predicates are known.
    ensures names { OnOk result (names.new ≡ program_names names.old text.now.clauses) }
    ensures fault { IfErr result (λ e. IfFault e (λ _. names.new ≡ names.old)) }
    ensures kept { Extends names.old names.new }
    ensures known { IfOk result
        (λ p. AllByRecursion (λ (q : ThePred). q.name.0 < length names.new) p.preds) }
    ensures sound { IfOk result IsProgram }

    // What is built in is what these names say, and later ones too.
    ensures arithmetic { IfOk result (λ p. (later : List (List ℕ)) → Extends names.new later
        → p.arithmetic ≡ arithmetic_of later p.preds) }

    // There is room for one clause more where =/2 is not a predicate of the program.
    ensures room { IfOk result (λ p. position (is_equality names.new) p.preds ≡ None
        → length p.clauses < 16385) }
{
    let rules = text_rules(alloc, names, text.clauses.as_slice())?;
    let program = whole_program(alloc, names, &rules)?;
    Ok(program)
}
