//! Definite clauses, and the program of some.

ghost use Rattle.std.specs.Prelude.{◌≡◌, ◌<◌, ◌≤◌, ◌-◌, ◌^◌, ◌++◌, ◌∷◌, [], ℕ, List, IsTrue, Some, None, length, map, nat_le, if◌then◌else◌, IfOk, OnOk, MatchResult};
ghost use Rattle.std.specs.List.{AllByRecursion};
ghost use Rattle.cti_terms.specs.Listing.{IsProgram};
ghost use Rattle.cti_terms.specs.declared.predicates.Pred.{Pred as ThePred};
ghost use Rattle.prolog_terms.specs.Clauses.{is_known};
ghost use Rattle.prolog_terms.specs.Terms.{tree_of, clause_of};
ghost use Rattle.prolog_reader.specs.Fit.{IsFit};
ghost use Rattle.prolog_reader.specs.Names.{Extends};
ghost use Rattle.prolog_reader.specs.Naming.{with_names};
ghost use Rattle.clause_normal.specs.ChoiceNames.{HasOperations};
ghost use Rattle.clause_normal.specs.Definite.{AreDefinite, rule, parted, parted_fault, added_fault, rules_of, program_of};
ghost use Rattle.clause_normal.specs.DefiniteViews.{AnswersRule};
ghost use Rattle.clause_normal.specs.Faults.{AnswersFault, IfFault};
ghost use Rattle.clause_normal.specs.Numbering.{arithmetic_of, operation_texts};
ghost use Rattle.clause_normal.specs.RuleViews.{rule_of, RuleIsFit};
ghost use Rattle.clause_normal.specs.declared.fault.NormKind.TheVariants.{ManyClauses};

use crate::clauses::{check_term, fact_rule, head_call};
use crate::fault::{NormFault, NormKind};
use crate::forms::{Form, form_of};
use crate::limits::MOST_TEXT_CLAUSES;
use crate::query::conjunction;
use crate::rule::Rule;
use crate::text_program::whole_program;
use cti_terms::{Names, Program};
use prolog_reader::{ReadClause, ReadTerm};
use std::alloc::{AllocError, Global};

/// The clause of a term with a head and a body, or its first fault.
fn implication_rule<'a>(
    alloc: Global,
    names: &Names,
    term: &ReadTerm,
    head: &'a ReadTerm,
    body: &'a ReadTerm,
) -> Result<Rule<'a>, NormFault>
    requires head { IsTrue (is_known (length names.now) (tree_of head.now)) }
    requires body { IsTrue (is_known (length names.now) (tree_of body.now)) }
    ensures { AnswersRule names.now (tree_of term.now)
        (rule (tree_of head.now) (tree_of body.now)) result }
{
    let call = head_call(names, head)?;
    let calls = conjunction(alloc, names, body)?;
    check_term(alloc, term)?;
    Ok(Rule {
        head: call,
        body: calls,
    })
}

/// A definite clause before its predicates and variables are numbered, or its first fault.
fn definite_rule<'a>(
    alloc: Global,
    names: &Names,
    clause: &'a ReadClause,
) -> Result<Rule<'a>, NormFault>
    requires { IsFit (length names.now) (clause_of clause.now) }
    ensures { AnswersRule names.now (tree_of clause.now.term)
        (parted names.now (tree_of clause.now.term)) result }
{
    let at = clause.term.at;
    match form_of(names, &clause.term) {
        Form::Skipped => Err(NormFault::Fault {
            kind: NormKind::Directive,
            at,
        }),
        Form::Refused(kind) => Err(NormFault::Fault { kind, at }),
        Form::Fact(head) => fact_rule(alloc, names, head),
        Form::Rule(head, body) => implication_rule(alloc, names, &clause.term, head, body),
    }
}

/// Definite clauses before their predicates and variables are numbered.
fn definite_rules<'a>(
    alloc: Global,
    names: &Names,
    clauses: &'a [ReadClause],
) -> Result<Vec<Rule<'a>>, AllocError>
    requires fit { AllByRecursion (IsFit (length names.now)) (map clause_of clauses.now) }
    requires definite { AreDefinite names.now (map clause_of clauses.now) }
    ensures rules { IfOk result
        (λ v. map rule_of v.items ≡ rules_of names.now (map clause_of clauses.now)) }
    ensures fit { IfOk result (λ v. AllByRecursion (RuleIsFit (length names.now)) v.items) }
    ensures count { IfOk result (λ v. length v.items ≡ length clauses.now) }
{
    let mut rules = Vec::new(alloc);
    'clauses: for clause in clauses {
        match definite_rule(alloc, names, clause) {
            Ok(rule) => rules.push(rule)?,
            Err(NormFault::Memory) => return Err(AllocError),
            Err(NormFault::Fault { .. }) => unreachable!(),
        }
    }
    Ok(rules)
}

/// Reports the first fault of a clause that is to be added to this many definite clauses, if any. Its place counts
/// bytes from 0.
pub fn check_added(
    alloc: Global,
    clause: &ReadClause,
    names: &Names,
    clauses: usize,
) -> Result<(), NormFault>
    // Names and variables are in range, as the reader gives them.
    requires fit { IsFit (length names.now) (clause_of clause.now) }

    // Exactly that it may be added, or exactly the fault.
    ensures exact { let fault = added_fault names.now clauses (clause_of clause.now) in
        MatchResult result (λ _. fault ≡ None) (λ e. IfFault e (λ f. fault ≡ Some f)) }
{
    definite_rule(alloc, names, clause)?;
    if clauses >= MOST_TEXT_CLAUSES {
        Err(NormFault::Fault {
            kind: NormKind::ManyClauses,
            at: clause.term.at,
        })
    } else {
        Ok(())
    }
}

/// The program of definite clauses, which is their normal form.
///
/// Each of them is a clause of the program, in order, and the clause of `=`/2 is last, where `=`/2 is called.
/// Predicates and the variables of each clause are numbered by first occurrence.
///
/// Only the names of arithmetic operations are added. After an error earlier names keep their numbers, and nothing else
/// is left.
pub fn definite_program(
    alloc: Global,
    clauses: &[ReadClause],
    names: &mut Names,
) -> Result<Program, AllocError>
    // Names and variables are in range, as the reader gives them.
    requires fit { AllByRecursion (IsFit (length names.old)) (map clause_of clauses.now) }
    requires definite { AreDefinite names.old (map clause_of clauses.now) }
    requires room { length names.old < 2 ^ 32 - 3 }

    // Exactly the program of the definition.
    ensures program { IfOk result (λ p. p ≡ program_of names.new (map clause_of clauses.now)) }
    ensures sound { IfOk result IsProgram }

    // The names of arithmetic operations are added, and where they are there, nothing is, also after an error. Earlier
    // names keep their numbers, and those of the predicates are known.
    ensures names { OnOk result (names.new ≡ with_names names.old operation_texts) }
    ensures kept { Extends names.old names.new }
    ensures same { HasOperations names.old → names.new ≡ names.old }
    ensures known { IfOk result
        (λ p. AllByRecursion (λ (q : ThePred). q.name.0 < length names.new) p.preds) }

    // What is built in is what these names say, and later ones too.
    ensures arithmetic { IfOk result (λ p. (later : List (List ℕ)) → Extends names.new later
        → p.arithmetic ≡ arithmetic_of later p.preds) }
{
    let rules = definite_rules(alloc, names, clauses)?;
    let program = whole_program(alloc, names, &rules)?;
    Ok(program)
}
