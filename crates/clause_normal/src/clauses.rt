//! The clauses of a text, one after the other.

ghost use Rattle.std.specs.Prelude.{◌≡◌, ◌<◌, ◌≤◌, ◌+◌, ◌++◌, ◌∷◌, [], ◌^◌, ℕ, IsTrue, Some, None, not, length, map, nat_lt, if◌then◌else◌, Ok, Err, MatchResult, IfOk, OnOk};
ghost use Rattle.std.specs.List.{AllByRecursion};
ghost use Rattle.prolog_terms.specs.Clauses.{is_known, nodes};
ghost use Rattle.prolog_reader.specs.Fit.{IsFit, AreFit};
ghost use Rattle.prolog_terms.specs.Terms.{tree_of, clause_of};
ghost use Rattle.clause_normal.specs.Definite.{fact};
ghost use Rattle.clause_normal.specs.DefiniteViews.{AnswersRule};
ghost use Rattle.clause_normal.specs.Faults.{AnswersFault, AnswersHead, AnswersMade, AnswersNext, AnswersNumber, IfFault};
ghost use Rattle.clause_normal.specs.NormalForm.{goals_fault, variables_fault, with_form, with_clause, normal_rules, clause};
ghost use Rattle.clause_normal.specs.Bodies.{no_goals};
ghost use Rattle.clause_normal.specs.Rules.{after, rules};
ghost use Rattle.clause_normal.specs.RuleViews.{call_of, rule_of, RuleIsFit};
ghost use Rattle.clause_variables.specs.Terms.{firsts, occurrences};
ghost use Rattle.clause_normal.specs.declared.fault.NormKind.TheVariants.{ManyClauses};
ghost use Rattle.clause_normal.specs.Views.{goals_of, IsTermFit};

use crate::fault::{NormFault, NormKind};
use crate::forms::{Form, form_of, head_of};
use crate::limits::MOST_TEXT_CLAUSES;
use crate::making::add_rules;
use crate::outlining::outlined;
use crate::rule::{Call, Rule};
use clause_variables::{Occurrences, firsts, term_variables};
use cti_terms::{MOST_VARIABLES, Names};
use prolog_reader::{ReadClause, ReadTerm};
use std::alloc::{AllocError, Global};

/// Whether there are no more different variables than a clause has.
fn are_few(alloc: Global, variables: &[u32]) -> Result<bool, AllocError>
    ensures { IfOk result (λ few. few ≡ not (nat_lt 48 (length (firsts variables.now)))) }
{
    match firsts(alloc, variables, MOST_VARIABLES as usize)? {
        Some(_) => Ok(true),
        None => Ok(false),
    }
}

/// The head of a clause as a call.
pub(crate) fn head_call<'a>(names: &Names, head: &'a ReadTerm) -> Result<Call<'a>, NormFault>
    requires { IsTrue (is_known (length names.now) (tree_of head.now)) }
    ensures { AnswersHead names.now (tree_of head.now) result }
{
    match head_of(names, head) {
        Ok(call) => Ok(call),
        Err(kind) => Err(NormFault::Fault { kind, at: head.at }),
    }
}

/// Reports the fault of a clause at a place with too many different variables.
fn check_variables(alloc: Global, variables: &[u32], at: u32) -> Result<(), NormFault>
    ensures { AnswersFault (variables_fault at variables.now) result }
{
    if are_few(alloc, variables)? {
        Ok(())
    } else {
        Err(NormFault::Fault {
            kind: NormKind::ManyVariables,
            at,
        })
    }
}

/// Reports the fault of a clause at a place with which there are too many.
fn check_count(made: &[Rule], at: u32) -> Result<(), NormFault>
    ensures fault { AnswersFault
        (if nat_lt 16384 (length made.now) then Some (ManyClauses, at) else None) result }
    ensures count { OnOk result (length made.now ≤ 16384) }
{
    if made.len() > MOST_TEXT_CLAUSES {
        Err(NormFault::Fault {
            kind: NormKind::ManyClauses,
            at,
        })
    } else {
        Ok(())
    }
}

/// Adds a clause at the end.
fn push_rule<'a>(made: &mut Vec<Rule<'a>>, rule: Rule<'a>) -> Result<(), AllocError>
    ensures { OnOk result (made.new.items ≡ made.old.items ++ rule.entry ∷ []) }
{
    made.push(rule)?;
    Ok(())
}

/// Reports the fault of a term that is a clause with too many different variables.
pub(crate) fn check_term(alloc: Global, term: &ReadTerm) -> Result<(), NormFault>
    ensures { AnswersFault (variables_fault term.now.at (occurrences (tree_of term.now))) result }
{
    let variables = term_variables(alloc, term)?;
    check_variables(alloc, &variables, term.at)
}

/// The clause that a head alone is, or its first fault. The head is the clause's term.
pub(crate) fn fact_rule<'a>(
    alloc: Global,
    names: &Names,
    head: &'a ReadTerm,
) -> Result<Rule<'a>, NormFault>
    requires { IsTrue (is_known (length names.now) (tree_of head.now)) }
    ensures { AnswersRule names.now (tree_of head.now) (fact (tree_of head.now)) result }
{
    let call = head_call(names, head)?;
    check_term(alloc, head)?;
    Ok(Rule {
        head: call,
        body: Vec::new(alloc),
    })
}

/// Adds the clause that a head alone is, which is the term of the clause.
fn add_fact<'a>(
    alloc: Global,
    names: &Names,
    made: &mut Vec<Rule<'a>>,
    term: &'a ReadTerm,
) -> Result<(), NormFault>
    requires { IsTrue (is_known (length names.now) (tree_of term.now)) }
    ensures made { (vars n : ℕ)
        → AnswersNext (with_form names.now (map rule_of made.old.items) n
        (record { term = tree_of term.now; vars = vars }) (clause (tree_of term.now) no_goals))
        (map rule_of made.new.items) n result }
    ensures count { OnOk result (length made.new.items ≤ 16384) }
    ensures fit { OnOk result (AllByRecursion (RuleIsFit (length names.now)) made.old.items
        → AllByRecursion (RuleIsFit (length names.now)) made.new.items) }
{
    let rule = fact_rule(alloc, names, term)?;
    push_rule(made, rule)?;
    check_count(made, term.at)
}

/// A clause of a text that is a head with a body: its term, how many variables it has, and its two sides.
#[derive(Clone, Copy)]
struct Implication<'a> {
    term: &'a ReadTerm,
    vars: u32,
    head: &'a ReadTerm,
    body: &'a ReadTerm,
}

/// Adds the clauses that a head with a body becomes, where the head is also given as a call and has these variables.
/// Answers the number of the next disjunction, or the first fault of the body.
fn add_with_variables<'a>(
    alloc: Global,
    names: &Names,
    made: &mut Vec<Rule<'a>>,
    next: u64,
    call: Call<'a>,
    args: &[u32],
    implication: &Implication<'a>,
) -> Result<u64, NormFault>
    requires room { next + nodes (tree_of implication.now.body.now) + 1 < 2 ^ 64 }
    requires body { IsTermFit (length names.now) implication.now.vars implication.now.body.now }
    requires args { AllByRecursion (λ x. x < implication.now.vars) args.now }
    ensures { let goals = goals_of names.now implication.now.body.now
        (args.now ++ occurrences (tree_of implication.now.body.now)) in
        let made_then = map rule_of made.old.items ++ rules next (call_of call.entry) goals in
        AnswersMade (goals_fault goals) made_then (after next goals)
        (map rule_of made.new.items) result }
{
    let own = term_variables(alloc, implication.body)?;
    let outline = outlined(alloc, names, implication.body, &own)?;
    let mut places = Occurrences::new(alloc, implication.vars)?;
    add_rules(alloc, &mut places, made, next, call, args, &outline)
}

/// Adds the clauses that a head with a body becomes, which is also given as a call. Answers the number of the next
/// disjunction, or the first fault of the body.
fn add_body<'a>(
    alloc: Global,
    names: &Names,
    made: &mut Vec<Rule<'a>>,
    next: u64,
    call: Call<'a>,
    implication: &Implication<'a>,
) -> Result<u64, NormFault>
    requires room { next + nodes (tree_of implication.now.body.now) + 1 < 2 ^ 64 }
    requires head { IsTermFit (length names.now) implication.now.vars implication.now.head.now }
    requires body { IsTermFit (length names.now) implication.now.vars implication.now.body.now }
    ensures { let goals = goals_of names.now implication.now.body.now
        (occurrences (tree_of implication.now.head.now)
        ++ occurrences (tree_of implication.now.body.now)) in
        let made_then = map rule_of made.old.items ++ rules next (call_of call.entry) goals in
        AnswersMade (goals_fault goals) made_then (after next goals)
        (map rule_of made.new.items) result }
{
    let args = term_variables(alloc, implication.head)?;
    add_with_variables(alloc, names, made, next, call, &args, implication)
}

/// Adds the clauses that a head with a body becomes, and answers the number of the next disjunction.
fn add_implication<'a>(
    alloc: Global,
    names: &Names,
    made: &mut Vec<Rule<'a>>,
    next: u64,
    implication: &Implication<'a>,
) -> Result<u64, NormFault>
    requires room { next + nodes (tree_of implication.now.body.now) + 1 < 2 ^ 64 }
    requires head { IsTermFit (length names.now) implication.now.vars implication.now.head.now }
    requires body { IsTermFit (length names.now) implication.now.vars implication.now.body.now }
    ensures made { AnswersNumber
        (with_form names.now (map rule_of made.old.items) next
        (record { term = tree_of implication.now.term.now; vars = implication.now.vars })
        (clause (tree_of implication.now.head.now)
        (goals_of names.now implication.now.body.now
        (occurrences (tree_of implication.now.head.now)
        ++ occurrences (tree_of implication.now.body.now)))))
        (map rule_of made.new.items) result }
    ensures few { IfOk result (λ n. n ≤ next + nodes (tree_of implication.now.body.now)) }
    ensures count { OnOk result (length made.new.items ≤ 16384) }
    ensures fit { OnOk result (AllByRecursion (RuleIsFit (length names.now)) made.old.items
        → AllByRecursion (RuleIsFit (length names.now)) made.new.items) }
{
    let call = head_call(names, implication.head)?;
    let after = add_body(alloc, names, made, next, call, implication)?;
    check_term(alloc, implication.term)?;
    check_count(made, implication.term.at)?;
    Ok(after)
}

/// Adds the clauses that a clause of a text becomes, and answers the number of the next disjunction.
fn add_clause<'a>(
    alloc: Global,
    names: &Names,
    made: &mut Vec<Rule<'a>>,
    next: u64,
    clause: &'a ReadClause,
) -> Result<u64, NormFault>
    requires room { next + nodes (tree_of clause.now.term) + 1 < 2 ^ 64 }
    requires fit { IsFit (length names.now) (clause_of clause.now) }
    ensures made { AnswersNumber
        (with_clause names.now (map rule_of made.old.items) next (clause_of clause.now))
        (map rule_of made.new.items) result }
    ensures few { IfOk result (λ n. n ≤ next + nodes (tree_of clause.now.term)) }
    ensures count { OnOk result (length made.old.items ≤ 16384 → length made.new.items ≤ 16384) }
    ensures fit { OnOk result (AllByRecursion (RuleIsFit (length names.now)) made.old.items
        → AllByRecursion (RuleIsFit (length names.now)) made.new.items) }
{
    match form_of(names, &clause.term) {
        Form::Skipped => Ok(next),
        Form::Refused(kind) => Err(NormFault::Fault {
            kind,
            at: clause.term.at,
        }),
        Form::Fact(term) => {
            add_fact(alloc, names, made, term)?;
            Ok(next)
        }
        Form::Rule(head, body) => {
            let implication = Implication {
                term: &clause.term,
                vars: clause.vars,
                head,
                body,
            };
            add_implication(alloc, names, made, next, &implication)
        }
    }
}

/// The clauses that the clauses of a text become.
pub(crate) fn text_rules<'a>(
    alloc: Global,
    names: &Names,
    clauses: &'a [ReadClause],
) -> Result<Vec<Rule<'a>>, NormFault>
    requires fit { AreFit (length names.now) (map clause_of clauses.now) }
    ensures rules { MatchResult result (λ v. normal_rules names.now [] 1 (map clause_of clauses.now)
        ≡ Ok (map rule_of v.items))
        (λ e. IfFault e (λ f. normal_rules names.now [] 1 (map clause_of clauses.now) ≡ Err f)) }
    ensures fit { IfOk result (λ v. AllByRecursion (RuleIsFit (length names.now)) v.items) }
    ensures count { IfOk result (λ v. length v.items ≤ 16384) }
{
    let mut made = Vec::new(alloc);
    let mut next = 1;
    'clauses: for clause in clauses {
        next = add_clause(alloc, names, &mut made, next, clause)?;
    }
    Ok(made)
}
