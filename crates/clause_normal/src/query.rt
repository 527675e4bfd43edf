//! The goal of a query.

ghost use Rattle.std.specs.Prelude.{◌≡◌, ◌<◌, ◌≤◌, ◌+◌, ◌++◌, ◌∷◌, [], ℕ, IsTrue, length, map, false, if◌then◌else◌, None, is_some, position, slice_get, IfOk, IfErr, OnOk, OnErr};
ghost use Rattle.std.specs.List.{AllByRecursion};
ghost use Rattle.cti_terms.specs.Listing.{IsAtom};
ghost use Rattle.cti_terms.specs.declared.predicates.Pred.{Pred as ThePred};
ghost use Rattle.prolog_reader.specs.Fit.{IsQueryFit};
ghost use Rattle.prolog_terms.specs.Clauses.{is_known};
ghost use Rattle.prolog_terms.specs.Terms.{tree_of, clause_of};
ghost use Rattle.clause_normal.specs.Faults.{AnswersFault, IfFault};
ghost use Rattle.clause_normal.specs.Numbering.{arithmetic_of, is_equality, call_variables, with_equality_clause};
ghost use Rattle.clause_normal.specs.Query.{query_goals, query_call, bad_goal, query_fault, query_calls, query_form, AnswersQuery};
ghost use Rattle.clause_variables.specs.TermViews.{args_of};
ghost use Rattle.clause_normal.specs.RuleViews.{call_of, CallIsFit, IsNamed};
ghost use Rattle.clause_normal.specs.declared.rule.Call.{Call as TheCall};
ghost use Rattle.clause_normal.specs.Views.{item_goal, ItemIsFit};

use crate::clauses::check_term;
use crate::fault::{NormFault, NormKind};
use crate::numbering::{add_arg_variables, add_atoms};
use crate::part::{Item, Part, atom_item, part_of};
use crate::rule::{Call, Functor};
use crate::text_program::{add_equality, equality_pred};
use clause_variables::{Args, firsts};
use cti_terms::{Goal, MOST_CLAUSES, MOST_NODES, MOST_VARIABLES, Names, Program};
use prolog_reader::{ReadClause, ReadTerm};
use std::alloc::{AllocError, Global};

/// The goals of a query in a row. What is left to be taken apart is kept on a stack.
fn query_items<'a>(
    alloc: Global,
    names: &Names,
    query: &'a ReadTerm,
) -> Result<Vec<Item<'a>>, AllocError>
    requires { IsTrue (is_known (length names.now) (tree_of query.now)) }
    ensures goals { IfOk result
        (λ v. map item_goal v.items ≡ query_goals names.now (tree_of query.now)) }
    ensures fit { IfOk result (λ v. AllByRecursion (ItemIsFit (length names.now)) v.items) }
{
    let mut items = Vec::new(alloc);
    let mut stack = Vec::new(alloc);
    stack.push(query)?;
    'parts: while let Some(term) = stack.pop() {
        match part_of(names, term) {
            Part::Both(left, right) => {
                stack.push(right)?;
                stack.push(left)?;
            }
            Part::Either(_, _) => {
                let item = atom_item(names, term);
                items.push(item)?;
            }
            Part::Nothing => {}
            Part::Goal(item) => {
                items.push(item)?;
            }
        }
    }
    Ok(items)
}

/// The fault that a goal is.
fn item_fault(item: &Item) -> Option<(NormKind, u32)>
    ensures { bad_goal (item_goal item.now) ≡ result }
{
    match item {
        Item::Bad(kind, at) => Some((*kind, *at)),
        Item::Call(_, _) => None,
    }
}

/// Reports the first fault of these goals.
fn check_items(items: &[Item]) -> Result<(), NormFault>
    ensures { AnswersFault (query_fault (map item_goal items.now)) result }
{
    'items: for item in items {
        if let Some((kind, at)) = item_fault(item) {
            return Err(NormFault::Fault { kind, at });
        }
    }
    Ok(())
}

/// Adds the call that a goal is.
fn add_call<'a>(calls: &mut Vec<Call<'a>>, item: &Item<'a>) -> Result<(), AllocError>
    ensures calls { OnOk result (map call_of calls.new.items ≡ map call_of calls.old.items
        ++ query_call (item_goal item.now)) }
    ensures fit { OnOk result ((names : ℕ) → ItemIsFit names item.now
        → AllByRecursion (CallIsFit names) calls.old.items
        → AllByRecursion (CallIsFit names) calls.new.items) }
    ensures named { OnOk result (AllByRecursion (λ (c : TheCall). IsNamed c.functor) calls.old.items
        → AllByRecursion (λ (c : TheCall). IsNamed c.functor) calls.new.items) }
{
    match item {
        Item::Call(name, args) => {
            calls.push(Call {
                functor: Functor::Named(*name),
                args: Args::Terms(args),
            })?;
            Ok(())
        }
        Item::Bad(_, _) => Ok(()),
    }
}

/// The calls among these goals.
fn item_calls<'a>(alloc: Global, items: &[Item<'a>]) -> Result<Vec<Call<'a>>, AllocError>
    ensures calls { IfOk result (λ v. map call_of v.items ≡ query_calls (map item_goal items.now)) }
    ensures fit { IfOk result (λ v. (names : ℕ) → AllByRecursion (ItemIsFit names) items.now
        → AllByRecursion (CallIsFit names) v.items) }
    ensures named { IfOk result (λ v. AllByRecursion (λ (c : TheCall). IsNamed c.functor) v.items) }
{
    let mut calls = Vec::new(alloc);
    'items: for item in items {
        add_call(&mut calls, item)?;
    }
    Ok(calls)
}

/// The calls of a conjunction, or its first fault. A disjunction is impure here.
pub(crate) fn conjunction<'a>(
    alloc: Global,
    names: &Names,
    query: &'a ReadTerm,
) -> Result<Vec<Call<'a>>, NormFault>
    requires { IsTrue (is_known (length names.now) (tree_of query.now)) }
    ensures fault { AnswersFault (query_fault (query_goals names.now (tree_of query.now))) result }
    ensures calls { IfOk result
        (λ v. map call_of v.items ≡ query_calls (query_goals names.now (tree_of query.now))) }
    ensures fit { IfOk result (λ v. AllByRecursion (CallIsFit (length names.now)) v.items) }
    ensures named { IfOk result (λ v. AllByRecursion (λ (c : TheCall). IsNamed c.functor) v.items) }
{
    let items = query_items(alloc, names, query)?;
    check_items(&items)?;
    let calls = item_calls(alloc, &items)?;
    Ok(calls)
}

/// The variables of calls from left to right, with repetitions.
fn calls_variables(alloc: Global, calls: &[Call]) -> Result<Vec<u32>, AllocError>
    ensures { IfOk result (λ v. v.items ≡ call_variables (map call_of calls.now)) }
{
    let mut variables = Vec::new(alloc);
    'calls: for call in calls {
        add_arg_variables(alloc, &mut variables, &call.args)?;
    }
    Ok(variables)
}

/// Whether =/2 is a predicate of a program.
fn has_equality(names: &Names, program: &Program) -> bool
    requires { AllByRecursion (λ (q : ThePred). q.name.0 < length names.now) program.now.preds }
    ensures { result ≡ is_some (position (is_equality names.now) program.now.preds) }
{
    equality_pred(names, program).is_some()
}

/// Adds the clause of =/2, where =/2 is a predicate of the program and was not known.
fn add_new_equality(
    alloc: Global,
    names: &Names,
    program: &mut Program,
    known: bool,
) -> Result<(), AllocError>
    requires room { known ≡ false → length program.old.clauses < MOST_CLAUSES }
    requires names { AllByRecursion
        (λ (q : ThePred). q.name.0 < length names.now) program.old.preds }
    requires arithmetic { program.old.arithmetic ≡ arithmetic_of names.now program.old.preds }
    ensures preds { program.new.preds ≡ program.old.preds }
    ensures arithmetic { program.new.arithmetic ≡ program.old.arithmetic }
    ensures clauses { OnOk result
        (program.new.clauses ≡ with_equality_clause
        (if known then None else position
        (is_equality names.now) program.old.preds) program.old.clauses) }
    ensures err { OnErr result (program.new ≡ program.old) }
{
    if known {
        return Ok(());
    }
    add_equality(alloc, names, program)
}

/// The goal of a conjunction, with its variables numbered by first occurrence.
///
/// A predicate that is not there is added to the program without clauses, and `=`/2 with its clause. A disjunction is
/// impure here. A fault is the first, and its place counts bytes from 0. After a fault the program is unchanged; out of
/// memory, its earlier predicates and clauses are.
pub fn normal_query(
    alloc: Global,
    query: &ReadClause,
    names: &mut Names,
    program: &mut Program,
) -> Result<Goal, NormFault>
    // The term has at most 2,097,152 nodes, and names and variables are in range, as the reader gives them.
    requires fit { IsQueryFit (length names.old) (clause_of query.now) }
    requires room { length names.old ≤ 4292870143 }

    // The names of the predicates are known, and there is room for a clause where =/2 is none of them.
    requires known { AllByRecursion
        (λ (q : ThePred). q.name.0 < length names.old) program.old.preds }
    requires preds { length program.old.preds ≤ 4292870143 }
    requires clauses { position (is_equality names.old) program.old.preds ≡ None
        → length program.old.clauses < 16385 }

    // What is built in is what the names say, before and after.
    requires arithmetic { program.old.arithmetic ≡ arithmetic_of names.old program.old.preds }
    ensures arithmetic { program.new.arithmetic ≡ arithmetic_of names.new program.new.preds }

    // Exactly the goal of the definition with the program that it needs, or exactly its fault.
    ensures exact { AnswersQuery
        (query_form names.old program.old (clause_of query.now)) program.new result }

    // The goal is one of that program: each variable is below its counter.
    ensures goal { IfOk result (λ g. AllByRecursion (IsAtom program.new.preds g.fresh) g.atoms) }

    // No name is added, and the names of the predicates stay known, also after an error.
    ensures names { names.new ≡ names.old }
    ensures known { AllByRecursion
        (λ (q : ThePred). q.name.0 < length names.new) program.new.preds }

    // After a fault the program is unchanged, and always its earlier predicates and clauses are.
    ensures fault { IfErr result (λ e. IfFault e (λ _. program.new ≡ program.old)) }
    ensures still { (i : ℕ) → i < length program.old.preds
        → slice_get program.new.preds i ≡ slice_get program.old.preds i }
    ensures earlier { IfErr result (λ e. program.new.clauses ≡ program.old.clauses) }
{
    let calls = match conjunction(alloc, names, &query.term) {
        Ok(calls) => calls,
        Err(fault) => return Err(fault),
    };
    match check_term(alloc, &query.term) {
        Ok(()) => {}
        Err(fault) => return Err(fault),
    }
    let occurrences = calls_variables(alloc, &calls)?;
    let Some(order) = firsts(alloc, &occurrences, MOST_VARIABLES as usize)? else {
        return Err(NormFault::Memory);
    };
    let known = has_equality(names, program);
    let mut left = MOST_NODES;
    let atoms = add_atoms(alloc, program, names, &calls, &order, &mut left)?;
    add_new_equality(alloc, names, program, known)?;
    Ok(Goal {
        atoms,
        fresh: order.len() as u32,
    })
}
