//! The clauses that a clause becomes.

ghost use Rattle.std.specs.Prelude.{◌≡◌, ◌<◌, ◌+◌, ◌^◌, ◌++◌, ◌∷◌, [], List, length, map, IfOk, OnOk};
ghost use Rattle.std.specs.List.{AllByRecursion};
ghost use Rattle.clause_normal.specs.Bodies.{goals_row};
ghost use Rattle.clause_normal.specs.Faults.{AnswersMade};
ghost use Rattle.clause_normal.specs.NormalForm.{goals_fault, goal_fault, branches_fault};
ghost use Rattle.clause_normal.specs.OutlineViews.{goal_of, branches_in, outline_goals, GoalIsBelow, OutlineIsBelow, OutlinesAreBelow};
ghost use Rattle.clause_normal.specs.Rules.{rules, after, below, below_at, branch_rules, calls, choice_call, choices, choices_at, inner, inner_at, within};
ghost use Rattle.clause_normal.specs.RuleViews.{call_of, rule_of};
ghost use Rattle.clause_variables.specs.Occurring.{HasSize};

use crate::body::body_goals;
use crate::fault::NormFault;
use crate::goal::Goal;
use crate::level::{choice_call, level_of};
use crate::outline::Outline;
use crate::part::Item;
use crate::rule::{Call, Rule};
use clause_variables::Occurrences;
use std::alloc::{AllocError, Global};

/// How many disjunctions a goal is, those in it aside.
fn choices(goal: &Goal) -> u64
    ensures { result ≡ choices_at (goal_of goal.now) }
{
    match goal {
        Goal::Item(_) => 0,
        Goal::Choice(_, _) => 1,
    }
}

/// Adds the clause with this head and these goals, whose disjunctions are numbered from `first` on, and answers the
/// number after them.
fn add_rule<'a>(
    alloc: Global,
    made: &mut Vec<Rule<'a>>,
    first: u64,
    head: Call<'a>,
    goals: &[Goal<'a, '_, '_>],
) -> Result<u64, AllocError>
    requires { first + choices (goals_row (map goal_of goals.now)) + 1 < 2 ^ 64 }
    ensures rule { OnOk result (map rule_of made.new.items ≡ map rule_of made.old.items
        ++ record {
          head = call_of head.entry;
          body = calls first
              (goals_row (map goal_of goals.now));
        } ∷ []) }
    ensures next { IfOk result (λ n. n ≡ first + choices (goals_row (map goal_of goals.now))) }
{
    let level = level_of(alloc, first, goals)?;
    made.push(Rule {
        head,
        body: level.calls,
    })?;
    Ok(level.next)
}

/// Adds the clause with this head and this body, and those of its disjunctions' branches, whose predicates are numbered
/// from `first` on. Answers the number after the last one, or the first fault.
#[cycle(making)]
pub(crate) fn add_rules<'a, 'v, 'o>(
    alloc: Global,
    places: &mut Occurrences,
    made: &mut Vec<Rule<'a>>,
    first: u64,
    head: Call<'a>,
    args: &[u32],
    body: &'o Outline<'a, 'v>,
) -> Result<u64, NormFault>
    requires room { after first (outline_goals body.now args.now) + 1 < 2 ^ 64 }
    requires args { AllByRecursion (λ x. x < length places.old.firsts.items) args.now }
    requires body { OutlineIsBelow (length places.old.firsts.items) body.now }
    requires size { HasSize (length places.old.firsts.items) places.old }
    ensures size { OnOk result (HasSize (length places.old.firsts.items) places.new) }
    ensures made { let goals = outline_goals body.now args.now in
        let made_then = map rule_of made.old.items ++ rules first (call_of head.entry) goals in
        AnswersMade (goals_fault goals) made_then (after first goals)
        (map rule_of made.new.items) result }
{
    let goals = body_goals(alloc, places, args, body)?;
    let next = add_rule(alloc, made, first, head, &goals)?;
    add_below(alloc, places, made, first, next, &goals)
}

/// Adds the clauses of the branches of the disjunctions among these goals. They are numbered from `first` on, and those
/// in them from `next` on. Answers the number after the last one, or the first fault of the goals.
#[cycle(making)]
fn add_below<'a, 'v, 'o>(
    alloc: Global,
    places: &mut Occurrences,
    made: &mut Vec<Rule<'a>>,
    first: u64,
    next: u64,
    goals: &[Goal<'a, 'v, 'o>],
) -> Result<u64, NormFault>
    requires numbers { first + choices (goals_row (map goal_of goals.now)) < 2 ^ 64 }
    requires room { next + inner (goals_row (map goal_of goals.now)) + 1 < 2 ^ 64 }
    requires goals { AllByRecursion (GoalIsBelow (length places.old.firsts.items)) goals.now }
    requires size { HasSize (length places.old.firsts.items) places.old }
    ensures size { OnOk result (HasSize (length places.old.firsts.items) places.new) }
    ensures made { let row = goals_row (map goal_of goals.now) in
        let made_then = map rule_of made.old.items ++ below first next row in
        AnswersMade (goals_fault row) made_then (next + inner row)
        (map rule_of made.new.items) result }
{
    let mut number = first;
    let mut after = next;
    'goals: for goal in goals {
        after = add_goal(alloc, places, made, number, after, goal)?;
        number += choices(goal);
    }
    Ok(after)
}

/// Adds the clauses of the branches of a goal, if it is a disjunction, which has this number then. Those in it are
/// numbered from `next` on. Answers the number after the last one, or the first fault of the goal.
#[cycle(making)]
fn add_goal<'a, 'v, 'o>(
    alloc: Global,
    places: &mut Occurrences,
    made: &mut Vec<Rule<'a>>,
    number: u64,
    next: u64,
    goal: &Goal<'a, 'v, 'o>,
) -> Result<u64, NormFault>
    requires room { next + inner_at (goal_of goal.now) + 1 < 2 ^ 64 }
    requires goal { GoalIsBelow (length places.old.firsts.items) goal.now }
    requires size { HasSize (length places.old.firsts.items) places.old }
    ensures size { OnOk result (HasSize (length places.old.firsts.items) places.new) }
    ensures made { let made_then = map rule_of made.old.items ++ below_at number next
        (goal_of goal.now) in
        AnswersMade (goal_fault (goal_of goal.now)) made_then (next + inner_at (goal_of goal.now))
        (map rule_of made.new.items) result }
{
    match goal {
        Goal::Item(Item::Call(_, _)) => Ok(next),
        Goal::Item(Item::Bad(kind, at)) => Err(NormFault::Fault {
            kind: *kind,
            at: *at,
        }),
        Goal::Choice(args, branches) => {
            add_branches(alloc, places, made, number, next, args, branches)
        }
    }
}

/// Adds the clauses of the branches of the disjunction with this number, whose predicate has these arguments. The
/// disjunctions in them are numbered from `next` on. Answers the number after the last one, or the first fault of the
/// branches.
#[cycle(making)]
fn add_branches<'a, 'v, 'o>(
    alloc: Global,
    places: &mut Occurrences,
    made: &mut Vec<Rule<'a>>,
    number: u64,
    next: u64,
    args: &[u32],
    branches: &'o [Outline<'a, 'v>],
) -> Result<u64, NormFault>
    requires room { next + within (branches_in branches.now args.now) + 1 < 2 ^ 64 }
    requires args { AllByRecursion (λ x. x < length places.old.firsts.items) args.now }
    requires branches { OutlinesAreBelow (length places.old.firsts.items) branches.now }
    requires size { HasSize (length places.old.firsts.items) places.old }
    ensures size { OnOk result (HasSize (length places.old.firsts.items) places.new) }
    ensures made { let row = branches_in branches.now args.now in
        let made_then = map rule_of made.old.items ++ branch_rules
        (choice_call number args.now) next row in
        AnswersMade (branches_fault row) made_then (next + within row)
        (map rule_of made.new.items) result }
{
    let mut after = next;
    'branches: for branch in branches {
        let head = choice_call(alloc, number, args)?;
        after = add_rules(alloc, places, made, after, head, args, branch)?;
    }
    Ok(after)
}
