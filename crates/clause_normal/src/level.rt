//! The atoms of one body.

ghost use Rattle.std.specs.Prelude.{◌≡◌, ◌<◌, ◌+◌, ◌++◌, ◌^◌, map, IfOk, OnOk};
ghost use Rattle.clause_normal.specs.Bodies.{goals_row};
ghost use Rattle.clause_normal.specs.OutlineViews.{goal_of};
ghost use Rattle.clause_normal.specs.Rules.{calls, call_at, choices, choices_at, choice_call};
ghost use Rattle.clause_normal.specs.RuleViews.{call_of};

use crate::goal::Goal;
use crate::part::Item;
use crate::rule::{Call, Functor};
use clause_variables::Args;
use std::alloc::{AllocError, Global};

/// The call of the predicate of a disjunction.
pub(crate) fn choice_call<'a>(
    alloc: Global,
    number: u64,
    args: &[u32],
) -> Result<Call<'a>, AllocError>
    ensures { IfOk result (λ c. call_of c ≡ choice_call number args.now) }
{
    Ok(Call {
        functor: Functor::Chosen(number),
        args: Args::Variables(Vec::from_slice(alloc, args)?),
    })
}

/// The atoms of a body, and the number of the next disjunction.
#[derive(Drop)]
pub(crate) struct Level<'a> {
    pub(crate) calls: Vec<Call<'a>>,
    pub(crate) next: u64,
}

impl<'a> Level<'a> {
    /// Adds a goal.
    fn add(&mut self, alloc: Global, goal: &Goal<'a, '_, '_>) -> Result<(), AllocError>
        requires { self.old.next + 1 < 2 ^ 64 }
        ensures calls { OnOk result
            (map call_of self.new.calls.items ≡ map call_of self.old.calls.items
            ++ call_at self.old.next (goal_of goal.now)) }
        ensures next { OnOk result (self.new.next ≡ self.old.next + choices_at (goal_of goal.now)) }
    {
        match goal {
            Goal::Item(Item::Call(name, args)) => {
                self.calls.push(Call {
                    functor: Functor::Named(*name),
                    args: Args::Terms(args),
                })?;
                Ok(())
            }
            Goal::Item(Item::Bad(_, _)) => Ok(()),
            Goal::Choice(args, _) => {
                let call = choice_call(alloc, self.next, args)?;
                self.calls.push(call)?;
                self.next += 1;
                Ok(())
            }
        }
    }
}

/// The atoms of a body with these goals, whose disjunctions are numbered from `first` on.
pub(crate) fn level_of<'a>(
    alloc: Global,
    first: u64,
    goals: &[Goal<'a, '_, '_>],
) -> Result<Level<'a>, AllocError>
    requires { first + choices (goals_row (map goal_of goals.now)) + 1 < 2 ^ 64 }
    ensures calls { IfOk result
        (λ l. map call_of l.calls.items ≡ calls first (goals_row (map goal_of goals.now))) }
    ensures next { IfOk result (λ l. l.next ≡ first + choices (goals_row (map goal_of goals.now))) }
{
    let mut level = Level {
        calls: Vec::new(alloc),
        next: first,
    };
    'goals: for goal in goals {
        level.add(alloc, goal)?;
    }
    Ok(level)
}
