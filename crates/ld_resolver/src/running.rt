//! The run of a query.

ghost use Rattle.std.specs.Prelude.{◌≡◌, ◌↔◌, true, ℕ, ◌+◌, ◌≤◌, List, [], IfOk, OnOk, map, length};
ghost use Rattle.cti_terms.specs.declared.derivation.Goal.{Goal as TheGoal};
ghost use Rattle.cti_terms.specs.Listing.{Listing};
ghost use Rattle.cti_terms.specs.Nodes.{HasMoreNodes, longest};
ghost use Rattle.cti_terms.specs.Answers.{answers, visited_nodes, HasWide};
ghost use Rattle.cti_terms.specs.Lifts.{IsGoalOf};
ghost use Rattle.ld_resolver.specs.Chain.{IsChain};
ghost use Rattle.ld_resolver.specs.Told.{told};
ghost use Rattle.ld_resolver.specs.Searches.{attempts_left};
ghost use Rattle.ld_resolver.specs.declared.answer.Answer.{Answer as TheAnswer};
ghost use Rattle.ld_resolver.specs.Progress.{HasBegun, HasAdvanced, HasGiven, GoesOn, IsRunning, IsUnderWay};

use crate::answer::Answer;
use crate::answer_list::Answers;
use crate::clause_chain::ClauseChain;
use crate::search::{Attempt, Entered, Search};
use bumpalo::Bump;
use cti_terms::{Goal, Program};
use std::alloc::{AllocError, Global};
use unifier::counter::counter_after;

/// How a run ended.
#[derive(Clone, Copy, Debug, PartialEq, Eq)]
pub enum Ending {
    /// There are no more nodes.
    Finished,

    /// There are more nodes than the budget.
    Stopped,

    /// The query or one of the first nodes, as many as the budget says, leaves a goal that begins with a built-in atom
    /// whose value does not fit.
    Overflow,
}

/// What a run has looked at, and how it ended.
#[derive(Clone, Copy, Drop)]
pub struct Totals {
    /// How many nodes were looked at: derivations that are not empty.
    pub steps: u64,

    /// The length of the longest derivation that was looked at, 0 where there was none.
    pub longest: u64,

    pub ending: Ending,
}

/// What a run finds next.
#[derive(Drop)]
pub enum Found {
    Answer(Answer),

    /// There are no more answers.
    End(Totals),
}

/// What an attempt of a run came to: the run goes on; it has found an answer, which the bindings give; or it has ended.
#[derive(Clone, Copy, Drop)]
enum Progress {
    UnderWay,
    Answered,
    Ended,
}

/// What a run has found.
#[derive(Drop)]
pub struct Ran {
    /// The answers, in the order in which they were found.
    pub answers: Answers,

    /// How many nodes were looked at: derivations that are not empty.
    pub steps: u64,

    /// The length of the longest derivation that was looked at, 0 where there was none.
    pub longest: u64,

    pub ending: Ending,
}

/// A run between two of its answers, which it gives one at a time.
pub struct Running<'p> {
    alloc: Global,
    chain: ClauseChain,
    search: Search<'p>,
    goal: &'p Goal,
    budget: u64,
    has_begun: bool,
    totals: Totals,
}

impl Drop for Running<'_> {
    fn drop(self) {
        let Running {
            alloc: _,
            chain: _,
            search: _,
            goal: _,
            budget: _,
            has_begun: _,
            totals: _,
        } = self;
    }
}

/// Enters the query: finds the answer of the empty derivation if it has one, and the end where the query is wide.
#[inline(never)]
fn begin<'p>(
    alloc: Global,
    search: &mut Search<'p>,
    chain: &ClauseChain,
    goal: &'p Goal,
) -> Result<Option<Found>, AllocError>
    requires chain { IsChain search.old.program.now chain.now }
    requires bindings { search.old.bindings ≡ [] }
    requires tails { search.old.tails ≡ [] }
    requires choices { search.old.choices.items ≡ [] }
    requires goal { IsGoalOf search.old.program.now goal.now }
    ensures program { search.new.program.now ≡ search.old.program.now }
    ensures attempts { OnOk result
        (attempts_left search.new ≤ length search.old.program.now.clauses + 2) }
    ensures begun { IfOk result (λ found. (n : ℕ)
        → HasBegun search.old.program.now goal.now n search.new found) }
{
    match search.enter(chain, goal.atoms.as_slice(), 0, 0, goal.fresh, 0)? {
        Entered::Empty => {
            let answer = search.answer(alloc, goal.atoms.as_slice())?;
            Ok(Some(Found::Answer(answer)))
        }
        Entered::Open => Ok(None),
        Entered::Wide => Ok(Some(Found::End(Totals {
            steps: 0,
            longest: 0,
            ending: Ending::Overflow,
        }))),
    }
}

/// Goes on by one attempt: looks at the node that it finds, if any, and says whether the node is an answer, or the end.
fn advance<'p>(
    search: &mut Search<'p>,
    chain: &ClauseChain,
    goal: &'p Goal,
    budget: u64,
    totals: &mut Totals,
) -> Result<Progress, AllocError>
    requires chain { IsChain search.old.program.now chain.now }
    requires under_way { (given : List TheAnswer)
        × IsUnderWay search.old.program.now goal.now budget search.old totals.old.steps totals.old.longest given }
    ensures program { search.new.program.now ≡ search.old.program.now }
    ensures advanced { IfOk result (λ progress. (given : List TheAnswer)
        → IsUnderWay search.old.program.now goal.now budget search.old totals.old.steps totals.old.longest given
        → HasAdvanced search.old.program.now goal.now budget search.old totals.old.steps search.new
        totals.new given progress) }
{
    match search.attempt(chain)? {
        Attempt::Ended => {
            totals.ending = Ending::Finished;
            Ok(Progress::Ended)
        }
        Attempt::Failed => Ok(Progress::UnderWay),
        Attempt::Resolved(node) => {
            if totals.steps == budget {
                totals.ending = Ending::Stopped;
                return Ok(Progress::Ended);
            }
            totals.steps += 1;
            let depth = node.depth + 1;
            totals.longest = totals.longest.max(depth);
            let fresh = counter_after(node.fresh, node.vars)?;
            match search.enter(chain, node.body, node.fresh, node.rest, fresh, depth)? {
                Entered::Empty => Ok(Progress::Answered),
                Entered::Open => Ok(Progress::UnderWay),
                Entered::Wide => {
                    totals.ending = Ending::Overflow;
                    Ok(Progress::Ended)
                }
            }
        }
    }
}

impl<'p> Running<'p> {
    /// The run of a goal that has given no answer yet: it will look at the empty derivation and at the first `budget`
    /// others. What it binds lies in the arena.
    pub fn new(
        alloc: Global,
        program: &'p Program,
        goal: &'p Goal,
        budget: u64,
        arena: &'p Bump,
    ) -> Result<Running<'p>, AllocError>
        requires { IsGoalOf program.now goal.now }
        ensures { IfOk result (λ run. HasGiven program.now goal.now budget run []) }
    {
        let chain = ClauseChain::new(alloc, program)?;
        Ok(Running {
            alloc,
            chain,
            search: Search::new(alloc, program, arena),
            goal,
            budget,
            has_begun: false,
            totals: Totals {
                steps: 0,
                longest: 0,
                ending: Ending::Overflow,
            },
        })
    }

    /// Goes on to the next answer or to the end, after the query is entered.
    fn go_on(&mut self) -> Result<Found, AllocError>
        requires running { IsRunning self.old }
        requires begun { self.old.has_begun ≡ true }
        ensures { IfOk result (λ found. (p : Listing) (g : TheGoal) (n : ℕ) (given : List TheAnswer)
            → HasGiven p g n self.old given → GoesOn p g n self.old given found self.new) }
    {
        loop {
            let progress = advance(
                &mut self.search,
                &self.chain,
                self.goal,
                self.budget,
                &mut self.totals,
            )?;
            match progress {
                Progress::UnderWay => {}
                Progress::Answered => {
                    let answer = self.search.answer(self.alloc, self.goal.atoms.as_slice())?;
                    return Ok(Found::Answer(answer));
                }
                Progress::Ended => return Ok(Found::End(self.totals)),
            }
        }
    }

    /// The next answer, or the end after the last one. After the end, and out of memory, it is not called again.
    pub fn next(&mut self) -> Result<Found, AllocError>
        requires { IsRunning self.old }
        ensures { IfOk result (λ found. (p : Listing) (g : TheGoal) (n : ℕ) (given : List TheAnswer)
            → HasGiven p g n self.old given → GoesOn p g n self.old given found self.new) }
    {
        if self.has_begun {
            return self.go_on();
        }
        self.has_begun = true;
        match begin(self.alloc, &mut self.search, &self.chain, self.goal)? {
            Some(found) => Ok(found),
            None => self.go_on(),
        }
    }
}

/// Runs a query: walks the derivations from a goal in the lexicographic order of their clauses' numbers.
///
/// The empty derivation and the first `budget` others are looked at, and whether there is one more.
///
/// Source: SLD-resolution with the leftmost atom selected, depth first, with the occurs check.
#[inline(never)]
pub fn run(alloc: Global, program: &Program, goal: &Goal, budget: u64) -> Result<Ran, AllocError>
    requires { IsGoalOf program.now goal.now }

    // The answers, reported in order, and the measures of what was looked at.
    ensures answers { IfOk result
        (λ ran. ran.answers ≡ map told (answers program.now goal.now budget)) }
    ensures steps { IfOk result
        (λ ran. ran.steps ≡ length (visited_nodes program.now goal.now budget)) }
    ensures longest { IfOk result
        (λ ran. ran.longest ≡ longest (visited_nodes program.now goal.now budget)) }

    // Where no value is too large, Stopped comes exactly where there are more nodes than the budget, and Finished
    // exactly where there are not.
    ensures stopped { IfOk result (λ ran. (ran.ending ≡ Ending.Stopped)
        ↔ ((¬ HasWide program.now goal.now budget)
        × HasMoreNodes program.now goal.now budget)) }
    ensures finished { IfOk result (λ ran. (ran.ending ≡ Ending.Finished)
        ↔ ((¬ HasWide program.now goal.now budget)
        × (¬ HasMoreNodes program.now goal.now budget))) }
    ensures overflow { IfOk result (λ ran. (ran.ending ≡ Ending.Overflow)
        ↔ HasWide program.now goal.now budget) }
{
    let arena = Bump::new(alloc);
    let mut running = Running::new(alloc, program, goal, budget, &arena)?;
    let mut answers = Answers::new(alloc);
    loop {
        match running.next()? {
            Found::Answer(answer) => answers.push(answer)?,
            Found::End(totals) => {
                return Ok(Ran {
                    answers,
                    steps: totals.steps,
                    longest: totals.longest,
                    ending: totals.ending,
                });
            }
        }
    }
}
