//! The search for the nodes of a goal.

ghost use Rattle.std.specs.Prelude.{◌≡◌, ℕ, ◌≤◌, ◌<◌, ◌+◌, ◌++◌, [], ◌∷◌, IfOk, OnOk, length, map, reverse};
ghost use Rattle.cti_terms.specs.Resolve.{raised};
ghost use Rattle.cti_terms.specs.Below.{AtomsBelow};
ghost use Rattle.unifier.specs.Below.{FreeFrom};
ghost use Rattle.ld_resolver.specs.Chain.{IsChain};
ghost use Rattle.ld_resolver.specs.Tails.{tail_at};
ghost use Rattle.ld_resolver.specs.Told.{told};
ghost use Rattle.ld_resolver.specs.Measured.{answered_atoms};
ghost use Rattle.ld_resolver.specs.Searches.{AreMarked, AreNumbered, AreWithin, IsPutBack, IsTaken, IsNewest, IsSearch, IsAttempt, IsEntered, choices_of, attempts_left, goal_at, goal_with, untried};

use crate::answer::{Answer, make_answer};
use crate::attempts::unify_value;
use crate::builtin_atoms::{FirstAtom, judge};
use crate::choices::{Choice, Start, goal_start};
use crate::clause_chain::ClauseChain;
use crate::first_argument::next_match;
use crate::tails::Tails;
use crate::values::Calculator;
use bumpalo::Bump;
use cti_terms::{Atom, Clause, Program};
use std::alloc::{AllocError, Global};
use unifier::bindings::Bindings;
use unifier::heads::{Stacks, unify_head};

/// What was taken at the last choice: nothing, since there is no choice; no clause, since it had none left and is gone;
/// the choice itself, since its atom is built in; or a clause.
#[derive(Clone, Copy, Drop)]
pub enum Taken<'p> {
    Nothing,
    Exhausted,
    ByItself(Choice<'p>),
    Clause(Choice<'p>, &'p Clause),
}

/// A node that was found at a choice and is not entered yet: the body of the clause, and what it takes from the choice.
/// A built-in atom has no clause: its body is empty.
#[derive(Clone, Copy, Drop)]
pub struct Node<'p> {
    pub body: &'p [Atom],
    /// The number of the clause's variables.
    pub vars: u32,
    /// The counter of the choice's goal, by which the body's variables are raised.
    pub fresh: u32,
    /// The number of the rest of the choice's goal.
    pub rest: usize,
    /// How many steps lead to the choice's goal.
    pub depth: u64,
}

/// What an attempt found: the search has ended; no node; or a node.
#[derive(Clone, Copy, Drop)]
pub enum Attempt<'p> {
    Ended,
    Failed,
    Resolved(Node<'p>),
}

/// How a goal was entered: it has no atoms; its first atom is still to be resolved; or that atom is built in, and a
/// value does not fit.
#[derive(Clone, Copy, Drop)]
pub enum Entered {
    Empty,
    Open,
    Wide,
}

/// The state of a search, with stacks of its own in the place of recursion.
pub struct Search<'p> {
    pub program: &'p Program,
    pub bindings: Bindings<'p>,
    pub tails: Tails<'p>,
    pub choices: Vec<Choice<'p>>,
    pub stacks: Stacks<'p>,
    pub calculator: Calculator<'p>,
}

impl Drop for Search<'_> {
    fn drop(self) {
        let Search {
            program: _,
            bindings: _,
            tails: _,
            choices: _,
            stacks: _,
            calculator: _,
        } = self;
    }
}

/// Puts a choice back, unless it has no more clauses.
fn put_back<'p>(
    program: &'p Program,
    choices: &mut Vec<Choice<'p>>,
    choice: Choice<'p>,
) -> Result<(), AllocError>
    ensures { OnOk result (IsPutBack program.now (reverse choices.old.items) choice.entry
        (reverse choices.new.items)) }
{
    if choice.next <= program.clauses() {
        choices.push(choice)?;
    }
    Ok(())
}

/// Takes the next clause at the last choice, and takes back the bindings that were made after the choice's. The choice
/// goes where no clause is left that can match, and where its atom is built in.
fn take_clause<'p>(
    program: &'p Program,
    chain: &ClauseChain,
    bindings: &mut Bindings<'p>,
    choices: &mut Vec<Choice<'p>>,
) -> Result<Taken<'p>, AllocError>
    requires chain { IsChain program.now chain.now }
    requires numbered { AreNumbered program.now (reverse choices.old.items) }
    requires marked { AreMarked (length bindings.old) (reverse choices.old.items) }
    ensures { IfOk result (λ t. IsTaken program.now bindings.old
        (reverse choices.old.items) t bindings.new (reverse choices.new.items)) }
{
    let choice = match choices.pop() {
        Some(choice) => choice,
        None => return Ok(Taken::Nothing),
    };
    if choice.next > program.clauses() {
        return Ok(Taken::Exhausted);
    }
    bindings.undo(choice.mark);
    if choice.next == 0 {
        return Ok(Taken::ByItself(choice));
    }
    let clause = program.clause(choice.next);
    let after = chain.after(choice.next);
    let next = next_match(program, chain, bindings, choice.atom, choice.base, after);
    put_back(program, choices, Choice { next, ..choice })?;
    Ok(Taken::Clause(choice, clause))
}

impl<'p> Search<'p> {
    /// A search without choices, with an arena for the values of built-in atoms. It takes no memory.
    pub fn new(alloc: Global, program: &'p Program, arena: &'p Bump) -> Search<'p>
        ensures program { result.program.now ≡ program.now }
        ensures bindings { result.bindings ≡ [] }
        ensures tails { result.tails ≡ [] }
        ensures choices { result.choices.items ≡ [] }
    {
        Search {
            program,
            bindings: Bindings::new(alloc),
            tails: Tails::new(alloc),
            choices: Vec::new(alloc),
            stacks: Stacks::new(alloc),
            calculator: Calculator::new(alloc, arena),
        }
    }

    /// Tries what comes next at the last choice. Rests of goals that were added after the choice are given back.
    pub fn attempt(&mut self, chain: &ClauseChain) -> Result<Attempt<'p>, AllocError>
        requires search { IsSearch self.old }
        requires chain { IsChain self.old.program.now chain.now }
        ensures search { OnOk result (IsSearch self.new) }
        ensures program { self.new.program.now ≡ self.old.program.now }
        ensures attempt { IfOk result (λ a. IsAttempt self.old a self.new) }
        ensures depths { OnOk result ((d : ℕ) → AreWithin d (choices_of self.old)
            → AreWithin d (choices_of self.new)) }
    {
        match take_clause(self.program, chain, &mut self.bindings, &mut self.choices)? {
            Taken::Nothing => Ok(Attempt::Ended),
            Taken::Exhausted => Ok(Attempt::Failed),
            Taken::Clause(choice, clause) => {
                self.tails.keep(choice.rests);
                if unify_head(
                    &mut self.bindings,
                    &mut self.stacks,
                    choice.atom,
                    choice.base,
                    choice.fresh,
                    clause,
                )? {
                    Ok(Attempt::Resolved(Node {
                        body: clause.body.as_slice(),
                        vars: clause.vars,
                        fresh: choice.fresh,
                        rest: choice.rest,
                        depth: choice.depth,
                    }))
                } else {
                    Ok(Attempt::Failed)
                }
            }
            Taken::ByItself(choice) => {
                self.tails.keep(choice.rests);
                if unify_value(&mut self.bindings, &mut self.stacks, choice)? {
                    Ok(Attempt::Resolved(Node {
                        body: &[],
                        vars: 0,
                        fresh: choice.fresh,
                        rest: choice.rest,
                        depth: choice.depth,
                    }))
                } else {
                    Ok(Attempt::Failed)
                }
            }
        }
    }

    /// Adds a choice at a goal of this start, counter and depth where its first atom has to be resolved: with the first
    /// clause that can match, or by itself where it is built in and can succeed. It is compiled into the loop of a run.
    #[inline(always)]
    fn add(
        &mut self,
        chain: &ClauseChain,
        start: Start<'p>,
        fresh: u32,
        depth: u64,
    ) -> Result<Entered, AllocError>
        requires search { IsSearch self.old }
        requires chain { IsChain self.old.program.now chain.now }
        requires newest { IsNewest self.old (untried self.old start fresh depth) }
        ensures search { OnOk result (IsSearch self.new) }
        ensures program { self.new.program.now ≡ self.old.program.now }
        ensures bindings { self.new.bindings ≡ self.old.bindings }
        ensures entered { IfOk result
            (λ entered. IsEntered self.old depth
            (goal_at self.old (untried self.old start.entry fresh depth)) entered self.new) }
        ensures attempts { OnOk result
            (attempts_left self.new ≤ attempts_left self.old + length self.old.program.now.clauses + 2) }
        ensures depths { OnOk result ((d : ℕ) → AreWithin d (choices_of self.old) → depth ≤ d
            → AreWithin d (choices_of self.new)) }
    {
        let (next, value) = match judge(
            &mut self.calculator,
            &self.bindings,
            self.program,
            start.atom,
            start.base,
        )? {
            FirstAtom::Ordinary => {
                let first = chain.first(start.atom.pred);
                let next = next_match(
                    self.program,
                    chain,
                    &self.bindings,
                    start.atom,
                    start.base,
                    first,
                );
                (next, None)
            }
            FirstAtom::Succeeds(value) => (0, value),
            FirstAtom::Fails => return Ok(Entered::Open),
            FirstAtom::Wide => return Ok(Entered::Wide),
        };
        self.choices.push(Choice {
            atom: start.atom,
            base: start.base,
            rest: start.rest,
            fresh,
            next,
            value,
            mark: self.bindings.len(),
            rests: self.tails.len(),
            depth,
        })?;
        Ok(Entered::Open)
    }

    /// Enters a goal of this depth: raised atoms, and then a rest. It is compiled into the loop of a run.
    #[inline(always)]
    pub fn enter(
        &mut self,
        chain: &ClauseChain,
        atoms: &'p [Atom],
        base: u32,
        rest: usize,
        fresh: u32,
        depth: u64,
    ) -> Result<Entered, AllocError>
        requires search { IsSearch self.old }
        requires chain { IsChain self.old.program.now chain.now }
        requires rest { rest ≤ length self.old.tails }
        requires free { FreeFrom fresh self.old.bindings }
        requires below { AtomsBelow fresh
            (goal_with self.old.bindings (map (raised base) atoms.now)
            (tail_at self.old.tails rest) fresh).atoms }
        ensures search { OnOk result (IsSearch self.new) }
        ensures program { self.new.program.now ≡ self.old.program.now }
        ensures bindings { self.new.bindings ≡ self.old.bindings }
        ensures entered { IfOk result
            (λ entered. IsEntered self.old depth
            (goal_with self.old.bindings (map (raised base) atoms.now)
            (tail_at self.old.tails rest) fresh) entered self.new) }
        ensures attempts { OnOk result
            (attempts_left self.new ≤ attempts_left self.old + length self.old.program.now.clauses + 2) }
        ensures depths { OnOk result ((d : ℕ) → AreWithin d (choices_of self.old) → depth ≤ d
            → AreWithin d (choices_of self.new)) }
    {
        match goal_start(&mut self.tails, atoms, base, rest)? {
            Some(start) => self.add(chain, start, fresh, depth),
            None => Ok(Entered::Empty),
        }
    }

    /// The answer that the bindings give of a query.
    pub fn answer(&mut self, alloc: Global, query: &'p [Atom]) -> Result<Answer, AllocError>
        ensures answer { IfOk result (λ a. a ≡ told (answered_atoms self.old.bindings query.now)) }
        ensures program { self.new.program.now ≡ self.old.program.now }
        ensures bindings { self.new.bindings ≡ self.old.bindings }
        ensures tails { self.new.tails ≡ self.old.tails }
        ensures choices { self.new.choices.items ≡ self.old.choices.items }
    {
        make_answer(alloc, &self.bindings, query, &mut self.stacks.terms)
    }
}
