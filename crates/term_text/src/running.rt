//! The text of a run, which is written while the run goes on.

ghost use Rattle.std.specs.Prelude.{IfOk};
ghost use Rattle.cti_terms.specs.Lifts.{IsGoalOf};
ghost use Rattle.term_text.specs.WholeRun.{IsRunText};

use crate::run_lines::{push_answer, push_ran};
use bumpalo::Bump;
use cti_terms::{Goal, Names, Program};
use ld_resolver::{Ending, Found, Running};
use std::alloc::{AllocError, Global};

/// The text of a run, and how the run ended.
#[derive(Drop)]
pub struct TextOfRun {
    pub text: Vec<u8>,
    pub ending: Ending,
}

/// Runs a goal of a program, and gives what `run_text` says of the run. `budget` is how many derivations are looked at,
/// besides the empty one.
///
/// Each answer is dropped once its line is written: answers may share terms, and then all of them need far more memory
/// than the text does.
pub fn text_of_run(
    alloc: Global,
    names: &Names,
    program: &Program,
    goal: &Goal,
    budget: u64,
) -> Result<TextOfRun, AllocError>
    requires { IsGoalOf program.now goal.now }
    ensures { IfOk result (λ run. IsRunText names.now program.now goal.now budget run.text.items run.ending) }
{
    let arena = Bump::new(alloc);
    let mut running = Running::new(alloc, program, goal, budget, &arena)?;
    let mut text = Vec::new(alloc);
    loop {
        match running.next()? {
            Found::Answer(answer) => push_answer(alloc, names, program, &answer, &mut text)?,
            Found::End(totals) => {
                push_ran(totals, &mut text)?;
                return Ok(TextOfRun {
                    text,
                    ending: totals.ending,
                });
            }
        }
    }
}
