//! Runs of queries.

use cti_terms::{Atoms, Goal, Program};
use ld_resolver::{Answer, Ending, Ran, run};
use std::alloc::{AllocError, Global};
use std::test::Fail;

/// A run of the empty goal by the empty program.
fn empty_run(alloc: Global) -> Result<Ran, AllocError> {
    let program = Program::new(alloc);
    let goal = Goal {
        atoms: Atoms::new(alloc),
        fresh: 0,
    };
    run(alloc, &program, &goal, 10)
}

#[test]
fn the_empty_goal_has_one_answer(rt: HostRuntime) -> Result<(), Fail> {
    let ran = empty_run(rt.alloc())?;
    assert!(rt; matches!(ran.answers.as_slice(), [Answer::Atoms(_)]));
    assert!(rt; ran.steps == 0 && ran.longest == 0 && matches!(ran.ending, Ending::Finished));
    Ok(())
}
