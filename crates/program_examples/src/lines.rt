//! The lines of a run without atoms. Terms are spelled in the tests of `cti_top`, which read them from texts.

use cti_terms::{Atoms, Names, Program};
use ld_resolver::{Answer, Answers, Ending, Ran};
use std::alloc::{AllocError, Global};
use std::test::Fail;
use term_text::run_text;

/// An answer without atoms and one that is too large.
fn answers(alloc: Global) -> Result<Answers, AllocError> {
    let mut answers = Answers::new(alloc);
    answers.push(Answer::Atoms(Atoms::new(alloc)))?;
    answers.push(Answer::Large)?;
    Ok(answers)
}

/// The lines of a run with these answers.
fn lines(alloc: Global, answers: Answers) -> Result<Vec<u8>, AllocError> {
    let ran = Ran {
        answers,
        steps: 12,
        longest: 3,
        ending: Ending::Stopped,
    };
    run_text(alloc, &Names::new(alloc), &Program::new(alloc), &ran)
}

#[test]
fn lines_of_a_run(rt: HostRuntime) -> Result<(), Fail> {
    let lines = lines(rt.alloc(), answers(rt.alloc())?)?;
    assert!(rt;
        lines.as_slice() == b"answer([]).\nanswer(large).\nran(12,3,stopped).\n".as_slice()
    );
    Ok(())
}
