//! `cti`: reads the words, makes the real files and the real output, says on standard error what went wrong, and ends
//! with the status's number.
#![tactic(auto)]

mod self_check;

use cti_top::{Files, KeptFiles, RealFiles, RealSink, Status, command};
use messages::{Ending, explain};
use mode_notes::call_notes;
use self_check::{MOST_BYTES, REJECTED, TOO_LONG, is_rejected, is_wanted};
use std::alloc::{AllocError, Global};
use std::io::Write;
use std::process::ExitCode;
use std::{env, io};
use warnings::warn;

/// How many bytes of the output are read for a message: more than the longest line of a refusal.
const LONGEST_LINE: usize = 64;

/// The words after the program's name, and whether the system gives all of them as text. If it does not, there are
/// none.
fn words(rt: &HostRuntime, alloc: Global) -> Result<(Vec<String>, bool), AllocError> {
    let mut words = Vec::new(alloc);
    match env::args(rt) {
        Ok(args) => {
            for word in args.skip(1) {
                words.push(word)?;
            }
            Ok((words, true))
        }
        Err(error) if error.kind() == io::ErrorKind::OutOfMemory => Err(AllocError),
        Err(_) => Ok((words, false)),
    }
}

/// Writes on standard error the message about a call, the warnings about its texts, and the notes about the modes that
/// it wrote. Where this fails, nobody reads it.
fn tell<'a, F: Files + Drop, W: Write + Drop>(
    rt: &HostRuntime,
    status: Status,
    words: &'a [&'a str],
    are_text: bool,
    files: &'a KeptFiles<F>,
    out: &'a RealSink<W>,
) -> Result<(), AllocError> {
    let ending = Ending {
        status: status.number(),
        words: are_text.then_some(words),
        output: out.head().get(..LONGEST_LINE).unwrap_or(out.head()),
        written: out.taken(),
        program: files.text(0),
        certificate: files.text(1),
    };
    let message = explain(rt, ending)?;
    let _ = rt.stderr().write_all(&message);
    let warnings = warn(rt.alloc(), ending)?;
    let _ = rt.stderr().write_all(&warnings);
    let notes = call_notes(rt.alloc(), ending, out.text())?;
    let _ = rt.stderr().write_all(&notes);
    Ok(())
}

/// Looks a second time at a certificate that was written, and says on standard error if `check` does not accept it, or
/// would not read it.
fn look_again<F: Files + Drop, W: Write + Drop>(
    rt: &HostRuntime,
    files: &KeptFiles<F>,
    out: &RealSink<W>,
) -> Result<(), AllocError> {
    if out.taken() > MOST_BYTES as u64 {
        let _ = rt.stderr().write_all(TOO_LONG);
        return Ok(());
    }
    let program = files.text(0);
    let certificate = out.text();
    // Without both texts there is nothing to look at.
    if program.is_empty() || certificate.is_empty() || !is_wanted(rt) {
        return Ok(());
    }
    if is_rejected(rt.alloc(), program, certificate)? {
        let _ = rt.stderr().write_all(REJECTED);
    }
    Ok(())
}

/// Runs the command that the words ask for, and says what went wrong.
fn run(rt: &HostRuntime, alloc: Global) -> Result<Status, AllocError> {
    let (words, are_text) = words(rt, alloc)?;
    let mut texts = Vec::new(alloc);
    for word in &words {
        texts.push(word.as_str())?;
    }
    let inner = RealFiles {
        runtime: rt,
        faults: 0,
    };
    let mut files = KeptFiles::new(alloc, inner);
    let kept = match texts.first().copied() {
        Some("infer" | "lex") => MOST_BYTES,
        _ => LONGEST_LINE,
    };
    let mut out = RealSink::new(alloc, rt.stdout(), kept);
    let status = command(alloc, &texts, &mut files, &mut out);
    // The answer is written, and stands, if there is no memory for the message or for a second look.
    let _ = tell(rt, status, &texts, are_text, &files, &out);
    if status == Status::Done && texts.first().copied() == Some("infer") {
        let _ = look_again(rt, &files, &out);
    }
    Ok(status)
}

fn main(rt: HostRuntime) -> ExitCode {
    let alloc = rt.alloc();
    let status = run(&rt, alloc).unwrap_or(Status::Memory);
    ExitCode::from(status.number())
}
