//! `cases`: runs the commands that the file `cases` lists, and says which of them answer otherwise than it says.
//!
//! The file goes by lines, and the first byte of a line says what it is:
//!
//! - `: NAME`: the text of a file of that name begins; the file stays for the later commands.
//! - `~ NAME OF NUMBER`: the same, of a file that is the file OF with the text in the place of the line of that number.
//! - `$ WORD`: the next word of a command.
//! - `@ WORDS`: of the output of the command only the lines that begin with these words count.
//! - `= STATUS`: the status of the command; its output begins.
//! - `|TEXT`: a line of the text that began. `!TEXT`: the same, without a newline after it.
//!
//! Any other line is a comment.
#![tactic(auto)]

mod book;
mod change;
mod line;

use book::Book;
use line::Line;
use std::alloc::AllocError;
use std::process::ExitCode;

/// Runs the cases of a text, and gives what is to be printed.
fn report(rt: &HostRuntime, text: &str) -> Result<String, AllocError> {
    let mut book = Book::new(rt.alloc());
    for line in text.lines() {
        book.take(rt.alloc(), Line::of(line))?;
    }
    book.settle(rt.alloc())?;
    book.report(rt.alloc())
}

fn main(rt: HostRuntime) -> ExitCode {
    let Ok(text) = std::fs::read_to_string(&rt, "cases") else {
        return ExitCode::from(2);
    };
    let Ok(report) = report(&rt, &text) else {
        return ExitCode::from(2);
    };
    match println!(rt; "{report}") {
        Ok(()) => ExitCode::from(0),
        Err(_) => ExitCode::from(2),
    }
}
