//! `message_cases`: asks what is said on standard error in each case of the file `cases`, and says which answers are
//! not those that it wants.
//!
//! The file goes by lines, and the first byte of a line says what it is:
//!
//! - `: NAME`: the text of a file of that name begins. `a.pl` is the program and `a.cert` the certificate of which
//!   questions speak;
//!   the text of `name` is the name of a file.
//! - `$ WORD`: the next word of a call; `$` alone is an empty word. The word for a query is the query's text too.
//! - `= STATUS`: the status of the call; what it wrote on standard output begins.
//! - `? QUESTION`: one of the questions below; the answer that is wanted begins, which is empty where nothing is said.
//! - `|TEXT`: a line of the text that began. `!TEXT`: the same, without a newline after it. `+ NUMBERS`: the bytes of
//!   these numbers,
//!   for what an editor does not show, as `+ 13 10`.
//!
//! Any other line is a comment. A question ends a case, and the next case begins without texts and words: copy a case
//! to add one. The questions are:
//!
//! - `message`: the message about the call; `first line`, `last line`: that line of it.
//! - `all`: the message, the warnings and the notes about the call.
//! - `words`: the two words of the call that name files or are a query, each in a line.
//! - `refusal NUMBER`, `reason NUMBER`: the sentence of that kind of refusal, or of that reason of a No, and its usual
//!   advice.
//! - `cause CAUSE`: the message about a file that is not loaded since it is `missing`, `exchanged`, `denied`, a
//!   `directory` or `other`.
//! - `warnings`, `query warnings`: the warnings about the program, and about the query of the call.
//! - `notes`, `check note`, `norm note`: the notes about the program by its certificate, about the certificate by what
//!   `check` wrote,
//!   and about the certificate's norm.
#![tactic(auto)]

mod answering;
mod book;
mod call;
mod line;
mod question;

use book::Book;
use line::Line;
use std::alloc::AllocError;
use std::process::ExitCode;

/// Asks what a text asks for, and gives what is to be printed.
fn report(rt: &HostRuntime, text: &str) -> Result<String, AllocError> {
    let mut book = Book::new(rt.alloc());
    for line in text.lines() {
        book.take(rt.alloc(), Line::of(line))?;
    }
    book.settle(rt.alloc())?;
    book.report(rt.alloc())
}

fn main(rt: HostRuntime) -> ExitCode {
    let Ok(text) = std::fs::read_to_string(&rt, "cases") else {
        return ExitCode::from(2);
    };
    let Ok(report) = report(&rt, &text) else {
        return ExitCode::from(2);
    };
    match println!(rt; "{report}") {
        Ok(()) => ExitCode::from(0),
        Err(_) => ExitCode::from(2),
    }
}
