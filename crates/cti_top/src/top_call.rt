//! The top call.

ghost use Rattle.std.specs.Prelude.{◌≡◌, ◌≤◌, map, Some};
ghost use Rattle.outside.specs.Causes.{Rose};
ghost use Rattle.outside.specs.Told.{Keeps};
ghost use Rattle.cti_top.specs.Outcome.{FileRose, Outcome};
ghost use Rattle.command_words.specs.Words.{Ask, asks};

use crate::answering::answer_words;
use crate::status::Status;
use outside::{Files, Sink, write_text};
use std::alloc::Global;

/// Carries out the command that the words after the program's name ask for.
///
/// The answer is complete, and all memory is taken, before the first byte is written. Where no load and no write fails,
/// what the words ask for is answered, or memory runs out: the laws of `answered_laws`.
///
/// - `infer FILE --norm NORM`: the certificate of the file's program by the norm `term` or `list`, and else `term`:
///   exactly the minimal modes for the size rows, ground rows and mappings that it shows, and each query that meets one
///   of them ends.
/// - `check FILE CERT`: `yes.` where the certificate is valid for the program, and `no(Line,Reason).` where it is not.
/// - `run FILE QUERY --steps N`: the query's answers among the empty derivation and the first N others, from 1 to
///   1,000,000 and else 100,000; how many there were, the length of the longest, and whether there are more.
/// - `gen N`: how many clauses a generated program of N predicates has, from 1 to 300, and how many modes `infer`
///   prints for it.
/// - `lex FILE`: the certificate of the modes by lists of mappings that descend in lexicographic order: one list for
///   each minimal support of a component of at most 12 argument positions, and at most one of a larger component.
/// - `loop FILE QUERY --depth D`: `loop(Before,Cycle).`, the clauses of the first derivation of at most D clauses, from
///   1 to 12 and else 8, that comes back to an atom more general than one it passed, so that the query has derivations
///   of every length; `no_loop(N).` where none of all N does; `stopped(100000).` where there are more.
/// - `session FILE`: for each `modes(N/A)` of a text of edits, which add and remove clauses in order from no clauses
///   on, the modes of that predicate for the program as it then stands.
#[tactic(auto, using(crate::proofs::KeepLemmas::untouched, crate::proofs::KeepLemmas::loaded))]
pub fn command<F: Files, S: Sink>(
    alloc: Global,
    words: &[&str],
    files: &mut F,
    out: &mut S,
) -> Status
    ensures outcome { Outcome (F.told files.old) (map (λ w. w.now) words.entry.now)
        (S.taken out.old) (S.taken out.new) result }

    // A fault of a file comes only from a failed load of a file that the words name, of the certificate's only where
    // the program is read; and one of the sink only from a failed write.
    ensures file_fault { result ≡ Status.FileFault
        → (ask : Ask) × (asks (map (λ w. w.now) words.entry.now) ≡ Some ask)
        × FileRose (F.told files.old) ask (F.faults files.old) (F.faults files.new) }
    ensures out_fault { result ≡ Status.OutFault → Rose (S.faults out.old) (S.faults out.new) }

    // The store keeps its map, and no count of faults falls.
    ensures kept { Keeps (F.told files.old) (F.told files.new) (F.faults files.old)
        (F.faults files.new) }
    ensures later { S.faults out.old ≤ S.faults out.new }
{
    match answer_words(alloc, words, files) {
        Ok(answer) => match write_text(&answer.text, out) {
            Ok(()) => answer.status,
            Err(_) => Status::OutFault,
        },
        Err(status) => status,
    }
}
