//! The lines that a run prints.

ghost use Rattle.std.specs.Prelude.{◌≡◌, [], ◌++◌, codes, flat_map, OnOk, IfOk};
ghost use Rattle.term_text.specs.RunLines.{predicate_name, atom_text, atoms_text, answer_line, ending_word, ran_line, run_lines};

use crate::part::Part;
use crate::spelling::{begin_compound, name_text, push_number, write_parts};
use cti_terms::{Atom, Name, Names, PredId, Program};
use ld_resolver::{Answer, Ending, Ran, Totals};
use std::alloc::{AllocError, Global};

/// The name of a predicate, which is the first name for a number that the program does not have.
fn predicate_name(program: &Program, pred: PredId) -> Name
    ensures { result.0 ≡ predicate_name program.now.preds pred.0 }
{
    if pred.0 < program.preds() {
        program.pred(pred).name
    } else {
        Name(0)
    }
}

/// Appends an atom. The stack is empty before and after.
fn push_atom<'t>(
    names: &Names,
    program: &Program,
    atom: &'t Atom,
    stack: &mut Vec<Part<'t>>,
    out: &mut Vec<u8>,
) -> Result<(), AllocError>
    requires { stack.old.items ≡ [] }
    ensures text { OnOk result
        (out.new.items ≡ out.old.items ++ atom_text names.now program.now.preds atom.now) }
    ensures done { OnOk result (stack.new.items ≡ []) }
{
    let name = name_text(names, predicate_name(program, atom.pred));
    begin_compound(name, atom.args.as_slice(), stack, out)?;
    write_parts(names, stack, out)
}

/// Appends atoms, each after a comma.
fn push_other_atoms<'t>(
    names: &Names,
    program: &Program,
    atoms: &'t [Atom],
    stack: &mut Vec<Part<'t>>,
    out: &mut Vec<u8>,
) -> Result<(), AllocError>
    requires { stack.old.items ≡ [] }
    ensures { OnOk result (out.new.items ≡ out.old.items ++ flat_map
        (λ a. codes "," ++ atom_text names.now program.now.preds a) atoms.now) }
{
    for atom in atoms {
        out.push(b',')?;
        push_atom(names, program, atom, stack, out)?;
    }
    Ok(())
}

/// Appends atoms with commas between them.
fn push_atoms(
    alloc: Global,
    names: &Names,
    program: &Program,
    atoms: &[Atom],
    out: &mut Vec<u8>,
) -> Result<(), AllocError>
    ensures { OnOk result (out.new.items ≡ out.old.items
        ++ atoms_text names.now program.now.preds atoms.now) }
{
    let Some((first, others)) = atoms.split_first() else {
        return Ok(());
    };
    let mut stack = Vec::new(alloc);
    push_atom(names, program, first, &mut stack, out)?;
    push_other_atoms(names, program, others, &mut stack, out)
}

/// Appends the line of an answer.
pub(crate) fn push_answer(
    alloc: Global,
    names: &Names,
    program: &Program,
    answer: &Answer,
    out: &mut Vec<u8>,
) -> Result<(), AllocError>
    ensures { OnOk result (out.new.items ≡ out.old.items
        ++ answer_line names.now program.now.preds answer.now) }
{
    match answer {
        Answer::Atoms(atoms) => {
            out.extend_from_slice(b"answer([")?;
            push_atoms(alloc, names, program, atoms.as_slice(), out)?;
            out.extend_from_slice(b"]).\n")
        }
        Answer::Large => out.extend_from_slice(b"answer(large).\n"),
    }
}

/// Appends the lines of answers.
fn push_answers(
    alloc: Global,
    names: &Names,
    program: &Program,
    answers: &[Answer],
    out: &mut Vec<u8>,
) -> Result<(), AllocError>
    ensures { OnOk result (out.new.items ≡ out.old.items
        ++ flat_map (answer_line names.now program.now.preds) answers.now) }
{
    for answer in answers {
        push_answer(alloc, names, program, answer, out)?;
    }
    Ok(())
}

/// The word for how a run ended.
fn ending_word(ending: Ending) -> &'static [u8]
    ensures { result.now ≡ ending_word ending }
{
    match ending {
        Ending::Finished => b"finished",
        Ending::Stopped => b"stopped",
        Ending::Overflow => b"overflow",
    }
}

/// Appends the last line.
pub(crate) fn push_ran(totals: Totals, out: &mut Vec<u8>) -> Result<(), AllocError>
    ensures { OnOk result (out.new.items ≡ out.old.items
        ++ ran_line totals.steps totals.longest totals.ending) }
{
    out.extend_from_slice(b"ran(")?;
    push_number(totals.steps, out)?;
    out.push(b',')?;
    push_number(totals.longest, out)?;
    out.push(b',')?;
    out.extend_from_slice(ending_word(totals.ending))?;
    out.extend_from_slice(b").\n")
}

/// The text of what a run of this program has found: a line for each answer in order, and a line that says how many
/// nodes were looked at, how long the longest derivation was, and whether there were more.
///
/// A number that the names do not have is spelled as the empty name, and a predicate that the program does not have by
/// the first name.
pub fn run_text(
    alloc: Global,
    names: &Names,
    program: &Program,
    ran: &Ran,
) -> Result<Vec<u8>, AllocError>
    ensures { IfOk result (λ text. text.items
        ≡ run_lines names.now program.now ran.now.answers ran.now.steps ran.now.longest ran.now.ending) }
{
    let mut out = Vec::new(alloc);
    push_answers(alloc, names, program, ran.answers.as_slice(), &mut out)?;
    let totals = Totals {
        steps: ran.steps,
        longest: ran.longest,
        ending: ran.ending,
    };
    push_ran(totals, &mut out)?;
    Ok(out)
}
