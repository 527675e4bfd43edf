//! The notes of a chain.

ghost use Rattle.std.specs.Prelude.{◌≡◌, ◌+◌, ◌-◌, ◌<◌, ◌≤◌, ◌++◌, IfOk, OnOk, length, map};
ghost use Rattle.std.specs.List.{flat_map};
ghost use Rattle.certificate.specs.declared.fact.Fact.TheVariants as fact;
ghost use Rattle.cert_structure.specs.Numbered.{facts_from};
ghost use Rattle.cert_structure.specs.Order.{pred_text};
ghost use Rattle.cert_structure.specs.Shape.{head_of};
ghost use Rattle.linear_rows.specs.Plain.{plain_rows};
ghost use Rattle.numeric_model.specs.States.{plain_step};
ghost use Rattle.certificate.specs.Text.{text_of};
ghost use Rattle.cert_assembly.specs.ChainNotes.{chain_notes, how_noted, noted_if, step_notes};

use crate::named::pred_text;
use crate::printed::print_facts;
use certificate::{CertHow, Fact};
use cti_terms::{Names, PredId, Program};
use linear_rows::Rows;
use numeric_model::{How, Step};
use sequences::Sequence;
use std::alloc::{AllocError, Global};

/// The predicate of a clause's head; 0 where there is no clause.
fn head_of(p: &Program, clause: u32) -> PredId
    ensures { result.0 ≡ head_of p.now (clause - 1) }
{
    let number = if clause == 0 { 1 } else { clause };
    if number <= p.clauses() {
        p.clause(number).head.pred
    } else {
        PredId(0)
    }
}

/// The numbers of rows.
fn numbers_of(alloc: Global, rows: &Rows) -> Result<Sequence<Sequence<i128>>, AllocError>
    ensures { IfOk result (λ numbers. numbers ≡ plain_rows rows.now.list) }
{
    let mut numbers = Sequence::new(alloc);
    for row in rows.list.as_slice() {
        numbers.push(row.numbers(alloc)?)?;
    }
    Ok(numbers)
}

/// What a step did, for a fact.
fn how_noted(how: How) -> CertHow
    ensures { result ≡ how_noted how }
{
    match how {
        How::None => CertHow::None,
        How::First => CertHow::First,
        How::Join => CertHow::Join,
        How::Keep => CertHow::Keep,
        How::Same => CertHow::Same,
    }
}

/// The note of a step's image.
fn image_note(
    alloc: Global,
    p: &Program,
    names: &Names,
    number: u64,
    step: &Step,
) -> Result<Fact, AllocError>
    ensures { IfOk result (λ note. note ≡ fact.Image number step.now.clause
        (pred_text p.now names.now (head_of p.now (step.now.clause - 1)))
        (plain_rows step.now.image.value.list)) }
{
    Ok(Fact::Image {
        step: number,
        clause: step.clause,
        pred: pred_text(alloc, p, names, head_of(p, step.clause))?,
        rows: numbers_of(alloc, &step.image)?,
    })
}

/// The note of the rows after a step.
fn rows_note(
    alloc: Global,
    p: &Program,
    names: &Names,
    number: u64,
    step: &Step,
) -> Result<Fact, AllocError>
    ensures { IfOk result (λ note. note
        ≡ fact.Step number (pred_text p.now names.now (head_of p.now (step.now.clause - 1)))
        (how_noted step.now.how) (plain_rows step.now.rows.value.list)) }
{
    Ok(Fact::Step {
        step: number,
        pred: pred_text(alloc, p, names, head_of(p, step.clause))?,
        how: how_noted(step.how),
        rows: numbers_of(alloc, &step.rows)?,
    })
}

/// Puts a note after others, where it is wanted.
fn note_if(wanted: bool, note: Fact, out: &mut Sequence<Fact>) -> Result<(), AllocError>
    ensures { OnOk result (out.new ≡ out.old ++ noted_if wanted note) }
{
    if wanted { out.push(note) } else { Ok(()) }
}

/// Puts the notes of a step after others.
fn note_step(
    alloc: Global,
    p: &Program,
    names: &Names,
    number: u64,
    step: &Step,
    out: &mut Sequence<Fact>,
) -> Result<(), AllocError>
    ensures { OnOk result (out.new ≡ out.old ++ step_notes p.now names.now number
        (plain_step step.now)) }
{
    out.push(image_note(alloc, p, names, number, step)?)?;
    out.push(rows_note(alloc, p, names, number, step)?)?;
    note_if(step.image_weak, Fact::WeakImage { step: number }, out)?;
    note_if(step.step_weak, Fact::WeakStep { step: number }, out)
}

/// Puts the notes of a chain after others. Each step is dropped once it is noted, so that no image is held twice.
pub fn note_chain(
    alloc: Global,
    p: &Program,
    names: &Names,
    steps: Sequence<Step>,
    out: &mut Sequence<Fact>,
) -> Result<(), AllocError>
    ensures { OnOk result (out.new ≡ out.old ++ chain_notes p.now names.now
        (map plain_step steps)) }
{
    // For the prover alone: there are this many steps, so that their numbers fit.
    let _count = steps.len();
    let mut number = 0;
    for step in steps.into_vec() {
        number += 1;
        note_step(alloc, p, names, number, &step, out)?;
    }
    Ok(())
}

/// Appends the text of the notes of a step.
fn print_step(
    alloc: Global,
    p: &Program,
    names: &Names,
    number: u64,
    step: &Step,
    out: &mut Vec<u8>,
) -> Result<(), AllocError>
    ensures { OnOk result (out.new.items ≡ out.old.items ++ text_of
        (step_notes p.now names.now number (plain_step step.now))) }
{
    let mut facts = Sequence::new(alloc);
    note_step(alloc, p, names, number, step, &mut facts)?;
    print_facts(alloc, facts, out)
}

/// Appends the text of the notes of a chain. Each step is dropped once it is printed, and its notes are not held.
pub fn print_chain(
    alloc: Global,
    p: &Program,
    names: &Names,
    steps: Sequence<Step>,
    out: &mut Vec<u8>,
) -> Result<(), AllocError>
    ensures { OnOk result (out.new.items ≡ out.old.items ++ text_of
        (chain_notes p.now names.now (map plain_step steps))) }
{
    // For the prover alone: there are this many steps, so that their numbers fit.
    let _count = steps.len();
    let mut number = 0;
    for step in steps.into_vec() {
        number += 1;
        print_step(alloc, p, names, number, &step, out)?;
    }
    Ok(())
}

/// Puts the notes of the steps of a component after others, and gives the number of its last step. The steps before it
/// have been noted: so many, with two notes each at least.
fn note_own(
    alloc: Global,
    p: &Program,
    names: &Names,
    before: u64,
    steps: &[Step],
    out: &mut Sequence<Fact>,
) -> Result<u64, AllocError>
    requires noted { before + before ≤ length out.old }
    ensures notes { OnOk result (out.new ≡ out.old ++ facts_from (before + 1)
        (step_notes p.now names.now) (map plain_step steps.now)) }
    ensures number { IfOk result (λ number. number ≡ before + length steps.now) }
    ensures noted { IfOk result (λ number. number + number ≤ length out.new) }
{
    let mut number = before;
    for step in steps {
        // For the prover alone: there are twice as many notes as steps, so the numbers of steps are no more than these.
        let _count = out.len();
        number += 1;
        note_step(alloc, p, names, number, step, out)?;
    }
    Ok(number)
}

/// Puts the notes of the steps of all components after others. The steps are borrowed, and are numbered on from one
/// component to the next.
pub fn note_components(
    alloc: Global,
    p: &Program,
    names: &Names,
    steps: &[Sequence<Step>],
    out: &mut Sequence<Fact>,
) -> Result<(), AllocError>
    ensures { OnOk result (out.new ≡ out.old ++ chain_notes p.now names.now
        (map plain_step (flat_map (λ own. own) steps.now))) }
{
    let mut number = 0;
    for own in steps {
        number = note_own(alloc, p, names, number, own.as_slice(), out)?;
    }
    Ok(())
}
