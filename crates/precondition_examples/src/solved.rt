//! Worked preconditions. A mode is a number whose bit i is set where argument i has to be rigid.

ghost use Rattle.std.specs.Prelude.{◌≡◌, ◌<◌, ℕ, Bool, IfOk, if◌then◌else◌, length, slice_get, Some};
ghost use Rattle.call_components.specs.Partition.{AreComponents};
ghost use Rattle.number_tests.specs.declared.level_part.LevelPart.{LevelPart as ThePart};
ghost use Rattle.precond_fixpoint.specs.Solving.{AreLevels};

use bool_diagrams::Table;
use call_components::{Components, components};
use cti_terms::{PredId, Program};
use groundness::solve;
use linear_rows::Numbers;
use number_tests::LevelPart;
use precond_fixpoint::solve_levels;
use samples::program_of;
use sequences::Sequence;
use std::alloc::{AllocError, Global};
use std::test::Fail;
use term_size::TermSize;

/// A part whose first coefficients are these, and whose others are 0.
fn part(alloc: Global, coefficients: &[i128], arity: u32) -> Result<LevelPart, AllocError>
    ensures { IfOk result (λ part. length part.coeffs ≡ arity) }
{
    let mut numbers = vec![in alloc; 0; arity as usize]?;
    for (number, coefficient) in numbers.iter_mut().zip(coefficients.iter()) {
        *number = *coefficient;
    }
    Ok(LevelPart {
        coeffs: Numbers::from_vec(numbers),
        offset: 0,
    })
}

/// A part for each of these mappings.
fn parts(
    alloc: Global,
    mappings: &[[i128; 3]],
    arity: u32,
) -> Result<Sequence<LevelPart>, AllocError>
    ensures each { IfOk result (λ parts. length parts ≡ length mappings.now) }
    ensures wide { IfOk result (λ parts. (m : ℕ) (part : ThePart) → slice_get parts m ≡ Some part
        → length part.coeffs ≡ arity) }
{
    let mut list = Sequence::new(alloc);
    for coefficients in mappings {
        let own = part(alloc, coefficients, arity)?;
        list.push(own)?;
    }
    Ok(list)
}

/// Mappings for a predicate of a recursive component, and the one of zeros for another.
fn own_parts(
    alloc: Global,
    recursive: bool,
    mappings: &[[i128; 3]],
    arity: u32,
) -> Result<Sequence<LevelPart>, AllocError>
    ensures each { IfOk result
        (λ parts. length parts ≡ (if recursive then length mappings.now else 1)) }
    ensures wide { IfOk result (λ parts. (m : ℕ) (part : ThePart) → slice_get parts m ≡ Some part
        → length part.coeffs ≡ arity) }
{
    if recursive {
        return parts(alloc, mappings, arity);
    }
    parts(alloc, [[0; 3]].as_slice(), arity)
}

/// The parts of all predicates, where each recursive component has these mappings.
fn levels(
    alloc: Global,
    p: &Program,
    comps: &Components,
    mappings: &[[i128; 3]],
) -> Result<Vec<Sequence<LevelPart>>, AllocError>
    requires { AreComponents p.now comps.now }
    ensures { IfOk result (λ levels. AreLevels p.now comps.now levels.items) }
{
    let mut levels = Vec::new(alloc);
    for q in 0..p.preds() {
        let arity = p.pred(PredId(q)).arity;
        let recursive = comps.recursive(comps.of(PredId(q)));
        let own = own_parts(alloc, recursive, mappings, arity)?;
        levels.push(own)?;
    }
    Ok(levels)
}

/// The modes of a predicate of a program, where each recursive component has these mappings.
fn modes(alloc: Global, text: &str, mappings: &[[i128; 3]], pred: u32) -> Result<Vec<u32>, Fail> {
    let sample = program_of(alloc, text).ok_or("no program")?;
    let program = &sample.program;
    let comps = components(alloc, program)?;
    let mut table = Table::new(alloc)?;
    let grounds = solve(alloc, program, &comps, &TermSize, &mut table)?;
    let levels = levels(alloc, program, &comps, mappings)?;
    let solved = solve_levels(
        alloc,
        program,
        &comps,
        &TermSize,
        &mut table,
        grounds.as_slice(),
        &levels,
    )?;
    let mut numbers = Vec::new(alloc);
    if pred < program.preds() {
        for mode in solved.modes(PredId(pred)) {
            let mut number = 0;
            for argument in mode.args.as_slice() {
                number |= 1_u32 << (*argument % 32);
            }
            numbers.push(number / 2)?;
        }
    }
    Ok(numbers)
}

/// The modes of append come from one mapping each. A program without recursion asks for nothing. A query of q(_) below
/// p loops where q has no mapping: then two rows of p are never reached, and neither has all rows above it.
#[test]
fn modes_that_are_found(rt: HostRuntime) -> Result<(), Fail> {
    let alloc = rt.alloc();
    let append = "app([],L,L). app([H|T],L,[H|R]) :- app(T,L,R).";
    let first = [[1, 0, 0]];
    let last = [[0, 0, 1]];
    let both = [[1, 0, 0], [0, 0, 1]];
    for (text, mappings, pred, wanted) in [
        (append, first.as_slice(), 0, [1].as_slice()),
        (append, last.as_slice(), 0, [4].as_slice()),
        (append, both.as_slice(), 0, [1, 4].as_slice()),
        (append, [].as_slice(), 0, [].as_slice()),
        (
            "p(X,f(X)) :- q(X). q(a) :- q(a).",
            [].as_slice(),
            0,
            [].as_slice(),
        ),
    ] {
        let found = modes(alloc, text, mappings, pred)?;
        assert_eq!(rt; found.as_slice(), wanted, "{text}");
    }
    Ok(())
}
