//! Components of programs: which predicates call themselves, through others or directly.

ghost use Rattle.std.specs.Prelude.{◌≡◌, ◌≤◌, IfOk, IfSome, [], length, sum_by};
ghost use Rattle.std.specs.List.{AllByRecursion};
ghost use Rattle.cti_terms.specs.Arithmetic.{no_arithmetic};
ghost use Rattle.cti_terms.specs.Listing.{IsAtom, atom_nodes};

use call_components::components;
use cti_terms::{Atom, Atoms, Clause, Name, PredId, Program, Terms};
use std::alloc::{AllocError, Global};

/// A program with this many predicates without arguments, and no clause.
fn propositions(alloc: Global, preds: u32) -> Result<Program, AllocError>
    ensures { IfOk result (λ p. p.arithmetic ≡ no_arithmetic) }
{
    let mut program = Program::new(alloc);
    for name in 0..preds.min(100) {
        if program.preds() < 100 {
            program.add_pred(Name(name), 0)?;
        }
    }
    Ok(program)
}

/// The atom of a predicate without arguments.
fn atom(alloc: Global, program: &Program, pred: u32) -> Option<Atom>
    ensures known { IfSome result (IsAtom program.now.preds 0) }
    ensures bare { IfSome result (λ a. a.args ≡ []) }
{
    if pred < program.preds() && program.pred(PredId(pred)).arity == 0 {
        Some(Atom {
            pred: PredId(pred),
            args: Terms::new(alloc),
        })
    } else {
        None
    }
}

/// The atoms of predicates without arguments.
fn atoms(alloc: Global, program: &Program, preds: &[u32]) -> Option<Atoms>
    ensures known { IfSome result (AllByRecursion (IsAtom program.now.preds 0)) }
    ensures bare { IfSome result (λ atoms. sum_by atom_nodes atoms ≡ 0) }
    ensures few { IfSome result (λ atoms. length atoms ≤ 100) }
{
    let mut atoms = Atoms::new(alloc);
    for pred in preds {
        if atoms.len() < 100 {
            atoms.push(atom(alloc, program, *pred)?).ok()?;
        }
    }
    Some(atoms)
}

/// Adds the clause of this head whose body calls these predicates, all without arguments. It gives the clause's number.
pub fn add_rule(alloc: Global, program: &mut Program, head: u32, callees: &[u32]) -> Option<u32>
    requires { program.old.arithmetic ≡ no_arithmetic }
    ensures { program.new.arithmetic ≡ no_arithmetic }
{
    let head = atom(alloc, program, head)?;
    let body = atoms(alloc, program, callees)?;
    if program.clauses() > 100 {
        return None;
    }
    let rule = Clause {
        head,
        body,
        vars: 0,
    };
    program.add_clause(rule).ok()
}

/// For each predicate whether its component is recursive.
fn recursive_ones(alloc: Global, program: &Program) -> Result<Vec<bool>, AllocError> {
    let comps = components(alloc, program)?;
    let mut answers = Vec::new(alloc);
    for pred in 0..program.preds() {
        answers.push(comps.recursive(comps.of(PredId(pred))))?;
    }
    Ok(answers)
}

/// A program with five predicates, and for each rule the clause of its head that calls its callees.
fn program_of(alloc: Global, rules: &[(u32, &[u32])]) -> Option<Program> {
    let mut program = propositions(alloc, 5).ok()?;
    'rules: for (head, callees) in rules {
        add_rule(alloc, &mut program, *head, callees)?;
    }
    Some(program)
}

/// Whether exactly these predicates are recursive.
fn is_answer(alloc: Global, rules: &[(u32, &[u32])], recursive: &[bool]) -> Option<bool> {
    let program = program_of(alloc, rules)?;
    let are_recursive = recursive_ones(alloc, &program).ok()?;
    Some(are_recursive.as_slice() == recursive)
}

/// A rule that calls itself, one call, and a long cycle.
#[test]
fn cycles_are_components(rt: HostRuntime) {
    let alloc = rt.alloc();
    // r :- p, q.   p :- p.   q.
    let own = [false, true, false, false, false];
    assert!(rt; is_answer(alloc, &[(0, &[1, 2]), (1, &[1])], &own) == Some(true));
    // p :- q.
    assert!(rt; is_answer(alloc, &[(0, &[1])], &[false; 5]) == Some(true));
    // s :- a.   a :- c.   b :- a.   c :- d, b.
    let long = [(0, [1].as_slice()), (1, &[3]), (2, &[1]), (3, &[4, 2])];
    let recursive = [false, true, true, true, false];
    assert!(rt; is_answer(alloc, &long, &recursive) == Some(true));
}
