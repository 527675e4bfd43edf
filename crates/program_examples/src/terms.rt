//! Terms, and what programs hold them.

ghost use Rattle.std.specs.Prelude.{◌≡◌, IfSome};
ghost use Rattle.cti_terms.specs.Arithmetic.{no_arithmetic};

use crate::cycles::add_rule;
use cti_terms::*;
use std::alloc::{AllocError, Global};

/// Whether a text gets this number, by which it is found again.
fn is_numbered(names: &mut Names, text: &[u8], number: u32) -> Result<bool, AllocError> {
    if names.count() > 1_000 {
        return Ok(false);
    }
    let name = names.intern(text)?;
    Ok(name.0 == number && name.0 < names.count() && names.text(name) == text)
}

/// Names in order, and their numbers.
const NAMES: [(&str, u32); 6] = [
    ("edge", 0),
    ("", 1),
    ("a", 2),
    ("edge", 0),
    ("b", 3),
    ("a", 2),
];

#[test]
fn names_are_numbered_by_first_use(rt: HostRuntime) {
    let mut names = Names::new(rt.alloc());
    for (text, number) in &NAMES {
        assert!(rt;
            matches!(is_numbered(&mut names, text.as_bytes(), *number), Ok(true)),
            "{text}"
        );
    }
    assert!(rt; names.count() == 4);
}

/// Whether a predicate gets this number, by which it is found again.
fn is_listed(
    program: &mut Program,
    name: u32,
    arity: u32,
    number: u32,
) -> Result<bool, AllocError> {
    if arity > MOST_ARGUMENTS || program.preds() > 1_000 {
        return Ok(false);
    }
    let pred = program.add_pred(Name(name), arity)?;
    Ok(pred == PredId(number) && program.find(Name(name), arity) == Some(pred))
}

/// Names and arities of predicates in order, and their numbers.
const PREDS: [(u32, u32, u32); 6] = [
    (5, 0, 0),
    (5, 2, 1),
    (7, 0, 2),
    (5, 0, 0),
    (7, 12, 3),
    (5, 2, 1),
];

/// Names and arities of predicates that are not there.
const ABSENT: [(u32, u32); 3] = [(5, 1), (6, 0), (7, 2)];

/// Whether the predicate of this number has this name and arity.
fn has_pred(program: &Program, number: u32, name: u32, arity: u32) -> bool {
    if number >= program.preds() {
        return false;
    }
    let pred = program.pred(PredId(number));
    pred.name == Name(name) && pred.arity == arity
}

#[test]
fn predicates_are_numbered_by_first_occurrence(rt: HostRuntime) {
    let mut program = Program::new(rt.alloc());
    for (name, arity, number) in &PREDS {
        assert!(rt;
            matches!(is_listed(&mut program, *name, *arity, *number), Ok(true)),
            "{name}/{arity}"
        );
    }
    for (name, arity) in &ABSENT {
        assert!(rt;
            program.find(Name(*name), *arity).is_none(),
            "{name}/{arity}"
        );
    }
    assert!(rt; program.preds() == 4 && has_pred(&program, 1, 5, 2));
}

/// A program of one fact with variables, if its number is 1.
fn program_of_fact(alloc: Global) -> Option<Program>
    ensures { IfSome result (λ p. p.arithmetic ≡ no_arithmetic) }
{
    let mut program = Program::new(alloc);
    let head = Atom {
        pred: program.add_pred(Name(0), 0).ok()?,
        args: Terms::new(alloc),
    };
    let fact = Clause {
        head,
        body: Atoms::new(alloc),
        vars: 3,
    };
    if program.add_clause(fact).ok()? == 1 {
        Some(program)
    } else {
        None
    }
}

/// Whether this clause has `vars` variables and `atoms` atoms.
fn has_clause(program: &Program, k: u32, vars: u32, atoms: usize) -> bool {
    if k < 1 || k > program.clauses() {
        return false;
    }
    let clause = program.clause(k);
    clause.vars == vars && clause.body.len() == atoms
}

#[test]
fn clauses_are_numbered_from_one(rt: HostRuntime) {
    let mut program = program_of_fact(rt.alloc()).expect(&rt, "a program of clause 1");
    assert!(rt; add_rule(rt.alloc(), &mut program, 0, &[0]) == Some(2));
    assert!(rt; program.clauses() == 2);
    assert!(rt; has_clause(&program, 1, 3, 0) && has_clause(&program, 2, 0, 1));
}

/// A variable and a name.
fn two_terms(alloc: Global) -> Result<Terms, AllocError> {
    let mut terms = Terms::new(alloc);
    terms.push(Term::Var(4))?;
    terms.push(Term::Fun(Name(1), Vec::new(alloc)))?;
    Ok(terms)
}

#[test]
fn terms_stay_in_order(rt: HostRuntime) {
    assert!(rt; Terms::new(rt.alloc()).is_empty());
    let terms = two_terms(rt.alloc()).expect(&rt, "memory");
    assert!(rt; terms.len() == 2);
    let again = Terms::from_vec(terms.into_vec());
    assert!(rt; matches!(again.as_slice(), [Term::Var(4), Term::Fun(Name(1), _)]));
}
