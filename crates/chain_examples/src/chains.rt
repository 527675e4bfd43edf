//! Chains of worked programs.

use call_components::components;
use cti_terms::PredId;
use linear_rows::Rows;
use numeric_model::{Chain, How, solve};
use polyhedra::Poly;
use samples::program_of;
use std::alloc::{AllocError, Global};
use std::test::Fail;
use term_size::TermSize;

const APPEND: &str = "app([],L,L). app([H|T],L,[H|R]) :- app(T,L,R).";

const PART: &str = "part(_,[],[],[]). part(P,[X|Xs],[X|L],G) :- leq(X,P), part(P,Xs,L,G).
    part(P,[X|Xs],L,[X|G]) :- leq(P,X), part(P,Xs,L,G). leq(0,_). leq(s(X),s(Y)) :- leq(X,Y).";

const DOUBLING: &str = "q0(X,f(X,X)). q1(X,Z) :- q0(X,Y), q0(Y,Z). q2(X,Z) :- q1(X,Y), q1(Y,Z).
    q3(X,Z) :- q2(X,Y), q2(Y,Z). q4(X,Z) :- q3(X,Y), q3(Y,Z). q5(X,Z) :- q4(X,Y), q4(Y,Z).
    q6(X,Z) :- q5(X,Y), q5(Y,Z). q7(X,Z) :- q6(X,Y), q6(Y,Z).";

const ACKERMANN: &str = "ack(0,N,s(N)). ack(s(M),0,R) :- ack(M,s(0),R).
    ack(s(M),s(N),R) :- ack(s(M),N,P), ack(M,P,R).";

const TWO_TO_64: i128 = 18_446_744_073_709_551_616;

/// What rows of a predicate and which steps a chain has.
struct Outcome {
    hows: Vec<How>,
    weak_images: usize,
    weak_steps: usize,
    numbers: Vec<i128>,
}

impl Drop for Outcome {
    fn drop(self) {
        let Outcome {
            hows: _,
            weak_images: _,
            weak_steps: _,
            numbers: _,
        } = self;
    }
}

/// The numbers of rows, row by row, the constants first.
fn numbers(alloc: Global, rows: &Rows) -> Result<Vec<i128>, AllocError> {
    let mut numbers = Vec::new(alloc);
    for row in rows.list.as_slice() {
        numbers.push(row.constant)?;
        numbers.extend_from_slice(row.coeffs.as_slice())?;
    }
    Ok(numbers)
}

/// What each step did, in order.
fn hows(alloc: Global, chain: &Chain) -> Result<Vec<How>, AllocError> {
    let mut hows = Vec::new(alloc);
    for step in chain.steps.as_slice() {
        hows.push(step.how)?;
    }
    Ok(hows)
}

/// The chain of a program, with the rows of one of its predicates.
fn seen(alloc: Global, text: &str, pred: u32) -> Result<Outcome, Fail> {
    let sample = program_of(alloc, text).ok_or("no program")?;
    let comps = components(alloc, &sample.program)?;
    let chain = solve::<Poly, TermSize>(alloc, &sample.program, &comps, &TermSize)?;
    let steps = chain.steps.as_slice();
    Ok(Outcome {
        hows: hows(alloc, &chain)?,
        weak_images: steps.iter().filter(|step| step.image_weak).count(),
        weak_steps: steps.iter().filter(|step| step.step_weak).count(),
        numbers: if (pred as usize) < chain.sizes.rows.len() {
            numbers(alloc, chain.sizes.rows.get(pred as usize))?
        } else {
            Vec::new(alloc)
        },
    })
}

/// Append has x1 + x2 = x3, by a chain of four steps.
#[test]
fn append(rt: HostRuntime) -> Result<(), Fail> {
    let seen = seen(rt.alloc(), APPEND, 0)?;
    let wanted = [How::First, How::Join, How::Same, How::Same];
    assert!(rt; seen.hows.as_slice() == wanted.as_slice());
    Ok(())
}

/// The rows of a predicate, by its number, and how many images are weak. `part` keeps x2 = x3 + x4. The last predicate
/// of the doubling chain has no rows, since both images of its clause are weak.
#[test]
fn rows_of_predicates(rt: HostRuntime) -> Result<(), Fail> {
    for (text, pred, weak, wanted) in [
        (APPEND, 0, 0, [0, -1, -1, 1, 0, 1, 1, -1].as_slice()),
        (PART, 0, 0, [0, 0, -1, 1, 1, 0, 0, 1, -1, -1].as_slice()),
        (
            DOUBLING,
            6,
            2,
            [1 - TWO_TO_64, -TWO_TO_64, 1, TWO_TO_64 - 1, TWO_TO_64, -1].as_slice(),
        ),
        (DOUBLING, 7, 2, [].as_slice()),
        (ACKERMANN, 0, 0, [-1, -1, -1, 1].as_slice()),
    ] {
        let seen = seen(rt.alloc(), text, pred)?;
        assert_eq!(rt;
            (seen.weak_images, seen.numbers.as_slice()),
            (weak, wanted),
            "{text}"
        );
    }
    Ok(())
}

/// No step of these is weak.
#[test]
fn strong_steps(rt: HostRuntime) -> Result<(), Fail> {
    for text in [APPEND, PART] {
        let seen = seen(rt.alloc(), text, 0)?;
        assert_eq!(rt; seen.weak_steps, 0, "{text}");
    }
    Ok(())
}
