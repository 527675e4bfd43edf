//! Certificates of lists of mappings, with ample memory.

use lex_certificate::{LexCertificate, LexFact};
use lex_checker::check;
use lex_measures::infer;
use samples::program_of;
use sequences::Sequence;
use std::alloc::Global;
use std::mem;
use std::test::Fail;

const ACKERMANN: &str =
    "ack(0,N,s(N)). ack(s(M),0,R) :- ack(M,s(0),R). ack(s(M),s(N),R) :- ack(s(M),N,S), ack(M,S,R).";

/// Whether a fact is a level; its coefficients are exchanged for these. The offsets of both are 0.
fn exchange(fact: &mut LexFact, coefficients: &mut Sequence<i128>) -> bool {
    match fact {
        LexFact::Level { coeffs, .. } => {
            mem::swap(coeffs, coefficients);
            true
        }
        _ => false,
    }
}

/// Gives each level the coefficients of the one before it, and the first one those of the last.
fn rotate(alloc: Global, facts: &mut [LexFact]) {
    let mut coefficients = Sequence::new(alloc);
    for fact in facts.iter_mut() {
        exchange(fact, &mut coefficients);
    }
    for fact in facts.iter_mut() {
        if exchange(fact, &mut coefficients) {
            return;
        }
    }
}

/// The two mappings of Ackermann's function, in the other order: the one of the second argument rises at a call.
#[test]
fn exchanged_mappings_are_refused(rt: HostRuntime) -> Result<(), Fail> {
    let alloc = rt.alloc();
    let sample = program_of(alloc, ACKERMANN).expect(&rt, "a program");
    let found = infer(alloc, &sample.program, &sample.names)?;
    assert_eq!(rt; check(alloc, &sample.program, &sample.names, &found)?, true);
    let mut facts = found.facts.into_vec();
    rotate(alloc, facts.as_mut_slice());
    let changed = LexCertificate {
        facts: Sequence::from_vec(facts),
    };
    assert_eq!(rt;
        check(alloc, &sample.program, &sample.names, &changed)?,
        false
    );
    Ok(())
}
