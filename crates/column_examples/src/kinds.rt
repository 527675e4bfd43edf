//! The kinds of programs' argument positions.

use number_columns::{Kind, Kinds, program_kinds};
use samples::program_of;
use std::alloc::Global;

/// Whether a predicate has these kinds, as a word of `n` for a number and `s` for a size.
fn has_kinds(kinds: &Kinds, pred: usize, word: &str) -> bool {
    if pred >= kinds.len() {
        return false;
    }
    let own = kinds.get(pred).as_slice();
    let letters = word.as_bytes();
    if own.len() != letters.len() {
        return false;
    }
    for i in 0..own.len() {
        if (own[i] == Kind::Number) != (letters[i] == b'n') {
            return false;
        }
    }
    true
}

/// Whether the first predicate of a program has these kinds.
fn first_has(alloc: Global, text: &str, word: &str) -> bool {
    let Some(sample) = program_of(alloc, text) else {
        return false;
    };
    let Ok(kinds) = program_kinds(alloc, &sample.program) else {
        return false;
    };
    has_kinds(&kinds, 0, word)
}

/// A counter, two numbers, a list with its length, an expression with its value, and lists without numbers.
#[test]
fn kinds_of_programs(rt: HostRuntime) {
    let cases: [(&str, &str); 6] = [
        ("count(0). count(N) :- N > 0, M is N-1, count(M).", "n"),
        ("up(I,N) :- I < N, J is I+1, up(J,N). up(N,N).", "nn"),
        ("len([],0). len([_|T],N) :- len(T,M), N is M+1.", "sn"),
        (
            "ev(X+Y,V) :- ev(X,A), ev(Y,B), V is A+B. ev(N,N) :- N =:= N.",
            "nn",
        ),
        ("app([],L,L). app([H|T],L,[H|R]) :- app(T,L,R).", "sss"),
        ("p(X,Y) :- q(X), Y is f(X). q(X) :- q(X).", "sn"),
    ];
    for (text, word) in cases {
        assert!(rt; first_has(rt.alloc(), text, word), "at {text}");
    }
}
