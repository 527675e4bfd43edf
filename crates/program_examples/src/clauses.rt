//! Texts, and the programs, goals and faults that they give.

use crate::reading::repeated;
use clause_normal::{NormFault, NormKind, normal, normal_query};
use cti_terms::{Clause, Goal, Names, PredId, Program};
use prolog_reader::{read_query, read_text};
use std::alloc::{AllocError, Global};
use std::fmt::Write;
use std::test::Fail;

/// The kind and the place of a text's fault.
fn fault(alloc: Global, text: &str) -> Option<(NormKind, u32)> {
    let mut names = Names::new(alloc);
    let text = read_text(alloc, text.as_bytes(), &mut names).ok()?;
    if names.count() > 1_000_000 {
        return None;
    }
    match normal(alloc, &text, &mut names) {
        Err(NormFault::Fault { kind, at }) => Some((kind, at)),
        _ => None,
    }
}

/// Texts, and their faults with their places.
const FAULTS: [(&str, NormKind, u32); 25] = [
    ("X :- a.", NormKind::BadHead, 0),
    ("1.", NormKind::BadHead, 0),
    ("true.", NormKind::BadHead, 0),
    ("a. fail :- a.", NormKind::BadHead, 3),
    ("X = X.", NormKind::BadHead, 0),
    ("X is Y.", NormKind::BadHead, 0),
    ("a. X >= Y :- a.", NormKind::BadHead, 3),
    ("p(X,Y) :- X is Y, X == Y.", NormKind::NotPure, 18),
    ("(a :- b) :- c.", NormKind::BadHead, 0),
    ("'$orx'(a,a,a,a,a,a,a,a,a,a,a,a,a).", NormKind::BadHead, 0),
    ("p(a,b,c,d,e,f,g,h,i,j,k,l,m).", NormKind::Arity, 0),
    ("p(a,b,c,d,e,f,g,h,i,j,k,l,m) :- X.", NormKind::Arity, 0),
    ("p :- q(a,b,c,d,e,f,g,h,i,j,k,l,m), X.", NormKind::Arity, 5),
    (
        "p(f(A,B,C,D,E,F,G,H,I,J,K,L,M)) :- q, ( r(f(A,B,C,D,E,F,G,H,I,J,K,L,M)) ; X ).",
        NormKind::Arity,
        38,
    ),
    ("p :- X.", NormKind::NotPure, 5),
    ("p :- q, 1.", NormKind::NotPure, 8),
    ("append :- call(x).", NormKind::NotPure, 10),
    ("p(X) :- !, q(X).", NormKind::NotPure, 8),
    ("p :- ( q ; r, ( s ; X ) ), 1.", NormKind::NotPure, 20),
    ("p :- '$or1'.", NormKind::NotPure, 5),
    ("p :- (a :- b).", NormKind::NotPure, 5),
    ("a --> b.", NormKind::NotPure, 0),
    (":- use_module(library(lists)).", NormKind::Directive, 0),
    ("a. ?- a.", NormKind::Directive, 3),
    (":- X.", NormKind::Directive, 0),
];

#[test]
fn faults_come_with_the_first_place(rt: HostRuntime) {
    for (text, kind, at) in &FAULTS {
        assert!(rt; fault(rt.alloc(), text) == Some((*kind, *at)), "{text}");
    }
}

/// Texts without a fault.
const FAULTLESS: [&str; 8] = [
    "",
    "p(a,b,c,d,e,f,g,h,i,j,k,l).",
    ":- discontiguous(p/1). :- op(700, xfx, ===). X === X.",
    "?-(a,b). :-(a,b,c). :- . -->(a).",
    "'.'(a) :- call(a,b,c,d,e,f,g,h,i).",
    "p :- true, fail, ( true ; a = b ).",
    "p(X,Y) :- X is Y+1, X =:= Y, X =\\= Y, ( X < Y ; X =< Y ; X > Y ; X >= Y ).",
    "is(X) :- <(X,X,X).",
];

#[test]
fn texts_without_a_fault(rt: HostRuntime) {
    for text in &FAULTLESS {
        assert!(rt; fault(rt.alloc(), text).is_none(), "{text}");
    }
}

/// Whether a text with a number of copies of one part between two others has this fault.
fn is_fault_of_copies(
    alloc: Global,
    before: &str,
    part: &str,
    count: u32,
    after: &str,
    found: Option<(NormKind, u32)>,
) -> Result<bool, AllocError> {
    let text = repeated(alloc, before, part, count, after)?;
    Ok(fault(alloc, text.as_str()) == found)
}

/// Texts with a number of copies of one part between two others, and their faults.
const COPIES: [(&str, &str, u32, &str, Option<(NormKind, u32)>); 6] = [
    ("p(f(_", ",_", 48, ")).", Some((NormKind::ManyVariables, 0))),
    (":- p(f(_", ",_", 48, ")).", Some((NormKind::Directive, 0))),
    ("p(f(_", ",_", 47, ")).", None),
    (
        "",
        "a.\n",
        16_385,
        "",
        Some((NormKind::ManyClauses, 49_152)),
    ),
    (
        "",
        "a.\n",
        16_383,
        "b :- a ; c.",
        Some((NormKind::ManyClauses, 49_149)),
    ),
    ("", "a.\n", 16_384, "", None),
];

#[test]
fn many_variables_and_many_clauses(rt: HostRuntime) {
    for (before, part, count, after, found) in &COPIES {
        assert!(rt;
            matches!(
                is_fault_of_copies(rt.alloc(), before, part, *count, after, *found),
                Ok(true)
            ),
            "{before}{part}{after} {count}"
        );
    }
}

/// Adds a number after a text.
fn add_number(text: &mut String, before: &str, number: u32) -> Result<(), AllocError> {
    write!(text, "{before}{number}")
}

/// Adds the name and the arity of each predicate.
fn add_preds(text: &mut String, names: &Names, program: &Program) -> Result<(), AllocError> {
    for i in 0..program.preds() {
        let pred = program.pred(PredId(i));
        if pred.name.0 < names.count() {
            for byte in names.text(pred.name) {
                text.push(char::from(*byte))?;
            }
        }
        add_number(text, "/", pred.arity)?;
        text.push(' ')?;
    }
    Ok(())
}

/// Adds the number of the head's predicate, those of the body's, and how many variables there are.
fn add_clause(text: &mut String, clause: &Clause) -> Result<(), AllocError> {
    add_number(text, "", clause.head.pred.0)?;
    for atom in clause.body.as_slice() {
        add_number(text, ",", atom.pred.0)?;
    }
    add_number(text, ":", clause.vars)?;
    text.push(' ')
}

/// Adds the predicates and the clauses of a program.
fn add_program(text: &mut String, names: &Names, program: &Program) -> Result<(), AllocError> {
    add_preds(text, names, program)?;
    for k in 0..program.clauses() {
        add_clause(text, program.clause(k + 1))?;
    }
    Ok(())
}

/// The predicates and the clauses of a text's program.
fn program_of(alloc: Global, text: &str) -> Option<String> {
    let mut spelled = String::new(alloc);
    let mut names = Names::new(alloc);
    let read = read_text(alloc, text.as_bytes(), &mut names).ok()?;
    if names.count() > 1_000_000 {
        return None;
    }
    let program = normal(alloc, &read, &mut names).ok()?;
    add_program(&mut spelled, &names, &program).ok()?;
    Some(spelled)
}

/// Whether a text has a program of these predicates and clauses.
fn is_program(alloc: Global, text: &str, wanted: &str) -> Option<bool> {
    let spelled = program_of(alloc, text)?;
    Some(spelled.as_str() == wanted)
}

/// Texts, and what is spelled of their programs.
const PROGRAMS: [(&str, &str); 7] = [
    ("", ""),
    ("r :- p, q. p :- p. q.", "r/0 p/0 q/0 0,1,2:0 1,1:0 2:0 "),
    ("p(X) :- q(Y), r(X,Y), true.", "p/1 q/1 r/2 0,1,2:2 "),
    (
        "mem(X,[Y|T]) :- ( X = Y ; mem(X,T) ).",
        "mem/2 $or1/3 =/2 0,1:3 1,2:3 1,0:3 2:1 ",
    ),
    (
        "len([],0). len([_|T],N) :- len(T,M), N is M+1, M < N.",
        "len/2 is/2 </2 0:0 0,0,1,2:4 ",
    ),
    (
        "p(X) :- ( q(X,Y) ; r(Z) ), fail.",
        "p/1 $or1/1 fail/0 q/2 r/1 0,1,2:1 1,3:2 1,4:2 ",
    ),
    (
        "p :- (a ; b, (c ; d, (e ; f))), (g ; h, (i ; j)).",
        "p/0 $or1/0 $or2/0 a/0 b/0 $or3/0 c/0 d/0 $or4/0 e/0 f/0 g/0 h/0 $or5/0 i/0 j/0 \
0,1,2:0 1,3:0 1,4,5:0 5,6:0 5,7,8:0 8,9:0 8,10:0 2,11:0 2,12,13:0 13,14:0 13,15:0 ",
    ),
];

#[test]
fn programs_of_texts(rt: HostRuntime) {
    for (text, wanted) in &PROGRAMS {
        assert!(rt;
            matches!(is_program(rt.alloc(), text, wanted), Some(true)),
            "{text}"
        );
    }
}

/// Adds the number of each atom's predicate, and how many variables there are.
fn add_goal(text: &mut String, goal: &Goal) -> Result<(), AllocError> {
    for atom in goal.atoms.as_slice() {
        add_number(text, ",", atom.pred.0)?;
    }
    add_number(text, ":", goal.fresh)
}

/// A query's goal and the program that has what it needs, or the query's fault and how many predicates there are.
fn spelled_goal(
    alloc: Global,
    found: Result<Goal, NormFault>,
    names: &Names,
    program: &Program,
) -> Result<String, AllocError> {
    let goal = match found {
        Ok(goal) => goal,
        Err(fault) => return format!(in alloc; "{fault:?} {}", program.preds()),
    };
    let mut spelled = String::new(alloc);
    add_program(&mut spelled, names, program)?;
    add_goal(&mut spelled, &goal)?;
    Ok(spelled)
}

/// What a query of the empty program gives.
fn query_of(alloc: Global, text: &str) -> Result<String, Fail> {
    let mut names = Names::new(alloc);
    let read = read_text(alloc, b"", &mut names)?;
    if names.count() > 1_000_000 {
        return Ok(String::new(alloc));
    }
    let mut program = normal(alloc, &read, &mut names)?;
    if names.count() > 1_000_000 || program.preds() > 0 || program.clauses() > 0 {
        return Ok(String::new(alloc));
    }
    let query = read_query(alloc, text.as_bytes(), &mut names, &read.ops)?;
    if names.count() > 1_000_000 {
        return Ok(String::new(alloc));
    }
    let found = normal_query(alloc, &query, &mut names, &mut program);
    Ok(spelled_goal(alloc, found, &names, &program)?)
}

/// Queries, and what is spelled of their goals.
const GOALS: [(&str, &str); 8] = [
    ("true.", ":0"),
    ("app(X,Y,[a]).", "app/3 ,0:2"),
    ("p(X), true, (q(Y,X), fail).", "p/1 q/2 fail/0 ,0,1,2:2"),
    ("p, X = Y, X = a.", "p/0 =/2 1:1 ,0,1,1:2"),
    ("X is 1+2, X > 2, X is 3.", "is/2 >/2 ,0,1,0:1"),
    ("p, (q ; r), X.", "Fault { kind: NotPure, at: 3 } 0"),
    ("p, X, !.", "Fault { kind: NotPure, at: 3 } 0"),
    (
        "p(a,b,c,d,e,f,g,h,i,j,k,l,m), X.",
        "Fault { kind: Arity, at: 0 } 0",
    ),
];

#[test]
fn goals_of_queries(rt: HostRuntime) -> Result<(), Fail> {
    for (text, wanted) in &GOALS {
        let spelled = query_of(rt.alloc(), text)?;
        assert!(rt; spelled.as_str() == *wanted, "{text}");
    }
    Ok(())
}
