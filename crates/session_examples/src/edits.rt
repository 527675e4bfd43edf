//! Programs whose clauses come and go, with ample memory.
//!
//! The modes are those that the definitions give, and the certificate is that of the program where it is read anew.

use crate::desk::{Desk, Step};
use clause_normal::NormKind;
use cti_session::EditFault;
use report::infer;
use samples::program_of;
use std::alloc::Global;
use std::test::Fail;
use term_size::NormName;

/// A list library: three clauses of 33 nodes, in 87 bytes.
const LIBRARY: &str =
    "app([],L,L). app([H|T],L,[H|R]) :- app(T,L,R). rev([H|T],R) :- rev(T,S), app(S,[H],R). ";

/// The modes of the library.
const MODES: &str = "terminates(app/3,[[1],[3]]).\nterminates(rev/2,[[1]]).\n";

/// The first clause of the library, the second one, and what is left without that.
const FIRST: &str = "app([],L,L). ";

const SECOND: &str = "app([H|T],L,[H|R]) :- app(T,L,R). ";

const OTHERS: &str = "app([],L,L). rev([H|T],R) :- rev(T,S), app(S,[H],R).";

/// A clause of 49 variables.
const MANY: &str =
    "p(f(_,_,_,_,_,_,_,_,_,_,_,_,_,_,_,_,_,_,_,_,_,_,_,_,_,_,_,_,_,_,_,_,_,_,_,_,_,_,_,_,_,_,_,_,_,_,_,_,_)).";

/// The certificate of a program that is read anew.
fn anew(alloc: Global, program: &str) -> Result<Vec<u8>, Fail> {
    let sample = program_of(alloc, program).ok_or("no program")?;
    let certificate = infer(alloc, &sample.program, &sample.names, NormName::Term)?;
    Ok(certificate.print(alloc)?)
}

/// Whether a session has the certificate of this program where it is read anew, and these modes.
fn stands(alloc: Global, desk: &Desk, program: &str, modes: &str) -> Result<bool, Fail> {
    let certificate = anew(alloc, program)?;
    Ok(desk.certificate(alloc)? == certificate && desk.modes(alloc)?.as_slice() == modes.as_bytes())
}

/// A session with the first clauses of a text, this many.
fn after(alloc: Global, text: &str, count: u32) -> Result<Desk, Fail> {
    let mut desk = Desk::of(alloc, text)?;
    for _ in 0..count {
        if desk.play(Step::Add) != Some(Ok(())) {
            return Err(Fail::new("a clause is not added"));
        }
    }
    Ok(desk)
}

/// An edit, with its outcome, and the program and its modes after it.
type Row<'a> = (Step, Result<(), EditFault>, &'a str, &'a str);

/// Does edits, each with its outcome; at last there are so many clauses and nodes.
fn play(alloc: Global, desk: &mut Desk, rows: &[Row<'_>], size: (u32, u32)) -> Result<(), Fail> {
    for (step, outcome, program, modes) in rows {
        if desk.play(*step) != Some(*outcome) || !stands(alloc, desk, program, modes)? {
            return Err(Fail::new(format_args!("not so: {program}")));
        }
    }
    if desk.size() != size {
        return Err(Fail::new("another size"));
    }
    Ok(())
}

/// Does edits in a session with the first clauses of a text, this many; at last there are so many clauses and nodes.
fn plays(
    alloc: Global,
    text: &str,
    count: u32,
    rows: &[Row<'_>],
    size: (u32, u32),
) -> Result<(), Fail> {
    let mut desk = after(alloc, text, count)?;
    play(alloc, &mut desk, rows, size)
}

/// The library, behind its first clause and before its second one, fifty times.
fn growing(alloc: Global) -> Result<String, Fail> {
    let mut text = format!(in alloc; "{FIRST}{LIBRARY}")?;
    for _ in 0..50 {
        text.push_str(SECOND)?;
    }
    Ok(text)
}

/// A list library grows.
fn grow(alloc: Global, desk: &mut Desk) -> Result<(), Fail> {
    let append = "app([],L,L). app([H|T],L,[H|R]) :- app(T,L,R).";
    let growth = [
        (Step::Add, Ok(()), FIRST, "terminates(app/3,[[]]).\n"),
        (Step::Remove(1), Ok(()), "", ""),
        (Step::Add, Ok(()), FIRST, "terminates(app/3,[[]]).\n"),
        (Step::Add, Ok(()), append, "terminates(app/3,[[1],[3]]).\n"),
        (Step::Add, Ok(()), LIBRARY, MODES),
    ];
    play(alloc, desk, growth.as_slice(), (3, 33))
}

/// The library's second clause goes, and comes back in its place.
fn go_and_come(alloc: Global, desk: &mut Desk) -> Result<(), Fail> {
    let less = "terminates(app/3,[[]]).\nterminates(rev/2,[[1]]).\n";
    let round = [
        (Step::Remove(2), Ok(()), OTHERS, less),
        (Step::Insert(2), Ok(()), LIBRARY, MODES),
    ];
    play(alloc, desk, round.as_slice(), (3, 33))
}

/// A list library grows. Then its second clause goes, and comes back in its place, fifty times.
#[test]
fn a_list_library(rt: HostRuntime) -> Result<(), Fail> {
    let alloc = rt.alloc();
    let text = growing(alloc)?;
    let mut desk = after(alloc, text.as_str(), 0)?;
    grow(alloc, &mut desk)?;
    for _ in 0..50 {
        go_and_come(alloc, &mut desk)?;
    }
    Ok(())
}

/// A program loses its first clause, and then it is these others, with these modes.
fn without_first(
    alloc: Global,
    first: &str,
    others: &str,
    modes: &str,
    size: (u32, u32),
) -> Result<(), Fail> {
    let text = format!(in alloc; "{first}{others}")?;
    let rows = [(Step::Remove(1), Ok(()), others, modes)];
    plays(alloc, text.as_str(), 5, rows.as_slice(), size)
}

/// Without the first clause `p` stands before `q`. In the second program the two mappings change their places with
/// them.
#[test]
fn predicates_change_their_order(rt: HostRuntime) -> Result<(), Fail> {
    let alloc = rt.alloc();
    without_first(
        alloc,
        "r(X) :- q(X), p(X). ",
        "p(s(X)) :- q(X). q(s(X)) :- p(X). p(0). q(0). ",
        "terminates(p/1,[[1]]).\nterminates(q/1,[[1]]).\n",
        (4, 16),
    )?;
    without_first(
        alloc,
        "r(X,Y) :- q(X,Y), p(X,Y). ",
        "p(s(X),s(Y)) :- q(Y,X). q(s(X),s(Y)) :- p(Y,X). p(0,_). q(0,_). ",
        "terminates(p/2,[[1],[2]]).\nterminates(q/2,[[1],[2]]).\n",
        (4, 24),
    )
}

/// A clause after the library has this fault, and is refused, wherever it is to stand.
fn is_refused(alloc: Global, clause: &str, kind: NormKind, at: u32) -> Result<(), Fail> {
    let text = format!(in alloc; "{LIBRARY}{clause}")?;
    let fault = EditFault::Norm { kind, at };
    for step in [Step::Add, Step::Insert(1)] {
        let rows = [(step, Err(fault), LIBRARY, MODES)];
        plays(alloc, text.as_str(), 3, rows.as_slice(), (3, 33))?;
    }
    Ok(())
}

/// A clause with a fault is refused. Its place counts from the first byte of the text.
#[test]
fn clauses_with_faults(rt: HostRuntime) -> Result<(), Fail> {
    let alloc = rt.alloc();
    for (clause, kind, at) in [
        ("p(a,b,c,d,e,f,g,h,i,j,k,l,m).", NormKind::Arity, 87),
        (MANY, NormKind::ManyVariables, 87),
        ("p(X) :- !, q(X).", NormKind::NotPure, 95),
        ("p :- q, (q ; r).", NormKind::NotPure, 95),
        ("app(X,Y,Z) :- app(X,Y,Z), 1.", NormKind::NotPure, 113),
        ("true :- p.", NormKind::BadHead, 87),
        (":- discontiguous(p/1).", NormKind::Directive, 87),
    ] {
        is_refused(alloc, clause, kind, at)?;
    }
    Ok(())
}

/// All the clauses that are left are added in one edit, however many stand there; then there are none, and nothing
/// changes.
#[test]
fn clauses_in_one_edit(rt: HostRuntime) -> Result<(), Fail> {
    let alloc = rt.alloc();
    let whole = (Step::Extend, Ok(()), LIBRARY, MODES);
    for count in 0..4 {
        plays(alloc, LIBRARY, count, [whole, whole].as_slice(), (3, 33))?;
    }
    Ok(())
}

/// Clauses of which one has this fault are not added in one edit.
fn are_refused(alloc: Global, more: &str, kind: NormKind, at: u32) -> Result<(), Fail> {
    let text = format!(in alloc; "{LIBRARY}{more}")?;
    let fault = EditFault::Norm { kind, at };
    let rows = [(Step::Extend, Err(fault), FIRST, "terminates(app/3,[[]]).\n")];
    plays(alloc, text.as_str(), 1, rows.as_slice(), (1, 4))
}

/// Where one of them has a fault none is added, and the first fault is told.
#[test]
fn clauses_in_one_edit_with_faults(rt: HostRuntime) -> Result<(), Fail> {
    let alloc = rt.alloc();
    are_refused(alloc, "p(X) :- !, q(X).", NormKind::NotPure, 95)?;
    are_refused(alloc, "p(a). true :- p.", NormKind::BadHead, 93)?;
    are_refused(
        alloc,
        "true :- p. :- discontiguous(p/1). p(X) :- !.",
        NormKind::BadHead,
        87,
    )
}
