//! The text of a program of the given number of predicates, for trying the analysis at any size.

ghost use Rattle.std.specs.Prelude.{◌≡◌, ◌<◌, ◌≤◌, ◌++◌, IfOk, OnOk, length};
ghost use Rattle.report.specs.Generated.{named, appends, reverses, reverses_more, repeats, predicate, generated};

use itoa::Buffer;
use std::alloc::{AllocError, Global};

/// Appends the name of predicate `k`, and what follows it.
#[tactic(auto, unfolding(crate::specs::Generated::named))]
fn push_named(text: &mut Vec<u8>, k: u32, rest: &[u8]) -> Result<(), AllocError>
    ensures { OnOk result (text.new.items ≡ text.old.items ++ named k rest.now) }
{
    text.extend_from_slice(b"p")?;
    text.extend_from_slice(Buffer::new().format(k).as_bytes())?;
    text.extend_from_slice(rest)
}

/// Appends the clauses of a predicate that appends two lists.
fn push_appends(text: &mut Vec<u8>, k: u32) -> Result<(), AllocError>
    ensures { OnOk result (text.new.items ≡ text.old.items ++ appends k) }
{
    push_named(text, k, b"([],L,L).\n")?;
    push_named(text, k, b"([H|T],L,[H|R]) :- ")?;
    push_named(text, k, b"(T,L,R).\n")
}

/// Appends the clause of a predicate that reverses a list that is not empty.
fn push_reverses_more(text: &mut Vec<u8>, k: u32) -> Result<(), AllocError>
    requires { 1 ≤ k }
    ensures { OnOk result (text.new.items ≡ text.old.items ++ reverses_more k) }
{
    push_named(text, k, b"([H|T],R) :- ")?;
    push_named(text, k, b"(T,S), ")?;
    push_named(text, k - 1, b"(S,[H],R).\n")
}

/// Appends the clauses of a predicate that reverses a list.
fn push_reverses(text: &mut Vec<u8>, k: u32) -> Result<(), AllocError>
    requires { 1 ≤ k }
    ensures { OnOk result (text.new.items ≡ text.old.items ++ reverses k) }
{
    push_named(text, k, b"([],[]).\n")?;
    push_reverses_more(text, k)
}

/// Appends the clause of a predicate that does twice what the one before does.
fn push_repeats(text: &mut Vec<u8>, k: u32) -> Result<(), AllocError>
    requires { 1 ≤ k }
    ensures { OnOk result (text.new.items ≡ text.old.items ++ repeats k) }
{
    push_named(text, k, b"(X,Y) :- ")?;
    push_named(text, k - 1, b"(X,Z), ")?;
    push_named(text, k - 1, b"(Z,Y).\n")
}

/// Appends the clauses of predicate `k`, a line for each.
fn push_predicate(text: &mut Vec<u8>, k: u32) -> Result<(), AllocError>
    requires { 1 ≤ k }
    ensures { OnOk result (text.new.items ≡ text.old.items ++ predicate k) }
{
    match k % 3 {
        1 => push_appends(text, k),
        2 => push_reverses(text, k),
        _ => push_repeats(text, k),
    }
}

/// The text of a program of `n` predicates, from 1 to 300: of each three, one that appends lists, one that reverses a
/// list by the one before, and one that reverses it twice.
#[tactic(auto, using(crate::proofs::GeneratedLaws::generated_short))]
pub fn gen_source(alloc: Global, n: u32) -> Result<Vec<u8>, AllocError>
    requires some { 1 ≤ n }
    requires few { n ≤ 300 }
    ensures text { IfOk result (λ text. text.items ≡ generated n) }
    ensures short { IfOk result (λ text. length text.items ≤ 1048576) }
{
    let mut text = Vec::new(alloc);
    for k in 0..n {
        push_predicate(&mut text, k + 1)?;
    }
    Ok(text)
}
