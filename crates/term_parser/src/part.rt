//! Terms under way, and how they are built.

ghost use Rattle.std.specs.Prelude.{◌≡◌, ◌∷◌, [], map, pos, IfOk};
ghost use Rattle.prolog_grammar.specs.Syntax.{greater};
ghost use Rattle.prolog_grammar.specs.Token.{text};
ghost use Rattle.prolog_grammar.specs.Placed.{Int as PlainInt, single_at, deeper, named_at, chain, nil_at, row_of, depth_of, value_at};
ghost use Rattle.prolog_terms.specs.Clauses.{row};
ghost use Rattle.prolog_terms.specs.Terms.{tree_of, shape_of};
ghost use Rattle.term_parser.specs.Views.{part_view, known_of};

use crate::limits::MOST_OPENERS;
use cti_terms::Name;
use prolog_terms::{Known, ReadShape, ReadTerm};
use std::alloc::{AllocError, Global};

/// A term and how deep it is, counted up to the limit: 1 for a name, a variable or an integer.
#[derive(Drop)]
pub struct Part {
    pub term: ReadTerm,
    pub depth: u32,
}

/// The greater of two numbers.
fn greater(a: u32, b: u32) -> u32
    ensures { result ≡ greater a b }
{
    if a <= b { b } else { a }
}

/// One level more, counted up to the limit.
fn deeper(depth: u32) -> u32
    ensures { result ≡ deeper 1000 depth }
{
    if MOST_OPENERS <= depth {
        MOST_OPENERS
    } else {
        depth + 1
    }
}

/// A variable or an integer.
pub fn single(at: u32, shape: ReadShape) -> Part
    ensures { part_view result ≡ single_at 1000 at (shape_of shape) }
{
    Part {
        term: ReadTerm { at, shape },
        depth: 1,
    }
}

/// A name without arguments.
pub fn atom(alloc: Global, at: u32, name: Name) -> Part
    ensures { part_view result ≡ named_at 1000 at name.0 [] }
{
    Part {
        term: ReadTerm {
            at,
            shape: ReadShape::Fun(name, Vec::new(alloc)),
        },
        depth: 1,
    }
}

/// A name with one argument.
pub fn unary(alloc: Global, at: u32, name: Name, inner: Part) -> Result<Part, AllocError>
    ensures { IfOk result (λ p. part_view p ≡ named_at 1000 at name.0 (part_view inner ∷ [])) }
{
    let depth = deeper(inner.depth);
    let mut terms = Vec::with_capacity(alloc, 1)?;
    terms.push(inner.term)?;
    Ok(Part {
        term: ReadTerm {
            at,
            shape: ReadShape::Fun(name, terms),
        },
        depth,
    })
}

/// A name with two arguments.
pub fn pair(alloc: Global, at: u32, name: Name, left: Part, right: Part) -> Result<Part, AllocError>
    ensures { IfOk result (λ p. part_view p ≡ named_at 1000 at name.0
        (part_view left ∷ part_view right ∷ [])) }
{
    let depth = deeper(greater(left.depth, right.depth));
    let mut terms = Vec::with_capacity(alloc, 2)?;
    terms.push(left.term)?;
    terms.push(right.term)?;
    Ok(Part {
        term: ReadTerm {
            at,
            shape: ReadShape::Fun(name, terms),
        },
        depth,
    })
}

/// Cells with these elements and a last tail, all at one place.
#[tactic(auto, using(crate::proofs::MachineLemmas::chain_push, crate::proofs::MachineLemmas::parts_push))]
pub fn chain(
    alloc: Global,
    names: Known,
    at: u32,
    parts: Vec<Part>,
    tail: Part,
) -> Result<Part, AllocError>
    ensures { IfOk result (λ p. part_view p ≡ chain 1000 (known_of names) at
        (map part_view parts.items) (part_view tail)) }
{
    let mut parts = parts;
    let mut tail = tail;
    'cells: while let Some(part) = parts.pop() {
        tail = pair(alloc, at, names.cell, part, tail)?;
    }
    Ok(tail)
}

/// The list of a text's character codes.
#[tactic(auto, using(crate::proofs::MachineLemmas::parts_push))]
pub fn text(alloc: Global, names: Known, at: u32, codes: &[char]) -> Result<Part, AllocError>
    ensures { IfOk result (λ p. part_view p ≡ value_at 1000 (known_of names) at (text codes.now)) }
{
    let mut parts = Vec::new(alloc);
    'codes: for code in codes {
        parts.push(single(at, ReadShape::Int(*code as u32 as i128)))?;
    }
    let nil = atom(alloc, at, names.nil);
    chain(alloc, names, at, parts, nil)
}

/// A name with arguments.
pub fn compound(alloc: Global, at: u32, name: Name, parts: Vec<Part>) -> Result<Part, AllocError>
    ensures { IfOk result (λ p. part_view p ≡ named_at 1000 at name.0 (map part_view parts.items)) }
{
    let (terms, depth) = arguments(alloc, parts)?;
    Ok(Part {
        term: ReadTerm {
            at,
            shape: ReadShape::Fun(name, terms),
        },
        depth: deeper(depth),
    })
}

/// The arguments' terms, and how deep the deepest is.
#[tactic(auto, using(crate::proofs::MachineLemmas::onto_push, crate::proofs::MachineLemmas::depth_push, crate::proofs::MachineLemmas::parts_push, crate::proofs::MachineLemmas::back_push, crate::proofs::MachineLemmas::trees_reverse, crate::proofs::MachineLemmas::row_is_onto, crate::proofs::MachineLemmas::depth_is_onto))]
fn arguments(alloc: Global, parts: Vec<Part>) -> Result<(Vec<ReadTerm>, u32), AllocError>
    ensures terms { IfOk result
        (λ r. row (map tree_of r.0.items) ≡ row_of (map part_view parts.items)) }
    ensures depth { IfOk result (λ r. r.1 ≡ depth_of (map part_view parts.items)) }
{
    let mut parts = parts;
    let mut depth = 0;
    let mut terms = Vec::with_capacity(alloc, parts.len())?;
    'arguments: while let Some(part) = parts.pop() {
        depth = greater(part.depth, depth);
        terms.push(part.term)?;
    }
    terms.reverse();
    Ok((terms, depth))
}
