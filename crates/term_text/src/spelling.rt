//! Terms as they are spelled.

ghost use Rattle.std.specs.Prelude.{◌≡◌, ◌≤◌, ◌<◌, ◌+◌, ◌*◌, ◌-◌, List, ℕ, [], ◌∷◌, ◌++◌, ◌==◌, ◌&&◌, false, true, max, length, decimal, MatchOption, OnOk};
ghost use Rattle.std.specs.Fmt.{signed_decimal};
ghost use Rattle.cti_terms.specs.Tree.{all_nodes, nodes_of};
ghost use Rattle.cti_terms.specs.Spell.{tree_of, trees_of};
ghost use Rattle.term_text.specs.Spelling.{name_of, is_dot, no_list, functional, compound, all_spelled, spelled, other_arguments};
ghost use Rattle.term_text.specs.Left.{part_text, left_text, part_work, left_work};

use crate::part::Part;
use cti_terms::{Name, Names, Term};
use itoa::Buffer;
use prolog_tokens::{is_empty_list, quote};
use std::alloc::AllocError;

/// The text of a name, which is empty for a number that the names do not have.
#[tactic(auto, using(std::proofs::lemmas::Option::get_or_from_slice_get))]
pub fn name_text(names: &Names, name: Name) -> &[u8]
    ensures { result.now ≡ name_of names.now name.0 }
{
    if name.0 < names.count() {
        names.text(name)
    } else {
        b""
    }
}

/// Whether a name is that of a list's cell.
fn is_dot(name: &[u8]) -> bool
    ensures { result ≡ is_dot name.now }
{
    match name {
        [byte] => *byte == b'.',
        _ => false,
    }
}

/// Appends a number.
pub fn push_number(number: u64, out: &mut Vec<u8>) -> Result<(), AllocError>
    ensures { OnOk result (out.new.items ≡ out.old.items ++ decimal number) }
{
    out.extend_from_slice(Buffer::new().format(number).as_bytes())
}

/// Appends an integer.
fn push_integer(number: i128, out: &mut Vec<u8>) -> Result<(), AllocError>
    ensures { OnOk result (out.new.items ≡ out.old.items ++ signed_decimal number) }
{
    out.extend_from_slice(Buffer::new().format(number).as_bytes())
}

/// Puts two parts on the stack, of which the first is written first.
fn push_both<'t>(
    first: Part<'t>,
    second: Part<'t>,
    stack: &mut Vec<Part<'t>>,
) -> Result<(), AllocError>
    ensures text { OnOk result ((names : List (List ℕ))
        → left_text names stack.new.items ≡ part_text names first.entry
        ++ part_text names second.entry ++ left_text names stack.old.items) }
    ensures work { OnOk result
        (left_work stack.new.items
        ≡ part_work first.entry + part_work second.entry + left_work stack.old.items) }
{
    stack.push(second)?;
    stack.push(first)?;
    Ok(())
}

/// Begins a list's cell, where a comma or a bracket stands before its first element.
fn begin_cell<'t>(
    before: u8,
    head: &'t Term,
    tail: &'t Term,
    stack: &mut Vec<Part<'t>>,
    out: &mut Vec<u8>,
) -> Result<(), AllocError>
    ensures text { OnOk result ((names : List (List ℕ))
        → out.new.items ++ left_text names stack.new.items ≡ out.old.items
        ++ (before ∷ (spelled names (tree_of head.now)).alone
        ++ (spelled names (tree_of tail.now)).as_tail) ++ left_text names stack.old.items) }
    ensures work { OnOk result
        (left_work stack.new.items
        ≡ 3 * (nodes_of (tree_of head.now) + nodes_of
        (tree_of tail.now)) + left_work stack.old.items) }
{
    out.push(before)?;
    push_both(Part::Alone(head), Part::Tail(tail), stack)?;
    Ok(())
}

/// Begins a name with arguments in parentheses.
fn begin_functional<'t>(
    name: &[u8],
    first: &'t Term,
    others: &'t [Term],
    stack: &mut Vec<Part<'t>>,
    out: &mut Vec<u8>,
) -> Result<(), AllocError>
    ensures text { OnOk result ((names : List (List ℕ))
        → out.new.items ++ left_text names stack.new.items ≡ out.old.items
        ++ (functional name.now (spelled names (tree_of first.now))
        (all_spelled names (trees_of others.now))).alone
        ++ left_text names stack.old.items) }
    ensures work { OnOk result
        (left_work stack.new.items
        ≡ 3 * (nodes_of (tree_of first.now) + all_nodes
        (trees_of others.now)) + left_work stack.old.items) }
{
    quote(name, out)?;
    out.push(b'(')?;
    push_both(Part::Alone(first), Part::Arguments(others), stack)?;
    Ok(())
}

/// The head and the tail of a list, where a name has these arguments.
fn cell_of<'t>(name: &[u8], args: &'t [Term]) -> Option<(&'t Term, &'t Term)>
    ensures { MatchOption result ((length args.now == 2 && is_dot name.now) ≡ false)
        (λ p. (args.now ≡ p.0.now ∷ p.1.now ∷ []) × (is_dot name.now ≡ true)) }
{
    match args {
        [head, tail] if is_dot(name) => Some((head, tail)),
        _ => None,
    }
}

/// The first of some arguments, and the others.
fn first_and_others(args: &[Term]) -> Option<(&Term, &[Term])>
    ensures { MatchOption result (args.now ≡ []) (λ p. args.now ≡ p.0.now ∷ p.1.now) }
{
    args.split_first()
}

/// Begins a name with arguments.
#[tactic(auto, using(crate::proofs::SpellingLemmas::arguments_in_parentheses))]
pub fn begin_compound<'t>(
    name: &[u8],
    args: &'t [Term],
    stack: &mut Vec<Part<'t>>,
    out: &mut Vec<u8>,
) -> Result<(), AllocError>
    ensures text { OnOk result ((names : List (List ℕ))
        → out.new.items ++ left_text names stack.new.items ≡ out.old.items
        ++ (compound name.now (all_spelled names (trees_of args.now))).alone
        ++ left_text names stack.old.items) }
    ensures work { OnOk result
        (left_work stack.new.items
        ≤ 3 * all_nodes (trees_of args.now) + left_work stack.old.items) }
{
    if let Some((head, tail)) = cell_of(name, args) {
        return begin_cell(b'[', head, tail, stack, out);
    }
    match first_and_others(args) {
        Some((first, others)) => begin_functional(name, first, others, stack, out),
        None => quote(name, out),
    }
}

/// Begins a term by itself.
fn begin_term<'t>(
    names: &Names,
    term: &'t Term,
    stack: &mut Vec<Part<'t>>,
    out: &mut Vec<u8>,
) -> Result<(), AllocError>
    ensures text { OnOk result (out.new.items ++ left_text names.now stack.new.items ≡ out.old.items
        ++ (spelled names.now (tree_of term.now)).alone
        ++ left_text names.now stack.old.items) }
    ensures work { OnOk result
        (left_work stack.new.items < 3 * nodes_of
        (tree_of term.now) - 1 + left_work stack.old.items) }
{
    match term {
        Term::Var(number) => {
            out.push(b'_')?;
            push_number(u64::from(*number) + 1, out)
        }
        Term::Int(number) => push_integer(*number, out),
        Term::Fun(name, args) => begin_compound(name_text(names, *name), args, stack, out),
    }
}

/// Begins the tail of a list that is not a list.
fn begin_other_tail<'t>(
    tail: &'t Term,
    stack: &mut Vec<Part<'t>>,
    out: &mut Vec<u8>,
) -> Result<(), AllocError>
    ensures text { OnOk result ((names : List (List ℕ))
        → out.new.items ++ left_text names stack.new.items ≡ out.old.items
        ++ (no_list (spelled names (tree_of tail.now)).alone).as_tail
        ++ left_text names stack.old.items) }
    ensures work { OnOk result
        (left_work stack.new.items ≡ 3 * nodes_of (tree_of tail.now) + left_work stack.old.items) }
{
    out.push(b'|')?;
    push_both(Part::Alone(tail), Part::ListEnd, stack)?;
    Ok(())
}

/// Begins the tail of a list that is a name with these arguments.
#[tactic(auto, using(crate::proofs::SpellingLemmas::other_tail))]
fn begin_compound_tail<'t>(
    name: &[u8],
    args: &'t [Term],
    tail: &'t Term,
    stack: &mut Vec<Part<'t>>,
    out: &mut Vec<u8>,
) -> Result<(), AllocError>
    ensures text { OnOk result ((names : List (List ℕ))
        → spelled names (tree_of tail.now)
        ≡ compound name.now (all_spelled names (trees_of args.now))
        → out.new.items ++ left_text names stack.new.items ≡ out.old.items
        ++ (spelled names (tree_of tail.now)).as_tail ++ left_text names stack.old.items) }
    ensures work { OnOk result (left_work stack.new.items ≤ 3 * max (all_nodes (trees_of args.now))
        (nodes_of (tree_of tail.now)) + left_work stack.old.items) }
{
    if let Some((head, rest)) = cell_of(name, args) {
        return begin_cell(b',', head, rest, stack, out);
    }
    if args.is_empty() && is_empty_list(name) {
        return out.extend_from_slice(b"]");
    }
    begin_other_tail(tail, stack, out)
}

/// Begins the tail of a list.
fn begin_tail<'t>(
    names: &Names,
    tail: &'t Term,
    stack: &mut Vec<Part<'t>>,
    out: &mut Vec<u8>,
) -> Result<(), AllocError>
    ensures text { OnOk result (out.new.items ++ left_text names.now stack.new.items ≡ out.old.items
        ++ (spelled names.now (tree_of tail.now)).as_tail
        ++ left_text names.now stack.old.items) }
    ensures work { OnOk result
        (left_work stack.new.items ≤ 3 * nodes_of (tree_of tail.now) + left_work stack.old.items) }
{
    match tail {
        Term::Fun(name, args) => begin_compound_tail(
            name_text(names, *name),
            args,
            tail,
            stack,
            out,
        ),
        _ => begin_other_tail(tail, stack, out),
    }
}

/// Begins the arguments after the first.
fn begin_arguments<'t>(
    args: &'t [Term],
    stack: &mut Vec<Part<'t>>,
    out: &mut Vec<u8>,
) -> Result<(), AllocError>
    ensures text { OnOk result ((names : List (List ℕ))
        → out.new.items ++ left_text names stack.new.items ≡ out.old.items ++ other_arguments
        (all_spelled names (trees_of args.now)) ++ left_text names stack.old.items) }
    ensures work { OnOk result
        (left_work stack.new.items
        ≤ 3 * all_nodes (trees_of args.now) + left_work stack.old.items) }
{
    match args {
        [] => out.extend_from_slice(b")"),
        [first, others @ ..] => {
            out.push(b',')?;
            push_both(Part::Alone(first), Part::Arguments(others), stack)?;
            Ok(())
        }
    }
}

/// Writes the front of a part, and puts what is left of it on the stack.
fn begin_part<'t>(
    names: &Names,
    part: Part<'t>,
    stack: &mut Vec<Part<'t>>,
    out: &mut Vec<u8>,
) -> Result<(), AllocError>
    ensures text { OnOk result (out.new.items ++ left_text names.now stack.new.items ≡ out.old.items
        ++ part_text names.now part.entry ++ left_text names.now stack.old.items) }
    ensures work { OnOk result
        (left_work stack.new.items < part_work part.entry + left_work stack.old.items) }
{
    match part {
        Part::Alone(term) => begin_term(names, term, stack, out),
        Part::Tail(term) => begin_tail(names, term, stack, out),
        Part::Arguments(args) => begin_arguments(args, stack, out),
        Part::ListEnd => out.extend_from_slice(b"]"),
    }
}

/// Writes all parts on a stack, the last one first.
pub fn write_parts<'t>(
    names: &Names,
    stack: &mut Vec<Part<'t>>,
    out: &mut Vec<u8>,
) -> Result<(), AllocError>
    ensures text { OnOk result
        (out.new.items ≡ out.old.items ++ left_text names.now stack.old.items) }
    ensures done { OnOk result (stack.new.items ≡ []) }
{
    while let Some(part) = stack.pop() {
        begin_part(names, part, stack, out)?;
    }
    Ok(())
}
