//! How many nodes a term has.

ghost use Rattle.std.specs.Prelude.{◌≡◌, ◌≤◌, [], ◌∷◌, IfOk, MatchOption};
ghost use Rattle.prolog_terms.specs.Clauses.{nodes};
ghost use Rattle.prolog_terms.specs.Terms.{tree_of};

use prolog_terms::{ReadShape, ReadTerm};
use std::alloc::{AllocError, Global};
use std::slice::from_ref;

/// The first of some terms, and the others.
fn first_and_rest(terms: &[ReadTerm]) -> Option<(&ReadTerm, &[ReadTerm])>
    ensures { MatchOption result (terms.now ≡ []) (λ p. terms.now ≡ p.0.now ∷ p.1.now) }
{
    terms.split_first()
}

/// How many nodes a term has. What is left to be counted is kept on a stack.
pub(crate) fn term_nodes(alloc: Global, term: &ReadTerm) -> Result<u32, AllocError>
    requires { nodes (tree_of term.now) ≤ 2097152 }
    ensures { IfOk result (λ count. count ≡ nodes (tree_of term.now)) }
{
    let mut count = 0;
    let mut stack = Vec::new(alloc);
    stack.push(from_ref(term))?;
    'terms: while let Some(terms) = stack.pop() {
        if let Some((first, rest)) = first_and_rest(terms) {
            count += 1;
            stack.push(rest)?;
            match &first.shape {
                ReadShape::Var(_) => {}
                ReadShape::Int(_) => {}
                ReadShape::Fun(_, args) => stack.push(args.as_slice())?,
            }
        }
    }
    Ok(count)
}
