//! The variables of terms.

ghost use Rattle.std.specs.Prelude.{◌≡◌, ◌<◌, ◌++◌, ℕ, IsTrue, [], ◌∷◌, map, MatchOption, IfOk, OnOk};
ghost use Rattle.std.specs.List.{AllByRecursion};
ghost use Rattle.prolog_terms.specs.Clauses.{is_below};
ghost use Rattle.prolog_terms.specs.Terms.{tree_of};
ghost use Rattle.clause_variables.specs.Terms.{occurrences, list_variables};
ghost use Rattle.clause_variables.specs.TermViews.{plain_of};

use prolog_reader::{ReadShape, ReadTerm};
use std::alloc::{AllocError, Global};
use std::slice::from_ref;

/// The first of some terms, and the others.
fn first_and_rest(terms: &[ReadTerm]) -> Option<(&ReadTerm, &[ReadTerm])>
    ensures { MatchOption result (terms.now ≡ []) (λ p. terms.now ≡ p.0.now ∷ p.1.now) }
{
    terms.split_first()
}

/// Adds the variables of terms from left to right, with repetitions. What is left to be looked at is kept on a stack.
pub fn add_variables(
    alloc: Global,
    variables: &mut Vec<u32>,
    terms: &[ReadTerm],
) -> Result<(), AllocError>
    ensures { OnOk result (variables.new.items ≡ variables.old.items ++ list_variables
        (map plain_of terms.now)) }
{
    let mut stack = Vec::new(alloc);
    stack.push(terms)?;
    'terms: while let Some(terms) = stack.pop() {
        if let Some((first, rest)) = first_and_rest(terms) {
            stack.push(rest)?;
            match &first.shape {
                ReadShape::Var(x) => variables.push(*x)?,
                ReadShape::Int(_) => {}
                ReadShape::Fun(_, args) => stack.push(args.as_slice())?,
            }
        }
    }
    Ok(())
}

/// The variables of terms from left to right, with repetitions.
fn variables_of(alloc: Global, terms: &[ReadTerm]) -> Result<Vec<u32>, AllocError>
    ensures { IfOk result (λ v. v.items ≡ list_variables (map plain_of terms.now)) }
{
    let mut variables = Vec::new(alloc);
    add_variables(alloc, &mut variables, terms)?;
    Ok(variables)
}

/// The variables of a term from left to right, with repetitions.
pub fn term_variables(alloc: Global, term: &ReadTerm) -> Result<Vec<u32>, AllocError>
    ensures value { IfOk result (λ v. v.items ≡ occurrences (tree_of term.now)) }
    ensures below { IfOk result (λ v. (vars : ℕ) → IsTrue (is_below vars (tree_of term.now))
        → AllByRecursion (λ x. x < vars) v.items) }
{
    let variables = variables_of(alloc, from_ref(term))?;
    Ok(variables)
}
