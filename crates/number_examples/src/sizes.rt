//! Worked terms.

ghost use Rattle.std.specs.Prelude.{◌≤◌, IfOk, IsTrue};
ghost use Rattle.cti_terms.specs.Spell.{tree_of};
ghost use Rattle.cti_terms.specs.Tree.{is_below, nodes_of};

use cti_terms::{Name, Term};
use std::alloc::{AllocError, Global};
use term_size::{Norm, TermSize, VarSet};

/// The term f(X,f(Y),X), of variables 0 and 2.
fn term(alloc: Global) -> Result<Term, AllocError>
    ensures below { IfOk result (λ t. IsTrue (is_below 4 (tree_of t))) }
    ensures small { IfOk result (λ t. nodes_of (tree_of t) ≤ 10) }
{
    let inner = Term::Fun(Name(4), vec![in alloc; Term::Var(2)]?);
    let args = vec![in alloc; Term::Var(0), inner, Term::Var(0)]?;
    Ok(Term::Fun(Name(4), args))
}

/// Whether the term has this size, over four variables.
fn has_size(alloc: Global, constant: i128, coeffs: &[i128]) -> Result<bool, AllocError> {
    let t = term(alloc)?;
    let size = TermSize.size_expr(alloc, &t, 4)?;
    Ok(size.constant == constant && size.coeffs.as_slice() == coeffs)
}

/// Whether the term asks for this variable of four, or whether it does not.
fn is_asked(alloc: Global, variable: u32, want: bool) -> Result<bool, AllocError> {
    let t = term(alloc)?;
    Ok(TermSize.rigid_vars(&t, 4).contains(variable) == want)
}

/// The term has two names with arguments, X twice and Y once, and asks for X and Y alone.
#[test]
fn term_size_of_a_term(rt: HostRuntime) {
    assert!(rt; matches!(has_size(rt.alloc(), 2, &[2, 0, 1, 0]), Ok(true)));
    for (variable, want) in [(0, true), (1, false), (2, true), (3, false)] {
        assert!(rt;
            matches!(is_asked(rt.alloc(), variable, want), Ok(true)),
            "at {variable}"
        );
    }
}
