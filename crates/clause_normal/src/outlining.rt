//! Taking bodies apart. The goals are gone through once, and the variables of each are a part of one list.

ghost use Rattle.std.specs.Prelude.{◌≡◌, ◌<◌, ◌++◌, ℕ, IsTrue, List, length, IfOk, OnOk};
ghost use Rattle.std.specs.List.{AllByRecursion};
ghost use Rattle.prolog_terms.specs.Clauses.{is_known};
ghost use Rattle.prolog_terms.specs.Terms.{tree_of};
ghost use Rattle.clause_normal.specs.Bodies.{arguments, choice_goal, joined, joined_branches, one_goal};
ghost use Rattle.clause_normal.specs.OutlineViews.{goals_in, own_in, branches_in, outline_goals, PiecesAreBelow, OutlinesAreBelow, OutlineIsBelow};
ghost use Rattle.clause_variables.specs.Terms.{occurrences};
ghost use Rattle.clause_normal.specs.Views.{goals_of, branches_of};

use crate::outline::{Outline, Piece};
use crate::part::{Part, part_of};
use clause_variables::term_variables;
use cti_terms::Names;
use prolog_reader::ReadTerm;
use std::alloc::{AllocError, Global};

/// The variables that stand before these, which are the last of them.
fn before<'v>(variables: &'v [u32], rest: &[u32]) -> &'v [u32]
    requires { (own : List ℕ) × (variables.now ≡ own ++ rest.now) }
    ensures { variables.now ≡ result.now ++ rest.now }
{
    &variables[..variables.len() - rest.len()]
}

/// The variables that stand after those of a term, which are the first of them.
fn after_term<'v>(
    alloc: Global,
    term: &ReadTerm,
    variables: &'v [u32],
) -> Result<&'v [u32], AllocError>
    requires { (rest : List ℕ) × (variables.now ≡ occurrences (tree_of term.now) ++ rest) }
    ensures { IfOk result (λ rest. variables.now ≡ occurrences (tree_of term.now) ++ rest.now) }
{
    let own = term_variables(alloc, term)?;
    Ok(&variables[own.len()..])
}

/// Adds the goals of a body, whose variables are the first of these, and answers the others.
#[cycle(outlining)]
fn add_pieces<'a, 'v>(
    alloc: Global,
    names: &Names,
    body: &'a ReadTerm,
    variables: &'v [u32],
    pieces: &mut Vec<Piece<'a, 'v>>,
) -> Result<&'v [u32], AllocError>
    requires known { IsTrue (is_known (length names.now) (tree_of body.now)) }
    requires variables { (rest : List ℕ)
        × (variables.now ≡ occurrences (tree_of body.now) ++ rest) }
    ensures rest { IfOk result
        (λ rest. variables.now ≡ occurrences (tree_of body.now) ++ rest.now) }
    ensures goals { OnOk result ((all : List ℕ) → goals_in pieces.new.items all
        ≡ joined (goals_in pieces.old.items all) (goals_of names.now body.now all)) }
    ensures own { OnOk result (own_in pieces.new.items ≡ own_in pieces.old.items ++ occurrences
        (tree_of body.now)) }
    ensures below { OnOk result ((vars : ℕ) → AllByRecursion (λ x. x < vars) variables.now
        → PiecesAreBelow vars pieces.old.items → PiecesAreBelow vars pieces.new.items) }
{
    match part_of(names, body) {
        Part::Both(left, right) => {
            let rest = add_pieces(alloc, names, left, variables, pieces)?;
            add_pieces(alloc, names, right, rest, pieces)
        }
        Part::Either(left, right) => {
            add_disjunction(alloc, names, body.at, left, right, variables, pieces)
        }
        Part::Nothing => Ok(variables),
        Part::Goal(item) => {
            let rest = after_term(alloc, body, variables)?;
            pieces.push(Piece::Plain(item, before(variables, rest)))?;
            Ok(rest)
        }
    }
}

/// Adds a disjunction of two bodies as a goal. Its variables are the first of these, and the others are answered.
#[cycle(outlining)]
fn add_disjunction<'a, 'v>(
    alloc: Global,
    names: &Names,
    at: u32,
    left: &'a ReadTerm,
    right: &'a ReadTerm,
    variables: &'v [u32],
    pieces: &mut Vec<Piece<'a, 'v>>,
) -> Result<&'v [u32], AllocError>
    requires left { IsTrue (is_known (length names.now) (tree_of left.now)) }
    requires right { IsTrue (is_known (length names.now) (tree_of right.now)) }
    requires variables { (rest : List ℕ)
        × (variables.now ≡ occurrences (tree_of left.now)
        ++ (occurrences (tree_of right.now) ++ rest)) }
    ensures rest { IfOk result
        (λ rest. variables.now ≡ occurrences (tree_of left.now)
        ++ (occurrences (tree_of right.now) ++ rest.now)) }
    ensures goals { OnOk result ((all : List ℕ)
        → goals_in pieces.new.items all ≡ joined (goals_in pieces.old.items all)
        (one_goal (choice_goal at
        (arguments all (occurrences (tree_of left.now) ++ occurrences (tree_of right.now)))
        (λ args. joined_branches (branches_of names.now left.now args)
        (branches_of names.now right.now args))))) }
    ensures own { OnOk result (own_in pieces.new.items
        ≡ own_in pieces.old.items
        ++ (occurrences (tree_of left.now) ++ occurrences (tree_of right.now))) }
    ensures below { OnOk result ((vars : ℕ) → AllByRecursion (λ x. x < vars) variables.now
        → PiecesAreBelow vars pieces.old.items → PiecesAreBelow vars pieces.new.items) }
{
    let mut branches = Vec::new(alloc);
    let middle = add_outlines(alloc, names, left, variables, &mut branches)?;
    let rest = add_outlines(alloc, names, right, middle, &mut branches)?;
    pieces.push(Piece::Either(at, before(variables, rest), branches))?;
    Ok(rest)
}

/// Adds the branches that a body is in a disjunction: those of its sides where it is one itself, and else the body
/// alone. Their variables are the first of these, and the others are answered.
#[cycle(outlining)]
fn add_outlines<'a, 'v>(
    alloc: Global,
    names: &Names,
    body: &'a ReadTerm,
    variables: &'v [u32],
    outlines: &mut Vec<Outline<'a, 'v>>,
) -> Result<&'v [u32], AllocError>
    requires known { IsTrue (is_known (length names.now) (tree_of body.now)) }
    requires variables { (rest : List ℕ)
        × (variables.now ≡ occurrences (tree_of body.now) ++ rest) }
    ensures rest { IfOk result
        (λ rest. variables.now ≡ occurrences (tree_of body.now) ++ rest.now) }
    ensures branches { OnOk result ((args : List ℕ) → branches_in outlines.new.items args
        ≡ joined_branches (branches_in outlines.old.items args)
        (branches_of names.now body.now args)) }
    ensures below { OnOk result ((vars : ℕ) → AllByRecursion (λ x. x < vars) variables.now
        → OutlinesAreBelow vars outlines.old.items → OutlinesAreBelow vars outlines.new.items) }
{
    if let Part::Either(left, right) = part_of(names, body) {
        let rest = add_outlines(alloc, names, left, variables, outlines)?;
        add_outlines(alloc, names, right, rest, outlines)
    } else {
        let mut pieces = Vec::new(alloc);
        let rest = add_pieces(alloc, names, body, variables, &mut pieces)?;
        outlines.push(Outline { pieces })?;
        Ok(rest)
    }
}

/// A body with these variables, taken apart.
pub(crate) fn outlined<'a, 'v>(
    alloc: Global,
    names: &Names,
    body: &'a ReadTerm,
    variables: &'v [u32],
) -> Result<Outline<'a, 'v>, AllocError>
    requires known { IsTrue (is_known (length names.now) (tree_of body.now)) }
    requires variables { variables.now ≡ occurrences (tree_of body.now) }
    ensures goals { IfOk result (λ o. (args : List ℕ) → outline_goals o args
        ≡ goals_of names.now body.now (args ++ occurrences (tree_of body.now))) }
    ensures below { IfOk result (λ o. (vars : ℕ) → AllByRecursion (λ x. x < vars) variables.now
        → OutlineIsBelow vars o) }
{
    let mut pieces = Vec::new(alloc);
    add_pieces(alloc, names, body, variables, &mut pieces)?;
    Ok(Outline { pieces })
}
