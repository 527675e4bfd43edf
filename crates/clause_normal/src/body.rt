//! The goals of a body, with the arguments of its disjunctions' predicates.

ghost use Rattle.std.specs.Prelude.{◌≡◌, ◌<◌, ◌+◌, ◌++◌, ◌^◌, ◌&&◌, ◌||◌, ◌≤◌, ℕ, List, length, map, filter, nat_lt, not, slice_index, IfOk, MatchOption, OnOk};
ghost use Rattle.std.specs.List.{AllByRecursion};
ghost use Rattle.clause_normal.specs.Bodies.{arguments, choice_goal, goals_row};
ghost use Rattle.clause_normal.specs.Outlines.{piece_goal, piece_own};
ghost use Rattle.clause_normal.specs.OutlineViews.{piece_of, goal_of, goals_in, own_in, branches_in, outline_goals, GoalIsBelow, OutlineIsBelow, OutlinesAreBelow, PieceIsBelow, PiecesAreBelow};
ghost use Rattle.clause_variables.specs.Occurring.{AreNoted, HasSize};
ghost use Rattle.clause_variables.specs.Terms.{firsts, is_among};

use crate::fault::NormKind;
use crate::goal::Goal;
use crate::outline::{Outline, Piece};
use crate::part::Item;
use clause_variables::{Occurrences, is_among};
use cti_terms::MOST_ARGUMENTS;
use std::alloc::{AllocError, Global};

/// Whether a variable occurs before a place, or from another on, and is not among these.
fn is_new(places: &Occurrences, start: usize, end: usize, order: &[u32], x: u32) -> bool
    requires firsts { x < length places.now.firsts.items }
    requires ends { x < length places.now.ends.items }
    ensures { result ≡ ((nat_lt (slice_index places.now.firsts.items x) start
        || nat_lt end (slice_index places.now.ends.items x))
        && not (is_among order.now x)) }
{
    places.is_outside(x, start, end) && !is_among(order, x)
}

/// The variables among these that occur before a place, or from another one on, each once in order of first occurrence;
/// none where they are more than a predicate has arguments.
fn shared(
    alloc: Global,
    places: &Occurrences,
    start: usize,
    end: usize,
    own: &[u32],
) -> Result<Option<Vec<u32>>, AllocError>
    requires firsts { AllByRecursion (λ x. x < length places.now.firsts.items) own.now }
    requires ends { AllByRecursion (λ x. x < length places.now.ends.items) own.now }
    ensures { let shared = filter (λ x. nat_lt (slice_index places.now.firsts.items x) start
        || nat_lt end (slice_index places.now.ends.items x)) own.now in
        IfOk result (λ order. MatchOption order (12 < length (firsts shared))
        (λ v. (v.items ≡ firsts shared) × (length v.items ≤ 12))) }
{
    let mut order = Vec::new(alloc);
    'own: for x in own {
        if is_new(places, start, end, &order, *x) {
            if order.len() == MOST_ARGUMENTS as usize {
                return Ok(None);
            }
            order.push(*x)?;
        }
    }
    Ok(Some(order))
}

/// A disjunction at a place in the text as a goal of a clause whose variables' places are noted. Its own variables,
/// which start at a place among those of the clause, and its branches are given.
fn choice_goal<'a, 'v, 'o>(
    alloc: Global,
    places: &Occurrences,
    at: u32,
    start: usize,
    own: &[u32],
    branches: &'o Vec<Outline<'a, 'v>>,
) -> Result<Goal<'a, 'v, 'o>, AllocError>
    requires room { start + length own.now < 2 ^ 64 }
    requires size { HasSize (length places.now.firsts.items) places.now }
    requires below { AllByRecursion (λ x. x < length places.now.firsts.items) own.now }
    ensures goal { IfOk result (λ g. (earlier later : List ℕ) → length earlier ≡ start
        → AreNoted (earlier ++ (own.now ++ later)) places.now
        → goal_of g ≡ choice_goal at (arguments (earlier ++ (own.now ++ later)) own.now)
        (branches_in branches.now.items)) }
    ensures below { IfOk result
        (λ g. OutlinesAreBelow (length places.now.firsts.items) branches.now.items
        → GoalIsBelow (length places.now.firsts.items) g) }
{
    match shared(alloc, places, start, start + own.len(), own)? {
        Some(args) => Ok(Goal::Choice(args, branches)),
        None => Ok(Goal::Item(Item::Bad(NormKind::Arity, at))),
    }
}

/// A piece of a body as a goal of a clause whose variables' places are noted. Those of the piece start at a place.
fn goal<'a, 'v, 'o>(
    alloc: Global,
    places: &Occurrences,
    start: usize,
    piece: &'o Piece<'a, 'v>,
) -> Result<Goal<'a, 'v, 'o>, AllocError>
    requires room { start + length (piece_own (piece_of piece.now)) < 2 ^ 64 }
    requires size { HasSize (length places.now.firsts.items) places.now }
    requires below { PieceIsBelow (length places.now.firsts.items) piece.now }
    ensures goal { IfOk result (λ g. (earlier later : List ℕ) → length earlier ≡ start
        → AreNoted (earlier ++ (piece_own (piece_of piece.now) ++ later)) places.now
        → goal_of g ≡ piece_goal (piece_of piece.now)
        (earlier ++ (piece_own (piece_of piece.now) ++ later))) }
    ensures below { IfOk result (λ g. GoalIsBelow (length places.now.firsts.items) g) }
{
    match piece {
        Piece::Plain(item, _) => Ok(Goal::Item(*item)),
        Piece::Either(at, own, branches) => choice_goal(alloc, places, *at, start, own, branches),
    }
}

/// The variables of a piece.
fn own<'v>(piece: &Piece<'_, 'v>) -> &'v [u32]
    ensures { result.now ≡ piece_own (piece_of piece.now) }
{
    match piece {
        Piece::Plain(_, own) | Piece::Either(_, own, _) => own,
    }
}

/// The goals of a body of a clause whose variables' places are noted. Those of the body start at a place and are the
/// last.
fn goals<'a, 'v, 'o>(
    alloc: Global,
    places: &Occurrences,
    first: usize,
    pieces: &'o [Piece<'a, 'v>],
) -> Result<Vec<Goal<'a, 'v, 'o>>, AllocError>
    requires room { first + length (own_in pieces.now) < 2 ^ 64 }
    requires size { HasSize (length places.now.firsts.items) places.now }
    requires below { PiecesAreBelow (length places.now.firsts.items) pieces.now }
    ensures goals { IfOk result (λ v. (args : List ℕ) → length args ≡ first
        → AreNoted (args ++ own_in pieces.now) places.now
        → goals_row (map goal_of v.items) ≡ goals_in pieces.now (args ++ own_in pieces.now)) }
    ensures below { IfOk result
        (λ v. AllByRecursion (GoalIsBelow (length places.now.firsts.items)) v.items) }
{
    let mut goals = Vec::new(alloc);
    let mut start = first;
    'pieces: for piece in pieces {
        let goal = goal(alloc, places, start, piece)?;
        goals.push(goal)?;
        start += own(piece).len();
    }
    Ok(goals)
}

/// Variables, and after them those of a body.
fn with_own(alloc: Global, args: &[u32], pieces: &[Piece]) -> Result<Vec<u32>, AllocError>
    ensures { IfOk result (λ v. v.items ≡ args.now ++ own_in pieces.now) }
{
    let mut all = Vec::from_slice(alloc, args)?;
    'pieces: for piece in pieces {
        all.extend_from_slice(own(piece))?;
    }
    Ok(all)
}

/// The goals of a body as a branch of a disjunction whose predicate has these arguments.
pub(crate) fn body_goals<'a, 'v, 'o>(
    alloc: Global,
    places: &mut Occurrences,
    args: &[u32],
    body: &'o Outline<'a, 'v>,
) -> Result<Vec<Goal<'a, 'v, 'o>>, AllocError>
    requires args { AllByRecursion (λ x. x < length places.old.firsts.items) args.now }
    requires body { OutlineIsBelow (length places.old.firsts.items) body.now }
    requires size { HasSize (length places.old.firsts.items) places.old }
    ensures size { OnOk result (HasSize (length places.old.firsts.items) places.new) }
    ensures goals { IfOk result
        (λ v. goals_row (map goal_of v.items) ≡ outline_goals body.now args.now) }
    ensures below { IfOk result
        (λ v. AllByRecursion (GoalIsBelow (length places.old.firsts.items)) v.items) }
{
    let all = with_own(alloc, args, &body.pieces)?;
    places.note(&all);
    let goals = goals(alloc, places, args.len(), &body.pieces)?;
    Ok(goals)
}
