//! One-sided matching: which atoms are more general.

ghost use Rattle.std.specs.Prelude.{◌≡◌, ◌↔◌, ◌++◌, ◌∷◌, IsTrue, IfOk, OnOk, [], None, option_map};
ghost use Rattle.cti_terms.specs.Spell.{tree_of, trees_of};
ghost use Rattle.cti_terms.specs.Tree.{Tree};
ghost use Rattle.cti_terms.specs.Lifts.{IsMoreGeneral};
ghost use Rattle.loop_finder.specs.Matching.{is_same, are_same, matched_with, matched, all_matched};
ghost use Rattle.loop_finder.specs.Matches.{IsMatched};

use crate::room::Room;
use cti_terms::{Atom, Term};
use indexmap::IndexMap;
use std::alloc::{AllocError, Global};
use std::marker::Model;

/// Whether two terms are the same.
#[cycle(same)]
fn is_same_term(left: &Term, right: &Term, room: &mut Room) -> Result<bool, AllocError>
    ensures { IfOk result (λ b. b ≡ is_same (tree_of left.now) (tree_of right.now)) }
{
    room.compare_one()?;
    match left {
        Term::Var(x) => match right {
            Term::Var(y) => Ok(*x == *y),
            _ => Ok(false),
        },
        Term::Int(m) => match right {
            Term::Int(n) => Ok(*n == *m),
            _ => Ok(false),
        },
        Term::Fun(f, ts) => match right {
            Term::Fun(g, us) => {
                if f.0 != g.0 {
                    return Ok(false);
                }
                are_same_terms(ts.as_slice(), us.as_slice(), room)
            }
            _ => Ok(false),
        },
    }
}

/// Whether lists of terms are the same, one by one.
#[cycle(same)]
fn are_same_terms(left: &[Term], right: &[Term], room: &mut Room) -> Result<bool, AllocError>
    ensures { IfOk result (λ b. b ≡ are_same (trees_of left.now) (trees_of right.now)) }
{
    if left.len() != right.len() {
        return Ok(false);
    }
    for i in 0..left.len() {
        if !is_same_term(&left[i], &right[i], room)? {
            return Ok(false);
        }
    }
    Ok(true)
}

/// A term that a variable is matched with.
#[derive(Clone, Copy, Drop)]
pub struct Match<'g> {
    pub term: &'g Term,
}

/// Terms that variables are matched with. Contracts see the list of the variables and their trees, in order.
pub struct Matches<'g> {
    items: IndexMap<u32, Match<'g>>,
}

impl Drop for Matches<'_> {
    fn drop(self) {
        let Matches { items: _ } = self;
    }
}

impl<'g> Model for Matches<'g> {
    ghost use Rattle.std.specs.Prelude.{List};
    ghost use Rattle.std.specs.Coded.{coded_list, coded×, coded_ℕ};
    ghost use Rattle.cti_terms.specs.Unify.{Binding};
    ghost use Rattle.cti_terms.specs.Coding.{coded_tree};
    ghost use Rattle.loop_finder.specs.Matches.{pairs_of};

    ghost Value = { List Binding };

    ghost coded = { coded_list (coded× coded_ℕ coded_tree) };

    ghost view = { λ a. pairs_of a.items.entries };
}

impl<'g> Matches<'g> {
    /// No matches. It takes no memory.
    fn new(alloc: Global) -> Matches<'g>
        ensures { result ≡ [] }
    {
        Matches {
            items: IndexMap::new(alloc),
        }
    }

    /// The term that a variable is matched with.
    fn of(&self, variable: u32) -> Option<&'g Term>
        ensures { option_map (λ t. tree_of t.now) result ≡ matched_with self.now variable }
    {
        match self.items.get(&variable) {
            Some(known) => Some(known.term),
            None => None,
        }
    }

    /// Matches a variable that is not matched yet with a term.
    fn add(&mut self, variable: u32, term: &'g Term) -> Result<(), AllocError>
        requires { matched_with self.old variable ≡ None }
        ensures { OnOk result (self.new ≡ self.old ++ (variable, tree_of term.now) ∷ []) }
    {
        self.items.insert(variable, Match { term })?;
        Ok(())
    }
}

/// Matches a term with another one. Where it fails, some variables may have been matched.
#[cycle(matching)]
fn match_term<'g>(
    general: &'g Term,
    special: &'g Term,
    matches: &mut Matches<'g>,
    room: &mut Room,
) -> Result<bool, AllocError>
    ensures { IfOk result (IsMatched
        (matched matches.old (tree_of general.now) (tree_of special.now)) matches.new) }
{
    room.compare_one()?;
    match general {
        Term::Var(x) => match matches.of(*x) {
            Some(other) => is_same_term(other, special, room),
            None => {
                matches.add(*x, special)?;
                Ok(true)
            }
        },
        Term::Int(m) => match special {
            Term::Int(n) => Ok(*m == *n),
            _ => Ok(false),
        },
        Term::Fun(f, ts) => match special {
            Term::Fun(g, us) => {
                if f.0 != g.0 {
                    return Ok(false);
                }
                match_terms(ts.as_slice(), us.as_slice(), matches, room)
            }
            _ => Ok(false),
        },
    }
}

/// Matches the terms of two lists one by one.
#[cycle(matching)]
fn match_terms<'g>(
    general: &'g [Term],
    special: &'g [Term],
    matches: &mut Matches<'g>,
    room: &mut Room,
) -> Result<bool, AllocError>
    ensures { IfOk result (IsMatched
        (all_matched matches.old (trees_of general.now) (trees_of special.now)) matches.new) }
{
    if general.len() != special.len() {
        return Ok(false);
    }
    for i in 0..general.len() {
        if !match_term(&general[i], &special[i], matches, room)? {
            return Ok(false);
        }
    }
    Ok(true)
}

/// Whether the first atom is more general than the second: some substitution applied to it gives the second.
pub fn is_more_general_atom(
    alloc: Global,
    general: &Atom,
    special: &Atom,
    room: &mut Room,
) -> Result<bool, AllocError>
    ensures { IfOk result (λ b. IsTrue b ↔ IsMoreGeneral general.now special.now) }
{
    if general.pred.0 != special.pred.0 {
        return Ok(false);
    }
    let mut matches = Matches::new(alloc);
    let matched = match_terms(
        general.args.as_slice(),
        special.args.as_slice(),
        &mut matches,
        room,
    )?;
    Ok(matched)
}
