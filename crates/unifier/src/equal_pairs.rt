//! Pairs of terms that unification has found equal, so that terms which share their parts are unified once.

ghost use Rattle.std.specs.Prelude.{true, ◌≡◌, ◌≤◌, ◌+◌, ◌++◌, List, [], ◌∷◌, length, IfOk, OnOk};
ghost use Rattle.cti_terms.specs.Unify.{Equation, Binding};
ghost use Rattle.unifier.specs.Raised.{raised_tree};
ghost use Rattle.unifier.specs.Store.{full};
ghost use Rattle.unifier.specs.Remembered.{Entails, above, AreRemembered, IsKnown};

use crate::raised_term::{RaisedTerm, Shape};
use indexmap::IndexMap;
use std::alloc::{AllocError, Global};

/// How many pairs of compound terms are unified before any is remembered: most unifications end sooner.
const UNREMEMBERED: usize = 1_000;

/// Two terms whose arguments are being unified, and how many equations are on the stack below theirs.
#[derive(Clone, Copy, Drop)]
pub struct OpenPair<'p> {
    pub left: RaisedTerm<'p>,
    pub right: RaisedTerm<'p>,
    pub below: usize,
}

/// Pairs of terms that were unified, or that are being unified.
///
/// Only variables that are shared make a term much larger than its spelling, so pairs of variables are what is
/// remembered.
pub struct EqualPairs<'p> {
    /// How many pairs of compound terms were met.
    pub met: usize,
    /// Pairs whose arguments are being unified, the last one on top.
    pub under_way: Vec<OpenPair<'p>>,
    /// Pairs that are equal under the bindings.
    pub equal: Vec<(RaisedTerm<'p>, RaisedTerm<'p>)>,
    /// The index of each pair of variables among the equal ones.
    pub places: IndexMap<(usize, usize), usize>,
}

impl Drop for EqualPairs<'_> {
    fn drop(self) {
        let EqualPairs {
            met: _,
            under_way: _,
            equal: _,
            places: _,
        } = self;
    }
}

/// Two variables, where both terms are variables.
fn variables<'p>(left: RaisedTerm<'p>, right: RaisedTerm<'p>) -> Option<(usize, usize)> {
    match (left.shape(), right.shape()) {
        (Shape::Variable(x), Shape::Variable(y)) => Some((x, y)),
        _ => None,
    }
}

/// Whether two terms are the same variable.
fn is_same_variable<'p>(term: RaisedTerm<'p>, other: RaisedTerm<'p>) -> bool
    ensures { result ≡ true → raised_tree term.entry ≡ raised_tree other.entry }
{
    match (term.shape(), other.shape()) {
        (Shape::Variable(x), Shape::Variable(y)) => x == y,
        _ => false,
    }
}

impl<'p> EqualPairs<'p> {
    /// No pairs. It takes no memory.
    pub fn new(alloc: Global) -> EqualPairs<'p> {
        EqualPairs {
            met: 0,
            under_way: Vec::new(alloc),
            equal: Vec::new(alloc),
            places: IndexMap::new(alloc),
        }
    }

    /// Forgets all pairs.
    pub fn clear(&mut self)
        ensures { (s : List Binding) (es : List Equation) → AreRemembered s es self.new }
    {
        self.met = 0;
        self.under_way.clear();
        self.equal.clear();
        // To clear a map costs its capacity, so an empty one is left alone.
        if !self.places.is_empty() {
            self.places.clear();
        }
    }

    /// Whether the equal pair of an index is this one.
    fn stands_at(&self, place: usize, left: RaisedTerm<'p>, right: RaisedTerm<'p>) -> bool
        ensures { result ≡ true → IsKnown self.now left.entry right.entry }
    {
        match self.equal.get(place) {
            Some((l, r)) => is_same_variable(*l, left) && is_same_variable(*r, right),
            None => false,
        }
    }

    /// Whether two terms were found equal.
    fn has(&self, left: RaisedTerm<'p>, right: RaisedTerm<'p>) -> bool
        ensures { result ≡ true → IsKnown self.now left.entry right.entry }
    {
        if self.equal.is_empty() {
            return false;
        }
        match variables(left, right) {
            Some(variables) => match self.places.get(&variables) {
                Some(place) => self.stands_at(*place, left, right),
                None => false,
            },
            None => false,
        }
    }

    /// Adds a pair to the equal ones.
    fn add(&mut self, pair: OpenPair<'p>) -> Result<(), AllocError>
        ensures under_way { self.new.under_way.items ≡ self.old.under_way.items }
        ensures equal { OnOk result
            (self.new.equal.items ≡ self.old.equal.items ++ (pair.entry.left, pair.entry.right)
            ∷ []) }
    {
        if let Some(variables) = variables(pair.left, pair.right) {
            self.places.insert(variables, self.equal.len())?;
        }
        self.equal.push((pair.left, pair.right))?;
        Ok(())
    }

    /// Moves the pairs whose arguments are unified to the equal ones. At most `left` equations are left, and one more.
    fn settle(&mut self, left: usize) -> Result<(), AllocError>
        ensures { OnOk result ((s : List Binding) (es : List Equation) → length es ≤ left + 1
            → AreRemembered s es self.old → AreRemembered s es self.new) }
    {
        while let Some(pair) = self.under_way.pop() {
            if pair.below <= left {
                self.under_way.push(pair)?;
                return Ok(());
            }
            self.add(pair)?;
        }
        Ok(())
    }

    /// Whether two terms are known to be equal. At most `others` equations are left, and one more.
    pub fn know(
        &mut self,
        left: RaisedTerm<'p>,
        right: RaisedTerm<'p>,
        others: usize,
    ) -> Result<bool, AllocError>
        ensures kept { OnOk result ((s : List Binding) (es : List Equation) → length es ≤ others + 1
            → AreRemembered s es self.old → AreRemembered s es self.new) }
        ensures equal { IfOk result (λ known. known ≡ true
            → IsKnown self.new left.entry right.entry) }
    {
        // Before as many pairs were met, none is remembered.
        if self.met < UNREMEMBERED {
            return Ok(false);
        }
        self.settle(others)?;
        Ok(self.has(left, right))
    }

    /// Notes that the equations of two terms' arguments were put on the stack above `below` others.
    pub fn open(
        &mut self,
        left: RaisedTerm<'p>,
        right: RaisedTerm<'p>,
        below: usize,
    ) -> Result<(), AllocError>
        ensures { OnOk result ((s : List Binding) (es : List Equation)
            → Entails (above below es) (full s (raised_tree left.entry))
            (full s (raised_tree right.entry)) → AreRemembered s es self.old
            → AreRemembered s es self.new) }
    {
        if self.met < UNREMEMBERED {
            self.met += 1;
        } else if variables(left, right).is_some() {
            self.under_way.push(OpenPair { left, right, below })?;
        }
        Ok(())
    }
}
