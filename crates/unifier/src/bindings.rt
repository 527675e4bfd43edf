//! The bindings of variables.

ghost use Rattle.std.specs.Prelude.{◌≡◌, ℕ, ◌-◌, ◌≤◌, ◌<◌, ◌+◌, ◌^◌, [], ◌∷◌, OnOk, length, vec_len, drop, option_map, IfSome};
ghost use Rattle.unifier.specs.Raised.{raised_tree};
ghost use Rattle.unifier.specs.Store.{stored, full, IsOpen, MayBind, AreMade, chain, chain_of};
ghost use Rattle.cti_terms.specs.Tree.{Variable};
ghost use Rattle.unifier.specs.Shapes.{IsMet};

use crate::raised_term::{Met, RaisedTerm, Shape};
use crate::slots::Slots;
use std::alloc::{AllocError, Global};
use std::marker::Model;

/// Bindings of variables, which can be taken back. Contracts see the list, the last one made first.
///
/// A variable is bound to a term as the program spells it, so that a binding copies no term.
///
/// Source: the binding store of Warren 1983, with structure sharing as in Boyer and Moore 1972. What Warren keeps as a
/// trail is the order of the slots.
#[derive(Drop)]
pub struct Bindings<'p> {
    slots: Slots<'p>,
}

impl<'p> Model for Bindings<'p> {
    ghost use Rattle.std.specs.Prelude.{List};
    ghost use Rattle.std.specs.Coded.{coded_list, coded×, coded_ℕ};
    ghost use Rattle.cti_terms.specs.Unify.{Binding};
    ghost use Rattle.cti_terms.specs.Coding.{coded_tree};
    ghost use Rattle.unifier.specs.Slots.{trees, bound};
    ghost use Rattle.unifier.specs.Store.{bindings_of, IsStore};

    ghost Value = { List Binding };

    ghost coded = { coded_list (coded× coded_ℕ coded_tree) };

    ghost view = { λ a. bindings_of (trees a.slots) (bound a.slots) };

    ghost invariant = { λ a. IsStore (trees a.slots) (bound a.slots) };
}

impl<'p> Bindings<'p> {
    /// No bindings. It takes no memory.
    pub fn new(alloc: Global) -> Bindings<'p>
        ensures { result ≡ [] }
    {
        Bindings {
            slots: Slots::new(alloc),
        }
    }

    /// How many bindings are there.
    pub fn len(&self) -> usize
        ensures count { result ≡ length self.now }
        ensures made { AreMade self.now }
    {
        self.slots.len()
    }

    /// The slot of a variable.
    fn slot(&self, variable: usize) -> Option<RaisedTerm<'p>>
        ensures stored { option_map raised_tree result ≡ stored self.now variable }
        ensures made { AreMade self.now }
    {
        self.slots.get(variable)
    }

    /// The term of a variable, where it is bound.
    pub fn value(&self, variable: usize) -> Option<RaisedTerm<'p>>
        ensures stored { option_map raised_tree result ≡ stored self.now variable }
        ensures same { IfSome result
            (λ t. full self.now (raised_tree t) ≡ full self.now (Variable variable)) }
        ensures falls { IfSome result
            (λ t. chain_of self.now (raised_tree t) < chain self.now variable) }
    {
        self.slot(variable)
    }

    /// Binds a variable. One whose number is 2^32 - 1 or more is out of memory.
    #[inline(always)]
    pub fn bind(&mut self, variable: usize, term: RaisedTerm<'p>) -> Result<(), AllocError>
        requires small { variable < 2 ^ 33 }
        requires may { MayBind self.old variable (raised_tree term) }
        ensures { OnOk result (self.new ≡ (variable, raised_tree term.entry) ∷ self.old) }
    {
        self.slots.reserve(variable + 1, term.term)?;
        self.slots.bind(variable, term);
        Ok(())
    }

    /// Takes back the last binding.
    fn undo_last(&mut self)
        requires { 0 < length self.old }
        ensures { self.new ≡ drop 1 self.old }
    {
        self.slots.unbind();
    }

    /// Takes back all bindings but the first ones, of this number.
    pub fn undo(&mut self, count: usize)
        requires { count ≤ length self.old }
        ensures { self.new ≡ drop (length self.old - count) self.old }
    {
        while self.len() > count {
            self.undo_last();
        }
    }

    /// The term that is not a bound variable and stands for this one, with its kind.
    #[inline(always)]
    pub fn met(&self, term: RaisedTerm<'p>) -> Met<'p>
        ensures met { IsMet self.now result }
        ensures same { full self.now (raised_tree result.term)
            ≡ full self.now (raised_tree term.entry) }
    {
        let mut now = term;
        loop {
            let shape = now.shape();
            match shape {
                Shape::Variable(x) => match self.value(x) {
                    Some(next) => now = next,
                    None => return Met { term: now, shape },
                },
                _ => return Met { term: now, shape },
            }
        }
    }

    /// A term that is a free variable, with its kind.
    #[inline(always)]
    pub fn met_free(&self, term: RaisedTerm<'p>) -> Option<Met<'p>>
        ensures { IfSome result (λ m. IsMet self.now m × (m.term ≡ term.entry)) }
    {
        let shape = term.shape();
        let Shape::Variable(x) = shape else {
            return None;
        };
        match self.value(x) {
            Some(_) => None,
            None => Some(Met { term, shape }),
        }
    }
}
