//! Counting the names with arguments and the variables of a term.

ghost use Rattle.std.specs.Prelude.{◌≡◌, ◌↔◌, ◌<◌, ◌≤◌, ℕ, IsTrue, IfOk, Contains, map, pos, slice_index_or, take};
ghost use Rattle.cti_terms.specs.Spell.{tree_of, trees_of};
ghost use Rattle.cti_terms.specs.Tree.{all_nodes, is_below, nodes_of};
ghost use Rattle.term_size.specs.Members.{members};
ghost use Rattle.term_size.specs.Counts.{AddsTerm, AddsTerms, AreBelow, AreOf, HasRoom};

use crate::size_expr::Coefficients;
use crate::var_set::VarSet;
use cti_terms::{MOST_NODES, MOST_VARIABLES, Term};
use std::alloc::{AllocError, Global};

// How many names have arguments, and how often each variable occurs.
#[derive(Clone, Copy)]
pub(crate) struct Counts {
    pub(crate) names: u32,
    variables: [u32; MOST_VARIABLES as usize],
}

impl Counts {
    /// Counts in a term.
    pub(crate) fn of(t: &Term) -> Counts
        requires below { IsTrue (is_below MOST_VARIABLES (tree_of t.now)) }
        requires small { nodes_of (tree_of t.now) ≤ MOST_NODES }
        ensures { AreOf (tree_of t.now) result }
    {
        let mut counts = Counts {
            names: 0,
            variables: [0; MOST_VARIABLES as usize],
        };
        counts.add(t);
        counts
    }

    /// Goes on in the last argument, so that a list is read without recursion.
    #[cycle(counting)]
    fn add(&mut self, t: &Term)
        requires below { IsTrue (is_below MOST_VARIABLES (tree_of t.now)) }
        requires room { HasRoom (nodes_of (tree_of t.now)) self.old }
        ensures { AddsTerm (tree_of t.now) self.old self.new }
    {
        let mut rest = t;
        while let Term::Fun(_, args) = rest {
            let Some((last, others)) = args.split_last() else {
                return;
            };
            self.names += 1;
            self.add_all(others);
            rest = last;
        }
        if let Term::Var(x) = rest {
            self.variables[*x as usize] += 1;
        }
    }

    /// Counts the occurrences in some terms.
    #[cycle(counting)]
    fn add_all(&mut self, terms: &[Term])
        requires below { AreBelow MOST_VARIABLES (trees_of terms.now) }
        requires room { HasRoom (all_nodes (trees_of terms.now)) self.old }
        ensures { AddsTerms (trees_of terms.now) self.old self.new }
    {
        for term in terms {
            self.add(term);
        }
    }

    /// How often each of the first variables occurs.
    pub(crate) fn first_variables(
        &self,
        alloc: Global,
        vars: u32,
    ) -> Result<Coefficients, AllocError>
        requires { vars ≤ MOST_VARIABLES }
        ensures { IfOk result (λ c. c ≡ map pos (take vars self.now.variables)) }
    {
        let mut items = Vec::new(alloc);
        for count in &self.variables[..vars as usize] {
            items.push(i128::from(*count))?;
        }
        Ok(Coefficients::from_vec(items))
    }

    /// Which of the first variables occur.
    pub(crate) fn occurring(&self, vars: u32) -> VarSet
        requires { vars ≤ MOST_VARIABLES }
        ensures { (x : ℕ) → Contains (members result) x
            ↔ ((x < vars) × (0 < slice_index_or self.now.variables x 0)) }
    {
        let mut set = VarSet::new();
        for x in 0..vars {
            if self.variables[x as usize] > 0 {
                set.insert(x);
            }
        }
        set
    }
}
