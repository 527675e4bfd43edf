//! Components one after another in one state, callees first.

ghost use Rattle.std.specs.Prelude.{IfOk, OnOk};
ghost use Rattle.numeric_model.specs.Parts.{IsPartOf};
ghost use Rattle.component_clauses.specs.Numbered.{HasItsClauses};
ghost use Rattle.numeric_model.specs.Ready.{IsReadyAfter, IsReadyFor, KeepsOtherRows, chain_of};
ghost use Rattle.numeric_model.specs.Running.{rows_in};

use crate::state::State;
use crate::step::Step;
use component_clauses::ComponentClauses;
use polyhedra::Domain;
use sequences::Sequence;
use std::alloc::{AllocError, Global};
use std::mem;
use term_size::Norm;

impl<D: Domain> State<D> {
    /// Takes the steps of a component above the rows of earlier ones, and proves the rows that they end with.
    ///
    /// It takes the time of the component, and not that of the program.
    pub fn solve<N: Norm>(
        &mut self,
        alloc: Global,
        norm: &N,
        own: &ComponentClauses<'_>,
    ) -> Result<Sequence<Step>, AllocError>
        requires component { HasItsClauses own.now }
        requires ready { IsReadyFor D.width D.listed own.now self.old }
        ensures ready { OnOk result (IsReadyAfter D.width D.listed own.now self.new) }
        ensures part { IfOk result
            (λ steps. IsPartOf D.speaks (N.expression norm.now) own.now.program.now own.now.comps.now own.now.number
            (rows_in self.old) (chain_of steps self.new)) }
        ensures others { OnOk result (KeepsOtherRows own.now self.old self.new) }
    {
        let _program = own.program.clauses();
        self.run_passes(alloc, norm, own)?;
        self.latest.forget(own.comps.members(own.number));
        Ok(mem::replace(&mut self.steps, Sequence::new(alloc)))
    }
}
