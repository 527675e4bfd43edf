//! Components one after another in one state, callees first.

ghost use Rattle.std.specs.Prelude.{◌≡◌, IfOk, OnOk};
ghost use Rattle.size_chains.specs.Parts.{IsPartOf};
ghost use Rattle.component_clauses.specs.Numbered.{HasItsClauses};
ghost use Rattle.size_chains.specs.Ready.{IsReadyAfter, IsReadyFor, KeepsOtherRows, chain_of};
ghost use Rattle.size_chains.specs.Running.{rows_in};

use crate::clause_systems::ClauseSystems;
use crate::state::State;
use crate::step::Step;
use component_clauses::ComponentClauses;
use polyhedra::Domain;
use sequences::Sequence;
use std::alloc::{AllocError, Global};
use std::mem;

impl<D: Domain> State<D> {
    /// Takes the steps of a component above the rows of earlier ones, and proves the rows that they end with.
    ///
    /// It takes the time of the component, and not that of the program.
    pub fn solve<S: ClauseSystems>(
        &mut self,
        alloc: Global,
        systems: &S,
        own: &ComponentClauses<'_>,
    ) -> Result<Sequence<Step>, AllocError>
        requires same { S.listing systems.now ≡ own.now.program.now }
        requires component { HasItsClauses own.now }
        requires ready { IsReadyFor D.width D.listed (S.systems systems.now) own.now self.old }
        ensures ready { OnOk result (IsReadyAfter D.width D.listed (S.systems systems.now) own.now self.new) }
        ensures part { IfOk result
            (λ steps. IsPartOf D.speaks (S.systems systems.now) own.now.program.now own.now.comps.now
            own.now.number (rows_in self.old) (chain_of steps self.new)) }
        ensures others { OnOk result (KeepsOtherRows own.now self.old self.new) }
    {
        let _program = own.program.clauses();
        let _systems = systems.program();
        self.run_passes(alloc, systems, own)?;
        self.latest.forget(own.comps.members(own.number));
        Ok(mem::replace(&mut self.steps, Sequence::new(alloc)))
    }
}
