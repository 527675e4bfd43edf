//! The chain of a program.

ghost use Rattle.std.specs.Prelude.{◌≡◌, ℕ, true, IfOk, All, length, map};
ghost use Rattle.call_components.specs.Partition.{AreComponents};
ghost use Rattle.linear_rows.specs.Replacing.{row_fits};
ghost use Rattle.termination_model.specs.sizes.Sizes.{rows_of};
ghost use Rattle.size_chains.specs.Proved.{AreProved};
ghost use Rattle.size_chains.specs.Running.{IsChained};
ghost use Rattle.size_chains.specs.States.{IsState, own_from, plain_step};
ghost use Rattle.size_chains.specs.Chains.{IsLegalChain};
ghost use Rattle.size_chains.specs.Systems.{AreSizes};

use crate::chain::Chain;
use crate::clause_systems::ClauseSystems;
use crate::state::State;
use call_components::Components;
use component_clauses::{ComponentClauses, own_clauses};
use polyhedra::Domain;
use std::alloc::{AllocError, Global};

/// Finds size rows of a program's predicates by a legal chain of steps, and proves them.
///
/// Steps go component by component, callees first, and within a component pass by pass, until a pass changes no rows.
/// Passes end, since each change after the third one leaves less to do. That the rows are the least ones is not said.
///
/// Source: size relations by a fixpoint with widening, as in Mesnard and Neumerkel 2001.
pub fn solve<D: Domain, S: ClauseSystems>(
    alloc: Global,
    systems: &S,
    comps: &Components,
) -> Result<Chain, AllocError>
    requires { AreComponents (S.listing systems.now) comps.now }

    // The steps are legal, and end with these rows.
    ensures chain { IfOk result
        (λ chain. IsLegalChain D.speaks (S.systems systems.now) (S.listing systems.now) comps.now
        (map plain_step chain.steps) (rows_of chain.sizes.rows)) }
    ensures sizes { IfOk result
        (λ chain. AreSizes (S.systems systems.now) (S.listing systems.now).preds chain.sizes.rows) }

    // Each row of each clause's head has its proof, over the last rows, and each row fits.
    ensures proofs { IfOk result
        (λ chain. AreProved (S.systems systems.now)
        (rows_of chain.sizes.rows) (S.listing systems.now).clauses chain.sizes.proofs) }
    ensures fits { IfOk result (λ chain. (q : ℕ)
        → All (λ r. row_fits r ≡ true) (rows_of chain.sizes.rows q)) }
{
    let _program = systems.program();
    let state = run_all::<D, S>(alloc, systems, comps)?;
    Ok(state.into_chain())
}

/// The state after all components.
fn run_all<D: Domain, S: ClauseSystems>(
    alloc: Global,
    systems: &S,
    comps: &Components,
) -> Result<State<D>, AllocError>
    requires { AreComponents (S.listing systems.now) comps.now }
    ensures state { IfOk result
        (IsState D.width D.listed (S.systems systems.now) (own_from comps.now (length comps.now.members))
        (S.listing systems.now)) }
    ensures chained { IfOk result
        (IsChained D.width D.listed D.speaks (S.systems systems.now) (S.listing systems.now) comps.now
        (length comps.now.members)) }
{
    let p = systems.program();
    let own = own_clauses(alloc, p, comps)?;
    let mut state = State::<D>::start(alloc, systems)?;
    for c in 0..comps.count() {
        let component = ComponentClauses {
            program: p,
            comps,
            number: c,
            clauses: own[c as usize].as_slice(),
        };
        state.run_passes(alloc, systems, &component)?;
    }
    Ok(state)
}
