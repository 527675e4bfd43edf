//! A component, collected for the search.

ghost use Rattle.std.specs.Prelude.{◌≡◌, IfOk, IfSome, None, Some, map, slice_get, true};
ghost use Rattle.component_clauses.specs.Numbered.{HasItsClauses};
ghost use Rattle.level_systems.specs.Collected.{SomeGivenUp};
ghost use Rattle.level_systems.specs.Held.{spelled};
ghost use Rattle.level_systems.specs.Pairs.{pairs_of};
ghost use Rattle.level_systems.specs.Searched.{IsComponent, IsSound};
ghost use Rattle.termination_model.specs.mappings.ComponentViews.{positions_in};
ghost use Rattle.termination_model.specs.sizes.Sizes.{AreSizes, rows_of};

use crate::collecting::own_calls;
use crate::component::Component;
use crate::members::{members_by_clauses, positions_of};
use crate::position::Position;
use component_clauses::ComponentClauses;
use std::alloc::{AllocError, Global};
use term_size::Norm;
use termination_model::Sizes;

/// A component with these positions, where none of its calls is given up.
pub fn collect<N: Norm>(
    alloc: Global,
    own: &ComponentClauses<'_>,
    norm: &N,
    sizes: &Sizes,
    positions: Vec<Position>,
) -> Result<Option<Component>, AllocError>
    requires clauses { HasItsClauses own.now }
    requires recursive { slice_get own.now.comps.now.recursive own.now.number ≡ Some true }
    requires sizes { AreSizes own.now.program.now.preds sizes.now.rows }
    requires positions { map spelled positions.items
        ≡ positions_in own.now.program.now own.now.comps.now own.now.number }
    ensures sound { IfOk result (λ o. IfSome o (IsSound own.now.program.now)) }
    ensures component { IfOk result
        (λ o. IfSome o (IsComponent (N.size norm.now) (N.truth norm.now) (N.expression norm.now)
        own.now.program.now own.now.comps.now (rows_of sizes.now.rows) own.now.number)) }
    ensures given_up { IfOk result (λ o. o ≡ None
        → SomeGivenUp (N.expression norm.now) own.now.program.now (rows_of sizes.now.rows)
        (pairs_of own.now.program.now own.now.comps.now own.now.number)) }
{
    // What every program keeps.
    own.program.preds();
    let Some(calls) = own_calls(alloc, own, norm, sizes)? else {
        return Ok(None);
    };
    let members = Vec::from_slice(alloc, own.comps.members(own.number))?;
    let by_clauses = members_by_clauses(alloc, own)?;
    let order = positions_of(alloc, own.program, by_clauses.as_slice())?;
    Ok(Some(Component {
        members,
        by_clauses,
        order,
        positions,
        calls,
    }))
}
