//! The components of a program, found.

ghost use Rattle.std.specs.Prelude.{IfOk};
ghost use Rattle.call_components.specs.Partition.{AreComponents};

use crate::calls::call_table;
use crate::members::members_by_number;
use crate::numbering::component_numbers;
use crate::partition::Components;
use crate::recursion::recursive_numbers;
use cti_terms::Program;
use std::alloc::{AllocError, Global};

/// The components of a program's calls, in time linear in its predicates and body atoms.
///
/// No recursion follows the calls, so a long chain of them takes no stack.
///
/// Source: path-based search for strong components, Gabow 2000.
pub fn components(alloc: Global, p: &Program) -> Result<Components, AllocError>
    ensures { IfOk result (AreComponents p.now) }
{
    let table = call_table(alloc, p)?;
    let numbering = component_numbers(alloc, &table)?;
    let members = members_by_number(alloc, &numbering)?;
    let recursive = recursive_numbers(alloc, &table, &numbering)?;
    Ok(Components {
        of: numbering.of,
        members,
        recursive,
    })
}
