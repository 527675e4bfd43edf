//! Mappings as lists of one.

ghost use Rattle.std.specs.Prelude.{◌≡◌, IfOk, map};
ghost use Rattle.lex_turns.specs.Single.{drop_of_fall, one_list};

use crate::call_drops::CallDrops;
use crate::copies::copied_measures;
use crate::measure_list::MeasureList;
use level_systems::{Fall, Mapping};
use sequences::Sequence;
use std::alloc::{AllocError, Global};

/// A fall as the drop of a list of one.
fn drop_of(alloc: Global, fall: &Fall) -> Result<CallDrops, AllocError>
    ensures { IfOk result (λ drop. drop ≡ drop_of_fall fall.now) }
{
    let mut by = Sequence::new(alloc);
    by.push(fall.by.copy(alloc)?)?;
    Ok(CallDrops {
        clause: fall.clause,
        call: fall.call,
        by,
    })
}

/// Falls as the drops of a list of one.
fn drops_of(alloc: Global, falls: &[Fall]) -> Result<Sequence<CallDrops>, AllocError>
    ensures { IfOk result (λ drops. drops ≡ map drop_of_fall falls.now) }
{
    let mut drops = Sequence::new(alloc);
    for fall in falls {
        drops.push(drop_of(alloc, fall)?)?;
    }
    Ok(drops)
}

/// The list of one mapping that decreases.
pub(crate) fn list_of_one(alloc: Global, mapping: &Mapping) -> Result<MeasureList, AllocError>
    ensures { IfOk result (λ list. list ≡ one_list mapping.now) }
{
    let drops = drops_of(alloc, mapping.falls.as_slice())?;
    let mut list = Sequence::new(alloc);
    list.push(copied_measures(alloc, mapping.measures.as_slice())?)?;
    Ok(MeasureList {
        measures: list,
        drops,
    })
}
