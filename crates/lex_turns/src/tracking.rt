//! The calls of a component in the course of the turns: which are gone, and the drops of each.

ghost use Rattle.std.specs.Prelude.{◌≡◌, ◌≤◌, IfOk, OnOk, length, map};
ghost use Rattle.level_systems.specs.Turned.{all_rows, held_of};
ghost use Rattle.lex_turns.specs.Tracking.{after_drops, after_falls, drops_first, given, gone_first, kept, staying};

use crate::call_drops::CallDrops;
use crate::dropping::first_by;
use level_systems::OwnCall;
use linear_rows::Multipliers;
use sequences::Sequence;
use std::alloc::{AllocError, Global};

/// Which calls are gone before the first turn: those that are never reached.
pub(crate) fn gone_first(alloc: Global, calls: &[OwnCall]) -> Result<Vec<bool>, AllocError>
    ensures { IfOk result (λ gone. gone.items ≡ map gone_first calls.now) }
{
    let mut gone = Vec::new(alloc);
    for own in calls {
        gone.push(own.empty.is_some())?;
    }
    Ok(gone)
}

/// The multipliers that show that a call is never reached, if it is not.
fn given(alloc: Global, own: &OwnCall) -> Result<Sequence<Multipliers>, AllocError>
    ensures { IfOk result (λ by. by ≡ given own.now.empty) }
{
    let mut given = Sequence::new(alloc);
    if let Some(by) = &own.empty {
        given.push(by.copy(alloc)?)?;
    }
    Ok(given)
}

/// The drops of a call before the first turn.
fn drops_of_call(alloc: Global, own: &OwnCall) -> Result<CallDrops, AllocError>
    ensures { IfOk result (λ drops. drops ≡ drops_first own.now) }
{
    Ok(CallDrops {
        clause: own.clause,
        call: own.call,
        by: given(alloc, own)?,
    })
}

/// The drops of calls before the first turn.
pub(crate) fn drops_first(alloc: Global, calls: &[OwnCall]) -> Result<Vec<CallDrops>, AllocError>
    ensures { IfOk result (λ drops. drops.items ≡ map drops_first calls.now) }
{
    let mut drops = Vec::new(alloc);
    for own in calls {
        drops.push(drops_of_call(alloc, own)?)?;
    }
    Ok(drops)
}

/// The calls that are not gone.
pub(crate) fn kept<'a>(
    alloc: Global,
    calls: &'a [OwnCall],
    gone: &[bool],
) -> Result<Vec<&'a OwnCall>, AllocError>
    requires { length gone.now ≡ length calls.now }
    ensures { IfOk result (λ rest. held_of rest.items ≡ kept calls.now gone.now) }
{
    let mut rest = Vec::new(alloc);
    for i in 0..calls.len() {
        if gone[i] {
            continue;
        }
        rest.push(&calls[i])?;
    }
    Ok(rest)
}

/// Which calls are gone after a turn at which these of those that remained fall.
pub(crate) fn after_falls(
    alloc: Global,
    gone: &[bool],
    falls: &[bool],
) -> Result<Vec<bool>, AllocError>
    requires { staying gone.now ≡ length falls.now }
    ensures { IfOk result (λ left. left.items ≡ after_falls gone.now falls.now) }
{
    let mut left = Vec::new(alloc);
    let mut next = 0;
    for has_gone in gone {
        if *has_gone {
            left.push(true)?;
        } else {
            left.push(falls[next])?;
            next += 1;
        }
    }
    Ok(left)
}

/// Adds the multipliers of a turn to the drops of the calls that remained.
pub(crate) fn add_drops(
    alloc: Global,
    calls: &[OwnCall],
    gone: &[bool],
    values: &[i128],
    drops: &mut Vec<CallDrops>,
) -> Result<(), AllocError>
    requires gone { length gone.now ≡ length calls.now }
    requires drops { length drops.old.items ≡ length calls.now }
    requires room { all_rows (kept calls.now gone.now) ≤ length values.now }
    ensures { OnOk result (drops.new.items
        ≡ after_drops calls.now gone.now values.now drops.old.items) }
{
    let mut values = values;
    for i in 0..calls.len() {
        if gone[i] {
            continue;
        }
        let own = &calls[i];
        drops[i].by.push(first_by(alloc, own, values)?)?;
        values = &values[own.rows.list.len()..];
    }
    Ok(())
}
