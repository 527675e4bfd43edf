//! Tests of the drops of a mapping, as a certificate's check tests them.

ghost use Rattle.std.specs.Prelude.{◌≡◌, ◌≤◌, ◌≤ℤ◌, ◌↔◌, ◌+◌, suc, All, IfOk, IsTrue, drop, length, pos, true};
ghost use Rattle.std.specs.List.{AllByRecursion};
ghost use Rattle.level_systems.specs.Falling.{HasParts, IsReady};
ghost use Rattle.level_systems.specs.Turned.{all_rows, held_of};
ghost use Rattle.number_tests.specs.Drops.{fall_number};
ghost use Rattle.lex_turns.specs.Testing.{AreDropsIf, EmptyFall, IsDropIf, ShowsDrop, SomeFalls, Tells, first_by};
ghost use Rattle.linear_rows.specs.Plain.{HaveWidth};
ghost use Rattle.linear_rows.specs.Showing.{AreMultipliers};

use level_dual::find_part;
use level_systems::{Measure, OwnCall};
use linear_rows::{Multipliers, Numbers};
use number_tests::{multipliers_flaw, weigh_drop};
use sequences::Sequence;
use std::alloc::{AllocError, Global};
use termination_model::replaced;

/// The first of some values, as the multipliers of a call.
pub(crate) fn first_by(
    alloc: Global,
    own: &OwnCall,
    values: &[i128],
) -> Result<Multipliers, AllocError>
    requires { length own.now.rows.list ≤ length values.now }
    ensures { IfOk result (λ by. by ≡ first_by own.now values.now) }
{
    let list = Vec::from_slice(alloc, &values[..own.rows.list.len()])?;
    Ok(Multipliers {
        scale: 1,
        list: Numbers::from_vec(list),
    })
}

/// The values that are left for later calls.
pub(crate) fn later_values<'a>(own: &OwnCall, values: &'a [i128]) -> &'a [i128]
    requires { length own.now.rows.list ≤ length values.now }
    ensures { result.now ≡ drop (length own.now.rows.list) values.now }
{
    &values[own.rows.list.len()..]
}

/// Whether multipliers show that the parts of a call's head and call drop, by 1 where they are to fall.
fn shows_drop(
    alloc: Global,
    own: &OwnCall,
    measures: &[Measure],
    by: &Multipliers,
    falls: bool,
) -> Result<bool, AllocError>
    requires parts { HasParts measures.now own.now }
    requires by { AreMultipliers (length own.now.rows.list) by.now }
    requires widths { HaveWidth own.now.rows.width own.now.rows.list }
    requires columns { length own.now.columns.items ≡ own.now.rows.width + 1 }
    requires long { All (λ col. length col ≡ suc (length own.now.caller_sizes.list) + suc
        (length own.now.callee_sizes.list)) own.now.columns.items }
    ensures { IfOk result (Tells (ShowsDrop (fall_number falls) measures.now own.now by.now)) }
{
    let Some(head) = find_part(measures, own.caller) else {
        return Ok(false);
    };
    let Some(call) = find_part(measures, own.callee) else {
        return Ok(false);
    };
    let weights = weigh_drop(alloc, head, call, falls)?;
    let target = replaced(alloc, weights.as_slice(), own.columns.as_slice())?;
    if multipliers_flaw(&own.rows, target, by).is_some() {
        return Ok(false);
    }
    Ok(true)
}

/// Whether a call falls, if the first of the values show that or at least that it does not rise.
fn drop_at(
    alloc: Global,
    own: &OwnCall,
    measures: &[Measure],
    values: &[i128],
) -> Result<Option<bool>, AllocError>
    requires parts { HasParts measures.now own.now }
    requires ready { IsReady own.now }
    requires naturals { All (λ x. pos 0 ≤ℤ x) values.now }
    requires room { length own.now.rows.list ≤ length values.now }
    ensures { IfOk result (IsDropIf measures.now own.now (first_by own.now values.now)) }
{
    let by = first_by(alloc, own, values)?;
    if shows_drop(alloc, own, measures, &by, true)? {
        return Ok(Some(true));
    }
    if shows_drop(alloc, own, measures, &by, false)? {
        return Ok(Some(false));
    }
    Ok(None)
}

/// Which of the calls that remain fall, where the values show in numbers that fit that none of them rises.
pub(crate) fn drops_of(
    alloc: Global,
    rest: &[&OwnCall],
    measures: &[Measure],
    values: &[i128],
) -> Result<Option<Sequence<bool>>, AllocError>
    requires parts { AllByRecursion (HasParts measures.now) (held_of rest.now) }
    requires ready { AllByRecursion IsReady (held_of rest.now) }
    requires naturals { All (λ x. pos 0 ≤ℤ x) values.now }
    requires room { all_rows (held_of rest.now) ≤ length values.now }
    ensures { IfOk result (AreDropsIf measures.now (held_of rest.now) values.now) }
{
    let mut falls = Sequence::new(alloc);
    let mut values = values;
    for own in rest {
        let Some(fall) = drop_at(alloc, own, measures, values)? else {
            return Ok(None);
        };
        falls.push(fall)?;
        values = later_values(own, values);
    }
    Ok(Some(falls))
}

/// Whether some call falls.
pub(crate) fn some_fall(falls: &[bool]) -> bool
    ensures { IsTrue result ↔ SomeFalls falls.now }
{
    for fall in falls {
        if *fall {
            return true;
        }
    }
    false
}

/// Whether the calls that are never reached fall in numbers that fit.
pub(crate) fn empty_fall(
    alloc: Global,
    calls: &[OwnCall],
    measures: &[Measure],
) -> Result<bool, AllocError>
    requires parts { AllByRecursion (HasParts measures.now) calls.now }
    requires ready { AllByRecursion IsReady calls.now }
    ensures { IfOk result (Tells (EmptyFall measures.now calls.now)) }
{
    for own in calls {
        let Some(by) = &own.empty else {
            continue;
        };
        if !shows_drop(alloc, own, measures, by, true)? {
            return Ok(false);
        }
    }
    Ok(true)
}
