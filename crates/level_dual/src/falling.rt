//! The falls of a mapping, tested as a certificate's check tests them.

ghost use Rattle.std.specs.Prelude.{◌≡◌, ◌≤◌, ◌≤ℤ◌, ◌+◌, All, IfOk, IfSome, None, Some, length, pos, suc};
ghost use Rattle.std.specs.List.{AllByRecursion};
ghost use Rattle.level_systems.specs.Falling.{AreFallsIf, HasParts, IsFallIf, IsReady, multipliers_of, scale_of, values_after};
ghost use Rattle.level_systems.specs.Mappings.{level_in};
ghost use Rattle.level_systems.specs.Recalled.{count_of};
ghost use Rattle.linear_rows.specs.Plain.{HaveWidth};
ghost use Rattle.linear_rows.specs.Showing.{AreMultipliers};

use cti_terms::PredId;
use level_systems::{Fall, Measure, OwnCall};
use linear_rows::{Multipliers, Numbers};
use number_tests::{LevelPart, multipliers_flaw, weigh_drop};
use sequences::Sequence;
use std::alloc::{AllocError, Global};
use termination_model::replaced;

/// The part of a member.
pub fn find_part(measures: &[Measure], pred: PredId) -> Option<&LevelPart>
    ensures some { IfSome result (λ part. level_in measures.now pred.0 ≡ Some part.now) }
    ensures none { result ≡ None → level_in measures.now pred.0 ≡ None }
{
    for measure in measures {
        if measure.pred.0 == pred.0 {
            return Some(&measure.part);
        }
    }
    None
}

/// The multipliers of a call: those that show that it cannot be reached, or the first of the values.
fn multipliers_at(alloc: Global, own: &OwnCall, values: &[i128]) -> Result<Multipliers, AllocError>
    requires naturals { All (λ x. pos 0 ≤ℤ x) values.now }
    requires room { own.now.empty ≡ None → length own.now.rows.list ≤ length values.now }
    requires empty { IfSome own.now.empty (AreMultipliers (length own.now.rows.list)) }
    ensures list { IfOk result
        (λ by. by.list ≡ multipliers_of own.now.empty (length own.now.rows.list) values.now) }
    ensures scale { IfOk result (λ by. by.scale ≡ scale_of own.now.empty) }
    ensures multipliers { IfOk result (AreMultipliers (length own.now.rows.list)) }
{
    match &own.empty {
        Some(by) => Ok(Multipliers {
            scale: 0,
            list: by.list.copy(alloc)?,
        }),
        None => {
            let list = Vec::from_slice(alloc, &values[..own.rows.list.len()])?;
            Ok(Multipliers {
                scale: 1,
                list: Numbers::from_vec(list),
            })
        }
    }
}

/// The values that are left for later calls.
fn values_after<'a>(own: &OwnCall, values: &'a [i128]) -> &'a [i128]
    requires { own.now.empty ≡ None → length own.now.rows.list ≤ length values.now }
    ensures { result.now ≡ values_after own.now.empty (length own.now.rows.list) values.now }
{
    match &own.empty {
        Some(_) => values,
        None => &values[own.rows.list.len()..],
    }
}

/// The fall at a call, where these multipliers show it.
fn fall_at(
    alloc: Global,
    own: &OwnCall,
    measures: &[Measure],
    by: Multipliers,
) -> Result<Option<Fall>, AllocError>
    requires parts { HasParts measures.now own.now }
    requires by { AreMultipliers (length own.now.rows.list) by }
    requires widths { HaveWidth own.now.rows.width own.now.rows.list }
    requires columns { length own.now.columns.items ≡ own.now.rows.width + 1 }
    requires long { All (λ col. length col ≡ suc (length own.now.caller_sizes.list) + suc
        (length own.now.callee_sizes.list)) own.now.columns.items }
    ensures { IfOk result (IsFallIf measures.now own.now by) }
{
    let Some(head) = find_part(measures, own.caller) else {
        return Ok(None);
    };
    let Some(call) = find_part(measures, own.callee) else {
        return Ok(None);
    };
    let weights = weigh_drop(alloc, head, call, true)?;
    let target = replaced(alloc, weights.as_slice(), own.columns.as_slice())?;
    if multipliers_flaw(&own.rows, target, &by).is_some() {
        return Ok(None);
    }
    Ok(Some(Fall {
        clause: own.clause,
        call: own.call,
        by,
    }))
}

/// The falls of a mapping at the calls of its component, where the values show all of them in numbers that fit.
///
/// The values are the multipliers of the calls that can be reached.
pub(crate) fn falls_of(
    alloc: Global,
    calls: &[OwnCall],
    measures: &[Measure],
    values: &[i128],
) -> Result<Option<Sequence<Fall>>, AllocError>
    requires parts { AllByRecursion (HasParts measures.now) calls.now }
    requires ready { AllByRecursion IsReady calls.now }
    requires naturals { All (λ x. pos 0 ≤ℤ x) values.now }
    requires room { count_of calls.now ≤ length values.now }
    ensures { IfOk result (AreFallsIf measures.now calls.now values.now) }
{
    let mut falls = Sequence::new(alloc);
    let mut values = values;
    for own in calls {
        let by = multipliers_at(alloc, own, values)?;
        let Some(fall) = fall_at(alloc, own, measures, by)? else {
            return Ok(None);
        };
        falls.push(fall)?;
        values = values_after(own, values);
    }
    Ok(Some(falls))
}
