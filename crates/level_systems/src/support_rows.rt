//! The rows of the system of a support.

ghost use Rattle.std.specs.Prelude.{◌≡◌, ◌<◌, ◌+◌, ◌≤ℤ◌, ◌-ℤ◌, ◌++◌, ◌∷◌, ℕ, ℤ, true, All, IfOk, OnOk, length, map, neg_ℤ, pos};
ghost use Rattle.std.specs.List.{AllByRecursion};
ghost use Rattle.exact128.specs.Fits.{fits};
ghost use Rattle.exact128.specs.Sums.{entry};
ghost use Rattle.linear_rows.specs.Plain.{plain_row, plain_rows, HaveWidth};
ghost use Rattle.linear_rows.specs.Solving.{zeros};
ghost use Rattle.std.specs.Prelude.{List};
ghost use Rattle.cti_terms.specs.Tree.{Tree};
ghost use Rattle.call_components.specs.Numbers.{number_of};
ghost use Rattle.level_systems.specs.Held.{AreSizes, held_numbers, live_of, spelled};
ghost use Rattle.level_systems.specs.Recalled.{HasNumbers, Recalls, count_of};
ghost use Rattle.termination_model.specs.mappings.OwnCalls.{OwnCall as Recalled};
ghost use Rattle.level_systems.specs.declared.own_call.OwnCall.{OwnCall};
ghost use Rattle.termination_model.specs.mappings.SupportSystem.{call_rows, less_one, offset_share, share, support_rows};

use crate::own_call::OwnCall;
use crate::position::Position;
use cti_terms::PredId;
use linear_rows::{Numbers, Row, Rows, number};
use std::alloc::{AllocError, Global};

/// The most numbers in the rows of a system, which take 512 MB in each of the tables that a search makes of them. A
/// system with more is out of memory.
const MOST_NUMBERS: usize = 1 << 25;

/// Whether a system has room for so many more rows. Without room, it is out of memory.
pub(crate) fn check_room(system: &Rows, more: usize) -> Result<(), AllocError> {
    let rows = system.list.len().saturating_add(more);
    if rows.saturating_mul(system.width as usize) > MOST_NUMBERS {
        return Err(AllocError);
    }
    Ok(())
}

/// What a position's coefficient counts in a column of the level of an atom with these sizes.
fn share_of(pred: PredId, sizes: &Rows, x: usize, position: &Position) -> i128
    requires sizes { AreSizes x sizes.now }
    ensures share { result ≡ share pred.0 (plain_rows sizes.now.list) x (spelled position.now) }
    ensures natural { pos 0 ≤ℤ result }
{
    let place = position.argument as usize;
    if pred != position.pred || sizes.list.len() <= place {
        return 0;
    }
    number(sizes.list.get(place), x)
}

/// What a position's coefficient counts in a column of a call's row.
fn position_of(own: &OwnCall, x: usize, position: &Position) -> i128
    requires head { AreSizes x own.now.caller_sizes }
    requires call { AreSizes x own.now.callee_sizes }
    ensures { result ≡ share own.now.caller.0 (plain_rows own.now.caller_sizes.list) x
        (spelled position.now) -ℤ share own.now.callee.0 (plain_rows own.now.callee_sizes.list) x
        (spelled position.now) }
{
    share_of(own.caller, &own.caller_sizes, x, position)
        - share_of(own.callee, &own.callee_sizes, x, position)
}

/// What the coefficients of positions count in a column of a call's row.
pub(crate) fn add_positions(
    row: &mut Vec<i128>,
    own: &OwnCall,
    x: usize,
    positions: &[Position],
) -> Result<(), AllocError>
    requires head { AreSizes x own.now.caller_sizes }
    requires call { AreSizes x own.now.callee_sizes }
    ensures { OnOk result (row.new.items ≡ row.old.items ++ map (λ p.
        share own.now.caller.0 (plain_rows own.now.caller_sizes.list) x
        (spelled p) -ℤ share own.now.callee.0 (plain_rows own.now.callee_sizes.list) x
        (spelled p)) positions.now) }
{
    for position in positions {
        row.push(position_of(own, x, position))?;
    }
    Ok(())
}

/// What the offset of a member counts in a column of a call's row.
fn offset_of(own: &OwnCall, x: usize, member: PredId) -> i128
    ensures { result ≡ offset_share own.now.caller.0 x member.0 -ℤ offset_share own.now.callee.0 x member.0 }
{
    if x > 0 {
        return 0;
    }
    i128::from(own.caller == member) - i128::from(own.callee == member)
}

/// What the offsets of members count in a column of a call's row.
pub(crate) fn add_offsets(
    row: &mut Vec<i128>,
    own: &OwnCall,
    x: usize,
    members: &[PredId],
) -> Result<(), AllocError>
    ensures { OnOk result (row.new.items ≡ row.old.items ++ map
        (λ m. offset_share own.now.caller.0 x m.0 -ℤ offset_share own.now.callee.0 x m.0) members.now) }
{
    for member in members {
        row.push(offset_of(own, x, *member))?;
    }
    Ok(())
}

/// The given number of zeros.
pub(crate) fn add_zeros(row: &mut Vec<i128>, count: usize) -> Result<(), AllocError>
    ensures { OnOk result (row.new.items ≡ row.old.items ++ zeros count) }
{
    for _place in 0..count {
        row.push(0)?;
    }
    Ok(())
}

/// The number of a row with the other sign.
fn negated(row: &Row, x: usize) -> i128
    requires there { x < length (plain_row row.now) }
    requires fits { fits (entry (plain_row row.now) x) ≡ true }
    ensures { result ≡ neg_ℤ (entry (plain_row row.now) x) }
{
    -number(row, x)
}

/// What the multipliers of the rows before a call count in a column of its row.
pub(crate) fn add_multipliers(row: &mut Vec<i128>, rows: &[Row], x: usize) -> Result<(), AllocError>
    requires there { All (λ r. x < length (plain_row r)) rows.now }
    requires fits { All (λ r. fits (entry (plain_row r) x) ≡ true) rows.now }
    ensures { OnOk result (row.new.items ≡ row.old.items ++ map
        (λ r. neg_ℤ (entry (plain_row r) x)) rows.now) }
{
    for before in rows {
        row.push(negated(before, x))?;
    }
    Ok(())
}

/// The 1 by which levels fall, in a column.
pub(crate) fn less_one(x: usize) -> i128
    ensures { result ≡ less_one x }
{
    if x == 0 { -1 } else { 0 }
}

/// The numbers of the coefficients in the row of a call and a column, with the multipliers of other calls around its
/// own.
fn row_numbers(
    alloc: Global,
    own: &OwnCall,
    positions: &[Position],
    members: &[PredId],
    before: usize,
    after: usize,
    x: usize,
) -> Result<Vec<i128>, AllocError>
    requires head { AreSizes x own.now.caller_sizes }
    requires call { AreSizes x own.now.callee_sizes }
    requires there { All (λ r. x < length (plain_row r)) own.now.rows.list }
    requires fits { All (λ r. fits (entry (plain_row r) x) ≡ true) own.now.rows.list }
    ensures { IfOk result (λ row. row.items
        ≡ held_numbers own.now positions.now members.now before after x) }
{
    let mut row = Vec::new(alloc);
    add_positions(&mut row, own, x, positions)?;
    add_offsets(&mut row, own, x, members)?;
    add_zeros(&mut row, before)?;
    add_multipliers(&mut row, own.rows.list.as_slice(), x)?;
    add_zeros(&mut row, after)?;
    Ok(row)
}

/// The row of a call and a column.
fn call_row(
    alloc: Global,
    own: &OwnCall,
    positions: &[Position],
    members: &[PredId],
    before: usize,
    after: usize,
    x: usize,
) -> Result<Row, AllocError>
    requires head { AreSizes x own.now.caller_sizes }
    requires call { AreSizes x own.now.callee_sizes }
    requires there { All (λ r. x < length (plain_row r)) own.now.rows.list }
    requires fits { All (λ r. fits (entry (plain_row r) x) ≡ true) own.now.rows.list }
    ensures { IfOk result (λ row. plain_row row ≡ less_one x
        ∷ held_numbers own.now positions.now members.now before after x) }
{
    let row = row_numbers(alloc, own, positions, members, before, after, x)?;
    Ok(Row {
        constant: less_one(x),
        coeffs: Numbers::from_vec(row),
    })
}

/// The rows of a call, one for each column, with the multipliers of other calls around its own.
fn add_call(
    alloc: Global,
    own: &OwnCall,
    positions: &[Position],
    members: &[PredId],
    before: usize,
    after: usize,
    system: &mut Rows,
) -> Result<(), AllocError>
    requires numbers { HasNumbers own.now }
    requires width { length positions.now +
        (length members.now + (before + (length own.now.rows.list + after))) ≡ system.old.width }
    ensures width { system.new.width ≡ system.old.width }
    ensures widths { HaveWidth system.old.width system.old.list
        → HaveWidth system.new.width system.new.list }
    ensures rows { OnOk result ((expression : ℕ → Tree → List ℤ) (o : Recalled)
        → Recalls expression o own.now
        → plain_rows system.new.list ≡ plain_rows system.old.list ++ call_rows expression
        (map spelled positions.now) (map number_of members.now) before after o) }
{
    let columns = own.rows.width as usize + 1;
    check_room(system, columns)?;
    for x in 0..columns {
        system.push(call_row(alloc, own, positions, members, before, after, x)?)?;
    }
    Ok(())
}

/// How many multipliers the calls that can be reached have together. There is no memory for more than a count can say.
fn count_of(calls: &[OwnCall]) -> Result<usize, AllocError>
    ensures { IfOk result (λ n. n ≡ count_of calls.now) }
{
    let mut count = 0usize;
    for own in calls {
        if own.empty.is_some() {
            continue;
        }
        let Some(more) = count.checked_add(own.rows.list.len()) else {
            return Err(AllocError);
        };
        count = more;
    }
    Ok(count)
}

/// How many unknowns a system has. More than 2^32 have no memory.
pub(crate) fn width_of(positions: usize, members: usize, count: usize) -> Result<u32, AllocError>
    ensures { IfOk result (λ n. n ≡ positions + (members + count)) }
{
    let Some(others) = members.checked_add(count) else {
        return Err(AllocError);
    };
    let Some(all) = positions.checked_add(others) else {
        return Err(AllocError);
    };
    match u32::try_from(all) {
        Ok(width) => Ok(width),
        Err(_) => Err(AllocError),
    }
}

/// The system of a support: what coefficients at these positions, offsets of these members and multipliers have to obey
/// so that the mapping falls at each call that can be reached. It is out of memory with more than `MOST_NUMBERS`
/// numbers.
pub fn support_system(
    alloc: Global,
    calls: &[OwnCall],
    positions: &[Position],
    members: &[PredId],
) -> Result<Rows, AllocError>
    requires numbers { AllByRecursion HasNumbers calls.now }
    ensures width { IfOk result
        (λ rows. rows.width ≡ length positions.now + (length members.now + count_of calls.now)) }
    ensures widths { IfOk result (λ rows. HaveWidth rows.width rows.list) }
    ensures rows { IfOk result (λ rows. (expression : ℕ → Tree → List ℤ) (re : OwnCall → Recalled)
        → AllByRecursion (λ own. Recalls expression (re own) own) calls.now
        → plain_rows rows.list ≡ support_rows expression (map spelled positions.now)
        (map number_of members.now) (map re (live_of calls.now))) }
{
    let count = count_of(calls)?;
    let mut system = Rows::new(alloc, width_of(positions.len(), members.len(), count)?);
    let mut before = 0;
    for own in calls {
        if own.empty.is_some() {
            continue;
        }
        let after = count - before - own.rows.list.len();
        add_call(alloc, own, positions, members, before, after, &mut system)?;
        before += own.rows.list.len();
    }
    Ok(system)
}
