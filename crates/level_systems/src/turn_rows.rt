//! The rows of the system of a turn.

ghost use Rattle.std.specs.Prelude.{◌≡◌, ◌<◌, ◌+◌, ◌++◌, ◌∷◌, [], ℕ, ℤ, true, All, IfOk, OnOk, length, map, negsuc, pos, sum_by};
ghost use Rattle.std.specs.List.{AllByRecursion};
ghost use Rattle.exact128.specs.Fits.{fits};
ghost use Rattle.exact128.specs.Sums.{entry};
ghost use Rattle.linear_rows.specs.Plain.{plain_row, plain_rows, HaveWidth};
ghost use Rattle.linear_rows.specs.Solving.{zeros};
ghost use Rattle.std.specs.Prelude.{List};
ghost use Rattle.cti_terms.specs.Tree.{Tree};
ghost use Rattle.call_components.specs.Numbers.{number_of};
ghost use Rattle.level_systems.specs.Held.{AreSizes, spelled};
ghost use Rattle.level_systems.specs.Recalled.{HasNumbers, Recalls};
ghost use Rattle.level_systems.specs.Turned.{all_rows, held_of, turned_numbers};
ghost use Rattle.termination_model.specs.mappings.OwnCalls.{OwnCall as Recalled};
ghost use Rattle.level_systems.specs.declared.own_call.OwnCall.{OwnCall};
ghost use Rattle.termination_model.specs.lists.TurnSystem.{call_turn_rows, drop_entries, ones, turn_rows};

use crate::own_call::OwnCall;
use crate::position::Position;
use crate::support_rows::{
    add_multipliers, add_offsets, add_positions, add_zeros, check_room, less_one, width_of,
};
use cti_terms::PredId;
use linear_rows::{Numbers, Row, Rows};
use std::alloc::{AllocError, Global};

/// What the drops of calls count in a column of a call's row, with the given number of calls before and after it.
fn add_drops(row: &mut Vec<i128>, earlier: usize, later: usize, x: usize) -> Result<(), AllocError>
    ensures { OnOk result (row.new.items ≡ row.old.items ++ drop_entries earlier later x) }
{
    add_zeros(row, earlier)?;
    row.push(less_one(x))?;
    add_zeros(row, later)
}

/// The unknowns of a turn's system, as one of its calls finds them: the coefficients at positions and the offsets of
/// members, and how many drops and multipliers other calls have around its own.
#[derive(Clone, Copy)]
struct Unknowns<'a> {
    positions: &'a [Position],
    members: &'a [PredId],
    /// How many drops stand before that of the call, and how many after it.
    earlier: usize,
    later: usize,
    /// How many multipliers stand before those of the call, and how many after them.
    before: usize,
    after: usize,
}

impl Unknowns<'_> {
    /// The numbers after the constant in the row of the call and a column.
    fn turn_numbers(&self, alloc: Global, own: &OwnCall, x: usize) -> Result<Vec<i128>, AllocError>
        requires head { AreSizes x own.now.caller_sizes }
        requires call { AreSizes x own.now.callee_sizes }
        requires there { All (λ r. x < length (plain_row r)) own.now.rows.list }
        requires fits { All (λ r. fits (entry (plain_row r) x) ≡ true) own.now.rows.list }
        ensures { IfOk result (λ row. row.items
            ≡ turned_numbers own.now self.now.positions.now self.now.members.now self.now.earlier self.now.later
            self.now.before self.now.after x) }
    {
        let mut row = Vec::new(alloc);
        add_positions(&mut row, own, x, self.positions)?;
        add_offsets(&mut row, own, x, self.members)?;
        add_drops(&mut row, self.earlier, self.later, x)?;
        add_zeros(&mut row, self.before)?;
        add_multipliers(&mut row, own.rows.list.as_slice(), x)?;
        add_zeros(&mut row, self.after)?;
        Ok(row)
    }

    /// The row of the call and a column.
    fn turn_row(&self, alloc: Global, own: &OwnCall, x: usize) -> Result<Row, AllocError>
        requires head { AreSizes x own.now.caller_sizes }
        requires call { AreSizes x own.now.callee_sizes }
        requires there { All (λ r. x < length (plain_row r)) own.now.rows.list }
        requires fits { All (λ r. fits (entry (plain_row r) x) ≡ true) own.now.rows.list }
        ensures { IfOk result (λ row. plain_row row
            ≡ pos 0 ∷ turned_numbers own.now self.now.positions.now self.now.members.now self.now.earlier
            self.now.later self.now.before self.now.after x) }
    {
        let row = self.turn_numbers(alloc, own, x)?;
        Ok(Row {
            constant: 0,
            coeffs: Numbers::from_vec(row),
        })
    }

    /// The rows of the call, one for each column.
    fn add_turn(&self, alloc: Global, own: &OwnCall, system: &mut Rows) -> Result<(), AllocError>
        requires numbers { HasNumbers own.now }
        requires width { length self.now.positions.now +
            (length self.now.members.now + ((self.now.earlier + (self.now.later + 1)) +
            (self.now.before + (length own.now.rows.list + self.now.after)))) ≡ system.old.width }
        ensures width { system.new.width ≡ system.old.width }
        ensures widths { HaveWidth system.old.width system.old.list
            → HaveWidth system.new.width system.new.list }
        ensures rows { OnOk result ((expression : ℕ → Tree → List ℤ) (o : Recalled)
            → Recalls expression o own.now
            → plain_rows system.new.list ≡ plain_rows system.old.list ++ call_turn_rows expression
            (map spelled self.now.positions.now) (map number_of self.now.members.now) self.now.earlier
            self.now.later self.now.before self.now.after o) }
    {
        let columns = own.rows.width as usize + 1;
        check_room(system, columns)?;
        for x in 0..columns {
            let row = self.turn_row(alloc, own, x)?;
            system.push(row)?;
        }
        Ok(())
    }
}

/// The given number of ones.
fn add_ones(row: &mut Vec<i128>, count: usize) -> Result<(), AllocError>
    ensures { OnOk result (row.new.items ≡ row.old.items ++ ones count) }
{
    for _place in 0..count {
        row.push(1)?;
    }
    Ok(())
}

/// The row that says that the drops are together at least 1.
fn sum_row(
    alloc: Global,
    positions: usize,
    members: usize,
    calls: usize,
    count: usize,
) -> Result<Row, AllocError>
    ensures { IfOk result (λ row. plain_row row
        ≡ negsuc 0 ∷ (((zeros positions ++ zeros members) ++ ones calls) ++ zeros count)) }
{
    let mut row = Vec::new(alloc);
    add_zeros(&mut row, positions)?;
    add_zeros(&mut row, members)?;
    add_ones(&mut row, calls)?;
    add_zeros(&mut row, count)?;
    Ok(Row {
        constant: -1,
        coeffs: Numbers::from_vec(row),
    })
}

/// How many rows the calls have before them together. There is no memory for more than a count can say.
fn all_rows(calls: &[&OwnCall]) -> Result<usize, AllocError>
    ensures { IfOk result (λ n. n ≡ all_rows (held_of calls.now)) }
{
    let mut count = 0usize;
    for own in calls {
        let Some(more) = count.checked_add(own.rows.list.len()) else {
            return Err(AllocError);
        };
        count = more;
    }
    Ok(count)
}

/// The system of a turn: what coefficients at these positions, offsets of these members, drops of these calls and
/// multipliers have to obey so that the mapping rises at none of the calls and falls at one of them.
pub fn turn_system(
    alloc: Global,
    calls: &[&OwnCall],
    positions: &[Position],
    members: &[PredId],
) -> Result<Rows, AllocError>
    requires numbers { AllByRecursion HasNumbers (held_of calls.now) }
    ensures width { IfOk result
        (λ rows. rows.width ≡ length positions.now +
        (length members.now + (length calls.now + all_rows (held_of calls.now)))) }
    ensures widths { IfOk result (λ rows. HaveWidth rows.width rows.list) }
    ensures rows { IfOk result (λ rows. (expression : ℕ → Tree → List ℤ) (re : OwnCall → Recalled)
        → AllByRecursion (λ own. Recalls expression (re own) own) (held_of calls.now)
        → plain_rows rows.list ≡ turn_rows expression (map spelled positions.now)
        (map number_of members.now) (map re (held_of calls.now))) }
{
    let count = all_rows(calls)?;
    let Some(others) = calls.len().checked_add(count) else {
        return Err(AllocError);
    };
    let mut system = Rows::new(alloc, width_of(positions.len(), members.len(), others)?);
    let mut before = 0;
    let mut earlier = 0;
    for own in calls {
        let rows = own.rows.list.len();
        let unknowns = Unknowns {
            positions,
            members,
            earlier,
            later: calls.len() - earlier - 1,
            before,
            after: count - before - rows,
        };
        unknowns.add_turn(alloc, own, &mut system)?;
        before += rows;
        earlier += 1;
    }
    let last = sum_row(alloc, positions.len(), members.len(), calls.len(), count)?;
    system.push(last)?;
    Ok(system)
}
