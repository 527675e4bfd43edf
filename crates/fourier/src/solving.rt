//! Solving of rows over naturals.

ghost use Rattle.std.specs.Prelude.{◌≡◌, ◌+◌, ◌<◌, ◌^◌, All, length, IfOk, IfSome, drop, take, true, pos, None, Some, if◌then◌else◌};
ghost use Rattle.linear_rows.specs.Plain.{plain_rows, HaveWidth};
ghost use Rattle.linear_rows.specs.Proves.{Refutes};
ghost use Rattle.linear_rows.specs.Solving.{solution, found_of, refutes_in};
ghost use Rattle.linear_rows.specs.Solving.Solution.{Blown as BlownStep, Refuted as RefutedBy};
ghost use Rattle.sparse_rows.specs.Adding.{AllFit};
ghost use Rattle.fourier.specs.History.{AllLongerThan};
ghost use Rattle.fourier.specs.Solves.{Spells, SpellsUnless, SpellsOrBlown, whole_back};
ghost use Rattle.linear_rows.specs.Decides.{Decides, RefutesInFit};

use crate::checking::{carried, point_fits};
use crate::fault::{ElimFault, ValueFault};
use crate::history::History;
use crate::scaling::{common_of, made_whole};
use crate::sequence::eliminate_columns;
use crate::starting::start_rows;
use crate::valuing::values_of;
use linear_rows::{Multipliers, Numbers, Point, Proof, Row, Rows, Solved, proves};
use sparse_rows::Line;
use std::alloc::{AllocError, Global};

/// Finds a point at which all rows hold, or multipliers that show that they hold nowhere.
///
/// All variables are at least 0, and t at least 1; they are eliminated in ascending order, t last. Blown says which
/// step, of which 0 is the rows' own numbers and the last is t's, and `wide` whether a number does not fit there; else
/// more than 4,096 rows are left. It also names the last step, as wide, where a number of the values or of the last
/// check does not fit.
///
/// Source: Fourier-Motzkin elimination and Farkas' lemma, as in Schrijver 1986. The orders are defined in linear_rows.
pub fn solve(alloc: Global, rows: &Rows) -> Result<Solved, ElimFault>
    requires { HaveWidth rows.now.width rows.now.list }

    // Exactly the solution of that definition, unless memory runs out.
    ensures exact { Spells (solution rows.now.width (plain_rows rows.now.list)) result }

    // What it is for.
    ensures decides { IfOk result (Decides rows.now.width (plain_rows rows.now.list)) }

    // For multipliers `proves` of the row of constant -1 and coefficients 0 answers Holds.
    ensures proved { IfOk result (RefutesInFit rows.now.width (plain_rows rows.now.list)) }
{
    solved(alloc, rows, false)
}

/// Finds what `solve` finds, or nothing where the solving is blown.
///
/// It stops in the first step that leaves too many rows, and so is quicker there.
pub fn solve_briefly(alloc: Global, rows: &Rows) -> Result<Option<Solved>, AllocError>
    requires { HaveWidth rows.now.width rows.now.list }

    // Exactly the solution of that definition, but for how a solving is blown.
    ensures spells { IfOk result
        (SpellsOrBlown (solution rows.now.width (plain_rows rows.now.list))) }

    // What it is for.
    ensures decides { IfOk result
        (λ o. IfSome o (Decides rows.now.width (plain_rows rows.now.list))) }
{
    match solved(alloc, rows, true) {
        Ok(solved) => Ok(Some(solved)),
        Err(ElimFault::Blown { .. }) => Ok(None),
        Err(ElimFault::Memory) => Err(AllocError),
    }
}

/// What solving finds, by brief steps or by whole ones.
fn solved(alloc: Global, rows: &Rows, brief: bool) -> Result<Solved, ElimFault>
    requires { HaveWidth rows.now.width rows.now.list }
    ensures { SpellsUnless brief (solution rows.now.width (plain_rows rows.now.list)) result }
{
    // A given number of variables begins as 2^64 numbers, for which there is no memory.
    let Some(last) = rows.width.checked_add(1) else {
        return Err(ElimFault::Memory);
    };
    let start = start_rows(alloc, rows)?;
    let steps = eliminate_columns(alloc, start, last as usize, last as usize, brief)?;
    if steps.left.len() > 0 {
        refuted(alloc, rows, steps.left.get(0), last)
    } else {
        found(alloc, rows, &steps.before, last)
    }
}

/// The point that values give, if its check is in numbers that fit.
fn found(alloc: Global, rows: &Rows, before: &History, last: u32) -> Result<Solved, ElimFault>
    requires width { HaveWidth rows.now.width rows.now.list }
    requires last { last ≡ rows.now.width + 1 }
    requires steps { length before.now ≡ rows.now.width + 1 }
    requires fit { All AllFit before.now }
    requires long { All (AllLongerThan (length before.now)) before.now }
    ensures { Spells (found_of rows.now.width (plain_rows rows.now.list)
        (whole_back before.now)) result }
{
    let width = rows.width as usize;
    let numbers = match whole_values(alloc, before) {
        Ok(numbers) => numbers,
        Err(ValueFault::Wide) => return Err(ElimFault::Blown {
            step: last,
            wide: true,
        }),
        Err(ValueFault::Memory) => return Err(ElimFault::Memory),
    };
    let t = numbers.entry(width);
    let w = front(numbers, width);
    if !point_fits(rows, t, w.as_slice()) {
        return Err(ElimFault::Blown {
            step: last,
            wide: true,
        });
    }
    Ok(Solved::Point(Point { t, w }))
}

/// The first numbers of a list.
fn front(numbers: Numbers, count: usize) -> Numbers
    ensures { result ≡ take count numbers }
{
    let mut items = numbers.into_vec();
    items.truncate(count);
    Numbers::from_vec(items)
}

/// The values of all columns, as whole numbers over their least common denominator.
fn whole_values(alloc: Global, before: &History) -> Result<Numbers, ValueFault>
    requires fit { All AllFit before.now }
    requires long { All (AllLongerThan (length before.now)) before.now }
    requires small { length before.now < 2 ^ 32 + 1 }
    ensures numbers { IfOk result (λ numbers. whole_back before.now ≡ Some numbers) }
    ensures long { IfOk result (λ numbers. length numbers ≡ length before.now) }
    ensures wide { result ≡ Err ValueFault.Wide → whole_back before.now ≡ None }
{
    let values = values_of(alloc, before)?;
    let Some(common) = common_of(&values) else {
        return Err(ValueFault::Wide);
    };
    made_whole(alloc, common, &values)
}

/// The multipliers that a row carries, if their test is in numbers that fit.
fn refuted(alloc: Global, rows: &Rows, line: &Line, last: u32) -> Result<Solved, ElimFault>
    requires width { HaveWidth rows.now.width rows.now.list }
    requires last { last ≡ rows.now.width + 1 }
    requires refutes { Refutes rows.now.width (plain_rows rows.now.list)
        (drop (last + 1) line.now) }
    ensures { Spells (if refutes_in (plain_rows rows.now.list) (drop (last + 1) line.now) 0
        (rows.now.width + 1) then RefutedBy (drop (last + 1) line.now) else
        (BlownStep last true)) result }
{
    let list = carried(alloc, line, last as usize + 1)?;
    let target = Row::bottom(alloc, rows.width)?;
    match proves(rows, list.as_slice(), &target, 0) {
        Proof::Holds => Ok(Solved::Refuted(Multipliers { scale: 0, list })),
        Proof::Fails => Err(ElimFault::Blown {
            step: last,
            wide: true,
        }),
        Proof::Wide => Err(ElimFault::Blown {
            step: last,
            wide: true,
        }),
    }
}
