//! The rows of a turn's template.

ghost use Rattle.std.specs.Prelude.{◌≡◌, ◌+◌, ◌++◌, suc, IfOk, OnOk, length, map};
ghost use Rattle.std.specs.List.{AllByRecursion};
ghost use Rattle.linear_rows.specs.Plain.{HaveWidth, plain_row, plain_rows};
ghost use Rattle.linear_rows.specs.Solving.{zeros};
ghost use Rattle.linear_rows.specs.Step.{columns};
ghost use Rattle.number_turns.specs.Demanding.{HasItsNumbers, row_count, target_of, with_numbers};
ghost use Rattle.number_turns.specs.Recalled.{spelled};
ghost use Rattle.transitions.specs.Templates.{template_row, template_rows};

use crate::demand::Demand;
use crate::feature::Feature;
use linear_rows::{Numbers, Row, Rows};
use std::alloc::{AllocError, Global};

/// The most numbers in the rows of a template, which take 512 MB in each of the tables that a search makes of them. A
/// template with more is out of memory.
const MOST_NUMBERS: usize = 1 << 25;

/// Whether a template has room for so many more rows. Without room, it is out of memory.
fn check_room(system: &Rows, more: usize) -> Result<(), AllocError> {
    let rows = system.list.len().saturating_add(more);
    if rows.saturating_mul(system.width as usize) > MOST_NUMBERS {
        return Err(AllocError);
    }
    Ok(())
}

/// Adds the given number of zeros.
fn add_zeros(row: &mut Vec<i128>, count: usize) -> Result<(), AllocError>
    ensures { OnOk result (row.new.items ≡ row.old.items ++ zeros count) }
{
    for _place in 0..count {
        row.push(0)?;
    }
    Ok(())
}

/// Where a demand stands in a template: the numbers of the mapping, and how many multipliers other demands have before
/// and after its own.
#[derive(Clone, Copy)]
struct Place<'a> {
    demand: Demand<'a>,
    features: &'a [Feature],
    before: usize,
    after: usize,
}

impl Place<'_> {
    /// Adds the numbers after the constant in the row of column `x`.
    fn add_numbers(&self, row: &mut Vec<i128>, x: usize) -> Result<(), AllocError>
        requires { HasItsNumbers self.now.demand }
        ensures { OnOk result (row.new.items ≡ with_numbers self.now.features.now
            self.now.demand self.now.before self.now.after x row.old.items) }
    {
        self.demand.add_shares(row, self.features, x)?;
        self.demand.add_opposites(row, self.features, x)?;
        add_zeros(row, self.before)?;
        self.demand.add_multipliers(row, x)?;
        add_zeros(row, self.after)
    }

    /// The row of column `x`.
    fn row(&self, alloc: Global, x: usize) -> Result<Row, AllocError>
        requires { HasItsNumbers self.now.demand }
        ensures { IfOk result (λ row. plain_row row ≡ template_row self.now.before self.now.after
            (target_of (map spelled self.now.features.now) self.now.demand) x) }
    {
        let mut numbers = Vec::new(alloc);
        self.add_numbers(&mut numbers, x)?;
        Ok(Row {
            constant: self.demand.constant(x),
            coeffs: Numbers::from_vec(numbers),
        })
    }

    /// Adds the rows of the demand, one for each column.
    fn add_rows(&self, alloc: Global, system: &mut Rows) -> Result<(), AllocError>
        requires numbers { HasItsNumbers self.now.demand }
        requires width { length self.now.features.now + (length self.now.features.now +
            (self.now.before + (length self.now.demand.transition.now.rows.list + self.now.after)))
            ≡ system.old.width }
        ensures width { system.new.width ≡ system.old.width }
        ensures widths { HaveWidth system.old.width system.old.list
            → HaveWidth system.new.width system.new.list }
        ensures rows { OnOk result (plain_rows system.new.list ≡ plain_rows system.old.list ++
            map (template_row self.now.before self.now.after
            (target_of (map spelled self.now.features.now) self.now.demand))
            (columns 0 (suc self.now.demand.transition.now.rows.width))) }
    {
        let columns = self.demand.transition.rows.width as usize + 1;
        check_room(system, columns)?;
        for x in 0..columns {
            let row = self.row(alloc, x)?;
            system.push(row)?;
        }
        Ok(())
    }
}

/// How many rows are known for demands together. There is no memory for more than a count can say.
fn row_count(demands: &[Demand<'_>]) -> Result<usize, AllocError>
    ensures { IfOk result (λ n. n ≡ row_count demands.now) }
{
    let mut count = 0usize;
    for demand in demands {
        let Some(more) = count.checked_add(demand.transition.rows.list.len()) else {
            return Err(AllocError);
        };
        count = more;
    }
    Ok(count)
}

/// How many unknowns a template has, of so many numbers and multipliers. More than 2^32 have no memory.
fn width_of(features: usize, multipliers: usize) -> Result<u32, AllocError>
    ensures { IfOk result (λ n. n ≡ features + (features + multipliers)) }
{
    let Some(others) = features.checked_add(multipliers) else {
        return Err(AllocError);
    };
    let Some(all) = features.checked_add(others) else {
        return Err(AllocError);
    };
    match u32::try_from(all) {
        Ok(width) => Ok(width),
        Err(_) => Err(AllocError),
    }
}

/// The template of demands: what the numbers of a mapping, each the difference of two naturals, and the multipliers of
/// known rows have to obey so that these show what is asked. It is out of memory with more than `MOST_NUMBERS` numbers.
pub(crate) fn template(
    alloc: Global,
    demands: &[Demand<'_>],
    features: &[Feature],
) -> Result<Rows, AllocError>
    requires { AllByRecursion HasItsNumbers demands.now }
    ensures width { IfOk result (λ system. system.width
        ≡ length features.now + (length features.now + row_count demands.now)) }
    ensures widths { IfOk result (λ system. HaveWidth system.width system.list) }
    ensures rows { IfOk result (λ system. plain_rows system.list
        ≡ template_rows (map (target_of (map spelled features.now)) demands.now)) }
{
    let count = row_count(demands)?;
    let mut system = Rows::new(alloc, width_of(features.len(), count)?);
    let mut before = 0;
    for demand in demands {
        let rows = demand.transition.rows.list.len();
        let place = Place {
            demand: *demand,
            features,
            before,
            after: count - before - rows,
        };
        place.add_rows(alloc, &mut system)?;
        before += rows;
    }
    Ok(system)
}
