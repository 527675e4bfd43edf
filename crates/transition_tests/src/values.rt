//! What numbers of mappings are multiplied by at points.

ghost use Rattle.std.specs.Prelude.{◌≡◌, SomeIff, Some, length, map, slice_get};
ghost use Rattle.exact128.specs.Sums.{dot, entry};
ghost use Rattle.linear_rows.specs.Plain.{plain_row};
ghost use Rattle.number_columns.specs.ColumnLists.{HasLength, HaveLength, plain_column, plain_columns};
ghost use Rattle.number_tests.specs.Levels.{natural};
ghost use Rattle.number_tests.specs.Refuting.{ValueFits, numbers_of};
ghost use Rattle.number_turns.specs.Recalled.{column_of, spelled};
ghost use Rattle.termination_model.specs.columns.ColumnRows.{or_empty};
ghost use Rattle.transitions.specs.StuckSets.{share};
ghost use Rattle.transition_tests.specs.Shape.{IsNaturalPoint};
ghost use Rattle.transition_tests.specs.StuckGroups.{ColumnFits, ShareFits};

use exact128::{plus, times};
use linear_rows::{Point, Row};
use number_turns::{AtomColumns, Feature};

/// The value of a row at a point, where each product and running sum fits.
///
/// The constant times `t` comes first, and then the products of the coefficients with the values in order.
pub(crate) fn value_at(row: &Row, point: &Point) -> Option<i128>
    requires { length row.now.coeffs ≡ length point.now.w }
    ensures { SomeIff result (ValueFits point.now (plain_row row.now))
        (dot (plain_row row.now) (numbers_of point.now)) }
{
    let Some(mut sum) = times(row.constant, point.t) else {
        return None;
    };
    for x in 0..row.coeffs.len() {
        let Some(product) = times(row.coeffs.entry(x), point.w.entry(x)) else {
            return None;
        };
        let Some(next) = plus(sum, product) else {
            return None;
        };
        sum = next;
    }
    Some(sum)
}

/// The value of a column at a point, and 0 where it has no row.
fn column_value(column: &Option<Row>, point: &Point) -> Option<i128>
    requires { HasLength (length point.now.w) (plain_column column.now) }
    ensures { SomeIff result (ColumnFits point.now (Some (plain_column column.now)))
        (dot (or_empty (plain_column column.now)) (numbers_of point.now)) }
{
    match column {
        Some(row) => value_at(row, point),
        None => Some(0),
    }
}

/// The value at a point of the column at a place, and 0 where it is not there.
fn value_of(columns: &[Option<Row>], place: usize, point: &Point) -> Option<i128>
    requires { HaveLength (length point.now.w) (plain_columns columns.now) }
    ensures { SomeIff result (ColumnFits point.now (slice_get (plain_columns columns.now) place))
        (entry (map (λ e. dot e (numbers_of point.now))
        (map or_empty (plain_columns columns.now))) place) }
{
    if place < columns.len() {
        column_value(&columns[place], point)
    } else {
        Some(0)
    }
}

/// By what a number of a mapping is multiplied in the level of an atom at a point.
pub(crate) fn share(atom: &AtomColumns, feature: Feature, point: &Point) -> Option<i128>
    requires naturals { IsNaturalPoint point.now }
    requires lengths { HaveLength (length point.now.w) (plain_columns atom.now.columns) }
    ensures { SomeIff result
        (ShareFits atom.now.member (map column_of atom.now.columns) point.now (spelled feature))
        (share atom.now.member (map column_of atom.now.columns)
        (natural point.now.t) (map natural point.now.w) (spelled feature)) }
{
    if atom.member != feature.member {
        return Some(0);
    }
    match feature.number.checked_sub(1) {
        Some(place) => value_of(atom.columns.as_slice(), place as usize, point),
        None => Some(point.t),
    }
}
