//! The values of all columns, the last column's first.

ghost use Rattle.std.specs.Prelude.{◌≡◌, ◌+◌, ◌<◌, ◌≤◌, ◌^◌, All, length, map, IfOk, None, Some};
ghost use Rattle.rational128.specs.Formulas.{fraction_of};
ghost use Rattle.linear_rows.specs.Step.{columns};
ghost use Rattle.sparse_rows.specs.Adding.{AllFit};
ghost use Rattle.fourier.specs.History.{values_back, AllLongerThan};

use crate::bounding::greatest;
use crate::fault::ValueFault;
use crate::history::History;
use rational128::Ratio;
use std::alloc::Global;
use std::collections::VecDeque;

/// The values of the columns from 1 on, from the rows before each column's elimination.
pub fn values_of(alloc: Global, before: &History) -> Result<VecDeque<Ratio, Global>, ValueFault>
    requires fit { All AllFit before.now }
    requires long { All (AllLongerThan (length before.now)) before.now }
    requires small { length before.now < 2 ^ 32 + 1 }
    ensures values { IfOk result (λ values. values_back (columns 1 (length before.now)) before.now
        ≡ Some (map fraction_of values.items)) }
    ensures long { IfOk result (λ values. length values.items ≡ length before.now) }
    ensures wide { result ≡ Err ValueFault.Wide
        → values_back (columns 1 (length before.now)) before.now ≡ None }
{
    let mut values = VecDeque::new(alloc);
    let mut i = before.len();
    while i > 0 {
        i -= 1;
        let value = match greatest(before.get(i), i + 1, &values) {
            Ok(value) => value,
            Err(_) => return Err(ValueFault::Wide),
        };
        if values.push_front(value).is_err() {
            return Err(ValueFault::Memory);
        }
    }
    Ok(values)
}
