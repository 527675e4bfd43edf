//! A value that was made.

ghost use Rattle.std.specs.Prelude.{◌≡◌, true, false, []};

use crate::poly::Poly;
use linear_rows::{Point, Rows};
use std::alloc::Global;

/// A value that was made, and whether it is weak, which is that its system or a test for it is blown: it then lists no
/// rows.
#[derive(Drop)]
pub struct Made<D> {
    pub value: D,
    pub weak: bool,
}

/// A polyhedron that is not weak.
pub(crate) fn strong(value: Poly) -> Made<Poly>
    ensures rows { result.value.rows ≡ value.rows }
    ensures weak { result.weak ≡ false }
{
    Made { value, weak: false }
}

/// What was made, with a point inside, where one is known.
pub(crate) fn about(made: Made<Poly>, inside: Option<Point>) -> Made<Poly>
    ensures rows { result.value.rows ≡ made.value.rows }
    ensures weak { result.weak ≡ made.weak }
{
    let mut made = made;
    made.value.inside = inside;
    made
}

/// A weak value, which lists no rows.
pub(crate) fn everything(alloc: Global, arity: u32) -> Made<Poly>
    ensures width { result.value.rows.width ≡ arity }
    ensures rows { result.value.rows.list ≡ [] }
    ensures weak { result.weak ≡ true }
{
    Made {
        value: Poly {
            rows: Rows::new(alloc, arity),
            inside: None,
        },
        weak: true,
    }
}
