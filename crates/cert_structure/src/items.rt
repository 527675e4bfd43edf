//! How many items a table has of a number.

ghost use Rattle.std.specs.Prelude.{◌≡◌, length};
ghost use Rattle.cert_structure.specs.Shape.{items_of};

use sequences::Sequence;

/// How many items a table has of a number, which counts from 0. Past the end of the table there are none.
pub fn count_of<T>(items: &[Sequence<T>], number: u64) -> u64
    ensures { result ≡ length (items_of items.now number) }
{
    match items.get(number as usize) {
        Some(own) => own.len() as u64,
        None => 0,
    }
}
