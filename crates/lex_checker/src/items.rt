//! Items of lists by their number.

ghost use Rattle.std.specs.Prelude.{◌≡◌};
ghost use Rattle.number_tests.specs.Shape.{list_at};

use sequences::Sequence;

/// The items at a place, and none past the end.
pub(crate) fn items_at<T>(lists: &[Sequence<T>], place: usize) -> &[T]
    ensures { result.now ≡ list_at lists.now place }
{
    match lists.get(place) {
        Some(items) => items.as_slice(),
        None => &[],
    }
}
