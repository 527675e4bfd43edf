//! Lists of numbers, which count as 0 past their end.

ghost use Rattle.std.specs.Prelude.{◌≡◌, pos, slice_index_or};

use crate::sequence::Sequence;

impl Sequence<i128> {
    /// The number at a place, or 0 past the end. Places count from 0.
    pub fn entry(&self, place: usize) -> i128
        ensures { result ≡ slice_index_or self.now place (pos 0) }
    {
        let numbers = self.as_slice();
        if place < numbers.len() {
            numbers[place]
        } else {
            0
        }
    }
}
