//! Differences of naturals.

ghost use Rattle.std.specs.Prelude.{◌≡◌, ◌-ℤ◌, ◌≤ℤ◌, pos, true};
ghost use Rattle.exact128.specs.Fits.{fits};

/// The difference of two naturals, which fits.
pub(crate) fn difference(more: i128, less: i128) -> i128
    requires more { pos 0 ≤ℤ more }
    requires less { pos 0 ≤ℤ less }
    ensures value { result ≡ more -ℤ less }
    ensures fits { fits result ≡ true }
{
    more - less
}
