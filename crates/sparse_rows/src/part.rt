//! Numbers after zeros, and walks over them.

ghost use Rattle.std.specs.Prelude.{◌≡◌, ℕ, suc, ◌<◌, ◌≤◌, ◌+◌, ◌∷◌, ◌++◌, length, drop};
ghost use Rattle.exact128.specs.Sums.{entry};
ghost use Rattle.sparse_rows.specs.Sparse.{first_zeros, rest_at, StandsAt};
ghost use Rattle.linear_rows.specs.Solving.{zeros};

/// A number after the given number of zeros.
#[derive(Clone, Copy, PartialEq, Eq)]
pub struct Part {
    pub zeros: usize,
    pub number: i128,
}

/// Where a walk over parts stands: the given number of zeros before the part at a place.
#[derive(Clone, Copy, PartialEq, Eq)]
pub struct Place {
    pub index: usize,
    pub before: usize,
}

/// Where a walk comes to the part at a place.
pub fn place_at(parts: &[Part], tail: usize, index: usize) -> Place
    ensures index { result.index ≡ index }
    ensures before { result.before ≡ first_zeros (drop index parts.now) tail }
{
    let before = if index < parts.len() {
        parts[index].zeros
    } else {
        tail
    };
    Place { index, before }
}

/// A walk over the given number of zeros and the number after them, which is 0 where still more zeros stand there.
pub fn walk(parts: &[Part], tail: usize, place: Place, over: usize) -> (i128, Place)
    requires zeros { over ≤ place.before }
    requires more { over < length (rest_at parts.now tail place) }
    ensures { rest_at parts.now tail place ≡ zeros over ++ result.0
        ∷ rest_at parts.now tail result.1 }
{
    if over < place.before {
        let before = place.before - over - 1;
        return (
            0,
            Place {
                index: place.index,
                before,
            },
        );
    }
    let number = parts[place.index].number;
    (number, place_at(parts, tail, place.index + 1))
}

/// The number where a walk stands, 0 past the end, and the place after it.
pub fn next(parts: &[Part], tail: usize, place: Place) -> (i128, Place)
    ensures number { result.0 ≡ entry (rest_at parts.now tail place) 0 }
    ensures rest { (k : ℕ) → entry (rest_at parts.now tail result.1) k
        ≡ entry (rest_at parts.now tail place) (suc k) }
{
    if place.before > 0 {
        let before = place.before - 1;
        return (
            0,
            Place {
                index: place.index,
                before,
            },
        );
    }
    if place.index >= parts.len() {
        return (0, place);
    }
    let number = parts[place.index].number;
    (number, place_at(parts, tail, place.index + 1))
}

/// Where a walk comes to the number after the first one.
pub fn after_first(parts: &[Part], tail: usize) -> Place
    ensures { StandsAt parts.now tail 1 result }
{
    next(parts, tail, place_at(parts, tail, 0)).1
}
