//! Worked rows: both ways of solving, and the test of a row.

ghost use Rattle.std.specs.Prelude.{◌≡◌, length};
ghost use Rattle.linear_rows.specs.Plain.{HaveWidth};

use crate::given::{add, crowd, row, rows};
use fourier::{ElimFault, Solved};
use linear_rows::{Row, Rows};
use simplex::{Basis, Held, Implied, holds, implied};
use std::alloc::Global;

/// What solving says.
#[derive(Clone, Copy)]
enum Said {
    /// There is a point at which the last variable is at least this whole number, and less than the next.
    Last(i128),
    /// There is no point, by multipliers of scale 0.
    Nowhere,
    /// The first step leaves too many rows.
    Blown,
}

/// Whether solving says this of rows over this number of variables.
fn is_said(solved: Result<Solved, ElimFault>, width: u32, said: Said) -> bool {
    match (solved, said) {
        (Ok(Solved::Point(point)), Said::Last(last)) => {
            let value = point.w.entry((width as usize).saturating_sub(1));
            value.checked_div(point.t) == Some(last)
        }
        (Ok(Solved::Refuted(by)), Said::Nowhere) => by.scale == 0,
        (Err(ElimFault::Blown { step, wide }), Said::Blown) => step == 1 && !wide,
        _ => false,
    }
}

/// Whether elimination and pivots say this of rows.
fn are_said(alloc: Global, given: &Rows, eliminated: Said, pivoted: Said) -> bool
    requires { HaveWidth given.now.width given.now.list }
{
    is_said(fourier::solve(alloc, given), given.width, eliminated)
        && is_said(simplex::solve(alloc, given), given.width, pivoted)
}

/// Whether elimination and pivots both say this of the rows of these numbers.
fn both_say(alloc: Global, width: u32, list: &[&[i128]], said: Said) -> Option<bool> {
    let given = rows(alloc, width, list)?;
    Some(are_said(alloc, &given, said, said))
}

/// Rows, and what both ways say of them. The last variable of the points is at least 2.
const SOLVED: [(u32, &[&[i128]], Said); 6] = [
    (1, &[&[-2, 1]], Said::Last(2)),
    (1, &[&[-2, 1], &[1, -1]], Said::Nowhere),
    (
        3,
        &[
            &[-1, 1, -1, 0],
            &[-1, 0, 1, 0],
            &[0, -1, 0, 1],
            &[2, 0, 0, -1],
        ],
        Said::Last(2),
    ),
    (
        3,
        &[&[-1, 1, -1, 0], &[-1, 0, 1, 0], &[1, -1, 0, 0]],
        Said::Nowhere,
    ),
    (
        8,
        &[
            &[-2, 0, 0, 0, 0, 0, 0, 1, 0],
            &[0, 0, 0, 0, 0, 0, 0, -1, 1],
            &[4, 0, 0, -1, 0, 0, 0, 0, -2],
        ],
        Said::Last(2),
    ),
    (
        8,
        &[
            &[-2, 0, 0, 0, 0, 0, 0, 1, 0],
            &[0, 0, 0, 0, 0, 0, 0, -1, 1],
            &[3, 0, 0, -1, 0, 0, 0, 0, -2],
        ],
        Said::Nowhere,
    ),
];

#[test]
fn both_ways(rt: HostRuntime) {
    for (width, list, said) in &SOLVED {
        assert!(rt;
            both_say(rt.alloc(), *width, list, *said) == Some(true),
            "{list:?}"
        );
    }
}

/// Whether pivots solve rows of which elimination leaves too many, before and after a row that refutes them.
fn are_crowds_solved(alloc: Global) -> Option<bool> {
    let mut given = crowd(alloc, 65)?;
    add(alloc, &mut given, &[-2, 0, 0, 1])?;
    if !are_said(alloc, &given, Said::Blown, Said::Last(2)) {
        return Some(false);
    }
    add(alloc, &mut given, &[1, 0, 0, -1])?;
    Some(are_said(alloc, &given, Said::Blown, Said::Nowhere))
}

#[test]
fn crowds(rt: HostRuntime) {
    assert!(rt; are_crowds_solved(rt.alloc()) == Some(true));
}

/// What the test of a row says, or None where it is blown.
fn answer_of(held: Held) -> Option<bool> {
    match held {
        Held::Yes(_) => Some(true),
        Held::No(_) => Some(false),
        Held::Blown => None,
    }
}

/// Whether this is what the test says of a row where the third variable is at least 2, and at most twice the first.
fn is_held(alloc: Global, numbers: &[i128], want: Option<bool>) -> Option<bool> {
    let given = rows(alloc, 3, &[&[-2, 0, 0, 1], &[0, 2, 0, -1]])?;
    let target = row(alloc, 3, numbers)?;
    let held = holds(alloc, &given, &target).ok()?;
    Some(answer_of(held) == want)
}

/// Rows, and what their tests say.
const TESTS: [([i128; 4], Option<bool>); 7] = [
    ([-1, 0, 0, 1], Some(true)),
    ([-3, 0, 0, 1], Some(false)),
    ([-1, 1, 0, 0], Some(true)),
    ([-2, 1, 0, 0], Some(false)),
    ([0, 0, 1, 0], Some(true)),
    ([-1, 0, 1, 0], Some(false)),
    ([i128::MIN, 0, 0, 1], None),
];

#[test]
fn tests_of_rows(rt: HostRuntime) {
    for (numbers, want) in &TESTS {
        assert!(rt;
            is_held(rt.alloc(), numbers, *want) == Some(true),
            "{numbers:?}"
        );
    }
}

/// Whether a row is said to be implied, or None where nothing is proved.
fn said_of(said: Implied) -> Option<bool> {
    match said {
        Implied::Yes => Some(true),
        Implied::No(_) => Some(false),
        Implied::Unsure(_) => None,
        Implied::Open => None,
    }
}

/// Whether this is what a search says of a row, or a second one where the first, from the basis of other rows, finds
/// nothing.
fn is_implied(
    alloc: Global,
    given: &Rows,
    target: &Row,
    basis: &mut Basis,
    want: bool,
) -> Option<bool>
    requires given { HaveWidth given.now.width given.now.list }
    requires target { length target.now.coeffs ≡ given.now.width }
{
    let first = said_of(implied(alloc, given, target, basis).ok()?);
    let said = match first {
        Some(said) => said,
        None => said_of(implied(alloc, given, target, basis).ok()?)?,
    };
    Some(said == want)
}

/// Whether this is said of a row where each of two variables is at least 1, the second at most twice the first, and the
/// last of the rows holds.
fn is_implied_from(
    alloc: Global,
    last: &[i128],
    numbers: &[i128],
    basis: &mut Basis,
    want: bool,
) -> Option<bool> {
    let given = rows(alloc, 2, &[&[-1, 1, 0], &[-1, 0, 1], &[0, 2, -1], last])?;
    let target = row(alloc, 2, numbers)?;
    is_implied(alloc, &given, &target, basis, want)
}

/// Last rows, tested rows, and whether they are implied. The second half begins with a basis of other rows.
const TESTS_FROM_A_BASIS: [([i128; 3], [i128; 3], bool); 12] = [
    ([6, -1, -1], [-2, 1, 1], true),
    ([6, -1, -1], [-3, 1, 1], false),
    ([6, -1, -1], [5, -1, 0], true),
    ([6, -1, -1], [4, -1, 0], false),
    ([6, -1, -1], [4, 0, -1], true),
    ([6, -1, -1], [3, 0, -1], false),
    ([6, -1, -1], [i128::MIN, 0, 1], false),
    ([3, 1, -1], [4, 0, -1], false),
    ([3, 1, -1], [4, 1, -1], true),
    ([3, 1, -1], [2, 1, -1], false),
    ([-3, -1, -1], [-9, 1, 1], true),
    ([-3, -1, -1], [-1, 0, 0], true),
];

/// The last row bounds both variables or only their difference.
#[test]
fn tests_from_a_basis(rt: HostRuntime) {
    let mut basis = Basis::new(rt.alloc(), 2, None).expect(&rt, "memory");
    for (last, numbers, want) in &TESTS_FROM_A_BASIS {
        assert!(rt;
            is_implied_from(rt.alloc(), last, numbers, &mut basis, *want) == Some(true),
            "{numbers:?}"
        );
    }
}

/// 2^90.
const GREAT: i128 = 1_237_940_039_285_380_274_899_124_224;

/// 2^89.
const HALF: i128 = 618_970_019_642_690_137_449_562_112;

/// 2^80.
const LESS: i128 = 1_208_925_819_614_629_174_706_176;

/// Whether this is said of a row where the first variable is a little above the second, and that above the third. The
/// multipliers and the points have more than 128 bits.
fn is_implied_by_great(alloc: Global, numbers: &[i128], want: bool) -> Option<bool> {
    let given = rows(
        alloc,
        3,
        &[&[0, GREAT, -GREAT - 1, 0], &[0, 0, HALF + 3, -HALF - 5]],
    )?;
    let target = row(alloc, 3, numbers)?;
    let mut basis = Basis::new(alloc, 3, None).ok()?;
    is_implied(alloc, &given, &target, &mut basis, want)
}

/// Tested rows, and whether they are implied.
const TESTS_OF_GREAT: [([i128; 4], bool); 4] = [
    ([0, 1, 0, -1], true),
    ([0, GREAT, 0, -GREAT - 1], true),
    ([0, LESS, 0, -LESS - 1], false),
    ([-1, 1, 0, -1], false),
];

#[test]
fn tests_of_great_numbers(rt: HostRuntime) {
    for (numbers, want) in &TESTS_OF_GREAT {
        assert!(rt;
            is_implied_by_great(rt.alloc(), numbers, *want) == Some(true),
            "{numbers:?}"
        );
    }
}
