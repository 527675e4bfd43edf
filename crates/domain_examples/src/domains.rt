//! Worked polyhedra, with ample memory. A row's constant comes first.

ghost use Rattle.std.specs.Prelude.{◌≡◌, ◌≤ℤ◌, pos, IfOk, All, length};
ghost use Rattle.linear_rows.specs.Plain.{HaveWidth, plain_row, plain_rows};
ghost use Rattle.polyhedra.specs.Telling.{IsSystem, HasNaturalHead};

use linear_rows::{Numbers, Row, Rows, System};
use polyhedra::{Domain, Poly};
use simplex::Held;
use std::alloc::Global;
use std::test::Fail;

fn row(alloc: Global, width: u32, numbers: &[i128]) -> Result<Row, Fail>
    ensures { IfOk result (λ row. length row.coeffs ≡ width) }
{
    let (constant, coeffs) = numbers.split_first().ok_or("a constant")?;
    if coeffs.len() != width as usize {
        return Err(Fail::from("the width"));
    }
    Ok(Row {
        constant: *constant,
        coeffs: Numbers::from_vec(Vec::from_slice(alloc, coeffs)?),
    })
}

fn rows(alloc: Global, width: u32, list: &[&[i128]]) -> Result<Rows, Fail>
    ensures rows { IfOk result (λ rows. HaveWidth rows.width rows.list) }
    ensures width { IfOk result (λ rows. rows.width ≡ width) }
{
    let mut rows = Rows::new(alloc, width);
    for numbers in list {
        rows.push(row(alloc, width, numbers)?)?;
    }
    Ok(rows)
}

/// A row of numbers of at least 0.
fn natural_row(alloc: Global, width: u32, numbers: &[u32]) -> Result<Row, Fail>
    ensures width { IfOk result (λ row. length row.coeffs ≡ width) }
    ensures natural { IfOk result (λ row. All (λ x. pos 0 ≤ℤ x) (plain_row row)) }
{
    let (constant, rest) = numbers.split_first().ok_or("a constant")?;
    if rest.len() != width as usize {
        return Err(Fail::from("the width"));
    }
    let mut coeffs = Numbers::new(alloc);
    for number in rest {
        coeffs.push(*number as i128)?;
    }
    Ok(Row {
        constant: *constant as i128,
        coeffs,
    })
}

fn natural_rows(alloc: Global, width: u32, list: &[&[u32]]) -> Result<Rows, Fail>
    ensures rows { IfOk result (λ rows. HaveWidth rows.width rows.list) }
    ensures width { IfOk result (λ rows. rows.width ≡ width) }
    ensures natural { IfOk result
        (λ rows. All (λ r. All (λ x. pos 0 ≤ℤ x) r) (plain_rows rows.list)) }
{
    let mut rows = Rows::new(alloc, width);
    for numbers in list {
        rows.push(natural_row(alloc, width, numbers)?)?;
    }
    Ok(rows)
}

/// A clause's system: the sizes of its head's arguments, and its body's rows.
fn system(alloc: Global, variables: u32, head: &[&[u32]], body: &[&[i128]]) -> Result<System, Fail>
    ensures system { IfOk result (λ s. IsSystem s) }
    ensures head { IfOk result (λ s. HasNaturalHead s) }
{
    let rows = rows(alloc, variables, body)?;
    let head = natural_rows(alloc, variables, head)?;
    Ok(System {
        variables,
        rows,
        head,
        wide: false,
    })
}

/// Whether these are the rows that a value lists.
fn lists(value: &Poly, rows: &[&[i128]]) -> bool {
    let list = &value.rows().list;
    if list.len() != rows.len() {
        return false;
    }
    for (row, numbers) in list.as_slice().iter().zip(rows.iter()) {
        match numbers.split_first() {
            Some((constant, coeffs)) => {
                if row.constant != *constant || row.coeffs.as_slice() != coeffs {
                    return false;
                }
            }
            None => return false,
        }
    }
    true
}

/// app([], Ys, Ys).
fn first_clause(alloc: Global) -> Result<System, Fail>
    ensures system { IfOk result (λ s. IsSystem s) }
    ensures head { IfOk result (λ s. HasNaturalHead s) }
{
    let head = [[0, 0].as_slice(), [0, 1].as_slice(), [0, 1].as_slice()];
    system(alloc, 1, head.as_slice(), [].as_slice())
}

/// app([X|Xs], Ys, [X|Zs]) :- app(Xs, Ys, Zs), where Xs has size 0, and Ys and Zs one size.
fn second_clause(alloc: Global) -> Result<System, Fail>
    ensures system { IfOk result (λ s. IsSystem s) }
    ensures head { IfOk result (λ s. HasNaturalHead s) }
{
    let head = [
        [1, 1, 1, 0, 0].as_slice(),
        [0, 0, 0, 1, 0].as_slice(),
        [1, 1, 0, 0, 1].as_slice(),
    ];
    let body = [
        [0, 0, -1, 0, 0].as_slice(),
        [0, 0, 0, -1, 1].as_slice(),
        [0, 0, 0, 1, -1].as_slice(),
    ];
    system(alloc, 4, head.as_slice(), body.as_slice())
}

/// Whether an image is not weak and lists these rows.
fn image_is(alloc: Global, clause: &System, rows: &[&[i128]]) -> Result<bool, Fail>
    requires system { IsSystem clause.now }
    requires head { HasNaturalHead clause.now }
{
    let made = Poly::image(alloc, clause)?;
    Ok(!made.weak && lists(&made.value, rows))
}

/// Whether a join is not weak and lists these rows.
fn join_is(alloc: Global, first: &Poly, second: &Poly, rows: &[&[i128]]) -> Result<bool, Fail> {
    if first.rows().width != second.rows().width {
        return Ok(false);
    }
    let made = first.join(alloc, second)?;
    Ok(!made.weak && lists(&made.value, rows))
}

/// The image of a clause.
fn image_of(alloc: Global, clause: &System) -> Result<Poly, Fail>
    requires system { IsSystem clause.now }
    requires head { HasNaturalHead clause.now }
{
    Ok(Poly::image(alloc, clause)?.value)
}

/// The rows of the fact, and of the rule.
fn fact(alloc: Global) -> Result<Poly, Fail> {
    let clause = first_clause(alloc)?;
    image_of(alloc, &clause)
}

fn rule(alloc: Global) -> Result<Poly, Fail> {
    let clause = second_clause(alloc)?;
    image_of(alloc, &clause)
}

/// The segment from the origin to 2 along one of two axes.
fn segment(alloc: Global, rows: &[&[i128]]) -> Result<Poly, Fail> {
    let head = [[0, 1, 0].as_slice(), [0, 0, 1].as_slice()];
    let clause = system(alloc, 2, head.as_slice(), rows)?;
    image_of(alloc, &clause)
}

/// What a test shows: that a row holds, or that it fails.
fn tells(alloc: Global, value: &Poly, width: u32, numbers: &[i128]) -> Result<Option<bool>, Fail> {
    let row = row(alloc, width, numbers)?;
    if value.rows().width != width {
        return Ok(None);
    }
    match value.holds(alloc, &row)? {
        Held::Yes(_) => Ok(Some(true)),
        Held::No(_) => Ok(Some(false)),
        Held::Blown => Ok(None),
    }
}

/// Whether a row over three arguments holds on a clause.
fn holds_on(alloc: Global, clause: &System, numbers: &[i128]) -> Result<bool, Fail>
    requires system { IsSystem clause.now }
{
    let row = row(alloc, 3, numbers)?;
    if clause.head.list.len() != 3 {
        return Err(Fail::from("the width"));
    }
    match Poly::holds_on(alloc, clause, &row)? {
        Held::Yes(_) => Ok(true),
        Held::No(_) => Ok(false),
        Held::Blown => Err(Fail::from("blown")),
    }
}

/// How many rows of a value stay on a clause, each with the given number of multipliers.
fn kept(alloc: Global, value: &Poly, clause: &System, many: usize) -> Result<usize, Fail>
    requires system { IsSystem clause.now }
{
    if value.rows().width as usize != clause.head.list.len() {
        return Err(Fail::from("the width"));
    }
    let widened = value.widen(alloc, clause)?;
    if widened.weak || widened.by.len() != widened.value.rows().list.len() {
        return Err(Fail::from("weak, or other multipliers than rows"));
    }
    for by in widened.by.as_slice() {
        if by.list.len() != many {
            return Err(Fail::from("the multipliers"));
        }
    }
    Ok(widened.by.len())
}

#[test]
fn image_of_a_fact(rt: HostRuntime) -> Result<(), Fail> {
    let alloc = rt.alloc();
    let clause = first_clause(alloc)?;
    let rows = [
        [0, -1, 0, 0].as_slice(),
        [0, 0, -1, 1].as_slice(),
        [0, 0, 1, -1].as_slice(),
    ];
    assert!(rt; image_is(alloc, &clause, rows.as_slice())?);
    Ok(())
}

#[test]
fn image_of_a_rule(rt: HostRuntime) -> Result<(), Fail> {
    let alloc = rt.alloc();
    let clause = second_clause(alloc)?;
    let rows = [
        [-1, 1, 0, 0].as_slice(),
        [0, -1, -1, 1].as_slice(),
        [0, 1, 1, -1].as_slice(),
    ];
    assert!(rt; image_is(alloc, &clause, rows.as_slice())?);
    Ok(())
}

/// A system with a row that did not fit has a weak image, without rows.
#[test]
fn image_of_a_wide_system(rt: HostRuntime) -> Result<(), Fail> {
    let alloc = rt.alloc();
    let mut clause = second_clause(alloc)?;
    clause.wide = true;
    let made = Poly::image(alloc, &clause)?;
    assert!(rt; made.weak && made.value.rows().list.is_empty());
    Ok(())
}

/// Joined, the two clauses of append keep that the third list is as long as the others together.
#[test]
fn join_of_append(rt: HostRuntime) -> Result<(), Fail> {
    let alloc = rt.alloc();
    let first = fact(alloc)?;
    let second = rule(alloc)?;
    let rows = [[0, -1, -1, 1].as_slice(), [0, 1, 1, -1].as_slice()];
    assert!(rt; join_is(alloc, &first, &second, rows.as_slice())?);
    Ok(())
}

#[test]
fn joins_with_nothing(rt: HostRuntime) -> Result<(), Fail> {
    let alloc = rt.alloc();
    let bottom = Poly::bottom(alloc, 2)?;
    assert!(rt; lists(&bottom, [[-1, 0, 0].as_slice()].as_slice()));
    let rows = [[2, -1, 0].as_slice(), [0, 0, -1].as_slice()];
    let right = segment(alloc, rows.as_slice())?;
    assert!(rt; join_is(alloc, &bottom, &right, rows.as_slice())?);
    assert!(rt; join_is(alloc, &right, &bottom, rows.as_slice())?);
    Ok(())
}

/// Two segments from the origin, along one axis and along the other, span a triangle.
#[test]
fn join_of_segments(rt: HostRuntime) -> Result<(), Fail> {
    let alloc = rt.alloc();
    let right = segment(
        alloc,
        [[2, -1, 0].as_slice(), [0, 0, -1].as_slice()].as_slice(),
    )?;
    let up = segment(
        alloc,
        [[0, -1, 0].as_slice(), [2, 0, -1].as_slice()].as_slice(),
    )?;
    let rows = [[2, -1, -1].as_slice()];
    assert!(rt; join_is(alloc, &right, &up, rows.as_slice())?);
    Ok(())
}

#[test]
fn tests_on_a_triangle(rt: HostRuntime) -> Result<(), Fail> {
    let alloc = rt.alloc();
    let triangle = segment(alloc, [[2, -1, -1].as_slice()].as_slice())?;
    for (numbers, held) in [
        ([2, -1, 0], true),
        ([4, -1, -2], true),
        ([3, -2, 1], false),
        ([-1, 1, 0], false),
        ([0, 1, 0], true),
    ] {
        let told = tells(alloc, &triangle, 2, numbers.as_slice())?;
        assert_eq!(rt; told, Some(held), "{numbers:?}");
    }
    Ok(())
}

/// Each row of a clause's image stays on the clause.
#[test]
fn rows_of_the_rule_stay(rt: HostRuntime) -> Result<(), Fail> {
    let alloc = rt.alloc();
    let clause = second_clause(alloc)?;
    let value = image_of(alloc, &clause)?;
    assert_eq!(rt; kept(alloc, &value, &clause, 3)?, 3);
    Ok(())
}

/// Of the fact's rows one stays on the rule: the third list is at least as long as the second.
#[test]
fn rows_of_the_fact_stay(rt: HostRuntime) -> Result<(), Fail> {
    let alloc = rt.alloc();
    let value = fact(alloc)?;
    let clause = second_clause(alloc)?;
    assert_eq!(rt; kept(alloc, &value, &clause, 3)?, 1);
    Ok(())
}

#[test]
fn a_row_on_a_clause(rt: HostRuntime) -> Result<(), Fail> {
    let alloc = rt.alloc();
    let clause = second_clause(alloc)?;
    assert!(rt; holds_on(alloc, &clause, [0, 1, 1, -1].as_slice())?);
    assert!(rt; !holds_on(alloc, &clause, [0, -1, 0, 0].as_slice())?);
    Ok(())
}
