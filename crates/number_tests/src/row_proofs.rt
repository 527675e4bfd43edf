//! The tests of multipliers.

ghost use Rattle.std.specs.Prelude.{◌≡◌, ◌↔◌, ◌≤ℤ◌, All, IfSome, None, Some, length, pos, true};
ghost use Rattle.linear_rows.specs.Showing.{AreMultipliers};
ghost use Rattle.number_tests.specs.Shown.{FlawFails, FlawShows, flaw_in};
ghost use Rattle.linear_rows.specs.Plain.{HaveWidth, plain_row, plain_rows};
ghost use Rattle.linear_rows.specs.Proves.{AllColumnsFit, Proves};
ghost use Rattle.linear_rows.specs.Verdict.{Says};
ghost use Rattle.termination_model.specs.sizes.Replacing.{IsRowIfFits};

use crate::flaw::Flaw;
use linear_rows::{Multipliers, Proof, Row, Rows, proves};

/// Tests the multipliers by which a clause keeps a size row of its head.
///
/// The rows are those of the clause's body, and the target is the head's row, all over the clause's variables. It takes
/// no memory.
pub fn check_size(rows: &Rows, target: &Row, by: &Multipliers) -> Proof
    requires lengths { length by.now.list ≡ length rows.now.list }
    requires naturals { All (λ m. pos 0 ≤ℤ m) by.now.list }
    requires scale { pos 0 ≤ℤ by.now.scale }
    requires width { HaveWidth rows.now.width rows.now.list }
    requires target { length target.now.coeffs ≡ rows.now.width }

    // Which answer it is: the first column decides that does not hold in numbers that fit.
    ensures says { Says (plain_rows rows.now.list) by.now.list
        (plain_row target.now) by.now.scale result }

    // So Holds comes exactly where the target is proved and each number that is formed fits.
    ensures holds { (result ≡ Proof.Holds)
        ↔ (Proves (plain_rows rows.now.list) by.now.list (plain_row target.now) by.now.scale
        × AllColumnsFit (plain_rows rows.now.list) by.now.list
        (plain_row target.now) by.now.scale) }
{
    proves(rows, by.list.as_slice(), target, by.scale)
}

/// Tests the multipliers by which a mapping falls from a clause's head to a call of its body.
///
/// The rows are those of the atoms before the call, and the target is the level of the head less that of the call less
/// 1, all over the clause's variables. It takes no memory.
pub fn check_fall(rows: &Rows, target: &Row, by: &Multipliers) -> Proof
    requires lengths { length by.now.list ≡ length rows.now.list }
    requires naturals { All (λ m. pos 0 ≤ℤ m) by.now.list }
    requires scale { pos 0 ≤ℤ by.now.scale }
    requires width { HaveWidth rows.now.width rows.now.list }
    requires target { length target.now.coeffs ≡ rows.now.width }

    // Which answer it is: the first column decides that does not hold in numbers that fit.
    ensures says { Says (plain_rows rows.now.list) by.now.list
        (plain_row target.now) by.now.scale result }

    // So Holds comes exactly where the target is proved and each number that is formed fits.
    ensures holds { (result ≡ Proof.Holds)
        ↔ (Proves (plain_rows rows.now.list) by.now.list (plain_row target.now) by.now.scale
        × AllColumnsFit (plain_rows rows.now.list) by.now.list
        (plain_row target.now) by.now.scale) }
{
    proves(rows, by.list.as_slice(), target, by.scale)
}

/// What the answer of a test says of its multipliers.
fn flaw_of(proof: Proof) -> Option<Flaw>
    ensures none { (result ≡ None) ↔ (proof ≡ Proof.Holds) }
    ensures which { result ≡ flaw_in proof }
{
    match proof {
        Proof::Holds => None,
        Proof::Fails => Some(Flaw::Fails),
        Proof::Wide => Some(Flaw::Wide),
    }
}

/// Why multipliers do not show a size row or a fall, if they do not. It takes no memory.
pub fn multipliers_flaw(rows: &Rows, target: Option<Row>, by: &Multipliers) -> Option<Flaw>
    requires multipliers { AreMultipliers (length rows.now.list) by.now }
    requires width { HaveWidth rows.now.width rows.now.list }
    requires target { IfSome target (λ t. length t.coeffs ≡ rows.now.width) }
    ensures shows { FlawShows (plain_rows rows.now.list) target by.now result }
    ensures fails { FlawFails (plain_rows rows.now.list) target by.now result }
{
    let Some(target) = target else {
        return Some(Flaw::Wide);
    };
    flaw_of(proves(rows, by.list.as_slice(), &target, by.scale))
}
