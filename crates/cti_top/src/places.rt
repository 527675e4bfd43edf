//! Places in a text, as they are printed.

ghost use Rattle.std.specs.Prelude.{◌≡◌, ◌≤◌, length, min};
ghost use Rattle.cti_top.specs.Places.{line_from, column_from, line_of, column_of};

/// A line and a column, which count from 1. Columns count bytes.
#[derive(Clone, Copy, PartialEq, Eq)]
pub struct Position {
    pub line: u32,
    pub column: u32,
}

/// The place after these bytes of a text.
fn position_after(before: &[u8]) -> Position
    requires { length before.now ≤ 16777216 }
    ensures line { result.line ≡ line_from 1 before.now }
    ensures column { result.column ≡ column_from 1 before.now }
{
    let mut position = Position { line: 1, column: 1 };
    for byte in before {
        if *byte == b'\n' {
            position.line += 1;
            position.column = 1;
        } else {
            position.column += 1;
        }
    }
    position
}

/// The place of a byte of a text, or of the end of the text where there is none.
#[tactic(auto, using(crate::proofs::PlaceLemmas::up_to))]
pub fn position_of(text: &[u8], at: u32) -> Position
    requires { min at (length text.now) ≤ 16777216 }
    ensures line { result.line ≡ line_of text.now at }
    ensures column { result.column ≡ column_of text.now at }
{
    let end = (at as usize).min(text.len());
    position_after(&text[..end])
}
