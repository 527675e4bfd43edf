//! Quoted items.

ghost use Rattle.std.specs.Prelude.{◌≡◌, ◌≤◌, ◌<◌, length, IfOk, IfErr};
ghost use Rattle.prolog_tokens.specs.Items.{item_len};

use crate::fault::LexFault;
use crate::piece::{Piece, piece_at};

/// How long an item is after its opening quote, or the fault with the place of its cause.
pub fn item_len(bytes: &[u8], quote: u8) -> Result<usize, LexFault>
    requires { length bytes.now ≤ 16777216 }
    ensures value { result ≡ item_len quote 0 bytes.now }
    ensures fits { IfOk result (λ n. n ≤ length bytes.now) }
    ensures place { IfErr result (λ fault. fault.at ≤ length bytes.now) }
{
    let mut at = 0;
    'pieces: loop {
        match piece_at(&bytes[at..], quote) {
            Piece::Character(_, len) => at += len,
            Piece::Dropped => at += 2,
            Piece::Closing => return Ok(at + 1),
            Piece::Fault(kind) => return Err(LexFault::new(kind, at)),
        }
    }
}
