//! What stands between tokens.

ghost use Rattle.std.specs.Prelude.{◌≡◌, ◌≤◌, ◌<◌, ◌+◌, length, IfOk, IfErr, take, drop};
ghost use Rattle.std.specs.Str.Lossy.{utf8_valid_len};
ghost use Rattle.prolog_tokens.specs.Layout.{line_len, body_len, line_comment, block_comment, space_at, gap_len};

use crate::bytes::{begins_with, is_layout};
use crate::fault::{LexFault, LexKind};
use std::str;

/// How many bytes of layout and comments the text begins with, or the first fault.
pub fn gap_len(bytes: &[u8]) -> Result<usize, LexFault>
    requires { length bytes.now ≤ 16777216 }
    ensures value { result ≡ gap_len 0 bytes.now }
    ensures fits { IfOk result (λ n. n ≤ length bytes.now) }
    ensures place { IfErr result (λ fault. fault.at ≤ length bytes.now) }
{
    let mut at = 0;
    'spaces: loop {
        match space_len(&bytes[at..]) {
            Ok(0) => return Ok(at),
            Ok(len) => at += len,
            Err(fault) => return Err(fault.moved(at)),
        }
    }
}

/// How long the byte of layout or the comment at the front is: 0 where there is none.
fn space_len(bytes: &[u8]) -> Result<usize, LexFault>
    requires { length bytes.now ≤ 16777216 }
    ensures value { result ≡ space_at bytes.now }
    ensures fits { IfOk result (λ n. n ≤ length bytes.now) }
    ensures place { IfErr result (λ fault. fault.at ≤ length bytes.now) }
{
    if bytes.is_empty() {
        return Ok(0);
    }
    let rest = &bytes[1..];
    match bytes[0] {
        first if is_layout(first) => Ok(1),
        b'%' => line_comment(rest),
        b'/' if begins_with(rest, b'*') => block_comment(&rest[1..]),
        _ => Ok(0),
    }
}

/// A comment to the end of the line, after its percent sign.
#[tactic(auto, unfolding(crate::specs::Layout::line_comment))]
fn line_comment(bytes: &[u8]) -> Result<usize, LexFault>
    requires { length bytes.now < 16777216 }
    ensures value { result ≡ line_comment bytes.now }
    ensures fits { IfOk result (λ n. n ≤ 1 + length bytes.now) }
    ensures place { IfErr result (λ fault. fault.at ≤ 1 + length bytes.now) }
{
    let len = line_len(bytes);
    let valid = valid_len(&bytes[..len]);
    if valid == len {
        Ok(1 + len)
    } else {
        Err(LexFault::new(LexKind::BadByte, 1 + valid))
    }
}

/// A comment to the next `*/`, after its `/*`.
#[tactic(auto, unfolding(crate::specs::Layout::block_comment))]
fn block_comment(bytes: &[u8]) -> Result<usize, LexFault>
    requires { length bytes.now + 2 ≤ 16777216 }
    ensures value { result ≡ block_comment bytes.now }
    ensures fits { IfOk result (λ n. n ≤ 2 + length bytes.now) }
    ensures place { IfErr result (λ fault. fault.at ≤ 2 + length bytes.now) }
{
    let len = body_len(bytes);
    let valid = valid_len(&bytes[..len]);
    if valid != len {
        Err(LexFault::new(LexKind::BadByte, 2 + valid))
    } else if len < bytes.len() {
        Ok(4 + len)
    } else {
        Err(LexFault::new(LexKind::Unclosed, 0))
    }
}

/// How many bytes the line has from here on, without its newline.
fn line_len(bytes: &[u8]) -> usize
    ensures value { result ≡ line_len bytes.now }
    ensures fits { result ≤ length bytes.now }
{
    bytes.iter().take_while(|byte| **byte != b'\n').count()
}

/// How many bytes stand before the first `*/`, or before the end of the text.
fn body_len(bytes: &[u8]) -> usize
    ensures value { result ≡ body_len bytes.now }
    ensures fits { result < length bytes.now → result + 2 ≤ length bytes.now }
    ensures bound { result ≤ length bytes.now }
{
    let mut rest = bytes;
    'body: while let [byte, after @ ..] = rest {
        if *byte == b'*' && begins_with(after, b'/') {
            break;
        }
        rest = after;
    }
    bytes.len() - rest.len()
}

/// How many bytes the longest front in UTF-8 has.
fn valid_len(bytes: &[u8]) -> usize
    ensures value { result ≡ utf8_valid_len bytes.now }
    ensures bound { result ≤ length bytes.now }
{
    match str::from_utf8(bytes) {
        Ok(text) => text.len(),
        Err(error) => error.valid_up_to(),
    }
}
