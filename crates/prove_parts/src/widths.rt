//! How many columns the arguments of predicates have.

ghost use Rattle.std.specs.Prelude.{◌≡◌, ◌≤◌, ◌*◌, length};
ghost use Rattle.prove_parts.specs.Shape.{columns, columns_in, columns_of};

use prove_certificate::CertKind;
use sequences::Sequence;

/// How many columns an argument of a kind has.
pub fn columns(kind: CertKind) -> u128
    ensures value { result ≡ columns kind }
    ensures few { result ≤ 3 }
{
    match kind {
        CertKind::Size => 1,
        CertKind::Number => 3,
    }
}

/// How many columns arguments of these kinds have.
pub fn columns_of(kinds: &[CertKind]) -> u128
    ensures { result ≡ columns_of kinds.now }
{
    let mut count = 0;
    for kind in kinds {
        count += columns(*kind);
    }
    count
}

/// How many columns the arguments of a predicate have, which counts from 0; none, where there is no such predicate.
pub fn columns_in(kinds: &[Sequence<CertKind>], pred: u64) -> u128
    ensures { result ≡ columns_in kinds.now pred }
{
    match kinds.get(pred as usize) {
        Some(own) => columns_of(own.as_slice()),
        None => 0,
    }
}
