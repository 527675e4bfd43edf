//! The pairs that have groups in a stuck set.

ghost use Rattle.std.specs.Prelude.{◌≡◌, map, option_map, IfOk};
ghost use Rattle.cert_structure.specs.Walk.{pair_end};
ghost use Rattle.prove_parts.specs.Shape.{Ascend, is_among, same_pair};
ghost use Rattle.prove_structure.specs.Walk.{group_of, scan};

use cert_structure::Pair;
use prove_certificate::ProveFact;
use std::alloc::{AllocError, Global};

/// Whether two pairs are the same.
pub(crate) fn is_same(one: Pair, other: Pair) -> bool
    ensures { result ≡ same_pair (pair_end one) (pair_end other) }
{
    one.clause == other.clause && one.call == other.call
}

/// Whether a pair is among these, which ascend. It takes time in the logarithm of their number.
pub(crate) fn is_among(pairs: &[Pair], pair: Pair) -> bool
    requires { Ascend pair_end (0, 0) pairs.now }
    ensures { result ≡ is_among (map pair_end pairs.now) (pair_end pair) }
{
    let mut rest = pairs;
    while !rest.is_empty() {
        let (before, from) = rest.split_at(rest.len() / 2);
        let Some((other, after)) = from.split_first() else {
            return false;
        };
        if is_same(pair, *other) {
            return true;
        }
        rest = if other.is_before(pair) { after } else { before };
    }
    false
}

/// The pair that a fact begins the group of, and none where it is of a group's points or floors. None where it is of
/// neither.
fn group_of(fact: &ProveFact) -> Option<Option<Pair>>
    ensures { option_map (option_map pair_end) result ≡ group_of fact.now }
{
    match fact {
        ProveFact::Group { clause, call } => Some(Some(Pair {
            clause: *clause,
            call: *call,
        })),
        ProveFact::Point { .. } | ProveFact::Floor { .. } => Some(None),
        _ => None,
    }
}

/// The pairs of `count` groups in front, as far as they ascend.
pub(crate) fn group_pairs(
    alloc: Global,
    count: u64,
    facts: &[ProveFact],
) -> Result<Vec<Pair>, AllocError>
    ensures value { IfOk result (λ pairs. map pair_end pairs.items ≡ scan (0, 0) count facts.now) }
    ensures ascend { IfOk result (λ pairs. Ascend pair_end (0, 0) pairs.items) }
{
    let mut pairs: Vec<Pair> = Vec::new(alloc);
    let mut last = Pair { clause: 0, call: 0 };
    for fact in facts {
        let Some(group) = group_of(fact) else {
            return Ok(pairs);
        };
        let Some(pair) = group else {
            continue;
        };
        if pairs.len() as u64 >= count {
            return Ok(pairs);
        }
        if !last.is_before(pair) {
            return Ok(pairs);
        }
        pairs.push(pair)?;
        last = pair;
    }
    Ok(pairs)
}
