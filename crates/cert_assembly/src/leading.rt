//! The predicates that lead components.

ghost use Rattle.std.specs.Prelude.{◌≡◌, ◌<◌, IfSome, length};
ghost use Rattle.call_components.specs.Partition.{AreComponents};
ghost use Rattle.cert_assembly.specs.Leading.{led_by};

use call_components::Components;
use cti_terms::{PredId, Program};

/// The recursive component that a predicate is the first member of.
pub fn led_by(p: &Program, comps: &Components, q: PredId) -> Option<u32>
    requires components { AreComponents p.now comps.now }
    requires there { q.0 < length p.now.preds }
    ensures led { result ≡ led_by comps.now q.0 }
    ensures within { IfSome result (λ c. c < length comps.now.members) }
{
    let _program = p.preds();
    let c = comps.of(q);
    let members = comps.members(c);
    if comps.recursive(c) && members[0].0 == q.0 {
        Some(c)
    } else {
        None
    }
}
