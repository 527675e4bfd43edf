//! What facts say that certificates of mappings have too.

ghost use Rattle.prove_certificate.specs.SharedFacts.{shared};

use crate::fact::ProveFact;
use cert_structure::{AsShared, SharedFact};

impl AsShared for ProveFact {
    ghost shared = { shared };

    fn as_shared(&self) -> SharedFact<'_> {
        match self {
            ProveFact::Terminates { pred, modes } => SharedFact::Terminates {
                pred,
                modes: modes.as_slice(),
            },
            ProveFact::Size { pred, index, row } => SharedFact::Size {
                pred,
                index: *index,
                row: row.as_slice(),
            },
            ProveFact::By {
                clause,
                index,
                scale,
                multipliers,
            } => SharedFact::By {
                clause: *clause,
                index: *index,
                scale: *scale,
                multipliers: multipliers.as_slice(),
            },
            ProveFact::Grounds { pred, index, cube } => SharedFact::Grounds {
                pred,
                index: *index,
                cube: cube.as_slice(),
            },
            ProveFact::Pre {
                pred,
                list,
                index,
                cube,
            } => SharedFact::Pre {
                pred,
                mapping: *list,
                index: *index,
                cube: cube.as_slice(),
            },
            ProveFact::Refuted { pred, groups } => SharedFact::Refuted {
                pred,
                points: *groups,
            },
            _ => SharedFact::Other,
        }
    }
}
