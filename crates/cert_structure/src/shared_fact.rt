//! Facts that certificates of mappings and of lists of mappings both have.

ghost use Rattle.std.specs.Prelude.{◌≡◌};
ghost use Rattle.cert_structure.specs.SharedFacts.{Shared, shared, shared_of};

use certificate::{CertCell, Fact, PredText};
use sequences::Sequence;

/// What a fact says, where both kinds of certificates have such facts. Numbers count from 1.
#[derive(Clone, Copy, Drop)]
pub enum SharedFact<'f> {
    /// The modes of a predicate.
    Terminates {
        pred: &'f PredText,
        modes: &'f [Sequence<u32>],
    },
    /// A size row.
    Size {
        pred: &'f PredText,
        index: u64,
        row: &'f [i128],
    },
    /// The multipliers by which a clause keeps a size row of its head.
    By {
        clause: u32,
        index: u64,
        scale: i128,
        multipliers: &'f [i128],
    },
    /// Rows of the groundness model.
    Grounds {
        pred: &'f PredText,
        index: u64,
        cube: &'f [CertCell],
    },
    /// Rows of the precondition for a mapping, or for a list of mappings.
    Pre {
        pred: &'f PredText,
        mapping: u32,
        index: u64,
        cube: &'f [CertCell],
    },
    /// Points follow, of this number, which show that a component has no mapping, or no list.
    Refuted {
        pred: &'f PredText,
        points: u64,
    },
    /// The fact is of another kind.
    Other,
}

/// A fact of either kind of certificate.
pub trait AsShared {
    /// What the fact says.
    ghost shared: { Self → Shared };

    /// What the fact says, with its lists as they are.
    fn as_shared(&self) -> SharedFact<'_>
        ensures { shared_of result ≡ shared self.now };
}

impl AsShared for Fact {
    ghost shared = { shared };

    fn as_shared(&self) -> SharedFact<'_> {
        match self {
            Fact::Terminates { pred, modes } => SharedFact::Terminates {
                pred,
                modes: modes.as_slice(),
            },
            Fact::Size { pred, index, row } => SharedFact::Size {
                pred,
                index: *index,
                row: row.as_slice(),
            },
            Fact::By {
                clause,
                index,
                scale,
                multipliers,
            } => SharedFact::By {
                clause: *clause,
                index: *index,
                scale: *scale,
                multipliers: multipliers.as_slice(),
            },
            Fact::Grounds { pred, index, cube } => SharedFact::Grounds {
                pred,
                index: *index,
                cube: cube.as_slice(),
            },
            Fact::Pre {
                pred,
                mapping,
                index,
                cube,
            } => SharedFact::Pre {
                pred,
                mapping: *mapping,
                index: *index,
                cube: cube.as_slice(),
            },
            Fact::Refuted { pred, points } => SharedFact::Refuted {
                pred,
                points: *points,
            },
            _ => SharedFact::Other,
        }
    }
}
