//! What facts say that certificates of mappings have too, and the facts made of that.

ghost use Rattle.lex_certificate.specs.Walk.{shared};
ghost use Rattle.lex_certificate.specs.declared.fact.LexFact.TheVariants as lex;

use crate::fact::LexFact;
use cert_structure::{AsShared, SharedFact};
use cert_writing::FromShared;
use certificate::{CertCell, PredText};
use sequences::Sequence;

impl AsShared for LexFact {
    ghost shared = { shared };

    fn as_shared(&self) -> SharedFact<'_> {
        match self {
            LexFact::Terminates { pred, modes } => SharedFact::Terminates {
                pred,
                modes: modes.as_slice(),
            },
            LexFact::Size { pred, index, row } => SharedFact::Size {
                pred,
                index: *index,
                row: row.as_slice(),
            },
            LexFact::By {
                clause,
                index,
                scale,
                multipliers,
            } => SharedFact::By {
                clause: *clause,
                index: *index,
                scale: *scale,
                multipliers: multipliers.as_slice(),
            },
            LexFact::Grounds { pred, index, cube } => SharedFact::Grounds {
                pred,
                index: *index,
                cube: cube.as_slice(),
            },
            LexFact::Pre {
                pred,
                list,
                index,
                cube,
            } => SharedFact::Pre {
                pred,
                mapping: *list,
                index: *index,
                cube: cube.as_slice(),
            },
            LexFact::Refuted { pred, points } => SharedFact::Refuted {
                pred,
                points: *points,
            },
            _ => SharedFact::Other,
        }
    }
}

impl FromShared for LexFact {
    ghost mode_fact = { λ pred modes. lex.Terminates pred modes };

    ghost size_fact = { λ pred index row. lex.Size pred index row };

    ghost proof_fact = { λ clause index scale list. lex.By clause index scale list };

    ghost ground_fact = { λ pred index cube. lex.Grounds pred index cube };

    ghost pre_fact = { λ pred list index cube. lex.Pre pred list index cube };

    ghost refuted_fact = { λ pred points. lex.Refuted pred points };

    fn terminates(pred: PredText, modes: Sequence<Sequence<u32>>) -> LexFact {
        LexFact::Terminates { pred, modes }
    }

    fn size(pred: PredText, index: u64, row: Sequence<i128>) -> LexFact {
        LexFact::Size { pred, index, row }
    }

    fn by(clause: u32, index: u64, scale: i128, multipliers: Sequence<i128>) -> LexFact {
        LexFact::By {
            clause,
            index,
            scale,
            multipliers,
        }
    }

    fn grounds(pred: PredText, index: u64, cube: Sequence<CertCell>) -> LexFact {
        LexFact::Grounds { pred, index, cube }
    }

    fn pre(pred: PredText, mapping: u32, index: u64, cube: Sequence<CertCell>) -> LexFact {
        LexFact::Pre {
            pred,
            list: mapping,
            index,
            cube,
        }
    }

    fn refuted(pred: PredText, points: u64) -> LexFact {
        LexFact::Refuted { pred, points }
    }
}
