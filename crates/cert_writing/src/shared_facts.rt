//! Facts that certificates of mappings and of lists of mappings both have.

ghost use Rattle.std.specs.Prelude.{◌≡◌, ℕ, ℤ, List};
ghost use Rattle.certificate.specs.declared.cell.CertCell.{CertCell as TheCell};
ghost use Rattle.certificate.specs.declared.fact.Fact.TheVariants as fact;
ghost use Rattle.certificate.specs.declared.pred_text.PredText.{PredText as ThePred};

use certificate::{CertCell, Fact, PredText};
use sequences::Sequence;

/// A fact of either kind of certificate, made of what it says. `AsShared` of `cert_structure` is the way back.
///
/// Clauses, calls, mappings, lists, rows and arguments are numbered from 1. A row has its constant first.
pub trait FromShared: Drop {
    /// The fact that each call below makes.
    ghost mode_fact: { ThePred → List (List ℕ) → Self };

    ghost size_fact: { ThePred → ℕ → List ℤ → Self };

    ghost proof_fact: { ℕ → ℕ → ℤ → List ℤ → Self };

    ghost ground_fact: { ThePred → ℕ → List TheCell → Self };

    ghost pre_fact: { ThePred → ℕ → ℕ → List TheCell → Self };

    ghost refuted_fact: { ThePred → ℕ → Self };

    /// The modes of a predicate, each a list of argument numbers.
    fn terminates(pred: PredText, modes: Sequence<Sequence<u32>>) -> Self
        ensures { result ≡ mode_fact pred modes };

    /// A size row.
    fn size(pred: PredText, index: u64, row: Sequence<i128>) -> Self
        ensures { result ≡ size_fact pred index row };

    /// The multipliers by which a clause keeps a size row of its head; `scale` is that of the row itself.
    fn by(clause: u32, index: u64, scale: i128, multipliers: Sequence<i128>) -> Self
        ensures { result ≡ proof_fact clause index scale multipliers };

    /// Rows of the groundness model.
    fn grounds(pred: PredText, index: u64, cube: Sequence<CertCell>) -> Self
        ensures { result ≡ ground_fact pred index cube };

    /// Rows of the precondition for a mapping, or for a list of mappings.
    fn pre(pred: PredText, mapping: u32, index: u64, cube: Sequence<CertCell>) -> Self
        ensures { result ≡ pre_fact pred mapping index cube };

    /// The number of points that follow, which show that a predicate's component has no mapping, or no list.
    fn refuted(pred: PredText, points: u64) -> Self
        ensures { result ≡ refuted_fact pred points };
}

impl FromShared for Fact {
    ghost mode_fact = { λ pred modes. fact.Terminates pred modes };

    ghost size_fact = { λ pred index row. fact.Size pred index row };

    ghost proof_fact = { λ clause index scale list. fact.By clause index scale list };

    ghost ground_fact = { λ pred index cube. fact.Grounds pred index cube };

    ghost pre_fact = { λ pred mapping index cube. fact.Pre pred mapping index cube };

    ghost refuted_fact = { λ pred points. fact.Refuted pred points };

    fn terminates(pred: PredText, modes: Sequence<Sequence<u32>>) -> Fact {
        Fact::Terminates { pred, modes }
    }

    fn size(pred: PredText, index: u64, row: Sequence<i128>) -> Fact {
        Fact::Size { pred, index, row }
    }

    fn by(clause: u32, index: u64, scale: i128, multipliers: Sequence<i128>) -> Fact {
        Fact::By {
            clause,
            index,
            scale,
            multipliers,
        }
    }

    fn grounds(pred: PredText, index: u64, cube: Sequence<CertCell>) -> Fact {
        Fact::Grounds { pred, index, cube }
    }

    fn pre(pred: PredText, mapping: u32, index: u64, cube: Sequence<CertCell>) -> Fact {
        Fact::Pre {
            pred,
            mapping,
            index,
            cube,
        }
    }

    fn refuted(pred: PredText, points: u64) -> Fact {
        Fact::Refuted { pred, points }
    }
}
