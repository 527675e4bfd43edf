//! Predicates by their names' texts.

ghost use Rattle.std.specs.Prelude.{◌≡◌, IfOk};
ghost use Rattle.cert_structure.specs.Order.{pred_text};

use cert_structure::Named;
use certificate::PredText;
use cti_terms::{Names, PredId, Program};
use std::alloc::{AllocError, Global};

/// A predicate, for a fact; with an empty name and no arguments, where there is none.
pub fn pred_text(
    alloc: Global,
    p: &Program,
    names: &Names,
    pred: PredId,
) -> Result<PredText, AllocError>
    ensures { IfOk result (λ text. text ≡ pred_text p.now names.now pred.0) }
{
    Named::new(p, names, u64::from(pred.0)).text(alloc)
}
