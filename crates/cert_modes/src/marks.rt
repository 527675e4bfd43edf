//! Marks of the predicates whose modes do not hold.

ghost use Rattle.std.specs.Prelude.{◌≡◌, ◌↔◌, ◌<◌, None, IfOk, IfSome, length, ℕ};
ghost use Rattle.cert_modes.specs.Marks.{IsFirstMark, mark_at, noted};

use crate::fault::{ModeFault, ModeReason};
use cti_terms::PredId;
use std::alloc::{AllocError, Global};
use std::marker::Model;

/// The first reason that was found against each predicate, where there is one.
///
/// Contracts see the list of them.
#[derive(Drop)]
pub(crate) struct Marks {
    reasons: Vec<Option<ModeReason>>,
}

impl Model for Marks {
    ghost use Rattle.std.specs.Prelude.{List, Option};
    ghost use Rattle.cert_modes.specs.declared.fault.ModeReason.{ModeReason};

    ghost Value = { List (Option ModeReason) };

    ghost view = { λ m. m.reasons.items };
}

impl Marks {
    /// No marks, of this many predicates.
    #[tactic(auto, using(crate::proofs::MarkLaws::one_more))]
    pub(crate) fn new(alloc: Global, count: usize) -> Result<Marks, AllocError>
        ensures each { IfOk result (λ marks. length marks ≡ count) }
        ensures clear { IfOk result (λ marks. (q : ℕ) → mark_at marks q ≡ None) }
    {
        let mut reasons = Vec::new(alloc);
        for _pred in 0..count {
            reasons.push(None)?;
        }
        Ok(Marks { reasons })
    }

    /// Marks a predicate for a reason, where the test fails and no mark is there.
    #[tactic(auto, using(crate::proofs::MarkLaws::set_same, crate::proofs::MarkLaws::set_other))]
    pub(crate) fn note(&mut self, pred: PredId, holds: bool, reason: ModeReason)
        requires { pred.0 < length self.old }
        ensures each { length self.new ≡ length self.old }
        ensures at { mark_at self.new pred.0 ≡ noted (mark_at self.old pred.0) holds reason }
        ensures others { (q : ℕ) → (q ≡ pred.0 → ⊥) → mark_at self.new q ≡ mark_at self.old q }
    {
        let place = pred.0 as usize;
        self.reasons[place] = noted(self.reasons[place], holds, reason);
    }

    /// The fault at the first mark, where `line` is that of the first predicate, and each predicate has one line.
    pub(crate) fn first(&self, line: u64) -> Option<ModeFault>
        ensures none { (result ≡ None) ↔ ((q : ℕ) → mark_at self.now q ≡ None) }
        ensures first { IfSome result (IsFirstMark self.now line) }
    {
        for pred in 0..self.reasons.len() {
            if let Some(reason) = self.reasons[pred] {
                return Some(ModeFault {
                    line: line.saturating_add(pred as u64),
                    reason,
                });
            }
        }
        None
    }
}

/// A mark after a test: the first reason stays.
fn noted(mark: Option<ModeReason>, holds: bool, reason: ModeReason) -> Option<ModeReason>
    ensures { result ≡ noted mark holds reason }
{
    if holds {
        return mark;
    }
    match mark {
        None => Some(reason),
        Some(first) => Some(first),
    }
}
