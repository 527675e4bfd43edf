//! The mappings of components that are not recursive.

ghost use Rattle.std.specs.Prelude.{◌≡◌, ◌≢◌, ◌↔◌, ℕ, IsTrue, List, None, false, pos};
ghost use Rattle.std.specs.List.{AllByRecursion, AllPairs};
ghost use Rattle.certificate.specs.declared.pred_text.PredText.{PredText};
ghost use Rattle.cert_structure.specs.Numbered.{lines_from};
ghost use Rattle.cert_structure.specs.Order.{level_facts, measure_line};
ghost use Rattle.cert_structure.specs.Structure.{AreNamed};
ghost use Rattle.call_components.specs.Partition.{AreComponents};
ghost use Rattle.cert_checker.specs.Finding.{Finds, MeasuresFail, PartsFail};
ghost use Rattle.cert_checker.specs.Proved.{IsZero, MeasuresAreZero};
ghost use Rattle.cert_checker.specs.Shape.{HaveLevels};

use crate::fault::Fault;
use crate::reason::Reason;
use call_components::Components;
use cert_structure::{LevelPart, Parts};
use cti_terms::{PredId, Program};

/// Whether all numbers are 0.
fn are_zero(numbers: &[i128]) -> bool
    ensures { IsTrue result ↔ AllByRecursion (λ a. a ≡ pos 0) numbers.now }
{
    for number in numbers {
        if *number != 0 {
            return false;
        }
    }
    true
}

/// Whether a predicate's part of a mapping is 0. It takes no memory.
pub fn is_zero(part: &LevelPart) -> bool
    ensures { IsTrue result ↔ IsZero part.now }
{
    part.offset == 0 && are_zero(part.coeffs.as_slice())
}

/// The first part that is not 0, where a component is not recursive. The first one has this line.
fn part_fault(recursive: bool, parts: &[LevelPart], line: u64) -> Option<Fault>
    ensures hold { (result ≡ None) ↔ (recursive ≡ false → AllByRecursion IsZero parts.now) }
    ensures first { (pred : PredText) → recursive ≡ false
        → Finds PartsFail line (lines_from 0 (measure_line pred) parts.now) result }
{
    if recursive {
        return None;
    }
    for m in 0..parts.len() {
        if !is_zero(&parts[m]) {
            return Some(Fault {
                line: line.saturating_add(m as u64),
                reason: Reason::Measure,
            });
        }
    }
    None
}

/// The first part of a mapping that is not 0, where the component is not recursive.
///
/// There is one line for each predicate and each mapping of its component, from the line `first` on. The reason is
/// `Measure`. It takes no memory.
pub fn measure_fault(p: &Program, comps: &Components, parts: &Parts, first: u64) -> Option<Fault>
    requires components { AreComponents p.now comps.now }
    requires levels { HaveLevels p.now comps.now parts.now }
    ensures hold { (result ≡ None) ↔ MeasuresAreZero comps.now parts.now }

    // Predicates are distinguished by their texts.
    ensures first { (names : List (List ℕ)) → AreNamed names p.now.preds
        → AllPairs (λ a b. a ≢ b) names
        → Finds (MeasuresFail p.now names comps.now) first
        (level_facts p.now names parts.now.levels) result }
{
    let mut line = first;
    for q in 0..p.preds() {
        let own = parts.levels.as_slice()[q as usize].as_slice();
        let recursive = comps.recursive(comps.of(PredId(q)));
        if let Some(fault) = part_fault(recursive, own, line) {
            return Some(fault);
        }
        line = line.saturating_add(own.len() as u64);
    }
    None
}
