//! The lists of components that are not recursive.

ghost use Rattle.std.specs.Prelude.{◌↔◌, IsTrue};
ghost use Rattle.std.specs.List.{AllByRecursion};
ghost use Rattle.call_components.specs.Partition.{AreComponents};
ghost use Rattle.cert_checker.specs.Proved.{IsZero};
ghost use Rattle.lex_checker.specs.Proved.{ListsAreZero};

use crate::items::items_at;
use call_components::Components;
use cti_terms::{PredId, Program};
use lex_certificate::LexParts;
use number_tests::LevelPart;
use sequences::Sequence;

/// Whether each measure of a list is 0.
fn is_zero(measures: &[LevelPart]) -> bool
    ensures { IsTrue result ↔ AllByRecursion IsZero measures.now }
{
    for part in measures {
        if !cert_checker::is_zero(part) {
            return false;
        }
    }
    true
}

/// Whether each measure of each list is 0.
fn all_zero(lists: &[Sequence<LevelPart>]) -> bool
    ensures { IsTrue result ↔ AllByRecursion (AllByRecursion IsZero) lists.now }
{
    for measures in lists {
        if !is_zero(measures.as_slice()) {
            return false;
        }
    }
    true
}

/// Whether the lists of components that are not recursive are 0. It takes no memory.
pub(crate) fn lists_are_zero(p: &Program, comps: &Components, parts: &LexParts) -> bool
    requires components { AreComponents p.now comps.now }
    ensures { IsTrue result ↔ ListsAreZero comps.now parts.now }
{
    for q in 0..p.preds() {
        let lists = items_at(parts.lists.as_slice(), q as usize);
        if !comps.recursive(comps.of(PredId(q))) && !all_zero(lists) {
            return false;
        }
    }
    true
}
