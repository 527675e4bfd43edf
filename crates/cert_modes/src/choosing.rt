//! The preconditions of one mapping, for the predicates of one clause.

ghost use Rattle.std.specs.Prelude.{◌≡◌, ◌⊎◌, ◌<◌, ℕ, length, slice_get, Some};
ghost use Rattle.cti_terms.specs.declared.atom_list.Atom.{Atom};
ghost use Rattle.cert_modes.specs.Sets.{set_at};

use crate::sets::Sets;
use bool_diagrams::Diagram;
use cti_terms::Clause;

/// Puts the precondition for a mapping into the place of each predicate of a clause.
///
/// Mappings count from 0. The places of other predicates stay.
pub(crate) fn choose(sets: &Sets, mapping: usize, clause: &Clause, chosen: &mut [Diagram])
    requires each { length chosen.old ≡ length sets.now.preconditions }
    requires head { clause.now.head.pred.0 < length sets.now.preconditions }
    requires body { (j : ℕ) (b : Atom) → slice_get clause.now.body j ≡ Some b
        → b.pred.0 < length sets.now.preconditions }
    ensures each { length chosen.new ≡ length chosen.old }
    ensures head { slice_get chosen.new clause.now.head.pred.0
        ≡ Some (set_at sets.now.preconditions sets.now.none mapping clause.now.head.pred.0) }
    ensures body { (j : ℕ) (b : Atom) → slice_get clause.now.body j ≡ Some b
        → slice_get chosen.new b.pred.0
        ≡ Some (set_at sets.now.preconditions sets.now.none mapping b.pred.0) }
    ensures others { (q : ℕ) → (slice_get chosen.new q ≡ slice_get chosen.old q)
        ⊎ (slice_get chosen.new q ≡ Some (set_at sets.now.preconditions sets.now.none mapping q)) }
{
    let head = clause.head.pred;
    chosen[head.0 as usize] = sets.precondition(head, mapping);
    for atom in clause.body.as_slice() {
        chosen[atom.pred.0 as usize] = sets.precondition(atom.pred, mapping);
    }
}
