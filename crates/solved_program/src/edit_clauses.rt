//! An edit with the clauses of each component, and which components stand.

ghost use Rattle.std.specs.Prelude.{◌≡◌, ◌<◌, ℕ, IfSome, IsNone, length};
ghost use Rattle.solved_program.specs.Comparing.{AreNumbersIn};
ghost use Rattle.solved_program.specs.EditClauses.{AreEditClauses, IsFirstKeptOf};
ghost use Rattle.solved_program.specs.Kept.{IsEdit};
ghost use Rattle.solved_program.specs.Marks.{StandsMarked};

use crate::edit::Edit;
use crate::standing::Compared;
use sequences::Sequence;

/// An edit, with lists that are made once for all components.
#[derive(Clone, Copy)]
pub struct EditClauses<'a> {
    pub edit: &'a Edit<'a>,
    /// For each component before the edit the numbers of its clauses.
    pub own_before: &'a [Sequence<u32>],
    /// For each component after the edit the numbers of its clauses.
    pub own: &'a [Sequence<u32>],
}

impl EditClauses<'_> {
    /// The component of the old clause that the first of these clauses is.
    fn component_before(&self, own: &[u32]) -> Option<u32>
        requires edit { IsEdit self.now.edit.now }
        requires own { AreNumbersIn self.now.edit.now.after.now own.now }
        ensures below { IfSome result
            (λ b. b < length self.now.edit.now.components_before.now.members) }
        ensures kept { IfSome result (IsFirstKeptOf self.now own.now) }
        ensures lost { IsNone result → (b : ℕ) → IsFirstKeptOf self.now own.now b → ⊥ }
    {
        if own.is_empty() {
            return None;
        }
        let first = own[0] as usize - 1;
        match self.edit.kept[first] {
            Some(kept) => {
                let pred = self.edit.before.clause(kept).head.pred;
                Some(self.edit.components_before.of(pred))
            }
            None => None,
        }
    }

    /// The old component that the component `c` stands for, if it stands, where the predicates with a mark have
    /// what they had.
    pub fn standing(&self, c: u32, stayed: &[bool]) -> Option<u32>
        requires clauses { AreEditClauses self.now }
        requires each { length stayed.now ≡ length self.now.edit.now.after.now.preds }
        requires inner { c < length self.now.edit.now.components.now.members }
        ensures below { IfSome result
            (λ b. b < length self.now.edit.now.components_before.now.members) }
        ensures stands { IfSome result (λ b. StandsMarked self.now.edit.now stayed.now b c) }
        ensures none { IsNone result → (b : ℕ) → StandsMarked self.now.edit.now stayed.now b c → ⊥ }
    {
        let _program = self.edit.before.clauses();
        let own = self.own[c as usize].as_slice();
        let before = self.component_before(own)?;
        let compared = Compared {
            edit: self.edit,
            before,
            after: c,
            stayed,
        };
        let own_before = self.own_before[before as usize].as_slice();
        if compared.are_same_clauses(own_before, own) {
            Some(before)
        } else {
            None
        }
    }
}
