//! Lists of clauses, one for each predicate.

ghost use Rattle.std.specs.Prelude.{◌≡◌, ◌<◌, ◌⊎◌, ℕ, IfOk, OnOk, length, replicate, slice_get, slice_index_or, slice_set, Some, [], ◌∷◌, ◌++◌};
ghost use Rattle.cti_terms.specs.declared.atom_list.Atom.{Atom};
ghost use Rattle.groundness.specs.Marks.{AreHeads, AreUsers, HasUser};

use cti_terms::{Atoms, PredId, Program};
use std::alloc::{AllocError, Global};
use std::marker::Model;

/// A list of clauses, which count from 0. Contracts see the list.
#[derive(Drop)]
struct Clauses {
    items: Vec<u32>,
}

impl Model for Clauses {
    ghost use Rattle.std.specs.Prelude.{List, ℕ};

    ghost Value = { List ℕ };

    ghost view = { λ a. a.items.items };
}

/// A list of clauses for each predicate. Contracts see the list of the lists.
#[derive(Drop)]
pub struct ClauseLists {
    rows: Vec<Clauses>,
}

impl Model for ClauseLists {
    ghost use Rattle.std.specs.Prelude.{List, ℕ};

    ghost Value = { List (List ℕ) };

    ghost view = { λ a. a.rows.items };
}

impl ClauseLists {
    /// An empty list for each of the given number of predicates.
    pub(crate) fn new(alloc: Global, count: u32) -> Result<ClauseLists, AllocError>
        ensures { IfOk result (λ lists. lists ≡ replicate count []) }
    {
        let mut rows = Vec::new(alloc);
        for _i in 0..count {
            rows.push(Clauses {
                items: Vec::new(alloc),
            })?;
        }
        Ok(ClauseLists { rows })
    }

    /// The clauses of a predicate, none for a number that is not a predicate's.
    pub fn of(&self, pred: PredId) -> &[u32]
        ensures { result.now ≡ slice_index_or self.now pred.0 [] }
    {
        let place = pred.0 as usize;
        if place >= self.rows.len() {
            return &[];
        }
        self.rows[place].items.as_slice()
    }

    /// Adds a clause to the list of a predicate.
    pub(crate) fn push(&mut self, pred: PredId, clause: u32) -> Result<(), AllocError>
        requires { pred.0 < length self.old }
        ensures ok { OnOk result (self.new ≡ slice_set self.old pred.0
            (slice_index_or self.old pred.0 [] ++ clause ∷ [])) }
    {
        let row = &mut self.rows[pred.0 as usize];
        row.items.push(clause)?;
        Ok(())
    }
}

/// For each predicate the clauses that have it in their bodies.
pub fn users(alloc: Global, p: &Program) -> Result<ClauseLists, AllocError>
    ensures { IfOk result (AreUsers p.now) }
{
    let mut lists = ClauseLists::new(alloc, p.preds())?;
    for k in 0..p.clauses() {
        let clause = p.clause(k + 1);
        add_calls(&mut lists, &clause.body, k)?;
    }
    Ok(lists)
}

/// For each predicate the clauses that have it in their heads, the last one first.
pub fn heads(alloc: Global, p: &Program) -> Result<ClauseLists, AllocError>
    ensures { IfOk result (AreHeads p.now) }
{
    let mut lists = ClauseLists::new(alloc, p.preds())?;
    let count = p.clauses();
    for k in 0..count {
        let clause = count - 1 - k;
        lists.push(p.clause(clause + 1).head.pred, clause)?;
    }
    Ok(lists)
}

/// Adds a clause to the lists of the predicates that its body has.
fn add_calls(lists: &mut ClauseLists, body: &Atoms, clause: u32) -> Result<(), AllocError>
    requires there { (i : ℕ) (b : Atom) → slice_get body.now i ≡ Some b
        → b.pred.0 < length lists.old }
    ensures each { OnOk result (length lists.new ≡ length lists.old) }
    ensures more { OnOk result ((q j : ℕ) → HasUser lists.old q j → HasUser lists.new q j) }
    ensures only { OnOk result ((q j : ℕ) → HasUser lists.new q j → HasUser lists.old q j
        ⊎ (j ≡ clause)) }
    ensures added { OnOk result ((i : ℕ) (b : Atom) → slice_get body.now i ≡ Some b
        → HasUser lists.new b.pred.0 clause) }
{
    for atom in body.as_slice() {
        lists.push(atom.pred, clause)?;
    }
    Ok(())
}
