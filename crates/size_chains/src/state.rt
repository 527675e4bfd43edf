//! The state of a chain: the rows of each predicate, and the steps so far.

ghost use Rattle.std.specs.Prelude.{◌≡◌, ◌≤◌, ◌<◌, IfOk, IfSome, OnOk, length, [], Some};
ghost use Rattle.cti_terms.specs.Arithmetic.{kind_of};
ghost use Rattle.cti_terms.specs.Listing.{IsProgram};
ghost use Rattle.linear_rows.specs.Plain.{plain_rows};
ghost use Rattle.linear_rows.specs.declared.row.Rows.{Rows};
ghost use Rattle.termination_model.specs.sizes.Sizes.{rows_of};
ghost use Rattle.call_components.specs.Partition.{Partition};
ghost use Rattle.size_chains.specs.Ready.{IsReady};
ghost use Rattle.size_chains.specs.Repeating.{IsLastStep, IsMarked};
ghost use Rattle.size_chains.specs.States.{AreStatedTo, IfReplaced, IsAccepted, IsAdded, IsFresh, IsState, IsStatedAt, every};
ghost use Rattle.size_chains.specs.Chains.{start_rows};

use crate::chain::Chain;
use crate::clause_systems::ClauseSystems;
use crate::filled::Filled;
use crate::latest::Latest;
use crate::noting::Noted;
use crate::sharing::are_same_rows;
use crate::step::Step;
use crate::stepped::Stepped;
use crate::value::Value;
use cti_terms::{Atom, Builtin, PredId, Program};
use linear_rows::{Multipliers, Rows};
use polyhedra::Domain;
use sequences::Sequence;
use std::alloc::{AllocError, Global};
use std::rc::Rc;
use termination_model::{SizeRows, Sizes};

/// The rows of each predicate while a chain goes on.
pub struct State<D> {
    /// The rows, as the systems of clauses read them. There are no proofs here.
    pub sizes: Sizes,
    /// For each predicate the value that lists its rows.
    pub(crate) values: Vec<Value<D>>,
    /// For each clause the proofs that its last step gave.
    pub proofs: Vec<Sequence<Multipliers>>,
    /// The steps so far.
    pub(crate) steps: Sequence<Step>,
    /// Which of them were the last ones.
    pub(crate) latest: Latest,
}

impl<D: Drop> Drop for State<D> {
    fn drop(self) {
        let State {
            sizes: _,
            values: _,
            proofs: _,
            steps: _,
            latest: _,
        } = self;
    }
}

impl<D: Domain> State<D> {
    /// Built-in predicates have their stated rows, all others are empty, and there are no steps.
    pub fn start<S: ClauseSystems>(alloc: Global, systems: &S) -> Result<State<D>, AllocError>
        ensures state { IfOk result
            (IsState D.width D.listed (S.systems systems.now) every (S.listing systems.now)) }
        ensures rows { IfOk result
            (λ s. rows_of s.sizes.rows ≡ start_rows (S.systems systems.now) (S.listing systems.now)) }
        ensures steps { IfOk result (λ s. s.steps ≡ []) }
        ensures ready { IfOk result (λ s. (comps : Partition)
            → IsReady D.width D.listed (S.systems systems.now) (S.listing systems.now) comps 0 s) }
    {
        let p = systems.program();
        let mut state = State {
            sizes: Sizes {
                rows: SizeRows::new(alloc),
                proofs: Sequence::new(alloc),
            },
            values: Vec::new(alloc),
            proofs: Vec::new(alloc),
            steps: Sequence::new(alloc),
            latest: Latest::new(alloc, p)?,
        };
        state.add_values(alloc, systems)?;
        state.put_stated(alloc, systems)?;
        state.add_proofs(alloc, p)?;
        Ok(state)
    }

    /// Adds a value for each predicate, which is empty.
    fn add_values<S: ClauseSystems>(&mut self, alloc: Global, systems: &S) -> Result<(), AllocError>
        requires rows { self.old.sizes.rows ≡ [] }
        requires values { self.old.values.items ≡ [] }
        ensures fresh { OnOk result
            (IsFresh D.width D.listed (S.systems systems.now) (S.listing systems.now).preds self.new) }
        ensures proofs { OnOk result (self.new.proofs ≡ self.old.proofs) }
        ensures steps { OnOk result (self.new.steps ≡ self.old.steps) }
    {
        for q in 0..systems.program().preds() {
            self.add_value(alloc, systems.width(PredId(q)))?;
        }
        Ok(())
    }

    /// Adds a value for one more predicate, with so many columns, which is empty.
    fn add_value(&mut self, alloc: Global, width: u32) -> Result<(), AllocError>
        ensures added { OnOk result (IsAdded D.width D.listed width self.old self.new) }
        ensures proofs { OnOk result (self.new.proofs ≡ self.old.proofs) }
        ensures steps { OnOk result (self.new.steps ≡ self.old.steps) }
    {
        let of = D::bottom(alloc, width)?;
        let rows = of.rows().copy(alloc)?;
        self.sizes.rows.push(rows)?;
        self.values.push(Value {
            of,
            filled: Filled::Bottom,
        })?;
        Ok(())
    }

    /// Puts the stated rows in the place of those of built-in predicates.
    fn put_stated<S: ClauseSystems>(&mut self, alloc: Global, systems: &S) -> Result<(), AllocError>
        requires fresh { IsFresh D.width D.listed (S.systems systems.now) (S.listing systems.now).preds self.old }
        ensures stated { OnOk result
            (AreStatedTo D.width D.listed (S.systems systems.now) (S.listing systems.now)
            (length (S.listing systems.now).preds) self.new) }
        ensures sound { OnOk result (IsProgram (S.listing systems.now)) }
        ensures proofs { OnOk result (self.new.proofs ≡ self.old.proofs) }
        ensures steps { OnOk result (self.new.steps ≡ self.old.steps) }
    {
        let p = systems.program();
        for q in 0..p.preds() {
            if let Some(kind) = p.builtin(PredId(q)) {
                self.put_rows(alloc, systems, q, kind)?;
            }
        }
        Ok(())
    }

    /// Puts the stated rows of a kind in the place of a predicate's.
    fn put_rows<S: ClauseSystems>(
        &mut self,
        alloc: Global,
        systems: &S,
        q: u32,
        kind: Builtin,
    ) -> Result<(), AllocError>
        requires there { q < length self.old.sizes.rows }
        requires kind { kind_of (S.listing systems.now).arithmetic q ≡ Some kind }
        ensures put { OnOk result
            (IsStatedAt D.width D.listed (S.systems systems.now) q kind self.old self.new) }
        ensures proofs { OnOk result (self.new.proofs ≡ self.old.proofs) }
        ensures steps { OnOk result (self.new.steps ≡ self.old.steps) }
    {
        let rows = systems.stated_rows(alloc, PredId(q), kind)?;
        self.sizes.rows.set(q as usize, rows);
        Ok(())
    }

    /// Adds no proofs for each clause.
    fn add_proofs(&mut self, alloc: Global, p: &Program) -> Result<(), AllocError>
        requires { self.old.proofs.items ≡ [] }
        ensures proofs { OnOk result (length self.new.proofs.items ≡ length p.now.clauses) }
        ensures sizes { OnOk result (self.new.sizes ≡ self.old.sizes) }
        ensures values { OnOk result (self.new.values ≡ self.old.values) }
        ensures steps { OnOk result (self.new.steps ≡ self.old.steps) }
    {
        for _k in 0..p.clauses() {
            self.proofs.push(Sequence::new(alloc))?;
        }
        Ok(())
    }

    /// Takes a step on clause `k`, which is one of `pred`, and says whether rows changed.
    pub(crate) fn accept(
        &mut self,
        alloc: Global,
        k: u32,
        pred: PredId,
        noted: Noted<D>,
    ) -> Result<bool, AllocError>
        requires first { 1 ≤ k }
        requires last { k ≤ length self.old.proofs.items }
        requires rows { pred.0 < length self.old.sizes.rows }
        requires values { pred.0 < length self.old.values.items }
        ensures accepted { IfOk result
            (IsAccepted D.width D.listed pred.0 k noted self.old self.new) }
        ensures marked { IfOk result (IsMarked pred.0 self.old self.new) }
    {
        let Noted {
            image,
            image_weak,
            stepped,
        } = noted;
        let Stepped {
            how,
            weak,
            next,
            filled,
            by,
        } = stepped;
        let changed = self.replace(alloc, pred, next, filled)?;
        let rows = self.shared_rows(alloc, pred)?;
        self.steps.push(Step {
            clause: k,
            image,
            image_weak,
            how,
            rows,
            step_weak: weak,
        })?;
        self.latest.note(k, pred, self.steps.len(), changed);
        self.proofs[k as usize - 1] = by;
        Ok(changed)
    }

    /// The rows of a predicate, for one more step: those of the last step, where they are the same.
    fn shared_rows(&self, alloc: Global, pred: PredId) -> Result<Rc<Rows>, AllocError>
        requires { pred.0 < length self.now.sizes.rows }
        ensures { IfOk result (λ rows. plain_rows rows.value.list
            ≡ rows_of self.now.sizes.rows pred.0) }
    {
        let rows = self.sizes.rows.get(pred.0 as usize);
        if let Some(step) = self.steps.as_slice().last() {
            if are_same_rows(step.rows.list.as_slice(), rows.list.as_slice()) {
                return step.rows.clone();
            }
        }
        Ok(Rc::new(alloc, rows.copy(alloc)?)?)
    }

    /// The last step on clause `k`, if it had one and the rows of these atoms' predicates are still those that it read.
    pub(crate) fn last_step(&self, k: u32, body: &[Atom]) -> Option<&Step>
        requires { 1 ≤ k }
        ensures { IfSome result (λ step. IsLastStep self.now k body.now step.now) }
    {
        let place = self.latest.place_of(k)?;
        if place >= self.steps.len() || self.steps.get(place).clause != k {
            return None;
        }
        if !self.latest.have_stayed(body, place) {
            return None;
        }
        Some(self.steps.get(place))
    }

    /// Puts a new value in the place of a predicate's, if there is one, and says whether there is.
    fn replace(
        &mut self,
        alloc: Global,
        pred: PredId,
        next: Option<D>,
        filled: Filled,
    ) -> Result<bool, AllocError>
        requires rows { pred.0 < length self.old.sizes.rows }
        requires values { pred.0 < length self.old.values.items }
        ensures replaced { IfOk result
            (IfReplaced D.width D.listed pred.0 next filled self.old self.new) }
        ensures proofs { OnOk result (self.new.proofs ≡ self.old.proofs) }
        ensures steps { OnOk result (self.new.steps ≡ self.old.steps) }
        ensures latest { OnOk result (self.new.latest ≡ self.old.latest) }
    {
        match next {
            None => Ok(false),
            Some(value) => {
                let rows = value.rows().copy(alloc)?;
                self.sizes.rows.set(pred.0 as usize, rows);
                self.values[pred.0 as usize] = Value { of: value, filled };
                Ok(true)
            }
        }
    }

    /// The steps, and the rows with the last proofs.
    pub(crate) fn into_chain(self) -> Chain
        ensures rows { result.sizes.rows ≡ self.sizes.rows }
        ensures proofs { result.sizes.proofs ≡ self.proofs.items }
        ensures steps { result.steps ≡ self.steps }
    {
        let State {
            mut sizes,
            values: _,
            proofs,
            steps,
            latest: _,
        } = self;
        sizes.proofs = Sequence::from_vec(proofs);
        Chain { steps, sizes }
    }
}
