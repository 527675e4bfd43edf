//! Numbered rows of predicates.

ghost use Rattle.std.specs.Prelude.{◌≡◌, ◌<◌, ◌^◌, IfOk, OnOk, length, map, replicate, [], ◌∷◌, ◌++◌, slice_get, slice_set, slice_index_or, Some};
ghost use Rattle.call_components.specs.Numbers.{called_by_atom};

use crate::pred_list::Preds;
use cti_terms::{Atoms, PredId};
use std::alloc::{AllocError, Global};
use std::marker::Model;

/// Rows of predicates, numbered from 0. Contracts see the list of the rows.
#[derive(Drop)]
pub(crate) struct PredLists {
    rows: Vec<Preds>,
}

impl Model for PredLists {
    ghost use Rattle.std.specs.Prelude.{List, ℕ, ◌<◌, ◌^◌, length};

    ghost Value = { List (List ℕ) };

    ghost view = { λ a. a.rows.items };

    ghost invariant = { λ a. length a.rows.items < 2 ^ 32 };
}

impl PredLists {
    /// The given number of empty rows.
    pub(crate) fn new(alloc: Global, count: u32) -> Result<PredLists, AllocError>
        ensures { IfOk result (λ lists. lists ≡ replicate count []) }
    {
        let mut rows = Vec::new(alloc);
        for _i in 0..count {
            rows.push(Preds::new(alloc))?;
        }
        Ok(PredLists { rows })
    }

    /// How many rows there are.
    pub(crate) fn count(&self) -> u32
        ensures { result ≡ length self.now }
    {
        self.rows.len() as u32
    }

    /// The row of a number.
    pub(crate) fn row(&self, number: u32) -> &Preds
        requires { number < length self.now }
        ensures { slice_get self.now number ≡ Some result.now }
    {
        &self.rows[number as usize]
    }

    /// Adds a predicate at the end of a row.
    pub(crate) fn push(&mut self, number: u32, pred: PredId) -> Result<(), AllocError>
        requires { number < length self.old }
        ensures ok { OnOk result (self.new ≡ slice_set self.old number
            (slice_index_or self.old number [] ++ pred.0 ∷ [])) }
    {
        self.rows[number as usize].push(pred)
    }

    /// Adds the predicates of these atoms at the end of a row.
    pub(crate) fn extend(&mut self, number: u32, atoms: &Atoms) -> Result<(), AllocError>
        requires { number < length self.old }
        ensures ok { OnOk result (self.new ≡ slice_set self.old number
            (slice_index_or self.old number [] ++ map called_by_atom atoms.now)) }
    {
        self.rows[number as usize].extend_by(atoms)
    }
}
