//! Predicates by their names' texts.

ghost use Rattle.std.specs.Prelude.{◌≡◌, suc, ◌==◌, IfOk};
ghost use Rattle.cert_structure.specs.Order.{pred_text};
ghost use Rattle.cert_structure.specs.Walk.{named, same_pred};

use certificate::PredText;
use cti_terms::{Names, PredId, Program};
use sequences::Sequence;
use std::alloc::{AllocError, Global};

/// A predicate of a program: the text of its name, and how many arguments it has.
#[derive(Clone, Copy)]
pub struct Named<'a> {
    pub name: &'a [u8],
    pub arity: u32,
}

impl<'a> Named<'a> {
    /// The predicate of this number; with an empty name and no arguments, where there is none.
    pub fn new(p: &'a Program, names: &'a Names, number: u64) -> Named<'a>
        ensures { named result ≡ pred_text p.now names.now number }
    {
        if number >= u64::from(p.preds()) {
            return Named {
                name: &[],
                arity: 0,
            };
        }
        let pred = p.pred(PredId(number as u32));
        Named {
            name: if pred.name.0 < names.count() {
                names.text(pred.name)
            } else {
                &[]
            },
            arity: pred.arity,
        }
    }

    /// The predicate, for a fact.
    pub fn text(&self, alloc: Global) -> Result<PredText, AllocError>
        ensures { IfOk result (λ text. text ≡ named self.now) }
    {
        Ok(PredText {
            name: Sequence::from_vec(Vec::from_slice(alloc, self.name)?),
            arity: self.arity,
        })
    }

    /// Whether a fact's predicate is this one.
    pub fn is(&self, pred: &PredText) -> bool
        ensures { result ≡ same_pred pred.now (named self.now) }
    {
        pred.name.as_slice() == self.name && pred.arity == self.arity
    }
}

/// Whether a number that counts from 1 is that of an item, which counts from 0.
pub fn is_number(counted: u64, number: u64) -> bool
    ensures { result ≡ (counted == suc number) }
{
    counted > 0 && counted - 1 == number
}
