//! The notes of a certificate of lists.

ghost use Rattle.std.specs.Prelude.{◌≡◌, ◌<◌, ◌++◌, IfOk, OnOk, length};
ghost use Rattle.std.specs.List.{flat_map};
ghost use Rattle.call_components.specs.Partition.{AreComponents};
ghost use Rattle.cert_assembly.specs.Leading.{led_by};
ghost use Rattle.lex_measures.specs.Exact.{component_notes, note_at, note_if, noted};
ghost use Rattle.lex_measures.specs.Lists.{found_of};

use call_components::Components;
use cert_assembly::{led_by, pred_text};
use certificate::{Fact, PredText};
use cti_terms::{Names, PredId, Program};
use lex_certificate::LexFact;
use lex_turns::FoundLists;
use sequences::Sequence;
use std::alloc::{AllocError, Global};
use std::mem;

/// The text of a predicate, which is moved out of its place.
fn taken_text(alloc: Global, pred: &mut PredText) -> PredText
    ensures { result ≡ pred.old }
{
    let nameless = PredText {
        name: Sequence::new(alloc),
        arity: 0,
    };
    mem::replace(pred, nameless)
}

/// Moves a note of a chain after others.
fn push_noted(alloc: Global, note: &mut Fact, out: &mut Sequence<LexFact>) -> Result<(), AllocError>
    ensures { OnOk result (out.new ≡ out.old ++ noted note.old) }
{
    match note {
        Fact::Image {
            step,
            clause,
            pred,
            rows,
        } => out.push(LexFact::Image {
            step: *step,
            clause: *clause,
            pred: taken_text(alloc, pred),
            rows: mem::replace(rows, Sequence::new(alloc)),
        }),
        Fact::Step {
            step,
            pred,
            how,
            rows,
        } => out.push(LexFact::Step {
            step: *step,
            pred: taken_text(alloc, pred),
            how: *how,
            rows: mem::replace(rows, Sequence::new(alloc)),
        }),
        Fact::WeakImage { step } => out.push(LexFact::WeakImage { step: *step }),
        Fact::WeakStep { step } => out.push(LexFact::WeakStep { step: *step }),
        _ => Ok(()),
    }
}

/// Moves the notes of a chain after others.
pub(crate) fn push_all_noted(
    alloc: Global,
    notes: Sequence<Fact>,
    out: &mut Sequence<LexFact>,
) -> Result<(), AllocError>
    ensures { OnOk result (out.new ≡ out.old ++ flat_map noted notes) }
{
    for mut note in notes.into_vec() {
        push_noted(alloc, &mut note, out)?;
    }
    Ok(())
}

/// A program by its names and its components.
#[derive(Clone, Copy)]
pub(crate) struct Described<'a> {
    pub(crate) p: &'a Program,
    pub(crate) names: &'a Names,
    pub(crate) comps: &'a Components,
}

impl Described<'_> {
    /// Puts the note of a predicate's component after others, where the search for some of its lists was given up.
    fn note_if(
        &self,
        alloc: Global,
        q: PredId,
        blown: &[Sequence<u32>],
        out: &mut Sequence<LexFact>,
    ) -> Result<(), AllocError>
        ensures { OnOk result (out.new
            ≡ out.old ++ note_if self.now.p.now self.now.names.now q.0 blown.now) }
    {
        if blown.is_empty() {
            return Ok(());
        }
        out.push(LexFact::Blown {
            pred: pred_text(alloc, self.p, self.names, q)?,
        })
    }

    /// Puts the note of a component after others, where it is led by the predicate and has one.
    fn note_at(
        &self,
        alloc: Global,
        q: PredId,
        found: &[FoundLists],
        out: &mut Sequence<LexFact>,
    ) -> Result<(), AllocError>
        requires components { AreComponents self.now.p.now self.now.comps.now }
        requires there { q.0 < length self.now.p.now.preds }
        requires each { length found.now ≡ length self.now.comps.now.members }
        ensures { OnOk result (out.new ≡ out.old
            ++ note_at self.now.p.now self.now.names.now (found_of found.now) q.0
            (led_by self.now.comps.now q.0)) }
    {
        match led_by(self.p, self.comps, q) {
            Some(c) => {
                let blown = &found[c as usize].blown;
                self.note_if(alloc, q, blown.as_slice(), out)
            }
            None => Ok(()),
        }
    }

    /// Puts the notes of all components after others. What is found goes by component.
    pub(crate) fn note_components(
        &self,
        alloc: Global,
        found: &[FoundLists],
        out: &mut Sequence<LexFact>,
    ) -> Result<(), AllocError>
        requires components { AreComponents self.now.p.now self.now.comps.now }
        requires each { length found.now ≡ length self.now.comps.now.members }
        ensures { OnOk result (out.new ≡ out.old
            ++ component_notes self.now.p.now self.now.names.now self.now.comps.now
            (found_of found.now)) }
    {
        for q in 0..self.p.preds() {
            self.note_at(alloc, PredId(q), found, out)?;
        }
        Ok(())
    }
}
