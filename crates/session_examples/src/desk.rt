//! A session, and the clauses that are put into it.

ghost use Rattle.std.specs.Prelude.{◌≡◌, ◌<◌, ◌∷◌, MatchOption, length};

use cert_assembly::{arguments_of, pred_text};
use certificate::{Certificate, Fact};
use cti_session::laws::sessions_stay;
use cti_session::{EditClause, EditFault, Session};
use cti_terms::{Names, PredId};
use prolog_reader::read_text;
use prolog_terms::ReadClause;
use sequences::Sequence;
use std::alloc::{AllocError, Global};
use std::marker::Model;
use std::mem;
use std::test::Fail;

/// An edit: the next clause of the text is put last, or all that are left are, or the next one becomes that of this
/// number, or the clause of this number is taken out.
#[derive(Clone, Copy)]
pub(crate) enum Step {
    Add,
    Extend,
    Insert(u32),
    Remove(u32),
}

/// A session with its names, and the clauses of a text that were not put in yet. Contracts see how many of them there
/// are.
pub(crate) struct Desk {
    session: Session,
    names: Names,
    left: Vec<ReadClause>,
}

impl Drop for Desk {
    fn drop(self) {
        let Desk {
            session: _,
            names: _,
            left: _,
        } = self;
    }
}

impl Model for Desk {
    ghost use Rattle.std.specs.Prelude.{ℕ, length, map};
    ghost use Rattle.prolog_terms.specs.Terms.{clause_of};
    ghost use Rattle.session_examples.specs.Ready.{IsReady};

    ghost Value = { ℕ };

    ghost view = { λ d. length d.left.items };

    ghost invariant = { λ d. IsReady d.names d.session (map clause_of d.left.items) };
}

/// Takes the first of these clauses.
fn first(clauses: &mut Vec<ReadClause>) -> Option<EditClause>
    ensures { MatchOption result (clauses.new.items ≡ clauses.old.items)
        (λ first. clauses.old.items ≡ first.clause ∷ clauses.new.items) }
{
    if clauses.is_empty() {
        return None;
    }
    Some(EditClause {
        clause: clauses.remove(0),
    })
}

/// The modes of a predicate, as a fact.
fn modes_fact(
    alloc: Global,
    session: &Session,
    names: &Names,
    q: PredId,
) -> Result<Fact, AllocError>
    requires { q.0 < length session.now.kept.program.preds }
{
    let modes = arguments_of(alloc, session.modes(q))?;
    let pred = pred_text(alloc, session.program(), names, q)?;
    Ok(Fact::Terminates { pred, modes })
}

impl Desk {
    /// A session without clauses, before a text.
    pub(crate) fn of(alloc: Global, text: &str) -> Result<Desk, Fail> {
        let mut names = Names::new(alloc);
        let session = Session::new(alloc, &mut names)?;
        if names.count() > 1_000_000 {
            return Err(Fail::new("many names"));
        }
        let read = read_text(alloc, text.as_bytes(), &mut names)?;
        if names.count() > 1_000_000 {
            return Err(Fail::new("many names"));
        }
        sessions_stay();
        Ok(Desk {
            session,
            names,
            left: read.clauses.into_vec(),
        })
    }

    /// Adds the next clause of the text.
    fn add(&mut self) -> Option<Result<(), EditFault>> {
        let clause = first(&mut self.left)?;
        Some(self.session.add(clause, &mut self.names))
    }

    /// Adds the clauses of the text that are left, all in one edit.
    fn extend(&mut self) -> Result<(), EditFault> {
        let alloc = *self.left.allocator();
        let more = mem::replace(&mut self.left, Vec::new(alloc));
        self.session.extend(more, &mut self.names)
    }

    /// Puts in the next clause of the text.
    fn insert(&mut self, k: u32) -> Option<Result<(), EditFault>> {
        if k < 1 || k - 1 > self.session.clauses() {
            return None;
        }
        let clause = first(&mut self.left)?;
        Some(self.session.insert(k, clause, &mut self.names))
    }

    /// Takes out the clause of this number.
    fn remove(&mut self, k: u32) -> Option<Result<(), EditFault>> {
        if k < 1 || k > self.session.clauses() {
            return None;
        }
        match self.session.remove(k, &mut self.names) {
            Ok(()) => Some(Ok(())),
            Err(_) => Some(Err(EditFault::Memory)),
        }
    }

    /// Does an edit; none where the text has no clause left, or the session none of the number.
    pub(crate) fn play(&mut self, step: Step) -> Option<Result<(), EditFault>> {
        match step {
            Step::Add => self.add(),
            Step::Extend => Some(self.extend()),
            Step::Insert(k) => self.insert(k),
            Step::Remove(k) => self.remove(k),
        }
    }

    /// The modes of all predicates, in lines of a certificate.
    pub(crate) fn modes(&self, alloc: Global) -> Result<Vec<u8>, AllocError> {
        let mut facts = Sequence::new(alloc);
        for q in 0..self.session.program().preds() {
            facts.push(modes_fact(alloc, &self.session, &self.names, PredId(q))?)?;
        }
        let told = Certificate { facts };
        told.print(alloc)
    }

    /// The whole certificate.
    pub(crate) fn certificate(&self, alloc: Global) -> Result<Vec<u8>, AllocError> {
        self.session.certificate(&self.names)?.print(alloc)
    }

    /// How many clauses there are, and how many nodes they have.
    pub(crate) fn size(&self) -> (u32, u32) {
        (self.session.clauses(), self.session.nodes())
    }
}
