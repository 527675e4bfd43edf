//! The edits of a text, one after another.

ghost use Rattle.std.specs.Prelude.{◌≡◌, ◌≤◌, ◌<◌, ◌+◌, ◌-◌, ◌^◌, ◌++◌, ◌∷◌, [], ℕ, List, suc, Some, None, Err, true, false, IfOk, IfErr, IfSome, OnOk, length, map, option_map, slice_get};
ghost use Rattle.certificate.specs.Text.{fact_text};
ghost use Rattle.certificate.specs.declared.fact.Fact.TheVariants.{Terminates};
ghost use Rattle.clause_normal.specs.Numbering.{operation_texts};
ghost use Rattle.prolog_reader.specs.Fit.{AreFit, IsFit};
ghost use Rattle.prolog_reader.specs.Names.{Extends};
ghost use Rattle.prolog_reader.specs.Naming.{with_names};
ghost use Rattle.prolog_terms.specs.Clauses.{nodes, place};
ghost use Rattle.prolog_terms.specs.Terms.{clause_of, tree_of};
ghost use Rattle.edit_texts.specs.Edits.{add, done, edit_of, number_in, outcome, predicate_in, remove, tell};
ghost use Rattle.edit_texts.specs.EditsFaults.{IfRefused};
ghost use Rattle.cert_structure.specs.Order.{pred_text};
ghost use Rattle.precond_fixpoint.specs.Solving.{arguments_of};
ghost use Rattle.edit_texts.specs.Playing.{AnswersStep, IsToldAs, IsUnderWay, clauses_in};
ghost use Rattle.edit_texts.specs.Snapshot.{nodes_in};
ghost use Rattle.edit_texts.specs.Told.{IsPlayed};

use crate::edits::{Edit, edit_of};
use crate::edits_fault::{EditKind, EditsFault};
use crate::following::{first_program, follow};
use cert_assembly::{arguments_of, pred_text};
use certificate::{Certificate, Fact};
use clause_normal::check_added;
use cti_terms::{Name, Names, PredId, Program};
use kept_clauses::all_kept;
use kept_program::KeptProgram;
use precond_fixpoint::Mode;
use prolog_terms::{ReadClause, ReadClauses};
use sequences::Sequence;
use std::alloc::{AllocError, Global};

/// The edits of a text under way.
struct Playing {
    clauses: Vec<ReadClause>,
    /// The program of the clauses when modes were last asked for, with what is kept of it.
    kept: KeptProgram,
    /// How many clauses there were then.
    count: usize,
    /// Which of those each of the clauses is.
    since: Vec<Option<u32>>,
    /// Whether it is the program of the clauses as they stand.
    is_current: bool,
    /// What is printed.
    lines: Vec<u8>,
}

impl Drop for Playing {
    fn drop(self) {
        let Playing {
            clauses: _,
            kept: _,
            count: _,
            since: _,
            is_current: _,
            lines: _,
        } = self;
    }
}

/// The refusal of an edit that cannot be done.
fn bad_edit<T>(at: u32) -> Result<T, EditsFault>
    ensures { result ≡ Err (EditsFault.Refused EditKind.BadEdit at) }
{
    Err(EditsFault::Refused {
        kind: EditKind::BadEdit,
        at,
    })
}

/// The place of the clause of this number among so many, where clauses count from 1 and places from 0.
fn place_in(count: usize, number: i128) -> Option<usize>
    ensures { option_map (λ at. at + 1) result ≡ number_in count number }
{
    if number < 1 || number > count as i128 {
        return None;
    }
    Some(number as usize - 1)
}

/// The predicate of this name and arity.
fn predicate_in(program: &Program, name: Name, arity: i128) -> Option<PredId>
    ensures number { option_map (λ q. q.0) result ≡ predicate_in program.now name.0 arity }
    ensures there { IfSome result (λ q. q.0 < length program.now.preds) }
{
    // So much is known of every program.
    let _program = program.clauses();
    match u32::try_from(arity) {
        Ok(arity) => program.find(name, arity),
        Err(_) => None,
    }
}

/// The line of a predicate's modes.
fn modes_line(
    alloc: Global,
    program: &Program,
    names: &Names,
    p: PredId,
    modes: &[Mode],
) -> Result<Vec<u8>, AllocError>
    ensures { IfOk result (λ line. line.items ≡ fact_text
        (Terminates (pred_text program.now names.now p.0) (map arguments_of modes.now))) }
{
    let mut facts = Sequence::new(alloc);
    facts.push(Fact::Terminates {
        pred: pred_text(alloc, program, names, p)?,
        modes: arguments_of(alloc, modes)?,
    })?;
    let told = Certificate { facts };
    told.print(alloc)
}

impl Playing {
    /// What is printed.
    fn into_lines(self) -> Vec<u8>
        ensures { result ≡ self.lines }
    {
        let Playing {
            clauses: _,
            kept: _,
            count: _,
            since: _,
            is_current: _,
            lines,
        } = self;
        lines
    }

    /// Puts a clause last.
    fn push(&mut self, clause: ReadClause) -> Result<(), AllocError>
        ensures clauses { OnOk result (clauses_in self.new ≡ clauses_in self.old ++ clause_of clause
            ∷ []) }
        ensures since { OnOk result (self.new.since.items ≡ self.old.since.items ++ None ∷ []) }
        ensures stale { OnOk result (self.new.is_current ≡ false) }
        ensures others { (self.new.kept ≡ self.old.kept) × (self.new.count ≡ self.old.count)
            × (self.new.lines ≡ self.old.lines) }
    {
        self.since.push(None)?;
        self.clauses.push(clause)?;
        self.is_current = false;
        Ok(())
    }

    /// Adds a clause after the others.
    fn add(&mut self, clause: ReadClause, names: &Names) -> Result<(), EditsFault>
        requires under_way { IsUnderWay names.now self.old }
        requires fit { IsFit (length names.now) (clause_of clause) }
        requires small { nodes_in (clauses_in self.old) + nodes (tree_of clause.term) ≤ 2097152 }
        ensures step { (at : ℕ) → AnswersStep names.now self.old self.new
            (done names.now (clauses_in self.old) at (add (clause_of clause))) result }
        ensures clauses { OnOk result (clauses_in self.new ≡ clauses_in self.old ++ clause_of clause
            ∷ []) }
    {
        let alloc = *self.clauses.allocator();
        check_added(alloc, &clause, names, self.clauses.len())?;
        self.push(clause)?;
        Ok(())
    }

    /// Removes the clause of this number.
    fn remove(&mut self, number: i128, at: u32) -> Result<(), EditsFault>
        requires each { length self.old.since.items ≡ length self.old.clauses.items }
        ensures step { (names : List (List ℕ)) → IsUnderWay names self.old
            → AnswersStep names self.old self.new
            (done names (clauses_in self.old) at (remove number)) result }
        ensures fewer { OnOk result
            (nodes_in (clauses_in self.new) ≤ nodes_in (clauses_in self.old)) }
    {
        match place_in(self.clauses.len(), number) {
            Some(place) => {
                let _removed = self.clauses.remove(place);
                let _number = self.since.remove(place);
                self.is_current = false;
                Ok(())
            }
            None => bad_edit(at),
        }
    }

    /// Solves the program of the clauses, unless that was done.
    fn catch_up(&mut self, names: &mut Names) -> Result<(), AllocError>
        requires under_way { IsUnderWay names.old self.old }
        requires room { length names.old < 2 ^ 32 - 3 }
        ensures names { names.new ≡ names.old }
        ensures current { OnOk result (self.new.is_current ≡ true) }
        ensures clauses { self.new.clauses ≡ self.old.clauses }
        ensures lines { self.new.lines ≡ self.old.lines }
        ensures under_way { OnOk result (IsUnderWay names.new self.new) }
    {
        if !self.is_current {
            follow(
                &mut self.kept,
                &self.clauses,
                self.count,
                &self.since,
                names,
            )?;
            self.count = self.clauses.len();
            self.since = all_kept(*self.clauses.allocator(), self.count)?;
            self.is_current = true;
        }
        Ok(())
    }

    /// Adds the line of a predicate's modes.
    fn push_line(&mut self, p: PredId, names: &Names) -> Result<(), AllocError>
        requires { p.0 < length self.old.kept.program.preds }
        ensures line { OnOk result (IsToldAs names.now self.old self.new p.0) }
        ensures others { (self.new.clauses ≡ self.old.clauses)
            × (self.new.kept ≡ self.old.kept)
            × (self.new.since ≡ self.old.since)
            × (self.new.count ≡ self.old.count)
            × (self.new.is_current ≡ self.old.is_current) }
    {
        let alloc = *self.clauses.allocator();
        let line = modes_line(alloc, self.kept.program(), names, p, self.kept.modes(p))?;
        self.lines.extend_from_slice(&line)
    }

    /// Tells the modes of the predicate of this name and arity.
    fn tell(
        &mut self,
        name: Name,
        arity: i128,
        at: u32,
        names: &mut Names,
    ) -> Result<(), EditsFault>
        requires under_way { IsUnderWay names.old self.old }
        requires room { length names.old < 2 ^ 32 - 3 }
        ensures names { names.new ≡ names.old }
        ensures step { AnswersStep names.old self.old self.new
            (done names.old (clauses_in self.old) at (tell name.0 arity)) result }
        ensures clauses { self.new.clauses ≡ self.old.clauses }
    {
        self.catch_up(names)?;
        self.kept.certified(names);
        match predicate_in(self.kept.program(), name, arity) {
            Some(p) => {
                self.push_line(p, names)?;
                Ok(())
            }
            None => bad_edit(at),
        }
    }

    /// Does the edit that a clause of the text is.
    fn play(&mut self, clause: ReadClause, names: &mut Names) -> Result<(), EditsFault>
        requires under_way { IsUnderWay names.old self.old }
        requires fit { IsFit (length names.old) (clause_of clause) }
        requires small { nodes_in (clauses_in self.old) + nodes (tree_of clause.term) ≤ 2097152 }
        requires room { length names.old < 2 ^ 32 - 3 }
        ensures names { names.new ≡ names.old }
        ensures step { let e = clause_of clause in
            AnswersStep names.old self.old self.new
            (done names.old (clauses_in self.old) (place e.term) (edit_of names.old e)) result }
        ensures small { OnOk result
            (nodes_in (clauses_in self.new) ≤ nodes_in (clauses_in self.old) + nodes
            (tree_of clause.term)) }
    {
        let at = clause.term.at;
        match edit_of(names, clause) {
            Edit::Nothing => Ok(()),
            Edit::Add(clause) => self.add(clause, names),
            Edit::Remove(number) => self.remove(number, at),
            Edit::Tell(name, arity) => self.tell(name, arity, at, names),
            Edit::NoEdit => bad_edit(at),
        }
    }
}

/// Does all edits of a text, in order.
fn play_all(
    playing: &mut Playing,
    edits: Vec<ReadClause>,
    names: &mut Names,
) -> Result<(), EditsFault>
    requires begun { IsUnderWay names.old playing.old }
    requires none { clauses_in playing.old ≡ [] }
    requires empty { playing.old.lines.items ≡ [] }
    requires fit { AreFit (length names.old) (map clause_of edits.items) }
    requires room { length names.old < 2 ^ 32 - 3 }
    ensures names { names.new ≡ names.old }
    ensures played { OnOk result
        (IsPlayed names.old (map clause_of edits.items) playing.new.lines.items) }
    ensures refused { IfErr result
        (λ e. IfRefused e (λ r. outcome names.old [] (map clause_of edits.items) ≡ Err r)) }
{
    for edit in edits {
        playing.play(edit, names)?;
    }
    Ok(())
}

/// Does the edits of a text, from no clauses on, and gives what is printed: a line for each edit that asks for modes.
///
/// The names of arithmetic operations are added. Fails with `Refused` at the first edit that cannot be done, with its
/// place in bytes from 0, or with `Memory`; no clause says that memory was short then.
pub fn play(alloc: Global, edits: ReadClauses, names: &mut Names) -> Result<Vec<u8>, EditsFault>
    requires fit { AreFit (length names.old) edits }
    requires room { length names.old < 2 ^ 32 - 6 }
    ensures kept { Extends names.old names.new }
    ensures names { OnOk result (names.new ≡ with_names names.old operation_texts) }
    ensures played { IfOk result
        (λ lines. IsPlayed (with_names names.old operation_texts) edits lines.items) }
    ensures refused { IfErr result
        (λ e. IfRefused e (λ r. outcome (with_names names.old operation_texts) [] edits ≡ Err r)) }
{
    let kept = first_program(alloc, names)?;
    let mut playing = Playing {
        clauses: Vec::new(alloc),
        kept,
        count: 0,
        since: Vec::new(alloc),
        is_current: true,
        lines: Vec::new(alloc),
    };
    play_all(&mut playing, edits.into_vec(), names)?;
    Ok(playing.into_lines())
}
