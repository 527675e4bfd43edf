//! The size rows of predicates, and their proofs.

ghost use Rattle.std.specs.Prelude.{◌≡◌, ◌++◌, map, length, sum_by};
ghost use Rattle.fact_reading.specs.Filling.{Fills};
ghost use Rattle.cert_structure.specs.Shape.{arity_in, rows_of, rows_of_atoms};
ghost use Rattle.cert_structure.specs.Walk.{AgreesKept, named, row_read, shared_row, rows_by, shared_proof, proofs_by};
ghost use Rattle.fact_reading.specs.Walk.{read_each};

use crate::clauses::{body_at, head_at};
use crate::named::{Named, is_number};
use crate::numbers::{multipliers, size_row};
use crate::shared_fact::{AsShared, SharedFact};
use cti_terms::{Atom, Names, PredId, Program};
use fact_reading::{FactFault, Kind, Next, Reader, Stop, each, many};
use linear_rows::{Multipliers, Row, RowList, Rows};
use sequences::Sequence;
use std::alloc::Global;
use termination_model::SizeRows;

/// The facts of a predicate's size rows.
#[derive(Drop)]
struct RowFact<'a> {
    pred: Named<'a>,
}

impl<F: AsShared> Kind<F> for RowFact<'_> {
    type Item = Row;

    ghost takes = { λ r number fact. shared_row (named r.pred) number (F.shared fact) };

    #[tactic(auto, unfolding(crate::specs::Walk::shared_row))]
    fn take(&self, alloc: Global, number: u64, fact: &F) -> Result<Option<Row>, FactFault> {
        let SharedFact::Size { pred, index, row } = fact.as_shared() else {
            return Ok(None);
        };
        if !self.pred.is(pred) || !is_number(index, number) {
            return Ok(None);
        }
        Ok(Some(size_row(alloc, self.pred.arity, row)?))
    }
}

/// The size rows of each predicate.
#[derive(Drop)]
pub struct PredRows<'a> {
    pub p: &'a Program,
    pub names: &'a Names,
}

impl<F: AsShared> Reader<F> for PredRows<'_> {
    type Item = Rows;

    ghost reads = { λ r number facts. rows_by F.shared r.p.now r.names.now number facts };

    #[tactic(auto, unfolding(crate::specs::Walk::rows_by))]
    fn read<'f>(
        &self,
        alloc: Global,
        number: u64,
        facts: &'f [F],
    ) -> Result<(Rows, &'f [F]), Stop> {
        let pred = Named::new(self.p, self.names, number);
        let (rows, rest) = many(alloc, &RowFact { pred }, facts)?;
        let list = RowList::from_vec(rows.into_vec());
        Ok((
            Rows {
                width: pred.arity,
                list,
            },
            rest,
        ))
    }
}

/// Reads the size rows of the predicates below `count` into the place of others, and gives the facts after them.
pub fn rows_into<'f, F: AsShared>(
    alloc: Global,
    reader: &PredRows,
    count: u64,
    rows: &mut SizeRows,
    facts: &'f [F],
) -> Result<&'f [F], Stop>
    ensures { Fills result rows.new
        (read_each (rows_by F.shared reader.now.p.now reader.now.names.now) 0 count facts.now) }
{
    let (read, rest) = each(alloc, reader, count, facts)?;
    *rows = SizeRows::from_vec(read.into_vec());
    Ok(rest)
}

/// How many size rows a predicate has.
pub fn rows_of(rows: &SizeRows, pred: PredId) -> u64
    ensures { result ≡ rows_of rows.now pred.0 }
{
    let place = pred.0 as usize;
    if place < rows.len() {
        rows.get(place).list.len() as u64
    } else {
        0
    }
}

/// The facts of the proofs for a clause, each with `rows` multipliers.
#[derive(Drop)]
struct ProofFact {
    clause: u64,
    rows: u128,
}

impl<F: AsShared> Kind<F> for ProofFact {
    type Item = Multipliers;

    ghost takes = { λ r number fact. shared_proof r.clause r.rows number (F.shared fact) };

    #[tactic(auto, unfolding(crate::specs::Walk::shared_proof))]
    fn take(&self, alloc: Global, number: u64, fact: &F) -> Result<Option<Multipliers>, FactFault> {
        let SharedFact::By {
            clause,
            index,
            scale,
            multipliers: list,
        } = fact.as_shared()
        else {
            return Ok(None);
        };
        if !is_number(u64::from(clause), self.clause) || !is_number(index, number) {
            return Ok(None);
        }
        Ok(Some(multipliers(alloc, self.rows, scale, list)?))
    }
}

/// How many rows the system of atoms has.
pub fn rows_of_atoms(rows: &SizeRows, atoms: &[Atom]) -> u128
    ensures { result ≡ rows_of_atoms rows.now atoms.now }
{
    let mut count = 0;
    for atom in atoms {
        count += u128::from(rows_of(rows, atom.pred));
    }
    count
}

/// The proofs for each clause.
#[derive(Drop)]
pub struct Proofs<'a> {
    pub p: &'a Program,
    pub rows: &'a SizeRows,
}

impl<F: AsShared> Reader<F> for Proofs<'_> {
    type Item = Sequence<Multipliers>;

    ghost reads = { λ r number facts. proofs_by F.shared r.p.now r.rows.now number facts };

    #[tactic(auto, unfolding(crate::specs::Walk::proofs_by))]
    fn read<'f>(
        &self,
        alloc: Global,
        number: u64,
        facts: &'f [F],
    ) -> Result<(Sequence<Multipliers>, &'f [F]), Stop> {
        let kind = ProofFact {
            clause: number,
            rows: rows_of_atoms(self.rows, body_at(self.p, number)),
        };
        let count = rows_of(self.rows, head_at(self.p, number));
        each(alloc, &Next { kind }, count, facts)
    }
}
