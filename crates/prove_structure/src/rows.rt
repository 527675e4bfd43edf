//! The size rows of predicates, over the columns of their arguments.

ghost use Rattle.std.specs.Prelude.{◌≡◌};
ghost use Rattle.cert_structure.specs.Walk.{named};
ghost use Rattle.fact_reading.specs.Filling.{Fills};
ghost use Rattle.fact_reading.specs.Walk.{read_each};
ghost use Rattle.prove_structure.specs.Walk.{narrow, read_rows, take_row};

use crate::numbers::row;
use cert_structure::{Named, is_number};
use cti_terms::{Names, Program};
use fact_reading::{FactFault, Kind, Reader, Stop, each, many};
use linear_rows::{Row, RowList, Rows};
use prove_certificate::{CertKind, ProveFact};
use prove_parts::columns_in;
use sequences::Sequence;
use std::alloc::Global;
use termination_model::SizeRows;

/// The facts of a predicate's size rows, which have a number for each of `width` columns.
#[derive(Drop)]
struct RowFact<'a> {
    pred: Named<'a>,
    width: u128,
}

impl Kind<ProveFact> for RowFact<'_> {
    type Item = Row;

    ghost takes = { λ r number fact. take_row (named r.pred) r.width number fact };

    #[tactic(auto, unfolding(crate::specs::Walk::take_row))]
    fn take(&self, alloc: Global, number: u64, fact: &ProveFact) -> Result<Option<Row>, FactFault> {
        let ProveFact::Size {
            pred,
            index,
            row: numbers,
        } = fact
        else {
            return Ok(None);
        };
        if !self.pred.is(pred) || !is_number(*index, number) {
            return Ok(None);
        }
        Ok(Some(row(alloc, self.width, numbers.as_slice())?))
    }
}

/// A width in 32 bits. Twelve arguments have few columns, and no more are read.
fn narrow(width: u128) -> u32
    ensures { result ≡ narrow width }
{
    if width <= u128::from(u32::MAX) {
        width as u32
    } else {
        u32::MAX
    }
}

/// The size rows of each predicate.
#[derive(Drop)]
pub(crate) struct ColumnRows<'a> {
    pub(crate) p: &'a Program,
    pub(crate) names: &'a Names,
    pub(crate) kinds: &'a [Sequence<CertKind>],
}

impl Reader<ProveFact> for ColumnRows<'_> {
    type Item = Rows;

    ghost reads = { λ r number facts. read_rows r.p.now r.names.now r.kinds.now number facts };

    #[tactic(auto, unfolding(crate::specs::Walk::read_rows))]
    fn read<'f>(
        &self,
        alloc: Global,
        number: u64,
        facts: &'f [ProveFact],
    ) -> Result<(Rows, &'f [ProveFact]), Stop> {
        let pred = Named::new(self.p, self.names, number);
        let width = columns_in(self.kinds, number);
        let (rows, rest) = many(alloc, &RowFact { pred, width }, facts)?;
        let list = RowList::from_vec(rows.into_vec());
        Ok((
            Rows {
                width: narrow(width),
                list,
            },
            rest,
        ))
    }
}

/// Reads the size rows of the predicates below `count` into the place of others, and gives the facts after them.
pub(crate) fn rows_into<'f>(
    alloc: Global,
    reader: &ColumnRows,
    count: u64,
    rows: &mut SizeRows,
    facts: &'f [ProveFact],
) -> Result<&'f [ProveFact], Stop>
    ensures { Fills result rows.new
        (read_each (read_rows reader.now.p.now reader.now.names.now reader.now.kinds.now) 0 count
        facts.now) }
{
    let (read, rest) = each(alloc, reader, count, facts)?;
    *rows = SizeRows::from_vec(read.into_vec());
    Ok(rest)
}
