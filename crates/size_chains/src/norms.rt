//! Systems over a norm: one column for each argument, which is its size.

ghost use Rattle.std.specs.Prelude.{◌≡◌, IfOk, map};
ghost use Rattle.linear_rows.specs.Plain.{plain_rows};
ghost use Rattle.size_chains.specs.Making.{plain_or_none};
ghost use Rattle.size_chains.specs.Norms.{all_some, norm_systems};

use crate::clause_system::ClauseSystem;
use crate::clause_systems::ClauseSystems;
use cti_terms::{Builtin, PredId, Program};
use linear_rows::{Row, Rows, System};
use sequences::Sequence;
use std::alloc::{AllocError, Global};
use term_size::Norm;
use termination_model::{Sizes, stated_rows, system};

/// The systems of a program's clauses over a norm.
pub struct NormSystems<'a, N> {
    pub program: &'a Program,
    pub norm: &'a N,
}

impl<N> Drop for NormSystems<'_, N> {
    fn drop(self) {
        let NormSystems {
            program: _,
            norm: _,
        } = self;
    }
}

impl<N: Norm> ClauseSystems for NormSystems<'_, N> {
    ghost listing = { λ s. s.program.now };

    ghost systems = { λ s. norm_systems s.program.now (N.expression s.norm.now) };

    fn program(&self) -> &Program {
        let _program = self.program.clauses();
        self.program
    }

    fn width(&self, q: PredId) -> u32 {
        self.program.pred(q).arity
    }

    fn stated_rows(&self, alloc: Global, q: PredId, kind: Builtin) -> Result<Rows, AllocError> {
        let _program = self.program.clauses();
        stated_rows(alloc, kind)
    }

    fn system(&self, alloc: Global, sizes: &Sizes, k: u32) -> Result<ClauseSystem, AllocError> {
        let atoms = self.program.clause(k).body.len() as u32;
        let made = system(alloc, self.program, self.norm, sizes, k, atoms)?;
        with_columns(alloc, made)
    }
}

/// A system of which each column of the head has an expression.
fn with_columns(alloc: Global, system: System) -> Result<ClauseSystem, AllocError>
    ensures naturals { IfOk result (λ s. s.naturals ≡ system.variables) }
    ensures rows { IfOk result (λ s. s.rows ≡ system.rows) }
    ensures wide { IfOk result (λ s. s.wide ≡ system.wide) }
    ensures head { IfOk result
        (λ s. map plain_or_none s.head ≡ all_some (plain_rows system.head.list)) }
{
    let System {
        variables,
        rows,
        head,
        wide,
    } = system;
    let head = columns(alloc, head.list.as_slice())?;
    Ok(ClauseSystem {
        naturals: variables,
        rows,
        head,
        wide,
    })
}

/// Copies of rows.
fn columns(alloc: Global, rows: &[Row]) -> Result<Sequence<Option<Row>>, AllocError>
    ensures { IfOk result (λ columns. map plain_or_none columns ≡ all_some (plain_rows rows.now)) }
{
    let mut columns = Sequence::new(alloc);
    for row in rows {
        columns.push(Some(row.copy(alloc)?))?;
    }
    Ok(columns)
}
