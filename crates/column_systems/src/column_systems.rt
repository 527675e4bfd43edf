//! The systems of a program's clauses over columns.

ghost use Rattle.std.specs.Prelude.{◌≡◌, ℕ, ◌+◌, ◌≤◌, ◌∷◌, [], IfOk, length, map, sum};
ghost use Rattle.number_columns.specs.ColumnLists.{HaveKinds, counts_at};
ghost use Rattle.number_columns.specs.declared.kind.Kind.{Kind as TheKind};
ghost use Rattle.number_columns.specs.declared.kind.Kind.TheVariants.{Number, Size};
ghost use Rattle.column_systems.specs.ColumnSystems.{AreFew, AreNumbers, column_systems};

use cti_terms::{Builtin, MOST_ARGUMENTS, PredId, Program, Term};
use linear_rows::Rows;
use number_columns::{ColumnList, Columns, Kind, MOST_WIDTH, column_system};
use size_chains::{ClauseSystem, ClauseSystems};
use std::alloc::{AllocError, Global};
use std::marker::Model;
use termination_model::Sizes;

/// How many columns an argument of a kind has, which are those of any term.
fn count_of<C: Columns>(alloc: Global, columns: &C, kind: Kind) -> Result<u32, AllocError>
    requires { C.count columns.now kind ≤ MOST_WIDTH }
    ensures { IfOk result (λ n. n ≡ C.count columns.now kind) }
{
    let mut list = ColumnList::new(alloc);
    columns.add_columns(alloc, &Term::Int(0), kind, 0, &mut list)?;
    Ok(list.len() as u32)
}

/// How many columns arguments of these kinds have together, where one of kind `Size` has `size`, and one of kind
/// `Number` has `number`.
fn width_of(size: u32, number: u32, kinds: &[Kind]) -> u32
    requires size { size ≤ MOST_WIDTH }
    requires number { number ≤ MOST_WIDTH }
    requires few { length kinds.now ≤ MOST_ARGUMENTS }
    ensures { (count : TheKind → ℕ) → size ≡ count Size → number ≡ count Number
        → result ≡ sum (map count kinds.now) }
{
    let mut width = 0;
    for kind in kinds {
        width += match kind {
            Kind::Size => size,
            Kind::Number => number,
        };
    }
    width
}

/// The systems of a program's clauses over columns. Contracts see the program and the columns.
pub struct ColumnSystems<'a, C: Columns> {
    program: &'a Program,
    columns: &'a C,

    // How many columns an argument of each kind has.
    size: u32,
    number: u32,
}

impl<'a, C: Columns> Drop for ColumnSystems<'a, C> {
    fn drop(self) {
        let ColumnSystems {
            program: _,
            columns: _,
            size: _,
            number: _,
        } = self;
    }
}

impl<'a, C: Columns> Model for ColumnSystems<'a, C> {
    ghost use Rattle.std.specs.Coded.{coded×};
    ghost use Rattle.cti_terms.specs.Listing.{Listing};
    ghost use Rattle.cti_terms.specs.ListingCode.{coded_listing};
    ghost use Rattle.column_systems.specs.ColumnSystems.{HaveSystems};

    ghost Value = { Listing × C };

    ghost coded = { coded× coded_listing C.code };

    ghost view = { λ s. (s.program.now, s.columns.now) };

    ghost invariant = { λ s. HaveSystems s.program.now (C.columns s.columns.now) (C.count s.columns.now)
        (C.listed s.columns.now) s.size s.number };
}

impl<'a, C: Columns> ColumnSystems<'a, C> {
    /// The systems of a program over columns that suit its operations, with the kinds of its argument positions.
    ///
    /// That the kinds of `program_kinds` will do is the law `kinds_are_numbers`, and that the three columns and norms
    /// do, the law `columns_are_few`. Fails only for want of memory.
    pub fn new(
        alloc: Global,
        program: &'a Program,
        columns: &'a C,
    ) -> Result<ColumnSystems<'a, C>, AllocError>
        requires suits { C.suits columns.now program.now.arithmetic.names }
        requires kinds { HaveKinds program.now.preds (C.listed columns.now) }
        requires numbers { AreNumbers program.now (C.listed columns.now) }
        requires few { AreFew (C.columns columns.now) (C.count columns.now) }
        ensures { IfOk result (λ s. s ≡ (program.now, columns.now)) }
    {
        // What every program keeps, and how many naturals a variable may have.
        let _program = program.preds();
        let _width = columns.width();
        let size = count_of(alloc, columns, Kind::Size)?;
        let number = count_of(alloc, columns, Kind::Number)?;
        Ok(ColumnSystems {
            program,
            columns,
            size,
            number,
        })
    }
}

impl<C: Columns> ClauseSystems for ColumnSystems<'_, C> {
    ghost listing = { λ s. s.0 };

    ghost systems = { λ s. column_systems (C.columns s.1) (counts_at (C.count s.1) (C.listed s.1)) };

    fn program(&self) -> &Program {
        let _program = self.program.preds();
        self.program
    }

    fn width(&self, q: PredId) -> u32 {
        let _program = self.program.preds();
        let kinds = self.columns.kinds().get(q.0 as usize);
        width_of(self.size, self.number, kinds.as_slice())
    }

    fn stated_rows(&self, alloc: Global, _q: PredId, kind: Builtin) -> Result<Rows, AllocError> {
        let rows = self.columns.stated_rows(alloc, kind)?;
        Ok(Rows {
            width: self.number + self.number,
            list: rows.list,
        })
    }

    fn system(&self, alloc: Global, sizes: &Sizes, k: u32) -> Result<ClauseSystem, AllocError> {
        let atoms = self.program.clause(k).body.len() as u32;
        let made = column_system(alloc, self.program, self.columns, &sizes.rows, k, atoms)?;
        let wide = made.wide;
        let (rows, head) = made.into_parts();
        Ok(ClauseSystem {
            naturals: rows.width,
            rows,
            head,
            wide,
        })
    }
}
