//! Polyhedra.

ghost use Rattle.std.specs.Prelude.{◌≡◌, ◌+◌, suc, ℤ, List, length, IfOk, IfSome, SomeIff, true, false, Option, None, Some, [], ◌∷◌, ◌++◌, map, All};
ghost use Rattle.exact128.specs.Fits.{fits};
ghost use Rattle.linear_rows.specs.Blown.{all_of};
ghost use Rattle.linear_rows.specs.Plain.{HaveWidth, plain_row, plain_rows};
ghost use Rattle.termination_model.specs.chains.ChainRows.{bottom_row};
ghost use Rattle.linear_rows.specs.Replacing.{row_fits};
ghost use Rattle.simplex.specs.Telling.{Tells};
ghost use Rattle.polyhedra.specs.Telling.{TellsHead, IsSystem, HasNaturalHead, at_head, IsTarget};
ghost use Rattle.polyhedra.specs.Making.{arity_of, SaysImage, SaysJoin, SaysWidened};
ghost use Rattle.polyhedra.specs.PolyLaws.{HaveFit, law_of_bottoms, law_of_spoken, law_of_fits};

use crate::bottom::bottom_row;
use crate::domain::Domain;
use crate::heads::tested_on;
use crate::imaging::imaged;
use crate::joining::joined;
use crate::keeping::{Kept, kept_on};
use crate::made::Made;
use crate::widened::Widened;
use linear_rows::{Point, Row, Rows, System};
use redundant_rows::{copied_if_known, tested};
use simplex::Held;
use std::alloc::{AllocError, Global};

/// A polyhedron: the sizes at which all of its rows hold. It speaks of every row whose numbers fit.
pub struct Poly {
    pub(crate) rows: Rows,
    // A hint: a point inside, where one is known.
    pub(crate) inside: Option<Point>,
    ghost widths: { HaveWidth rows.width rows.list },
    ghost fit: { HaveFit rows.list },
}

impl Drop for Poly {
    fn drop(self) {
        let Poly { rows: _, inside: _ } = self;
    }
}

impl Poly {
    /// Makes a copy.
    pub(crate) fn copy(&self, alloc: Global) -> Result<Poly, AllocError>
        ensures { IfOk result (λ d. d.rows ≡ self.now.rows) }
    {
        let rows = self.rows.copy(alloc)?;
        let inside = copied_if_known(alloc, &self.inside)?;
        Ok(Poly { rows, inside })
    }
}

impl Domain for Poly {
    ghost width = { λ d. d.rows.width };

    ghost listed = { λ d. plain_rows d.rows.list };

    ghost speaks = { all_of fits };

    fn bottom(alloc: Global, arity: u32) -> Result<Self, AllocError> {
        let mut rows = Rows::new(alloc, arity);
        rows.push(bottom_row(alloc, arity as usize)?)?;
        Ok(Poly { rows, inside: None })
    }

    fn rows(&self) -> &Rows {
        &self.rows
    }

    fn holds(&self, alloc: Global, row: &Row) -> Result<Held, AllocError> {
        tested(alloc, &self.rows, row)
    }

    fn holds_on(alloc: Global, system: &System, row: &Row) -> Result<Held, AllocError> {
        tested_on(alloc, system, &None, row)
    }

    fn image(alloc: Global, system: &System) -> Result<Made<Self>, AllocError> {
        imaged(alloc, system)
    }

    fn join(&self, alloc: Global, other: &Self) -> Result<Made<Self>, AllocError> {
        joined(alloc, self, other)
    }

    fn widen(&self, alloc: Global, system: &System) -> Result<Widened<Self>, AllocError> {
        let kept = kept_on(alloc, &self.rows, system)?;
        let Kept {
            rows,
            by,
            failed,
            weak,
            last: _,
        } = kept;
        let inside = copied_if_known(alloc, &self.inside)?;
        Ok(Widened {
            value: Poly { rows, inside },
            failed,
            weak,
            by,
        })
    }

    ghost laws = { (law_of_bottoms, λ d. law_of_spoken d.rows.width d.rows.list d.widths d.fit, law_of_fits) };
}
