//! A way through a diagram to the constant that has every row.

ghost use Rattle.std.specs.Prelude.{◌≡◌};

use std::marker::Model;

/// What a cube says of one variable.
#[derive(Clone, Copy, PartialEq, Eq)]
pub enum Cell {
    /// False.
    Zero,
    /// True.
    One,
    /// False or true.
    Any,
}

/// A cell for each variable, variable 0 first: the rows that agree with each of them.
///
/// Contracts see it as the list of its cells.
#[derive(Drop)]
pub struct Cube {
    cells: Vec<Cell>,
}

impl Model for Cube {
    ghost use Rattle.std.specs.Prelude.{List};
    ghost use Rattle.bool_diagrams.specs.declared.cube.Cell.{Cell};

    ghost Value = { List Cell };

    ghost view = { λ c. c.cells.items };
}

impl Cube {
    /// Makes a cube of its cells.
    pub fn new(cells: Vec<Cell>) -> Cube
        ensures { result ≡ cells.items }
    {
        Cube { cells }
    }

    /// Shows the cells.
    pub fn cells(&self) -> &[Cell]
        ensures { result.now ≡ self.now }
    {
        self.cells.as_slice()
    }

    /// Gives the cells back.
    pub fn into_cells(self) -> Vec<Cell>
        ensures { result.items ≡ self }
    {
        self.cells
    }
}
