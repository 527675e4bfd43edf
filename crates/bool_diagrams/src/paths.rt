//! The paths of a diagram.

ghost use Rattle.std.specs.Prelude.{◌≡◌, ◌++◌, ◌-◌, ◌≤◌, Bool, IfOk, List, OnOk, length, map};
ghost use Rattle.bool_diagrams.specs.Cubes.{covered, cubes, truth_rows};
ghost use Rattle.bool_diagrams.specs.Paths.{DependsBelow, rows_from};
ghost use Rattle.bool_diagrams.specs.Rows.{IsDiagram, IsOf, ReadsBelow, tree};
ghost use Rattle.bool_diagrams.specs.Tree.{IsFrom};

use crate::cube::{Cell, Cube};
use crate::diagram::Diagram;
use crate::table::Table;
use std::alloc::AllocError;

impl Table {
    /// Lists the paths to the constant that has every row, those through a false branch first: the cubes of the set.
    ///
    /// Variables that a path does not ask are `Any`. There may be as many cubes as rows.
    pub fn paths(&self, a: Diagram, width: u32) -> Result<Vec<Cube>, AllocError>
        requires known { IsDiagram self.now a }
        requires reads { ReadsBelow self.now a width }
        ensures cubes { IfOk result (λ list. list.items ≡ cubes width (truth_rows self.now a)) }

        // What cubes are for: they have the rows of the set, and no others.
        ensures rows { IfOk result (λ list. (row : List Bool)
            → length row ≡ width → covered list.items row ≡ truth_rows self.now a row) }
    {
        let mut prefix = Vec::new(self.alloc());
        let mut found = Vec::new(self.alloc());
        self.walk(a.0, width as usize, &mut prefix, &mut found)?;
        Ok(found)
    }

    /// Adds the paths from a number on, each after the prefix. It goes one variable deeper at each call.
    fn walk(
        &self,
        number: u64,
        width: usize,
        prefix: &mut Vec<Cell>,
        found: &mut Vec<Cube>,
    ) -> Result<(), AllocError>
        requires known { IsOf self.now number }
        requires level { length prefix.old.items ≤ width }
        requires from { IsFrom (length prefix.old.items) (tree self.now number) }
        requires reads { DependsBelow width (tree self.now number) }
        ensures prefix { OnOk result (prefix.new.items ≡ prefix.old.items) }
        ensures found { OnOk result (found.new.items ≡ found.old.items
            ++ map (λ cube. prefix.old.items ++ cube)
            (cubes (width - length prefix.old.items) (rows_from (length prefix.old.items) (tree self.now number)))) }
    {
        if number == 0 {
            return Ok(());
        }
        let level = prefix.len();
        if number == 1 {
            prefix.resize(width, Cell::Any)?;
            found.push(Cube::new(Vec::from_slice(self.alloc(), prefix)?))?;
            prefix.truncate(level);
            return Ok(());
        }
        let node = self.node_of(number);
        let variable = node.variable as usize;
        prefix.resize(variable, Cell::Any)?;
        prefix.push(Cell::Zero)?;
        self.walk(node.low, width, prefix, found)?;
        prefix.truncate(variable);
        prefix.push(Cell::One)?;
        self.walk(node.high, width, prefix, found)?;
        prefix.truncate(level);
        Ok(())
    }
}
