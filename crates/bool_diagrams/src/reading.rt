//! What a table says of its diagrams, without memory.

ghost use Rattle.std.specs.Prelude.{◌≡◌, Bool, ℕ};
ghost use Rattle.bool_diagrams.specs.Rows.{IsDiagram, IsOf, bit_of, holds, tree};
ghost use Rattle.bool_diagrams.specs.Tree.{value};

use crate::diagram::Diagram;
use crate::table::Table;

impl Table {
    /// Gives every row, or none.
    pub fn truth(&self, value: bool) -> Diagram
        ensures known { IsDiagram self.now result }
        ensures rows { (row : ℕ → Bool) → holds self.now result row ≡ value }
    {
        if value { Diagram(1) } else { Diagram(0) }
    }

    /// Whether a diagram has a row, whose bit `v` is the value of variable `v`.
    pub fn eval(&self, a: Diagram, row: u64) -> bool
        requires { IsDiagram self.now a }
        ensures { result ≡ holds self.now a (bit_of row) }
    {
        self.has(a.0, row)
    }

    /// Goes down one variable at each call.
    fn has(&self, number: u64, row: u64) -> bool
        requires { IsOf self.now number }
        ensures { result ≡ value (tree self.now number) (bit_of row) }
    {
        if number < 2 {
            return number == 1;
        }
        let node = self.node_of(number);
        if (row >> node.variable) & 1 == 1 {
            self.has(node.high, row)
        } else {
            self.has(node.low, row)
        }
    }
}
