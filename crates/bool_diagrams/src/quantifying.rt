//! Diagrams without one of their variables.

ghost use Rattle.std.specs.Prelude.{◌≡◌, ◌&&◌, ◌||◌, ◌<◌, Bool, IfOk, false, true, ℕ};
ghost use Rattle.bool_diagrams.specs.Joins.{Quantifies};
ghost use Rattle.bool_diagrams.specs.Rows.{IsDiagram, IsOf, Keeps, holds};
ghost use Rattle.bool_diagrams.specs.Tree.{with_value};

use crate::connective::Connective;
use crate::diagram::Diagram;
use crate::memo::Key;
use crate::table::{Table, VARIABLES};
use std::alloc::AllocError;

impl Table {
    /// Gives the rows that the set has for some value of a variable.
    pub fn exists(&mut self, a: Diagram, v: u32) -> Result<Diagram, AllocError>
        requires known { IsDiagram self.old a }
        requires variable { v < VARIABLES }
        ensures keeps { Keeps self.old self.new }
        ensures known { IfOk result (IsDiagram self.new) }
        ensures rows { IfOk result (λ d. (row : ℕ → Bool)
            → holds self.new d row ≡
            (holds self.old a (with_value row v false)
            || holds self.old a (with_value row v true))) }
    {
        self.quantified(Connective::Or, a, v)
    }

    /// Gives the rows that the set has for both values of a variable.
    pub fn forall(&mut self, a: Diagram, v: u32) -> Result<Diagram, AllocError>
        requires known { IsDiagram self.old a }
        requires variable { v < VARIABLES }
        ensures keeps { Keeps self.old self.new }
        ensures known { IfOk result (IsDiagram self.new) }
        ensures rows { IfOk result (λ d. (row : ℕ → Bool)
            → holds self.new d row ≡
            (holds self.old a (with_value row v false)
            && holds self.old a (with_value row v true))) }
    {
        self.quantified(Connective::And, a, v)
    }

    /// A whole operation.
    fn quantified(
        &mut self,
        connective: Connective,
        a: Diagram,
        variable: u32,
    ) -> Result<Diagram, AllocError>
        requires known { IsDiagram self.old a }
        requires in_range { variable < VARIABLES }
        ensures keeps { Keeps self.old self.new }
        ensures quantifies { IfOk result (λ d. Quantifies self.new connective a.0 variable d.0) }
    {
        Ok(Diagram(self.quantify(connective, a.0, variable)?))
    }

    /// Joins what the diagram is where the variable is false and where it is true. It goes one variable deeper at each
    /// call.
    fn quantify(&mut self, connective: Connective, a: u64, variable: u32) -> Result<u64, AllocError>
        requires known { IsOf self.old a }
        requires in_range { variable < VARIABLES }
        ensures keeps { Keeps self.old self.new }
        ensures quantifies { IfOk result (Quantifies self.new connective a variable) }
    {
        if variable < self.first_of(a) {
            return Ok(connective.with_itself(a));
        }
        let key = Key::Quantify(connective, a, variable);
        if let Some(number) = self.recall(key) {
            return Ok(number);
        }
        let node = self.node_of(a);
        if node.variable == variable {
            let number = self.join(connective, node.low, node.high)?;
            self.remember(key, number);
            return Ok(number);
        }
        let low = self.quantify(connective, node.low, variable)?;
        let high = self.quantify(connective, node.high, variable)?;
        let number = self.node(node.variable, low, high)?;
        self.remember(key, number);
        Ok(number)
    }
}
