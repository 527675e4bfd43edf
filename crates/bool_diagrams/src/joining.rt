//! Joining two diagrams row by row.

ghost use Rattle.std.specs.Prelude.{◌≡◌, ◌&&◌, ◌||◌, Bool, IfOk, IfSome, not, ℕ};
ghost use Rattle.bool_diagrams.specs.Joins.{IsRight, Joins};
ghost use Rattle.bool_diagrams.specs.Rows.{IsDiagram, IsOf, Keeps, holds, iff};

use crate::connective::Connective;
use crate::diagram::Diagram;
use crate::memo::Key;
use crate::table::Table;
use std::alloc::AllocError;

impl Table {
    /// Meets two sets: the rows that both have.
    ///
    /// Source: `Apply` of Bryant 1986, over one table for all diagrams as in Brace, Rudell and Bryant 1990.
    pub fn and(&mut self, a: Diagram, b: Diagram) -> Result<Diagram, AllocError>
        requires left { IsDiagram self.old a }
        requires right { IsDiagram self.old b }
        ensures keeps { Keeps self.old self.new }
        ensures known { IfOk result (IsDiagram self.new) }
        ensures rows { IfOk result (λ d. (row : ℕ → Bool)
            → holds self.new d row ≡ (holds self.old a row && holds self.old b row)) }
    {
        self.joined(Connective::And, a, b)
    }

    /// Joins two sets: the rows that one of them has.
    pub fn or(&mut self, a: Diagram, b: Diagram) -> Result<Diagram, AllocError>
        requires left { IsDiagram self.old a }
        requires right { IsDiagram self.old b }
        ensures keeps { Keeps self.old self.new }
        ensures known { IfOk result (IsDiagram self.new) }
        ensures rows { IfOk result (λ d. (row : ℕ → Bool)
            → holds self.new d row ≡ (holds self.old a row || holds self.old b row)) }
    {
        self.joined(Connective::Or, a, b)
    }

    /// Compares two sets: the rows that both have, or that both lack.
    pub fn iff(&mut self, a: Diagram, b: Diagram) -> Result<Diagram, AllocError>
        requires left { IsDiagram self.old a }
        requires right { IsDiagram self.old b }
        ensures keeps { Keeps self.old self.new }
        ensures known { IfOk result (IsDiagram self.new) }
        ensures rows { IfOk result (λ d. (row : ℕ → Bool)
            → holds self.new d row ≡ iff (holds self.old a row) (holds self.old b row)) }
    {
        self.joined(Connective::Iff, a, b)
    }

    /// Turns a set round: the rows that it lacks.
    pub fn not(&mut self, a: Diagram) -> Result<Diagram, AllocError>
        requires { IsDiagram self.old a }
        ensures keeps { Keeps self.old self.new }
        ensures known { IfOk result (IsDiagram self.new) }
        ensures rows { IfOk result (λ d. (row : ℕ → Bool)
            → holds self.new d row ≡ not (holds self.old a row)) }
    {
        let nothing = self.truth(false);
        self.joined(Connective::Iff, a, nothing)
    }

    /// A whole operation.
    fn joined(
        &mut self,
        connective: Connective,
        a: Diagram,
        b: Diagram,
    ) -> Result<Diagram, AllocError>
        requires left { IsDiagram self.old a }
        requires right { IsDiagram self.old b }
        ensures keeps { Keeps self.old self.new }
        ensures joins { IfOk result (λ d. Joins self.new connective a.0 b.0 d.0) }
    {
        Ok(Diagram(self.join(connective, a.0, b.0)?))
    }

    /// The diagram that joins two.
    pub(crate) fn join(&mut self, connective: Connective, a: u64, b: u64) -> Result<u64, AllocError>
        requires left { IsOf self.old a }
        requires right { IsOf self.old b }
        ensures keeps { Keeps self.old self.new }
        ensures joins { IfOk result (Joins self.new connective a b) }
    {
        self.join_down(connective, a, b, true)
    }

    /// The diagram that joins two, by their first variable. It goes one variable deeper at each call.
    ///
    /// The memo serves every second step: one between is taken anew in less time than an answer takes to be kept, and
    /// leads to two steps that the memo serves.
    fn join_down(
        &mut self,
        connective: Connective,
        a: u64,
        b: u64,
        served: bool,
    ) -> Result<u64, AllocError>
        requires left { IsOf self.old a }
        requires right { IsOf self.old b }
        ensures keeps { Keeps self.old self.new }
        ensures joins { IfOk result (Joins self.new connective a b) }
    {
        if let Some(number) = connective.decided(a, b) {
            return Ok(number);
        }
        let key = Key::Join(connective, a, b);
        if let Some(number) = self.recall_where(served, key) {
            return Ok(number);
        }
        let variable = self.first(a, b);
        let (a_low, a_high) = self.split(a, variable);
        let (b_low, b_high) = self.split(b, variable);
        let low = self.join_down(connective, a_low, b_low, !served)?;
        let high = self.join_down(connective, a_high, b_high, !served)?;
        let number = self.node(variable, low, high)?;
        self.remember_where(served, key, number);
        Ok(number)
    }

    /// What the memo has, at a step that it serves.
    fn recall_where(&mut self, served: bool, key: Key) -> Option<u64>
        ensures same { self.new ≡ self.old }
        ensures right { IfSome result (IsRight self.old key) }
    {
        if served { self.recall(key) } else { None }
    }

    /// Keeps an answer in the memo, at a step that it serves.
    fn remember_where(&mut self, served: bool, key: Key, number: u64)
        requires { IsRight self.old key number }
        ensures { self.new ≡ self.old }
    {
        if served {
            self.remember(key, number);
        }
    }
}
