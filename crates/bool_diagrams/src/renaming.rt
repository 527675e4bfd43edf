//! Diagrams with other variables.

ghost use Rattle.std.specs.HashMap.{get};
ghost use Rattle.std.specs.Prelude.{◌≡◌, ◌<◌, ◌≤◌, Bool, IfOk, OnOk, Some, if◌then◌else◌, length, nat_eq, ℕ};
ghost use Rattle.std.specs.List.{All};
ghost use Rattle.bool_diagrams.specs.Joins.{Chooses, IsRenamed, Renames};
ghost use Rattle.bool_diagrams.specs.Renaming.{renamed};
ghost use Rattle.bool_diagrams.specs.Rows.{IsDiagram, IsOf, Keeps, holds, tree};
ghost use Rattle.bool_diagrams.specs.Tree.{value};

use crate::connective::Connective;
use crate::diagram::Diagram;
use crate::table::{Table, VARIABLES};
use std::alloc::AllocError;
use std::collections::HashMap;

impl Table {
    /// Gives each variable of `from` the name at its place in `to`, all at once. Other variables keep theirs.
    ///
    /// A name may be a variable that occurs already, and several variables may get one name.
    pub fn rename(&mut self, a: Diagram, from: &[u32], to: &[u32]) -> Result<Diagram, AllocError>
        requires known { IsDiagram self.old a }
        requires lengths { length from.now ≡ length to.now }
        requires variables { All (λ v. v < VARIABLES) to.now }
        ensures keeps { Keeps self.old self.new }
        ensures known { IfOk result (IsDiagram self.new) }
        ensures rows { IfOk result (λ d. (row : ℕ → Bool)
            → holds self.new d row ≡ holds self.old a (λ v. row (renamed from.now to.now v))) }
    {
        let mut made = HashMap::new(self.alloc());
        Ok(Diagram(self.rename_in(&mut made, a.0, from, to)?))
    }

    /// Renames each node once: what was made of a node speaks of these names, and so is kept for this renaming alone.
    /// It goes one variable deeper at each call.
    fn rename_in(
        &mut self,
        made: &mut HashMap<u64, u64>,
        a: u64,
        from: &[u32],
        to: &[u32],
    ) -> Result<u64, AllocError>
        requires known { IsOf self.old a }
        requires lengths { length from.now ≡ length to.now }
        requires variables { All (λ v. v < VARIABLES) to.now }
        requires right { IsRenamed self.old (renamed from.now to.now) made.old }
        ensures keeps { Keeps self.old self.new }
        ensures right { OnOk result (IsRenamed self.new (renamed from.now to.now) made.new) }
        ensures renames { IfOk result (Renames self.new (renamed from.now to.now) a) }
    {
        if a < 2 {
            return Ok(a);
        }
        if let Some(number) = made_of(made, a) {
            return Ok(number);
        }
        let node = self.node_of(a);
        let low = self.rename_in(made, node.low, from, to)?;
        let high = self.rename_in(made, node.high, from, to)?;
        let variable = new_name(node.variable, from, to);
        let number = self.choose(variable, low, high)?;
        made.insert(a, number)?;
        Ok(number)
    }

    /// One diagram where the variable is false and another where it is true, whatever they ask.
    fn choose(&mut self, variable: u32, low: u64, high: u64) -> Result<u64, AllocError>
        requires in_range { variable < VARIABLES }
        requires low_of { IsOf self.old low }
        requires high_of { IsOf self.old high }
        ensures keeps { Keeps self.old self.new }
        ensures known { IfOk result (IsOf self.new) }
        ensures rows { IfOk result (λ i. (row : ℕ → Bool)
            → value (tree self.new i) row
            ≡ (if row variable then value (tree self.old high) row else value (tree self.old low) row)) }
    {
        if variable < self.first_of(low) && variable < self.first_of(high) {
            return self.node(variable, low, high);
        }
        let is_true = self.node(variable, 0, 1)?;
        let is_false = self.node(variable, 1, 0)?;
        let from_high = self.join(Connective::And, is_true, high)?;
        let from_low = self.join(Connective::And, is_false, low)?;
        let number = self.join(Connective::Or, from_low, from_high)?;
        Ok(number)
    }
}

/// What a renaming has made of a diagram.
fn made_of(made: &HashMap<u64, u64>, a: u64) -> Option<u64>
    ensures { result ≡ get nat_eq made.now a }
{
    made.get(&a).copied()
}

/// The new name of a variable.
fn new_name(variable: u32, from: &[u32], to: &[u32]) -> u32
    requires lengths { length from.now ≡ length to.now }
    ensures { result ≡ renamed from.now to.now variable }
{
    for (old, new) in from.iter().zip(to) {
        if *old == variable {
            return *new;
        }
    }
    variable
}
