//! The table of shared nodes, and the steps that read and grow it.

ghost use Rattle.std.specs.HashMap.{get, IsUnchanged, Updates};
ghost use Rattle.std.specs.Prelude.{◌≡◌, ◌↔◌, ◌+◌, ◌∷◌, ◌++◌, ◌<◌, ◌≤◌, Bool, ℕ, [], IfOk, IfSome, IsTrue, OnErr, OnOk, Some, if◌then◌else◌, is_ok, length};
ghost use Rattle.bool_diagrams.specs.Joins.{Chooses, IsFirst, IsRight, Splits, Stands};
ghost use Rattle.bool_diagrams.specs.Nodes.{same_node};
ghost use Rattle.bool_diagrams.specs.Rows.{HaveSameNumbers, HaveSameRows, IsDiagram, IsOf, Keeps, holds, tree};
ghost use Rattle.bool_diagrams.specs.Tree.{IsFrom, IsReduced};

use crate::diagram::Diagram;
use crate::memo::{Key, Memo};
use crate::node::Node;
use std::alloc::{AllocError, Global};
use std::collections::HashMap;
use std::marker::Model;

/// How many variables there are: 0 to 63.
pub const VARIABLES: u32 = 64;

/// Diagrams over one set of shared nodes, so that equal sets of rows are one diagram.
pub struct Table {
    nodes: Vec<Node>,
    unique: HashMap<Node, u64>,
    memo: Memo,
}

impl Drop for Table {
    fn drop(self) {
        let Table {
            nodes: _,
            unique: _,
            memo: _,
        } = self;
    }
}

impl Model for Table {
    ghost use Rattle.std.specs.Prelude.{List, reverse};
    ghost use Rattle.bool_diagrams.specs.Tree.{Tree};
    ghost use Rattle.bool_diagrams.specs.TreeCode.{trees_code};

    ghost Value = { List Tree };

    ghost coded = { trees_code };

    ghost use Rattle.bool_diagrams.specs.Nodes.{IsTable, trees};

    ghost view = { λ t. trees (reverse t.nodes.items) };

    ghost invariant = { λ t. IsTable (reverse t.nodes.items) t.unique t.memo.answers.entries };
}

impl Table {
    /// Makes a table that has the two constant diagrams alone.
    pub fn new(alloc: Global) -> Result<Table, AllocError>
        ensures { IfOk result (λ t. t ≡ []) }
    {
        let memo = Memo::new(alloc)?;
        Ok(Table {
            nodes: Vec::new(alloc),
            unique: HashMap::new(alloc),
            memo,
        })
    }

    /// How many nodes there are beside the two constants. What no diagram in use has is counted, too.
    pub fn count(&self) -> usize
        ensures { result ≡ length self.now }
    {
        self.nodes.as_slice().len()
    }

    /// Gives the rows on which a variable is true.
    pub fn var(&mut self, v: u32) -> Result<Diagram, AllocError>
        requires { v < VARIABLES }
        ensures keeps { Keeps self.old self.new }
        ensures known { IfOk result (IsDiagram self.new) }
        ensures rows { IfOk result (λ d. (row : ℕ → Bool) → holds self.new d row ≡ row v) }
    {
        Ok(Diagram(self.node(v, 0, 1)?))
    }

    /// Whether two diagrams have the same rows, by their roots alone.
    ///
    /// Source: Bryant 1986, where a reduced diagram is canonical.
    pub fn same(&self, a: Diagram, b: Diagram) -> bool
        requires left { IsDiagram self.now a }
        requires right { IsDiagram self.now b }
        ensures rows { IsTrue result ↔ HaveSameRows self.now a b }

        // The same, of the rows that `eval` can be asked.
        ensures numbers { IsTrue result ↔ HaveSameNumbers self.now a b }
    {
        // No two nodes are equal: the clauses depend on the invariant of the nodes.
        let _nodes = &self.nodes;
        a.0 == b.0
    }

    /// The number of a node, which is made where the table lacks it.
    pub(crate) fn node(&mut self, variable: u32, low: u64, high: u64) -> Result<u64, AllocError>
        requires in_range { variable < VARIABLES }
        requires low_of { IsOf self.old low }
        requires high_of { IsOf self.old high }
        requires low_from { IsFrom (variable + 1) (tree self.old low) }
        requires high_from { IsFrom (variable + 1) (tree self.old high) }
        ensures keeps { Keeps self.old self.new }
        ensures made { IfOk result (Chooses self.old self.new variable low high) }
    {
        if low == high {
            return Ok(low);
        }
        let node = Node {
            variable,
            low,
            high,
        };
        if let Some(number) = look_up(&self.unique, node) {
            return Ok(number);
        }
        add(&mut self.nodes, &mut self.unique, node)
    }

    /// The node with a number.
    pub(crate) fn node_of(&self, number: u64) -> Node
        requires above { 2 ≤ number }
        requires of { IsOf self.now number }
        ensures stands { Stands self.now number result }
        ensures reduced { IsReduced (tree self.now number) }
    {
        self.nodes[(number - 2) as usize]
    }

    /// The first variable of a diagram, or 64 for a constant.
    pub(crate) fn first_of(&self, number: u64) -> u32
        requires of { IsOf self.now number }
        ensures constant { number < 2 → result ≡ VARIABLES }
        ensures in_range { 2 ≤ number → result < VARIABLES }
        ensures from { IsFrom result (tree self.now number) }
        ensures reads { result < VARIABLES → IsFrom (result + 1) (tree self.now number) → ⊥ }
        ensures reduced { IsReduced (tree self.now number) }
    {
        if number < 2 {
            return VARIABLES;
        }
        self.node_of(number).variable
    }

    /// The first variable of two diagrams, of which one at least is not a constant.
    pub(crate) fn first(&self, a: u64, b: u64) -> u32
        requires left { IsOf self.now a }
        requires right { IsOf self.now b }
        requires above { a < 2 → 2 ≤ b }
        ensures { IsFirst self.now a b result }
    {
        self.first_of(a).min(self.first_of(b))
    }

    /// The diagram where the variable is false, and where it is true.
    pub(crate) fn split(&self, number: u64, variable: u32) -> (u64, u64)
        requires of { IsOf self.now number }
        requires from { IsFrom variable (tree self.now number) }
        ensures { Splits self.now variable number result.0 result.1 }
    {
        if number < 2 {
            return (number, number);
        }
        let node = self.node_of(number);
        if node.variable == variable {
            (node.low, node.high)
        } else {
            (number, number)
        }
    }

    /// What the memo has.
    pub(crate) fn recall(&mut self, key: Key) -> Option<u64>
        ensures same { self.new ≡ self.old }
        ensures right { IfSome result (IsRight self.old key) }
    {
        self.memo.answer(key)
    }

    /// Keeps an answer in the memo, where there is memory for it.
    pub(crate) fn remember(&mut self, key: Key, number: u64)
        requires { IsRight self.old key number }
        ensures { self.new ≡ self.old }
    {
        self.memo.keep(key, number);
    }

    /// Where the table takes its memory.
    pub(crate) fn alloc(&self) -> Global {
        *self.nodes.allocator()
    }
}

/// The number of a node that is there.
fn look_up(unique: &HashMap<Node, u64>, node: Node) -> Option<u64>
    ensures { result ≡ get same_node unique.now node }
{
    unique.get(&node).copied()
}

/// Adds a node, or leaves both as they were.
fn add(
    nodes: &mut Vec<Node>,
    unique: &mut HashMap<Node, u64>,
    node: Node,
) -> Result<u64, AllocError>
    ensures number { IfOk result (λ i. i ≡ length nodes.old.items + 2) }
    ensures nodes { nodes.new.items
        ≡ (if is_ok result then nodes.old.items ++ node ∷ [] else nodes.old.items) }
    ensures updates { IfOk result (λ i. Updates same_node unique.old unique.new node (Some i)) }
    ensures unchanged { OnErr result (IsUnchanged unique.old unique.new) }
{
    let number = nodes.len() as u64 + 2;
    nodes.push(node)?;
    if unique.insert(node, number).is_err() {
        nodes.pop();
        return Err(AllocError);
    }
    Ok(number)
}
