//! Nodes that are linked.

ghost use Rattle.std.specs.Prelude.{◌≡◌, ◌≤◌, ◌<◌, ℕ, IfOk, length};
ghost use Rattle.number_columns.specs.Links.{AreFalling, AreLinked, LinksMore, NoPair, Respects, ThisPair, parent};

use std::alloc::{AllocError, Global};

/// Sets of linked nodes, as trees: a node that is its own parent stands for its set.
///
/// Source: the disjoint sets of Galler and Fischer 1964, with the path halving of Tarjan and van Leeuwen 1984.
#[derive(Drop)]
pub(crate) struct Links {
    pub(crate) parents: Vec<usize>,
}

impl Links {
    /// So many nodes, of which no two are linked.
    pub(crate) fn new(alloc: Global, count: usize) -> Result<Links, AllocError>
        ensures count { IfOk result (λ links. length links.parents.items ≡ count) }
        ensures own { IfOk result (λ links. (i : ℕ) → i < count → parent links.parents.items i ≡ i) }
    {
        let mut parents = Vec::with_capacity(alloc, count)?;
        for node in 0..count {
            parents.push(node)?;
        }
        Ok(Links { parents })
    }

    /// The node that stands for the set of a node. It shortens the way that it went.
    pub(crate) fn find(&mut self, node: usize) -> usize
        requires known { node < length self.old.parents.items }
        requires falling { AreFalling self.old.parents.items }
        ensures links { LinksMore NoPair self.old.parents.items self.new.parents.items }
        ensures linked { AreLinked self.old.parents.items result node }
        ensures earlier { result ≤ node }
        ensures root { parent self.new.parents.items result ≡ result }
        ensures roots { (i : ℕ) → parent self.old.parents.items i ≡ i
            → parent self.new.parents.items i ≡ i }
    {
        let mut at = node;
        while self.parents[at] != at {
            let above = self.parents[at];
            let next = self.parents[above];
            self.parents[at] = next;
            at = next;
        }
        at
    }

    /// Links two nodes.
    pub(crate) fn link(&mut self, first: usize, second: usize)
        requires first { first < length self.old.parents.items }
        requires second { second < length self.old.parents.items }
        requires falling { AreFalling self.old.parents.items }
        ensures links { LinksMore (ThisPair first second) self.old.parents.items self.new.parents.items }
        ensures linked { AreLinked self.new.parents.items first second }
    {
        let first = self.find(first);
        let second = self.find(second);
        if first < second {
            self.parents[second] = first;
        } else {
            self.parents[first] = second;
        }
    }
}
