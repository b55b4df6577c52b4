//! Shared nodes as an algebra.
ghost use Rattle.std.specs.Prelude.{◌<◌, length};
ghost use Rattle.conditions.specs.Conditions.{value_of};
ghost use Rattle.conditions.specs.Nodes.{tree_at};

use crate::calls::{Pair, Single};
use crate::table::{Node, NodeTable};
use algebra::{Algebra, Basic};
use paths::{Path, Renaming};
use std::alloc::{AllocError as NoMemory, Global};

impl Algebra for NodeTable {
    type A = Node;

    ghost IsKnown = { λ s n. n.0 < length s };

    ghost value = { λ s n H. value_of (tree_at s n.0) H };

    fn leaf(&mut self, _alloc: Global, b: Basic) -> Result<Node, NoMemory> {
        Ok(Node(self.number(b)))
    }

    fn held_or(&mut self, _alloc: Global, p: &Path, a: &Node, b: &Node) -> Result<Node, NoMemory> {
        Ok(Node(self.choice(p, a.0, b.0)?))
    }

    fn seq(&mut self, _alloc: Global, a: &Node, b: &Node) -> Result<Node, NoMemory> {
        Ok(Node(self.pair(Pair::Seq, a.0, b.0)?))
    }

    fn join(&mut self, _alloc: Global, a: &Node, b: &Node) -> Result<Node, NoMemory> {
        Ok(Node(self.pair(Pair::Join, a.0, b.0)?))
    }

    fn star(&mut self, _alloc: Global, a: &Node) -> Result<Node, NoMemory> {
        Ok(Node(self.each(Single::Star, a.0)?))
    }

    fn sync(&mut self, _alloc: Global, p: &Path, a: &Node) -> Result<Node, NoMemory> {
        Ok(Node(self.sync_at(p, a.0)?))
    }

    fn rename(&mut self, alloc: Global, map: &Renaming, a: &Node) -> Result<Node, NoMemory> {
        Ok(Node(self.renamed(alloc, map.pairs.as_slice(), a.0)?))
    }

    fn below(&self, a: &Node, b: &Node) -> bool {
        self.below_at(a.0, b.0)
    }

    fn at(&self, a: &Node, held: &[Path]) -> Basic {
        self.basic_at(a.0, held)
    }
}
