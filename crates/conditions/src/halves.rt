//! Two nodes at once, and what is read of nodes without memory.
ghost use Rattle.std.specs.Prelude.{◌≡◌, ◌<◌, length, IfOk};
ghost use Rattle.algebra.specs.HeldPaths.{has_path};
ghost use Rattle.conditions.specs.Conditions.{cond_of, value_of};
ghost use Rattle.conditions.specs.Operations.{below_tree};
ghost use Rattle.conditions.specs.Nodes.{tree_at, IsTable};
ghost use Rattle.conditions.specs.Halving.{IsSplit};

use crate::rows::{Item, Rows};
use crate::tree::Tree;
use algebra::{Basic, has};
use paths::{Path, order};
use std::alloc::{AllocError as NoMemory, Global};
use std::cmp::Ordering;

/// What two numbers stand for: two basics, or a path with the parts of the first where the path is held and where it
/// isn't, then those of the second.
#[derive(Debug, Drop)]
pub enum Split {
    Leaves(Basic, Basic),
    Tests(Path, usize, usize, usize, usize),
}

impl Rows {
    /// The basics of two numbers, or their parts by the smaller of the paths at their roots.
    pub fn split(&self, m: usize, n: usize) -> Split
        requires m_there { m < length self.now }
        requires n_there { n < length self.now }
        ensures split { IsSplit self.now m n result }
        ensures table { IsTable self.now }
    {
        match (self.item(m), self.item(n)) {
            (Item::Leaf(x), Item::Leaf(y)) => Split::Leaves(x, y),
            (Item::Leaf(_), Item::Test(q, c, d)) => Split::Tests(q, m, m, c, d),
            (Item::Test(p, a, b), Item::Leaf(_)) => Split::Tests(p, a, b, n, n),
            (Item::Test(p, a, b), Item::Test(q, c, d)) => match order(&p, &q) {
                Ordering::Less => Split::Tests(p, a, b, n, n),
                Ordering::Equal => Split::Tests(p, a, b, c, d),
                Ordering::Greater => Split::Tests(q, m, m, c, d),
            },
        }
    }

    /// Whether the first is at most the second at every set.
    pub fn below(&self, m: usize, n: usize) -> bool
        requires m_there { m < length self.now }
        requires n_there { n < length self.now }
        ensures { result ≡ below_tree (tree_at self.now m) (tree_at self.now n) }
    {
        match self.split(m, n) {
            Split::Leaves(x, y) => x.below(y),
            Split::Tests(_, a, b, c, d) => self.below(a, c) && self.below(b, d),
        }
    }

    /// The basic at the set of these paths.
    pub fn at(&self, n: usize, held: &[Path]) -> Basic
        requires { n < length self.now }
        ensures { result ≡ value_of (tree_at self.now n) (has_path held.now) }
    {
        match self.item(n) {
            Item::Leaf(b) => b,
            Item::Test(p, a, b) => {
                if has(held, &p) {
                    return self.at(a, held);
                }
                self.at(b, held)
            }
        }
    }

    /// The tree that a number stands for.
    pub fn tree(&self, alloc: Global, n: usize) -> Result<Tree, NoMemory>
        requires { n < length self.now }
        ensures { IfOk result (λ t. cond_of t ≡ tree_at self.now n) }
    {
        match self.item(n) {
            Item::Leaf(b) => Ok(Tree::Leaf(b)),
            Item::Test(p, a, b) => {
                let held = self.tree(alloc, a)?;
                let free = self.tree(alloc, b)?;
                Ok(Tree::Test(p, Box::new(alloc, held)?, Box::new(alloc, free)?))
            }
        }
    }
}
