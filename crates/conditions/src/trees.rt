//! Canonical trees as an algebra.
ghost use Rattle.conditions.specs.Conditions.{cond_of, value_of, IsCanonical};

use crate::tree::Tree;
use crate::tree_operations::{
    Pair, Single, at_in, below_in, both, each_tree, hold, rename_in, sync_in,
};
use algebra::{Algebra, Basic};
use paths::{Path, Renaming};
use std::alloc::{AllocError as NoMemory, Global};

/// The algebra of trees. It keeps nothing, and knows every canonical tree.
#[derive(Clone, Copy, Debug, Default)]
pub struct Trees;

impl Algebra for Trees {
    type A = Tree;

    ghost IsKnown = { λ s t. IsCanonical (cond_of t) };

    ghost value = { λ s t H. value_of (cond_of t) H };

    fn leaf(&mut self, _alloc: Global, b: Basic) -> Result<Tree, NoMemory> {
        Ok(Tree::Leaf(b))
    }

    fn held_or(&mut self, alloc: Global, p: &Path, a: &Tree, b: &Tree) -> Result<Tree, NoMemory> {
        hold(alloc, p, a, b)
    }

    fn seq(&mut self, alloc: Global, a: &Tree, b: &Tree) -> Result<Tree, NoMemory> {
        both(alloc, Pair::Seq, a, b)
    }

    fn join(&mut self, alloc: Global, a: &Tree, b: &Tree) -> Result<Tree, NoMemory> {
        both(alloc, Pair::Join, a, b)
    }

    fn star(&mut self, alloc: Global, a: &Tree) -> Result<Tree, NoMemory> {
        each_tree(alloc, Single::Star, a)
    }

    fn sync(&mut self, alloc: Global, p: &Path, a: &Tree) -> Result<Tree, NoMemory> {
        sync_in(alloc, p, a)
    }

    fn rename(&mut self, alloc: Global, map: &Renaming, a: &Tree) -> Result<Tree, NoMemory> {
        rename_in(alloc, map.pairs.as_slice(), a)
    }

    fn below(&self, a: &Tree, b: &Tree) -> bool {
        below_in(a, b)
    }

    fn at(&self, a: &Tree, held: &[Path]) -> Basic {
        at_in(a, held)
    }
}
