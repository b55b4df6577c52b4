//! Conditional atomicities: trees of tests on paths.
ghost use Rattle.std.specs.Prelude.{◌≡◌, ◌↔◌, true, IfOk};
ghost use Rattle.algebra.specs.HeldPaths.{Held};
ghost use Rattle.conditions.specs.Conditions.{Cond, cond_of, cond_eq, value_of, IsCanonical};

use algebra::Basic;
use paths::Path;
use std::alloc::{AllocError as NoMemory, Global};

/// An atomicity that depends on which lock paths are held. A `Test` has the tree where its path is held first, then
/// the tree where it isn't.
#[derive(Drop)]
pub enum Tree {
    Leaf(Basic),
    Test(Path, Box<Tree>, Box<Tree>),
}

impl Tree {
    /// A copy of the tree.
    pub fn copy(&self, alloc: Global) -> Result<Tree, NoMemory>
        ensures { IfOk result (λ t. cond_of t ≡ cond_of self.now) }
    {
        match self {
            Tree::Leaf(b) => Ok(Tree::Leaf(*b)),
            Tree::Test(p, a, b) => {
                let held = a.copy(alloc)?;
                let free = b.copy(alloc)?;
                Ok(Tree::Test(p.copy(), Box::new(alloc, held)?, Box::new(alloc, free)?))
            }
        }
    }

    /// Whether two trees are equal.
    pub fn same(&self, other: &Tree) -> bool
        ensures { (result ≡ true) ↔ (cond_of self.now ≡ cond_of other.now) }
    {
        same_tree(self, other)
    }
}

/// Whether two trees have the same tests and leaves.
pub(crate) fn same_tree(t: &Tree, u: &Tree) -> bool
    ensures { result ≡ cond_eq (cond_of t.now) (cond_of u.now) }
{
    match (t, u) {
        (Tree::Leaf(b), Tree::Leaf(c)) => b == c,
        (Tree::Test(p, a, b), Tree::Test(q, c, d)) => {
            p.same(q) && same_tree(a, c) && same_tree(b, d)
        }
        _ => false,
    }
}

/// Canonical trees with the same value at every set of held paths are equal.
pub fn same_values_law()
    ensures same_tree { (t u : Cond) → IsCanonical t → IsCanonical u → ((H : Held) → value_of t H ≡ value_of u H) → t ≡ u }
{}
