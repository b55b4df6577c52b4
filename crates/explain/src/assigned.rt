//! An assignment that trees show, asked at sets of held paths.

ghost use Rattle.std.specs.Prelude.{◌≡◌};
ghost use Rattle.algebra.specs.HeldPaths.{has_path};
ghost use Rattle.conditions.specs.Conditions.{cond_of, value_of};

use algebra::{Basic, has};
use conditions::Tree;
use effects::Assigned;
use paths::{MethodId, Path};

/// A tree for each method, which shows what is assigned to it.
#[derive(Clone, Copy)]
pub struct Shown<'a> {
    pub trees: &'a [Tree],
}

/// The basic at the set of these paths.
fn tree_at(tree: &Tree, held: &[Path]) -> Basic
    ensures { result ≡ value_of (cond_of tree.now) (has_path held.now) }
{
    match tree {
        Tree::Leaf(basic) => *basic,
        Tree::Test(path, with, without) => {
            if has(held, path) {
                return tree_at(with, held);
            }
            tree_at(without, held)
        }
    }
}

impl Assigned for Shown<'_> {
    ghost use Rattle.std.specs.Prelude.{map};
    ghost use Rattle.conditions.specs.Conditions.{cond_of};
    ghost use Rattle.explain.specs.Shown.{shown};

    ghost assigned = { λ v. shown (map cond_of v.trees.now) };

    fn at(&self, method: MethodId, held: &[Path]) -> Basic {
        match self.trees.get(method.0 as usize) {
            Some(tree) => tree_at(tree, held),
            None => Basic::Const,
        }
    }
}
