//! The operations on canonical trees, each exactly the function of its name on plain trees.
ghost use Rattle.std.specs.Prelude.{◌≡◌, IfOk};
ghost use Rattle.algebra.specs.Basics.{lift_of};
ghost use Rattle.algebra.specs.HeldPaths.{has_path, is_named};
ghost use Rattle.conditions.specs.Conditions.{cond_of, value_of};
ghost use Rattle.conditions.specs.Operations.{node, each_leaf, both_leaves, sync_tree, hold, hold_partners, rename_tree, below_tree};
ghost use Rattle.conditions.specs.Calls.{single_of, pair_of};

use crate::tree::{Tree, same_tree};
use algebra::{Basic, has};
use paths::{Path, order};
use std::alloc::{AllocError as NoMemory, Global};
use std::cmp::Ordering;

/// A call of one basic.
#[derive(Clone, Copy)]
pub(crate) enum Single {
    Star,
    Lift,
}

/// A call of two basics.
#[derive(Clone, Copy)]
pub(crate) enum Pair {
    Seq,
    Join,
}

fn call_one(f: Single, x: Basic) -> Basic
    ensures { result ≡ single_of f x }
{
    match f {
        Single::Star => x.star(),
        Single::Lift => x.lift(),
    }
}

fn call_two(f: Pair, x: Basic, y: Basic) -> Basic
    ensures { result ≡ pair_of f x y }
{
    match f {
        Pair::Seq => x.seq(y),
        Pair::Join => x.join(y),
    }
}

/// A test, or the one tree where both branches are equal.
fn node(alloc: Global, p: &Path, a: Tree, b: Tree) -> Result<Tree, NoMemory>
    ensures { IfOk result (λ t. cond_of t ≡ node p.now (cond_of a) (cond_of b)) }
{
    if same_tree(&a, &b) {
        return Ok(a);
    }
    Ok(Tree::Test(p.copy(), Box::new(alloc, a)?, Box::new(alloc, b)?))
}

/// Each leaf changed.
pub(crate) fn each_tree(alloc: Global, f: Single, t: &Tree) -> Result<Tree, NoMemory>
    ensures { IfOk result (λ r. cond_of r ≡ each_leaf (single_of f) (cond_of t.now)) }
{
    match t {
        Tree::Leaf(x) => Ok(Tree::Leaf(call_one(f, *x))),
        Tree::Test(p, a, b) => node(alloc, p, each_tree(alloc, f, a)?, each_tree(alloc, f, b)?),
    }
}

/// The leaves of two trees joined by a call, the smaller path first.
pub(crate) fn both(alloc: Global, f: Pair, t: &Tree, u: &Tree) -> Result<Tree, NoMemory>
    ensures { IfOk result (λ r. cond_of r ≡ both_leaves (pair_of f) (cond_of t.now) (cond_of u.now)) }
{
    match (t, u) {
        (Tree::Leaf(x), Tree::Leaf(y)) => Ok(Tree::Leaf(call_two(f, *x, *y))),
        (Tree::Leaf(_), Tree::Test(q, c, d)) => node(
            alloc,
            q,
            both(alloc, f, t, c)?,
            both(alloc, f, t, d)?,
        ),
        (Tree::Test(p, a, b), Tree::Leaf(_)) => node(
            alloc,
            p,
            both(alloc, f, a, u)?,
            both(alloc, f, b, u)?,
        ),
        (Tree::Test(p, a, b), Tree::Test(q, c, d)) => match order(p, q) {
            Ordering::Less => node(alloc, p, both(alloc, f, a, u)?, both(alloc, f, b, u)?),
            Ordering::Equal => node(alloc, p, both(alloc, f, a, c)?, both(alloc, f, b, d)?),
            Ordering::Greater => node(alloc, q, both(alloc, f, t, c)?, both(alloc, f, t, d)?),
        },
    }
}

/// The tree where the path is held, and elsewhere its lift.
fn lifted(alloc: Global, p: &Path, t: &Tree) -> Result<Tree, NoMemory>
    ensures { IfOk result (λ r. cond_of r ≡ node p.now (cond_of t.now) (each_leaf lift_of (cond_of t.now))) }
{
    node(alloc, p, t.copy(alloc)?, each_tree(alloc, Single::Lift, t)?)
}

/// A synchronized part on the path.
pub(crate) fn sync_in(alloc: Global, p: &Path, t: &Tree) -> Result<Tree, NoMemory>
    ensures { IfOk result (λ r. cond_of r ≡ sync_tree p.now (cond_of t.now)) }
{
    match t {
        Tree::Leaf(_) => lifted(alloc, p, t),
        Tree::Test(q, a, b) => match order(p, q) {
            Ordering::Less => lifted(alloc, p, t),
            Ordering::Equal => lifted(alloc, p, a),
            Ordering::Greater => node(alloc, q, sync_in(alloc, p, a)?, sync_in(alloc, p, b)?),
        },
    }
}

/// A test on copies of the two trees.
fn chosen(alloc: Global, p: &Path, t: &Tree, u: &Tree) -> Result<Tree, NoMemory>
    ensures { IfOk result (λ r. cond_of r ≡ node p.now (cond_of t.now) (cond_of u.now)) }
{
    node(alloc, p, t.copy(alloc)?, u.copy(alloc)?)
}

/// The first tree where the path is held, else the second.
pub(crate) fn hold(alloc: Global, p: &Path, t: &Tree, u: &Tree) -> Result<Tree, NoMemory>
    ensures { IfOk result (λ r. cond_of r ≡ hold p.now (cond_of t.now) (cond_of u.now)) }
{
    match (t, u) {
        (Tree::Leaf(_), Tree::Leaf(_)) => chosen(alloc, p, t, u),
        (Tree::Leaf(_), Tree::Test(r, c, d)) => match order(p, r) {
            Ordering::Less => chosen(alloc, p, t, u),
            Ordering::Equal => chosen(alloc, p, t, d),
            Ordering::Greater => node(alloc, r, hold(alloc, p, t, c)?, hold(alloc, p, t, d)?),
        },
        (Tree::Test(q, a, b), Tree::Leaf(_)) => match order(p, q) {
            Ordering::Less => chosen(alloc, p, t, u),
            Ordering::Equal => chosen(alloc, p, a, u),
            Ordering::Greater => node(alloc, q, hold(alloc, p, a, u)?, hold(alloc, p, b, u)?),
        },
        (Tree::Test(q, a, b), Tree::Test(r, c, d)) => match order(q, r) {
            Ordering::Less => match order(p, q) {
                Ordering::Less => chosen(alloc, p, t, u),
                Ordering::Equal => chosen(alloc, p, a, u),
                Ordering::Greater => node(alloc, q, hold(alloc, p, a, u)?, hold(alloc, p, b, u)?),
            },
            Ordering::Equal => match order(p, q) {
                Ordering::Less => chosen(alloc, p, t, u),
                Ordering::Equal => chosen(alloc, p, a, d),
                Ordering::Greater => node(alloc, q, hold(alloc, p, a, c)?, hold(alloc, p, b, d)?),
            },
            Ordering::Greater => match order(p, r) {
                Ordering::Less => chosen(alloc, p, t, u),
                Ordering::Equal => chosen(alloc, p, t, d),
                Ordering::Greater => node(alloc, r, hold(alloc, p, t, c)?, hold(alloc, p, t, d)?),
            },
        },
    }
}

/// Whether a renaming names the path.
fn names(pairs: &[(Path, Option<Path>)], q: &Path) -> bool
    ensures { result ≡ is_named pairs.now q.now }
{
    pairs.iter().any(|pair| pair.0.same(q))
}

/// The first tree where a partner of the path is held, else the second.
fn hold_partners_in(
    alloc: Global,
    pairs: &[(Path, Option<Path>)],
    q: &Path,
    t: &Tree,
    u: &Tree,
) -> Result<Tree, NoMemory>
    ensures { IfOk result (λ r. cond_of r ≡ hold_partners pairs.now q.now (cond_of t.now) (cond_of u.now)) }
{
    match pairs.split_first() {
        None => u.copy(alloc),
        Some((pair, rest)) => {
            let others = hold_partners_in(alloc, rest, q, t, u)?;
            match &pair.1 {
                Some(partner) if pair.0.same(q) => hold(alloc, partner, t, &others),
                _ => Ok(others),
            }
        }
    }
}

/// Each test renamed, from the leaves on.
pub(crate) fn rename_in(
    alloc: Global,
    pairs: &[(Path, Option<Path>)],
    t: &Tree,
) -> Result<Tree, NoMemory>
    ensures { IfOk result (λ r. cond_of r ≡ rename_tree pairs.now (cond_of t.now)) }
{
    match t {
        Tree::Leaf(x) => Ok(Tree::Leaf(*x)),
        Tree::Test(q, a, b) => {
            let held = rename_in(alloc, pairs, a)?;
            let free = rename_in(alloc, pairs, b)?;
            if names(pairs, q) {
                return hold_partners_in(alloc, pairs, q, &held, &free);
            }
            hold(alloc, q, &held, &free)
        }
    }
}

/// Whether the first is at most the second at every set.
pub(crate) fn below_in(t: &Tree, u: &Tree) -> bool
    ensures { result ≡ below_tree (cond_of t.now) (cond_of u.now) }
{
    match (t, u) {
        (Tree::Leaf(x), Tree::Leaf(y)) => x.below(*y),
        (Tree::Leaf(_), Tree::Test(_, c, d)) => below_in(t, c) && below_in(t, d),
        (Tree::Test(_, a, b), Tree::Leaf(_)) => below_in(a, u) && below_in(b, u),
        (Tree::Test(p, a, b), Tree::Test(q, c, d)) => match order(p, q) {
            Ordering::Less => below_in(a, u) && below_in(b, u),
            Ordering::Equal => below_in(a, c) && below_in(b, d),
            Ordering::Greater => below_in(t, c) && below_in(t, d),
        },
    }
}

/// The basic at the set of these paths.
pub(crate) fn at_in(t: &Tree, held: &[Path]) -> Basic
    ensures { result ≡ value_of (cond_of t.now) (has_path held.now) }
{
    match t {
        Tree::Leaf(x) => *x,
        Tree::Test(p, a, b) => {
            if has(held, p) {
                return at_in(a, held);
            }
            at_in(b, held)
        }
    }
}
