//! Whether a sequence is at most a tree, with no tree for the sequence: it is exactly where each two of its parts are, the one
//! after the other. Two parts are compared with the tree at once, down all three, and nothing takes memory.
ghost use Rattle.std.specs.Prelude.{◌≡◌, ◌↔◌, ◌&&◌, true, map, IfOk, IfSome};
ghost use Rattle.std.specs.List.{list_all};
ghost use Rattle.std.specs.Option.{option_copied};
ghost use Rattle.conditions.specs.Conditions.{cond_of, value_of, IsCanonical, LeafC};
ghost use Rattle.core_program.specs.Views.{stmt_of};
ghost use Rattle.book_check.specs.Judges.{judge_table, judge_value, AreCanonical};
ghost use Rattle.book_check.specs.Blocks.{keeps_paths as keeps_paths_of};
ghost use Rattle.book_check.specs.Pairs.{free_branch, held_branch, lesser_of, root_of, ArePairsBelow, IsPairBelow, IsSequenceBelow};

use crate::judge::Judge;
use crate::lookups::tree_at;
use crate::rule_values::keeps_paths;
use crate::stuck::{Stuck, visit};
use crate::values::leaf;
use crate::work::{MOST_DEPTH, Work};
use algebra::Basic;
use conditions::Tree;
use core_program::CoreStmt;
use paths::{Path, order};
use std::cmp::Ordering;

/// The path that a tree tests first.
fn root(t: &Tree) -> Option<&Path>
    ensures { option_copied result ≡ root_of (cond_of t.now) }
{
    match t {
        Tree::Leaf(_) => None,
        Tree::Test(path, _, _) => Some(path),
    }
}

/// The lesser of two paths, each of which may be missing.
fn lesser<'a>(first: Option<&'a Path>, second: Option<&'a Path>) -> Option<&'a Path>
    ensures { option_copied result ≡ lesser_of (option_copied first.entry) (option_copied second.entry) }
{
    match (first, second) {
        (None, _) => second,
        (Some(_), None) => first,
        (Some(p), Some(q)) => match order(p, q) {
            Ordering::Less | Ordering::Equal => first,
            Ordering::Greater => second,
        },
    }
}

/// The least path that any of three trees tests.
fn least<'a>(t: &'a Tree, u: &'a Tree, d: &'a Tree) -> Option<&'a Path>
    ensures { option_copied result ≡ lesser_of (lesser_of (root_of (cond_of t.now)) (root_of (cond_of u.now))) (root_of (cond_of d.now)) }
{
    lesser(lesser(root(t), root(u)), root(d))
}

/// A tree that tests no lesser path, where this one is held and where it isn't.
pub(crate) fn branches<'a>(path: &Path, t: &'a Tree) -> (&'a Tree, &'a Tree)
    ensures held { cond_of result.0.now ≡ held_branch path.now (cond_of t.now) }
    ensures free { cond_of result.1.now ≡ free_branch path.now (cond_of t.now) }
{
    match t {
        Tree::Leaf(_) => (t, t),
        Tree::Test(root, held, free) => {
            if root.same(path) {
                return (held, free);
            }
            (t, t)
        }
    }
}

/// The basic of a leaf.
pub(crate) fn leaf_of(t: &Tree) -> Option<Basic>
    ensures { IfSome result (λ b. cond_of t.now ≡ LeafC b) }
{
    match t {
        Tree::Leaf(basic) => Some(*basic),
        Tree::Test(_, _, _) => None,
    }
}

/// Whether two leaves, one after the other, are at most a third, where all three are leaves.
fn at_leaves(t: &Tree, u: &Tree, d: &Tree) -> Option<bool>
    ensures { IfSome result (λ b. (b ≡ true) ↔ IsPairBelow (value_of (cond_of t.now)) (value_of (cond_of u.now)) (value_of (cond_of d.now))) }
{
    let first = leaf_of(t)?;
    let second = leaf_of(u)?;
    let most = leaf_of(d)?;
    let both = first.seq(second);
    Some(both.below(most))
}

/// Whether two trees, one after the other, are at most a third.
pub(crate) fn pair_below(
    work: Work<'_>,
    depth: u32,
    t: &Tree,
    u: &Tree,
    d: &Tree,
) -> Result<bool, Stuck>
    requires first { IsCanonical (cond_of t.now) }
    requires second { IsCanonical (cond_of u.now) }
    requires third { IsCanonical (cond_of d.now) }
    ensures { IfOk result (λ b. (b ≡ true) ↔ IsPairBelow (value_of (cond_of t.now)) (value_of (cond_of u.now)) (value_of (cond_of d.now))) }
{
    if depth == 0 {
        return Err(Stuck::Undecided);
    }
    visit(work)?;
    if let Some(is) = at_leaves(t, u, d) {
        return Ok(is);
    }
    let Some(path) = least(t, u, d) else {
        return Err(Stuck::Undecided);
    };
    let first = branches(path, t);
    let second = branches(path, u);
    let third = branches(path, d);
    if !pair_below(work, depth - 1, first.0, second.0, third.0)? {
        return Ok(false);
    }
    pair_below(work, depth - 1, first.1, second.1, third.1)
}

/// Whether a tree before each of the trees with these numbers is at most another. Undecided where a number has no tree, which no
/// book has.
fn pairs_below(
    work: Work<'_>,
    judge: &Judge<'_>,
    first: &Tree,
    numbers: &[u32],
    d: &Tree,
) -> Result<bool, Stuck>
    requires canonical { AreCanonical (judge_table judge.now) }
    requires first { IsCanonical (cond_of first.now) }
    requires third { IsCanonical (cond_of d.now) }
    ensures { IfOk result (λ b. (b ≡ true) ↔ ArePairsBelow (value_of (cond_of first.now)) (map (judge_value judge.now) numbers.now) (value_of (cond_of d.now))) }
{
    let mut rest = numbers;
    'numbers: while let Some((number, others)) = rest.split_first() {
        let Some(next) = tree_at(judge.table, *number) else {
            return Err(Stuck::Undecided);
        };
        if !pair_below(work, MOST_DEPTH, first, next, d)? {
            return Ok(false);
        }
        rest = others;
    }
    Ok(true)
}

/// Whether the trees with these numbers, one after another, and then a last one are at most another.
pub(crate) fn sequence_below(
    work: Work<'_>,
    judge: &Judge<'_>,
    numbers: &[u32],
    last: &Tree,
    d: &Tree,
) -> Result<bool, Stuck>
    requires canonical { AreCanonical (judge_table judge.now) }
    requires last { IsCanonical (cond_of last.now) }
    requires third { IsCanonical (cond_of d.now) }
    ensures { IfOk result (λ b. (b ≡ true) ↔ IsSequenceBelow (map (judge_value judge.now) numbers.now) (value_of (cond_of last.now)) (value_of (cond_of d.now))) }
{
    let mut rest = numbers;
    'numbers: while let Some((number, others)) = rest.split_first() {
        let Some(first) = tree_at(judge.table, *number) else {
            return Err(Stuck::Undecided);
        };
        if !pairs_below(work, judge, first, others, d)? {
            return Ok(false);
        }
        if !pair_below(work, MOST_DEPTH, first, last, d)? {
            return Ok(false);
        }
        rest = others;
    }
    let none = leaf(Basic::Const);
    pair_below(work, MOST_DEPTH, &none, last, d)
}

/// Whether both hold.
pub(crate) fn both(first: bool, second: bool) -> bool
    ensures { result ≡ (first && second) }
{
    first && second
}

/// Whether each statement of a block keeps the paths that are held.
pub(crate) fn all_keep_paths(body: &[CoreStmt]) -> bool
    ensures { result ≡ list_all (λ s. keeps_paths_of (stmt_of s)) body.now }
{
    body.iter().all(|s| keeps_paths(s))
}
