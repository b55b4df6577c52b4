//! How many leaves trees have, as far as these are few.
ghost use Rattle.std.specs.Prelude.{◌≡◌, ◌<◌, ◌≤◌, ◌*◌, map, MatchOption};
ghost use Rattle.conditions.specs.Conditions.{cond_of};
ghost use Rattle.book_check.specs.BookWork.{doubled as doubled_of, leaves as leaves_of, leaves_among as leaves_among_of, leaves_numbered};

use crate::lookups::tree_at;
use books::Nodes;
use conditions::Tree;

/// One, where that isn't too many.
fn one(most: u32) -> Option<u32>
    ensures { MatchOption result (most < 1) (λ n. (n ≡ 1) × (n ≤ most)) }
{
    if most == 0 {
        return None;
    }
    Some(1)
}

/// How many leaves a tree has; `None` where more than so many.
fn leaves(t: &Tree, most: u32) -> Option<u32>
    ensures { MatchOption result (most < leaves_of (cond_of t.now)) (λ n. (n ≡ leaves_of (cond_of t.now)) × (n ≤ most)) }
{
    match t {
        Tree::Leaf(_) => one(most),
        Tree::Test(_, held, free) => {
            let Some(first) = leaves(held, most) else {
                return None;
            };
            let Some(second) = leaves(free, most - first) else {
                return None;
            };
            Some(first + second)
        }
    }
}

/// How many the tree with this number has; `None` where more than so many.
pub(crate) fn numbered_leaves(table: &[Tree], number: u32, most: u32) -> Option<u32>
    ensures { MatchOption result (most < leaves_numbered (map cond_of table.now) number) (λ n. (n ≡ leaves_numbered (map cond_of table.now) number) × (n ≤ most)) }
{
    match tree_at(table, number) {
        Some(tree) => leaves(tree, most),
        None => one(most),
    }
}

/// How many the trees of nodes side by side have together; `None` where more than so many.
pub(crate) fn leaves_among<F: Nodes>(table: &[Tree], nodes: F, most: u32) -> Option<u32>
    requires { F.AreKept nodes }
    ensures { MatchOption result (most < leaves_among_of (map cond_of table.now) (F.nodes nodes)) (λ n. (n ≡ leaves_among_of (map cond_of table.now) (F.nodes nodes)) × (n ≤ most)) }
{
    let mut rest = nodes;
    let mut left = most;
    while let Some(first) = rest.first() {
        let Some(more) = numbered_leaves(table, first.number, left) else {
            return None;
        };
        left -= more;
        rest = first.rest;
    }
    Some(most - left)
}

/// Twice as much for each, from one on; `None` where that is more than so many.
pub(crate) fn doubled(times: u32, most: u32) -> Option<u32>
    ensures { MatchOption result (most < doubled_of times) (λ n. (n ≡ doubled_of times) × (n ≤ most)) }
{
    if times == 0 {
        return one(most);
    }
    if most == 0 {
        return None;
    }
    let Some(half) = doubled(times - 1, most / 2) else {
        return None;
    };
    Some(half + half)
}

/// A product; `None` where it is more than so many.
pub(crate) fn product(a: u32, b: u32, most: u32) -> Option<u32>
    ensures { MatchOption result (most < a * b) (λ n. (n ≡ a * b) × (n ≤ most)) }
{
    match a.checked_mul(b) {
        None => None,
        Some(n) => {
            if n > most {
                return None;
            }
            Some(n)
        }
    }
}
