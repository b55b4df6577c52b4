//! Operations on trees, each with its value at every set of held paths. An operation whose work would pass a bound isn't made; where the
//! work has none, memory alone may be wanting.
ghost use Rattle.std.specs.Prelude.{◌≡◌, ◌↔◌, true, IfErr, IfOk, if◌then◌else◌};
ghost use Rattle.std.specs.Option.{option_copied};
ghost use Rattle.algebra.specs.Basics.{seq_of, join_of, star_of};
ghost use Rattle.algebra.specs.HeldPaths.{Held, holds_at, renamed as renamed_set};
ghost use Rattle.algebra.specs.Values.{sync_of};
ghost use Rattle.conditions.specs.Conditions.{cond_of, value_of, IsCanonical};
ghost use Rattle.rules.specs.Rules.{AtMost};
ghost use Rattle.book_check.specs.declared.refusal.Refusal.{Refusal};
ghost use Rattle.book_check.specs.Works.{IsUnbounded};

use crate::refusal::Refusal;
use crate::work::{MOST_DEPTH, Work};
use algebra::{Algebra, Basic};
use conditions::{Tree, Trees};
use paths::{Path, Renaming, order};
use std::alloc::Global;
use std::cmp::Ordering;

/// How many pairs of subtrees one operation may visit.
const SMALL: u32 = 1 << 14;

/// Two trees where the first path that either of them tests is held, and then where it isn't.
#[derive(Clone, Copy)]
struct Pairs<'a> {
    first: &'a Tree,
    second: &'a Tree,
    third: &'a Tree,
    fourth: &'a Tree,
}

/// The halves of two trees, by the first path that either of them tests; `None` for two leaves.
#[inline(always)]
fn halves<'a>(t: &'a Tree, u: &'a Tree) -> Option<Pairs<'a>> {
    match (t, u) {
        (Tree::Leaf(_), Tree::Leaf(_)) => None,
        (Tree::Leaf(_), Tree::Test(_, c, d)) => Some(Pairs {
            first: t,
            second: c,
            third: t,
            fourth: d,
        }),
        (Tree::Test(_, a, b), Tree::Leaf(_)) => Some(Pairs {
            first: a,
            second: u,
            third: b,
            fourth: u,
        }),
        (Tree::Test(p, a, b), Tree::Test(q, c, d)) => match order(p, q) {
            Ordering::Less => Some(Pairs {
                first: a,
                second: u,
                third: b,
                fourth: u,
            }),
            Ordering::Equal => Some(Pairs {
                first: a,
                second: c,
                third: b,
                fourth: d,
            }),
            Ordering::Greater => Some(Pairs {
                first: t,
                second: c,
                third: t,
                fourth: d,
            }),
        },
    }
}

/// What is left of `left` after a visit of the pairs of subtrees that an operation on two trees visits; `None` where it is too
/// little, or the pairs go too deep.
fn visited(t: &Tree, u: &Tree, depth: u32, left: u32) -> Option<u32> {
    if depth == 0 {
        return None;
    }
    if left == 0 {
        return None;
    }
    let less = left - 1;
    let Some(pairs) = halves(t, u) else {
        return Some(less);
    };
    let Some(later) = visited(pairs.first, pairs.second, depth - 1, less) else {
        return None;
    };
    visited(pairs.third, pairs.fourth, depth - 1, later)
}

/// Takes the pairs that an operation on the two trees visits from the work, where there is a bound. Refused where they would pass it.
/// Then the visit that told so is taken, so that a book can't ask for many of these.
fn check_small(work: Work<'_>, t: &Tree, u: &Tree) -> Result<(), Refusal>
    ensures { IsUnbounded work.entry → IfErr result (λ e. e ≡ Refusal.NoMemory) }
{
    let Work::Bounded(_) = work else {
        return Ok(());
    };
    match visited(t, u, MOST_DEPTH, SMALL) {
        Some(left) => work.take(SMALL.saturating_sub(left)),
        None => {
            work.take(SMALL)?;
            Err(Refusal::Work)
        }
    }
}

/// Takes the pairs that a look at the two trees visits, which takes no memory. Refused where more than all that is left would be
/// visited. Nothing is tried behind it.
fn check_left(work: Work<'_>, t: &Tree, u: &Tree) -> Result<(), Refusal>
    ensures { IsUnbounded work.entry → IfErr result (λ e. e ≡ Refusal.NoMemory) }
{
    let Work::Bounded(all) = work else {
        return Ok(());
    };
    let most = all.get();
    match visited(t, u, MOST_DEPTH, most) {
        Some(left) => work.take(most.saturating_sub(left)),
        None => Err(Refusal::Work),
    }
}

/// The tree of a basic.
pub fn leaf(basic: Basic) -> Tree
    ensures known { IsCanonical (cond_of result) }
    ensures value { (H : Held) → value_of (cond_of result) H ≡ basic }
{
    Tree::Leaf(basic)
}

/// A copy.
pub(crate) fn copied(alloc: Global, work: Work<'_>, t: &Tree) -> Result<Tree, Refusal>
    requires { IsCanonical (cond_of t.now) }
    ensures known { IfOk result (λ r. IsCanonical (cond_of r)) }
    ensures value { IfOk result (λ r. (H : Held) → value_of (cond_of r) H ≡ value_of (cond_of t.now) H) }
    ensures unbounded { IsUnbounded work.entry → IfErr result (λ e. e ≡ Refusal.NoMemory) }
{
    check_small(work, t, t)?;
    Ok(t.copy(alloc)?)
}

/// The first, then the second.
pub(crate) fn seq(alloc: Global, work: Work<'_>, t: &Tree, u: &Tree) -> Result<Tree, Refusal>
    requires first { IsCanonical (cond_of t.now) }
    requires second { IsCanonical (cond_of u.now) }
    ensures known { IfOk result (λ r. IsCanonical (cond_of r)) }
    ensures value { IfOk result (λ r. (H : Held) →
        value_of (cond_of r) H ≡ seq_of (value_of (cond_of t.now) H) (value_of (cond_of u.now) H)) }
    ensures unbounded { IsUnbounded work.entry → IfErr result (λ e. e ≡ Refusal.NoMemory) }
{
    check_small(work, t, u)?;
    let mut trees = Trees;
    Ok(trees.seq(alloc, t, u)?)
}

/// Either of the two.
pub(crate) fn join(alloc: Global, work: Work<'_>, t: &Tree, u: &Tree) -> Result<Tree, Refusal>
    requires first { IsCanonical (cond_of t.now) }
    requires second { IsCanonical (cond_of u.now) }
    ensures known { IfOk result (λ r. IsCanonical (cond_of r)) }
    ensures value { IfOk result (λ r. (H : Held) →
        value_of (cond_of r) H ≡ join_of (value_of (cond_of t.now) H) (value_of (cond_of u.now) H)) }
    ensures unbounded { IsUnbounded work.entry → IfErr result (λ e. e ≡ Refusal.NoMemory) }
{
    check_small(work, t, u)?;
    let mut trees = Trees;
    Ok(trees.join(alloc, t, u)?)
}

/// Any number of times.
pub(crate) fn star(alloc: Global, work: Work<'_>, t: &Tree) -> Result<Tree, Refusal>
    requires { IsCanonical (cond_of t.now) }
    ensures known { IfOk result (λ r. IsCanonical (cond_of r)) }
    ensures value { IfOk result (λ r. (H : Held) → value_of (cond_of r) H ≡ star_of (value_of (cond_of t.now) H)) }
    ensures unbounded { IsUnbounded work.entry → IfErr result (λ e. e ≡ Refusal.NoMemory) }
{
    check_small(work, t, t)?;
    let mut trees = Trees;
    Ok(trees.star(alloc, t)?)
}

/// Under the lock with this path.
pub(crate) fn sync(alloc: Global, work: Work<'_>, p: &Path, t: &Tree) -> Result<Tree, Refusal>
    requires { IsCanonical (cond_of t.now) }
    ensures known { IfOk result (λ r. IsCanonical (cond_of r)) }
    ensures value { IfOk result (λ r. (H : Held) → value_of (cond_of r) H ≡ sync_of p.now (value_of (cond_of t.now)) H) }
    ensures unbounded { IsUnbounded work.entry → IfErr result (λ e. e ≡ Refusal.NoMemory) }
{
    check_small(work, t, t)?;
    let mut trees = Trees;
    Ok(trees.sync(alloc, p, t)?)
}

/// Under the names that a map has for paths. Where two paths are told apart no more, this takes more than the visit of the tree, so
/// the rules give names to trees in ways of their own.
pub(crate) fn renamed(
    alloc: Global,
    work: Work<'_>,
    map: &Renaming,
    t: &Tree,
) -> Result<Tree, Refusal>
    requires { IsCanonical (cond_of t.now) }
    ensures known { IfOk result (λ r. IsCanonical (cond_of r)) }
    ensures value { IfOk result (λ r. (H : Held) → value_of (cond_of r) H ≡ value_of (cond_of t.now) (renamed_set map.now H)) }
    ensures unbounded { IsUnbounded work.entry → IfErr result (λ e. e ≡ Refusal.NoMemory) }
{
    check_small(work, t, t)?;
    let mut trees = Trees;
    Ok(trees.rename(alloc, map, t)?)
}

/// The first where there is a path and it is held, else the second.
pub(crate) fn held_or(
    alloc: Global,
    work: Work<'_>,
    name: Option<&Path>,
    t: &Tree,
    u: &Tree,
) -> Result<Tree, Refusal>
    requires first { IsCanonical (cond_of t.now) }
    requires second { IsCanonical (cond_of u.now) }
    ensures known { IfOk result (λ r. IsCanonical (cond_of r)) }
    ensures value { IfOk result (λ r. (H : Held) → value_of (cond_of r) H ≡
        (if holds_at (option_copied name.entry) H then value_of (cond_of t.now) H else value_of (cond_of u.now) H)) }
    ensures unbounded { IsUnbounded work.entry → IfErr result (λ e. e ≡ Refusal.NoMemory) }
{
    check_small(work, t, u)?;
    let Some(path) = name else {
        return copied(alloc, work, u);
    };
    let mut trees = Trees;
    Ok(trees.held_or(alloc, path, t, u)?)
}

/// Whether the first is at most the second at every set.
pub fn below(work: Work<'_>, t: &Tree, u: &Tree) -> Result<bool, Refusal>
    requires first { IsCanonical (cond_of t.now) }
    requires second { IsCanonical (cond_of u.now) }
    ensures below { IfOk result (λ b. (b ≡ true) ↔ ((H : Held) → AtMost (value_of (cond_of t.now) H) (value_of (cond_of u.now) H))) }
    ensures unbounded { IsUnbounded work.entry → IfErr result (λ e. e ≡ Refusal.NoMemory) }
{
    check_left(work, t, u)?;
    Ok(Trees.below(t, u))
}
