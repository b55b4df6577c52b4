//! Calls on nodes, by which results are found again.
ghost use Rattle.std.specs.Prelude.{◌≡◌, ◌<◌, IfOk};
ghost use Rattle.conditions.specs.NodeCalls.{single_of, pair_of};

use crate::rows::{hint_at, hint_of_path};
use algebra::Basic;
use paths::Path;
use std::alloc::{AllocError as NoMemory, Global};

/// A call of one basic.
#[derive(Clone, Copy, Debug, PartialEq, Eq, Hash)]
pub(crate) enum Single {
    Star,
    Lift,
}

/// A call of two basics.
#[derive(Clone, Copy, Debug, PartialEq, Eq, Hash)]
pub(crate) enum Pair {
    Seq,
    Join,
}

/// A call on numbers of nodes.
#[derive(Debug, Drop, PartialEq, Eq, Hash)]
pub(crate) enum Call {
    Each(Single, usize),
    Both(Pair, usize, usize),
    HeldOr(Path, usize, usize),
    Sync(Path, usize),
}

/// A number with what a renaming calls some paths.
#[derive(Debug, Drop, PartialEq, Eq, Hash)]
pub(crate) struct Renamed {
    pub(crate) pairs: Vec<(Path, Option<Path>)>,
    pub(crate) node: usize,
}

/// Which hint is that of a call of two basics.
#[inline(always)]
pub(crate) fn hint_of_both(f: Pair, m: usize, n: usize) -> usize
    ensures { result < 256 }
{
    match f {
        Pair::Seq => hint_at(0, m, n),
        Pair::Join => hint_at(2, m, n),
    }
}

/// Which hint is that of a call.
#[inline(always)]
pub(crate) fn hint_of(call: &Call) -> usize
    ensures { result < 256 }
{
    match call {
        Call::Each(_, n) => hint_at(1, *n, 0),
        Call::Both(f, m, n) => hint_of_both(*f, *m, *n),
        Call::HeldOr(p, m, n) => hint_of_path(p, *m, *n),
        Call::Sync(p, n) => hint_of_path(p, *n, 3),
    }
}

/// A copy of a path that may be missing.
fn copy_of(path: &Option<Path>) -> Option<Path>
    ensures { result ≡ path.now }
{
    match path {
        Some(path) => Some(path.copy()),
        None => None,
    }
}

/// A number with copies of these pairs.
pub(crate) fn renamed_by(
    alloc: Global,
    pairs: &[(Path, Option<Path>)],
    node: usize,
) -> Result<Renamed, NoMemory>
    ensures pairs { IfOk result (λ r. r.pairs.items ≡ pairs.now) }
    ensures node { IfOk result (λ r. r.node ≡ node) }
{
    let mut copies = Vec::with_capacity(alloc, pairs.len())?;
    for pair in pairs {
        copies.push((pair.0.copy(), copy_of(&pair.1)))?;
    }
    Ok(Renamed {
        pairs: copies,
        node,
    })
}

/// The call of one basic.
pub(crate) fn call_one(f: Single, x: Basic) -> Basic
    ensures { result ≡ single_of f x }
{
    match f {
        Single::Star => x.star(),
        Single::Lift => x.lift(),
    }
}

/// The call of two basics.
pub(crate) fn call_two(f: Pair, x: Basic, y: Basic) -> Basic
    ensures { result ≡ pair_of f x y }
{
    match f {
        Pair::Seq => x.seq(y),
        Pair::Join => x.join(y),
    }
}
