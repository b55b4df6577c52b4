//! Equal conditional atomicities have equal numbers.

ghost use Rattle.std.specs.Prelude.{IfOk};
ghost use Rattle.algebra.specs.Values.{Keeps};

use algebra::{Algebra, Basic};
use conditions::NodeTable;
use paths::Path;
use std::alloc::{AllocError as NoMemory, Global};
use std::process::Abort;
use std::test::Fail;

/// A synchronized part on the path whose body is `Const`.
fn synchronized<G: Algebra>(alloc: Global, algebra: &mut G, p: &Path) -> Result<G::A, NoMemory>
    ensures known { IfOk result (λ r. G.IsKnown algebra.new r) }
    ensures keeps { Keeps G.IsKnown G.value algebra.old algebra.new }
{
    let body = algebra.leaf(alloc, Basic::Const)?;
    algebra.sync(alloc, p, &body)
}

/// `Const` where the path is held, else this basic.
fn const_or<G: Algebra>(
    alloc: Global,
    algebra: &mut G,
    p: &Path,
    free: Basic,
) -> Result<G::A, NoMemory>
    ensures known { IfOk result (λ r. G.IsKnown algebra.new r) }
    ensures keeps { Keeps G.IsKnown G.value algebra.old algebra.new }
{
    let held = algebra.leaf(alloc, Basic::Const)?;
    let free = algebra.leaf(alloc, free)?;
    algebra.held_or(alloc, p, &held, &free)
}

/// Whether the synchronized part and the one that is `Const` under its lock, else this basic, have equal values and numbers.
fn expect_same(
    rt: &impl Abort,
    alloc: Global,
    nodes: &mut NodeTable,
    free: Basic,
    same: bool,
) -> Result<(), Fail> {
    let lock = Path::of_root(1);
    let part = synchronized(alloc, nodes, &lock)?;
    let other = const_or(alloc, nodes, &lock, free)?;
    assert_eq!(rt; nodes.same_value(&part, &other), same);
    assert_eq!(rt; part == other, same);
    Ok(())
}

#[test]
fn equal_values_have_equal_numbers(rt: HostRuntime) -> Result<(), Fail> {
    let mut nodes = NodeTable::new(rt.alloc());
    expect_same(&rt, rt.alloc(), &mut nodes, Basic::Atomic, true)
}

#[test]
fn other_values_have_other_numbers(rt: HostRuntime) -> Result<(), Fail> {
    let mut nodes = NodeTable::new(rt.alloc());
    expect_same(&rt, rt.alloc(), &mut nodes, Basic::Mover, false)
}
