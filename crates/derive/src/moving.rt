//! Derivations numbered in order of first use.
ghost use Rattle.std.specs.Prelude.{length, IfOk, OnOk};
ghost use Rattle.books.specs.Books.{AreNumbered, IsNumbered};
ghost use Rattle.books.specs.Memory.{node_of, nodes_at};
ghost use Rattle.conditions.specs.Shown.{AreAmongFirst, trees_at};
ghost use Rattle.derive.specs.Moved.{AreMoved, IsMoved};
ghost use Rattle.derive.specs.Pools.{pool_table, IsPool};

use crate::pool::Pool;
use books::Derivation;
use conditions::{Node, NodeTable};
use std::alloc::{AllocError as NoMemory, Global};

/// A derivation over nodes as one over the trees of the pool, to which they are added where they aren't there.
#[cycle(moving)]
pub(crate) fn moved(
    alloc: Global,
    pool: &mut Pool,
    table: &NodeTable,
    nodes: &[Node],
    derivation: &Derivation,
) -> Result<Derivation, NoMemory>
    requires pool { IsPool table.now pool.old }
    requires there { AreAmongFirst (length table.now) nodes.now }
    requires numbered { IsNumbered (length (trees_at table.now nodes.now)) (node_of derivation.now) }
    ensures pool { OnOk result (IsPool table.now pool.new) }
    ensures moved { IfOk result (λ d. IsMoved (trees_at table.now nodes.now) (pool_table pool.old) (pool_table pool.new) (node_of derivation.now) (node_of d)) }
{
    let lent = derivation.lent();
    let number = pool.number_of(alloc, table, &nodes[lent.number as usize])?;
    let premises = all_moved(alloc, pool, table, nodes, lent.premises)?;
    Ok(Derivation::new(lent.word, number, premises))
}

/// The same of derivations side by side.
#[cycle(moving)]
fn all_moved(
    alloc: Global,
    pool: &mut Pool,
    table: &NodeTable,
    nodes: &[Node],
    derivations: &[Derivation],
) -> Result<Vec<Derivation>, NoMemory>
    requires pool { IsPool table.now pool.old }
    requires there { AreAmongFirst (length table.now) nodes.now }
    requires numbered { AreNumbered (length (trees_at table.now nodes.now)) (nodes_at derivations.now) }
    ensures pool { OnOk result (IsPool table.now pool.new) }
    ensures moved { IfOk result (λ ds. AreMoved (trees_at table.now nodes.now) (pool_table pool.old) (pool_table pool.new) (nodes_at derivations.now) (nodes_at ds.items)) }
{
    let mut moved_so_far = Vec::new(alloc);
    let mut rest = derivations;
    'premises: while let Some((first, others)) = rest.split_first() {
        let derivation = moved(alloc, pool, table, nodes, first)?;
        moved_so_far.push(derivation)?;
        rest = others;
    }
    Ok(moved_so_far)
}
