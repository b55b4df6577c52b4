//! Trees, each once, in order of first use.
ghost use Rattle.std.specs.Prelude.{◌≡◌, ◌^◌, [], true, length, nat_lt, IfOk, OnOk};
ghost use Rattle.std.specs.List.{list_all};
ghost use Rattle.conditions.specs.Conditions.{cond_of};
ghost use Rattle.conditions.specs.Nodes.{Items};
ghost use Rattle.conditions.specs.Shown.{IsAmongFirst, node_tree};
ghost use Rattle.books.specs.Books.{IsPath};
ghost use Rattle.derive.specs.Pools.{pool_table, IsAtMost, IsNumberIn, IsPool};

use conditions::{Node, NodeTable, Tree};
use indexmap::IndexSet;
use paths::{FieldId, Path};
use std::alloc::{AllocError as NoMemory, Global};

/// How many tests a tree of a table has within each other, at most; and one more.
const BEYOND_HEIGHT: u32 = 65;

/// Where the range of 32 bits ends.
const NUMBERS_END: u64 = 1 << 32;

/// Trees, each once, in order of first use, and the nodes by which they are found.
#[derive(Drop)]
pub(crate) struct Pool {
    pub(crate) trees: Vec<Tree>,
    pub(crate) nodes: IndexSet<Node>,
}

/// Whether all numbers fit 32 bits, as they do.
fn fields_fit(fields: &[FieldId]) -> bool
    ensures { result ≡ list_all (λ f. nat_lt f (2 ^ 32)) fields.now }
{
    fields.iter().all(|field| (field.0 as u64) < NUMBERS_END)
}

/// Whether a path can be written.
fn path_fits(path: &Path) -> bool
    ensures only { result ≡ true → IsPath path.now }
    ensures all { IsPath path.now → result ≡ true }
{
    // Only the proof needs this: that a slot's number fits 16 bits is known where the slot is read.
    let _root = path.root;
    fields_fit(path.fields.as_slice())
}

/// Whether a tree has fewer than `room` tests within each other, on paths that can be written.
fn fits(t: &Tree, room: u32) -> bool
    ensures only { result ≡ true → IsAtMost room (cond_of t.now) }
    ensures all { IsAtMost room (cond_of t.now) → result ≡ true }
{
    if room == 0 {
        return false;
    }
    match t {
        Tree::Leaf(_) => true,
        Tree::Test(path, a, b) => path_fits(path) && fits(a, room - 1) && fits(b, room - 1),
    }
}

impl Pool {
    /// No trees.
    pub(crate) fn new(alloc: Global) -> Pool
        ensures pool { (is : Items) → IsPool is result }
        ensures none { pool_table result ≡ [] }
    {
        Pool {
            trees: Vec::new(alloc),
            nodes: IndexSet::new(alloc),
        }
    }

    /// The number of a node's tree, which is added where it isn't there. Want of memory is also the answer to a tree with more than 64
    /// tests within each other, and where no number is left.
    pub(crate) fn number_of(
        &mut self,
        alloc: Global,
        table: &NodeTable,
        node: &Node,
    ) -> Result<u32, NoMemory>
        requires pool { IsPool table.now self.old }
        requires known { IsAmongFirst (length table.now) node.now }
        ensures pool { OnOk result (IsPool table.now self.new) }
        ensures number { IfOk result (λ n. IsNumberIn (pool_table self.old) (node_tree table.now node.now) n (pool_table self.new)) }
    {
        let number = self.trees.len();
        if number >= u32::MAX as usize {
            return Err(NoMemory);
        }
        // Only the proof needs this: the count tells that the table is in order.
        let _count = table.count();
        let (place, is_new) = self.nodes.insert_full(*node)?;
        if !is_new {
            return Ok(place as u32);
        }
        let tree = table.tree_of(alloc, node)?;
        if !fits(&tree, BEYOND_HEIGHT) {
            return Err(NoMemory);
        }
        self.trees.push(tree)?;
        Ok(number as u32)
    }
}
