//! A table of shared nodes, and the results of calls on them.
ghost use Rattle.std.specs.Prelude.{◌≡◌, ◌<◌, ◌↔◌, [], true, length, slice_get, map, IfOk, OnOk, IfSome};
ghost use Rattle.algebra.specs.HeldPaths.{Held, has_path};
ghost use Rattle.conditions.specs.Conditions.{LeafC, cond_of, value_of, IsCanonical};
ghost use Rattle.conditions.specs.Operations.{node, below_tree, rename_tree};
ghost use Rattle.conditions.specs.Nodes.{items_of, basic_in, tree_at, item_tree, AreBefore, IsTable, KeepsTrees, StandsForTree};
ghost use Rattle.conditions.specs.Halving.{IsSplit};
ghost use Rattle.conditions.specs.Shown.{IsAmongFirst, AreAmongFirst, node_value, trees_at};
ghost use Rattle.conditions.specs.declared.calls.Call.TheVariants.{Both};
ghost use Rattle.conditions.specs.NodeCalls.{call_tree, IsResult, IsRenamed, AreRenamed, IsCombined};

use crate::calls::{Call, Pair, Renamed, hint_of, hint_of_both};
use crate::halves::Split;
use crate::rows::{HINTS, Item, Rows};
use crate::tree::Tree;
use algebra::Basic;
use indexmap::IndexMap;
use paths::Path;
use std::alloc::{AllocError as NoMemory, Global};
use std::marker::Model;

/// The number of a node of one table.
#[derive(Clone, Copy, Debug, PartialEq, Eq, Hash)]
pub struct Node(pub(crate) usize);

/// Shared nodes: each conditional atomicity has one number, and what calls gave is kept. A hint tells where a call may
/// stand among those, so that one which was made lately is found without a search.
#[derive(Drop)]
pub struct NodeTable {
    pub(crate) rows: Rows,
    calls: IndexMap<Call, usize>,
    hints: [usize; HINTS],
    renamings: IndexMap<Renamed, usize>,
}

impl Model for NodeTable {
    ghost use Rattle.std.specs.Prelude.{List};
    ghost use Rattle.conditions.specs.declared.rows.Item.{Item};
    ghost use Rattle.conditions.specs.NodeCalls.{AreResults, AreRenamings};

    ghost Value = { List Item };

    ghost view = { λ t. t.rows };

    ghost invariant = { λ t. AreResults t.rows t.calls.entries × AreRenamings t.rows t.renamings.entries };
}

impl NodeTable {
    /// A table of the five basics, which takes no memory.
    pub fn new(alloc: Global) -> NodeTable
        ensures { result ≡ items_of [] }
    {
        NodeTable {
            rows: Rows::new(alloc),
            calls: IndexMap::new(alloc),
            hints: [0; HINTS],
            renamings: IndexMap::new(alloc),
        }
    }

    /// How many nodes there are.
    pub fn count(&self) -> usize
        ensures count { result ≡ length self.now }
        ensures table { IsTable self.now }
    {
        self.rows.count()
    }

    /// The node of a basic.
    pub fn basic(&self, b: Basic) -> Node
        ensures known { IsAmongFirst (length self.now) result }
        ensures value { (H : Held) → node_value self.now result H ≡ b }
    {
        Node(self.number(b))
    }

    /// The canonical tree of a node.
    pub fn tree_of(&self, alloc: Global, a: &Node) -> Result<Tree, NoMemory>
        requires { a.now.0 < length self.now }
        ensures tree { IfOk result (λ t. cond_of t ≡ tree_at self.now a.now.0) }
        ensures canonical { IfOk result (λ t. IsCanonical (cond_of t)) }
        ensures value { IfOk result (λ t. (H : Held) → value_of (cond_of t) H ≡ value_of (tree_at self.now a.now.0) H) }
    {
        // Only the proof needs this: the count tells that the table is in order.
        let _count = self.rows.count();
        self.rows.tree(alloc, a.0)
    }

    /// The canonical trees of nodes.
    pub fn trees_of(&self, alloc: Global, nodes: &[Node]) -> Result<Vec<Tree>, NoMemory>
        requires { AreAmongFirst (length self.now) nodes.now }
        ensures trees { IfOk result (λ trees. map cond_of trees.items ≡ trees_at self.now nodes.now) }
        ensures table { IsTable self.now }
    {
        // Only the proof needs this: the count tells that the table is in order.
        let _count = self.rows.count();
        let mut trees = Vec::with_capacity(alloc, nodes.len())?;
        for node in nodes {
            trees.push(self.tree_of(alloc, node)?)?;
        }
        Ok(trees)
    }

    /// Whether two nodes have the same basic at every set of held paths: exactly where they are one.
    pub fn same_value(&self, a: &Node, b: &Node) -> bool
        requires a_known { a.now.0 < length self.now }
        requires b_known { b.now.0 < length self.now }
        ensures value { (result ≡ true) ↔ ((H : Held) → value_of (tree_at self.now a.now.0) H ≡ value_of (tree_at self.now b.now.0) H) }
        ensures number { (result ≡ true) ↔ (a.now ≡ b.now) }
    {
        // Only the proof needs this: the count tells that the table is in order.
        let _count = self.rows.count();
        a == b
    }

    /// The number of a basic.
    pub(crate) fn number(&self, b: Basic) -> usize
        ensures stands { StandsForTree self.now result (LeafC b) }
        ensures table { IsTable self.now }
    {
        // Only the proof needs this: the count tells that the table is in order.
        let _count = self.rows.count();
        self.rows.leaf(b)
    }

    /// The basic that a number stands for, where it is one.
    pub(crate) fn basic_of(&self, n: usize) -> Option<Basic>
        ensures basic { IfSome result (λ b. tree_at self.now n ≡ LeafC b) }
        ensures exact { result ≡ basic_in (slice_get self.now n) }
        ensures table { IsTable self.now }
    {
        self.rows.basic_of(n)
    }

    /// What a number stands for.
    pub(crate) fn item(&self, n: usize) -> Item
        requires { n < length self.now }
        ensures tree { tree_at self.now n ≡ item_tree self.now result }
        ensures before { AreBefore n result }
        ensures table { IsTable self.now }
    {
        self.rows.item(n)
    }

    /// The basics of two numbers, or their parts by the smaller of the paths at their roots.
    pub(crate) fn split(&self, m: usize, n: usize) -> Split
        requires m_there { m < length self.now }
        requires n_there { n < length self.now }
        ensures split { IsSplit self.now m n result }
        ensures table { IsTable self.now }
    {
        self.rows.split(m, n)
    }

    /// Whether the first is at most the second at every set.
    pub(crate) fn below_at(&self, m: usize, n: usize) -> bool
        requires m_there { m < length self.now }
        requires n_there { n < length self.now }
        ensures below { result ≡ below_tree (tree_at self.now m) (tree_at self.now n) }
        ensures table { IsTable self.now }
    {
        // Only the proof needs this: the count tells that the table is in order.
        let _count = self.rows.count();
        self.rows.below(m, n)
    }

    /// The basic at the set of these paths.
    pub(crate) fn basic_at(&self, n: usize, held: &[Path]) -> Basic
        requires { n < length self.now }
        ensures { result ≡ value_of (tree_at self.now n) (has_path held.now) }
    {
        self.rows.at(n, held)
    }

    /// The number of a test, or of both its parts where they are one.
    pub(crate) fn node(&mut self, p: &Path, held: usize, free: usize) -> Result<usize, NoMemory>
        requires held_there { held < length self.old }
        requires free_there { free < length self.old }
        requires canonical { IsCanonical (node p.now (tree_at self.old held) (tree_at self.old free)) }
        ensures stands { IfOk result (λ n. StandsForTree self.new n (node p.now (tree_at self.old held) (tree_at self.old free))) }
        ensures grows { KeepsTrees self.old self.new }
    {
        self.rows.node(p, held, free)
    }

    /// What the call gave, where that is kept.
    pub(crate) fn remembered(&self, call: &Call) -> Option<usize>
        ensures { IfSome result (λ n. IsResult self.now call.now n) }
    {
        if let Some((known, n)) = self.calls.get_index(self.hints[hint_of(call)]) {
            if known == call {
                return Some(*n);
            }
        }
        self.calls.get(call).copied()
    }

    /// What a call of two basics gave, where a hint tells it.
    #[inline(always)]
    pub(crate) fn both_before(&self, f: Pair, m: usize, n: usize) -> Option<usize>
        ensures { IfSome result (λ r. IsResult self.now (Both f m n) r) }
    {
        match self.calls.get_index(self.hints[hint_of_both(f, m, n)]) {
            Some((Call::Both(g, a, b), known)) if *g == f && *a == m && *b == n => Some(*known),
            _ => None,
        }
    }

    /// Keeps what a call gave.
    fn remember(&mut self, call: Call, n: usize) -> Result<(), NoMemory>
        requires { IsResult self.old call n }
        ensures { self.new ≡ self.old }
    {
        let hint = hint_of(&call);
        let (at, _) = self.calls.insert_full(call, n)?;
        self.hints[hint] = at;
        Ok(())
    }

    /// What renaming gave, where that is kept.
    pub(crate) fn renamed_before(&self, by: &Renamed) -> Option<usize>
        ensures { IfSome result (λ n. IsRenamed self.now by.now.pairs.items by.now.node n) }
    {
        self.renamings.get(by).copied()
    }

    /// Keeps what renaming gave.
    pub(crate) fn remember_renamed(&mut self, by: Renamed, n: usize) -> Result<(), NoMemory>
        requires { IsRenamed self.old by.pairs.items by.node n }
        ensures { self.new ≡ self.old }
    {
        self.renamings.insert(by, n)?;
        Ok(())
    }

    /// What renaming a number gave, where that is among these.
    pub(crate) fn renamed_among(
        &self,
        pairs: &[(Path, Option<Path>)],
        done: &IndexMap<usize, usize>,
        n: usize,
    ) -> Option<usize>
        requires { AreRenamed self.now pairs.now done.now.entries }
        ensures { IfSome result (λ r. StandsForTree self.now r (rename_tree pairs.now (tree_at self.now n))) }
    {
        // Only the proof needs this: the count tells that the table is in order.
        let _count = self.rows.count();
        done.get(&n).copied()
    }

    /// Adds what renaming a number gave.
    pub(crate) fn keep_renamed(
        &self,
        pairs: &[(Path, Option<Path>)],
        done: &mut IndexMap<usize, usize>,
        n: usize,
        renamed: usize,
    ) -> Result<(), NoMemory>
        requires done { AreRenamed self.now pairs.now done.old.entries }
        requires there { n < length self.now }
        requires stands { StandsForTree self.now renamed (rename_tree pairs.now (tree_at self.now n)) }
        ensures { OnOk result (AreRenamed self.now pairs.now done.new.entries) }
    {
        // Only the proof needs the pairs: the clauses say what was renamed by them.
        let _pairs = pairs;
        done.insert(n, renamed)?;
        Ok(())
    }

    /// The result of a call from its parts where a path is held, and where it isn't. It is kept.
    pub(crate) fn combine(
        &mut self,
        call: Call,
        p: &Path,
        held: usize,
        free: usize,
    ) -> Result<usize, NoMemory>
        requires { IsCombined self.old call p.now held free }
        ensures stands { IfOk result (λ n. StandsForTree self.new n (call_tree self.old call)) }
        ensures grows { KeepsTrees self.old self.new }
    {
        let n = self.node(p, held, free)?;
        self.remember(call, n)?;
        Ok(n)
    }
}
