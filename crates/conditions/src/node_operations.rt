//! The operations of the algebra on numbers of nodes.
ghost use Rattle.std.specs.Prelude.{◌≡◌, ◌<◌, length, IfOk, OnOk};
ghost use Rattle.algebra.specs.Basics.{lift_of};
ghost use Rattle.algebra.specs.HeldPaths.{is_named};
ghost use Rattle.conditions.specs.Conditions.{IsCanonical};
ghost use Rattle.conditions.specs.Operations.{node, each_leaf, both_leaves, sync_tree, hold, hold_partners, renamed_test, rename_tree};
ghost use Rattle.conditions.specs.Nodes.{tree_at, KeepsTrees, StandsForTree};
ghost use Rattle.conditions.specs.NodeCalls.{single_of, pair_of, AreRenamed};

use crate::calls::{Call, Pair, Single, call_one, call_two, renamed_by};
use crate::halves::Split;
use crate::rows::Item;
use crate::table::NodeTable;
use algebra::Basic;
use indexmap::IndexMap;
use paths::{Path, order};
use std::alloc::{AllocError as NoMemory, Global};
use std::cmp::Ordering;

/// Whether a renaming names the path.
fn names(pairs: &[(Path, Option<Path>)], q: &Path) -> bool
    ensures { result ≡ is_named pairs.now q.now }
{
    pairs.iter().any(|pair| pair.0.same(q))
}

impl NodeTable {
    /// Each basic changed.
    pub(crate) fn each(&mut self, f: Single, n: usize) -> Result<usize, NoMemory>
        requires { n < length self.old }
        ensures stands { IfOk result (λ r. StandsForTree self.new r (each_leaf (single_of f) (tree_at self.old n))) }
        ensures grows { KeepsTrees self.old self.new }
    {
        match self.item(n) {
            Item::Leaf(b) => Ok(self.number(call_one(f, b))),
            Item::Test(p, a, b) => {
                let call = Call::Each(f, n);
                if let Some(known) = self.remembered(&call) {
                    return Ok(known);
                }
                let held = self.each(f, a)?;
                let free = self.each(f, b)?;
                self.combine(call, &p, held, free)
            }
        }
    }

    /// The basics of two numbers joined by a call, which is told in place where `Const` is one of them or a hint tells it.
    #[inline(always)]
    pub(crate) fn pair(&mut self, f: Pair, m: usize, n: usize) -> Result<usize, NoMemory>
        requires m_there { m < length self.old }
        requires n_there { n < length self.old }
        ensures stands { IfOk result (λ r. StandsForTree self.new r (both_leaves (pair_of f) (tree_at self.old m) (tree_at self.old n))) }
        ensures grows { KeepsTrees self.old self.new }
    {
        let unit = self.number(Basic::Const);
        if m == unit {
            return Ok(n);
        }
        if n == unit {
            return Ok(m);
        }
        if let Some(known) = self.both_before(f, m, n) {
            return Ok(known);
        }
        self.both(f, m, n)
    }

    /// The basics of two numbers joined by a call. `Const` before or after the other changes nothing.
    pub(crate) fn both(&mut self, f: Pair, m: usize, n: usize) -> Result<usize, NoMemory>
        requires m_there { m < length self.old }
        requires n_there { n < length self.old }
        ensures stands { IfOk result (λ r. StandsForTree self.new r (both_leaves (pair_of f) (tree_at self.old m) (tree_at self.old n))) }
        ensures grows { KeepsTrees self.old self.new }
    {
        let unit = self.number(Basic::Const);
        if m == unit {
            return Ok(n);
        }
        if n == unit {
            return Ok(m);
        }
        if let (Some(x), Some(y)) = (self.basic_of(m), self.basic_of(n)) {
            return Ok(self.number(call_two(f, x, y)));
        }
        let call = Call::Both(f, m, n);
        if let Some(known) = self.remembered(&call) {
            return Ok(known);
        }
        match self.split(m, n) {
            Split::Leaves(x, y) => Ok(self.number(call_two(f, x, y))),
            Split::Tests(p, a, b, c, d) => {
                let held = self.both(f, a, c)?;
                let free = self.both(f, b, d)?;
                self.combine(call, &p, held, free)
            }
        }
    }

    /// The first where the path is held, else the second. Of two basics it is told in place.
    #[inline(always)]
    pub(crate) fn choice(&mut self, p: &Path, m: usize, n: usize) -> Result<usize, NoMemory>
        requires m_there { m < length self.old }
        requires n_there { n < length self.old }
        ensures stands { IfOk result (λ r. StandsForTree self.new r (hold p.now (tree_at self.old m) (tree_at self.old n))) }
        ensures grows { KeepsTrees self.old self.new }
    {
        if let (Some(_), Some(_)) = (self.basic_of(m), self.basic_of(n)) {
            return self.node(p, m, n);
        }
        self.hold(p, m, n)
    }

    /// The first where the path is held, else the second.
    pub(crate) fn hold(&mut self, p: &Path, m: usize, n: usize) -> Result<usize, NoMemory>
        requires m_there { m < length self.old }
        requires n_there { n < length self.old }
        ensures stands { IfOk result (λ r. StandsForTree self.new r (hold p.now (tree_at self.old m) (tree_at self.old n))) }
        ensures grows { KeepsTrees self.old self.new }
    {
        match self.split(m, n) {
            Split::Leaves(_, _) => self.node(p, m, n),
            Split::Tests(q, a, b, c, d) => match order(p, &q) {
                Ordering::Less => self.node(p, m, n),
                Ordering::Equal => self.node(p, a, d),
                Ordering::Greater => {
                    let call = Call::HeldOr(p.copy(), m, n);
                    if let Some(known) = self.remembered(&call) {
                        return Ok(known);
                    }
                    let held = self.hold(p, a, c)?;
                    let free = self.hold(p, b, d)?;
                    self.combine(call, &q, held, free)
                }
            },
        }
    }

    /// The node where the path is held, and elsewhere its lift.
    fn lifted(&mut self, p: &Path, n: usize) -> Result<usize, NoMemory>
        requires there { n < length self.old }
        requires canonical { IsCanonical (node p.now (tree_at self.old n) (each_leaf lift_of (tree_at self.old n))) }
        ensures stands { IfOk result (λ r. StandsForTree self.new r (node p.now (tree_at self.old n) (each_leaf lift_of (tree_at self.old n)))) }
        ensures grows { KeepsTrees self.old self.new }
    {
        let free = self.each(Single::Lift, n)?;
        self.node(p, n, free)
    }

    /// A synchronized part on the path.
    pub(crate) fn sync_at(&mut self, p: &Path, n: usize) -> Result<usize, NoMemory>
        requires { n < length self.old }
        ensures stands { IfOk result (λ r. StandsForTree self.new r (sync_tree p.now (tree_at self.old n))) }
        ensures grows { KeepsTrees self.old self.new }
    {
        match self.item(n) {
            Item::Leaf(_) => self.lifted(p, n),
            Item::Test(q, a, b) => match order(p, &q) {
                Ordering::Less => self.lifted(p, n),
                Ordering::Equal => self.lifted(p, a),
                Ordering::Greater => {
                    let call = Call::Sync(p.copy(), n);
                    if let Some(known) = self.remembered(&call) {
                        return Ok(known);
                    }
                    let held = self.sync_at(p, a)?;
                    let free = self.sync_at(p, b)?;
                    self.combine(call, &q, held, free)
                }
            },
        }
    }

    /// The first where a partner of the path is held, else the second.
    fn hold_partners(
        &mut self,
        pairs: &[(Path, Option<Path>)],
        q: &Path,
        m: usize,
        n: usize,
    ) -> Result<usize, NoMemory>
        requires m_there { m < length self.old }
        requires n_there { n < length self.old }
        ensures stands { IfOk result (λ r. StandsForTree self.new r (hold_partners pairs.now q.now (tree_at self.old m) (tree_at self.old n))) }
        ensures grows { KeepsTrees self.old self.new }
    {
        // Only the proof needs this: the number of a basic tells that the table is in order.
        let _ = self.number(Basic::Const);
        match pairs.split_first() {
            None => Ok(n),
            Some((pair, rest)) => {
                let others = self.hold_partners(rest, q, m, n)?;
                match &pair.1 {
                    Some(partner) if pair.0.same(q) => self.hold(partner, m, others),
                    _ => Ok(others),
                }
            }
        }
    }

    /// A test on a path, as a renaming tells it.
    fn renamed_test(
        &mut self,
        pairs: &[(Path, Option<Path>)],
        q: &Path,
        held: usize,
        free: usize,
    ) -> Result<usize, NoMemory>
        requires held_there { held < length self.old }
        requires free_there { free < length self.old }
        ensures stands { IfOk result (λ r. StandsForTree self.new r (renamed_test pairs.now q.now (tree_at self.old held) (tree_at self.old free))) }
        ensures grows { KeepsTrees self.old self.new }
    {
        if names(pairs, q) {
            return self.hold_partners(pairs, q, held, free);
        }
        self.hold(q, held, free)
    }

    /// Each test renamed, from the leaves on. What was renamed before is `done`.
    fn renamed_at(
        &mut self,
        pairs: &[(Path, Option<Path>)],
        done: &mut IndexMap<usize, usize>,
        n: usize,
    ) -> Result<usize, NoMemory>
        requires there { n < length self.old }
        requires done { AreRenamed self.old pairs.now done.old.entries }
        ensures stands { IfOk result (λ r. StandsForTree self.new r (rename_tree pairs.now (tree_at self.old n))) }
        ensures grows { KeepsTrees self.old self.new }
        ensures done { OnOk result (AreRenamed self.new pairs.now done.new.entries) }
    {
        match self.item(n) {
            Item::Leaf(_) => Ok(n),
            Item::Test(q, a, b) => {
                if let Some(known) = self.renamed_among(pairs, done, n) {
                    return Ok(known);
                }
                let held = self.renamed_at(pairs, done, a)?;
                let free = self.renamed_at(pairs, done, b)?;
                let renamed = self.renamed_test(pairs, &q, held, free)?;
                self.keep_renamed(pairs, done, n, renamed)?;
                Ok(renamed)
            }
        }
    }

    /// Each test renamed.
    pub(crate) fn renamed(
        &mut self,
        alloc: Global,
        pairs: &[(Path, Option<Path>)],
        n: usize,
    ) -> Result<usize, NoMemory>
        requires { n < length self.old }
        ensures stands { IfOk result (λ r. StandsForTree self.new r (rename_tree pairs.now (tree_at self.old n))) }
        ensures grows { KeepsTrees self.old self.new }
    {
        // Only the proof needs this: the number of a basic tells that the table is in order.
        let _ = self.number(Basic::Const);
        if pairs.is_empty() {
            return Ok(n);
        }
        let by = renamed_by(alloc, pairs, n)?;
        if let Some(known) = self.renamed_before(&by) {
            return Ok(known);
        }
        let mut done = IndexMap::new(alloc);
        let renamed = self.renamed_at(pairs, &mut done, n)?;
        self.remember_renamed(by, renamed)?;
        Ok(renamed)
    }
}
